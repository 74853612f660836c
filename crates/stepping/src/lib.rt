// The steps of a pair's clause where both sheets are lent: what the clauses before tell it, which of its
// first steps stand in a line, where it stands, what is carried on, which step is next, and what it says
// in the end. No pair is open here, so what these functions keep costs no stack.
//
// The contracts cite `specs/Lent.antt` and `specs/Reads.antt` of `lent`.
#![tactic(auto)]

ghost use Rattle.std.specs.Prelude.{◌≡◌, ◌+◌, ◌≤◌, ◌<◌};
ghost use Rattle.areas.specs.Cells.{pair_is};
ghost use Rattle.plan.specs.Plan as P;
ghost use Rattle.told.specs.Read.{Started};
ghost use Rattle.line.specs.Lines.{InLine};
ghost use Rattle.steps.specs.Turns.{is_hits, is_branches};
ghost use Rattle.lent.specs.Lent.{clause_at, before_of, Applying, Turns, TurnsTo, finish_at, next_at};
ghost use Rattle.lent.specs.Reads.{lent_case, row_of, ReadsClause};

use finish::{after_miss, finish_of};
use lent::{Lent, goes_on};
use line::{Line, line_of};
use rulesheet::form::ClauseRow;
use sheet::record::Pair;
use steps::turn::{Counts, Turn, turn_of};
use told::start_of;

// What the clauses before clause i of the pair's schema tell it.
pub fn start(lent: &Lent<'_>, p: Pair, i: u32) -> u32
    requires { ReadsClause lent.now (pair_is p) i }
    ensures { Started (before_of (lent_case lent.now) (pair_is p) i) (clause_at (lent_case lent.now) (pair_is p) i) result }
{
    start_of(lent.rules, lent.rule_text, lent.rule_form, p.rule, i)
}

// Which of its first steps stand in a line.
pub fn line(lent: &Lent<'_>, p: Pair, i: u32, row: ClauseRow, from: u32) -> Line
    requires reads_clause { ReadsClause lent.now (pair_is p) i × (row ≡ row_of lent.now (pair_is p) i) }
    requires started { Started (before_of (lent_case lent.now) (pair_is p) i) (clause_at (lent_case lent.now) (pair_is p) i) from }
    ensures in_line { InLine (lent_case lent.now).doc (pair_is p) (before_of (lent_case lent.now) (pair_is p) i) (clause_at (lent_case lent.now) (pair_is p) i) result.first result.count result.rule.0 }
    ensures rows_inside { result.first + result.count ≤ (lent_case lent.now).n }
{
    line_of(lent.record, lent.form, p, i, row, from)
}

// Where clause i of the pair stands once its first x steps are taken and `tally` is carried.
pub fn turn(
    lent: &Lent<'_>,
    cells: &[u8],
    p: Pair,
    i: u32,
    row: ClauseRow,
    from: u32,
    x: u32,
    tally: u32,
) -> Option<Turn>
    requires reads_clause { ReadsClause lent.now (pair_is p) i × (row ≡ row_of lent.now (pair_is p) i) }
    requires turns { Turns (lent_case lent.now) (pair_is p) i from x cells.now }
    ensures { TurnsTo (lent_case lent.now) (pair_is p) i x tally cells.now result }
{
    turn_of(
        lent.record,
        lent.text,
        lent.form,
        lent.rules,
        lent.rule_text,
        lent.rule_form,
        cells,
        p,
        i,
        row,
        from,
        x,
        tally,
    )
}

// What is carried after step `step`, where `tally` was carried to it: one more step that holds, or
// that fails; of a condition and its branches which of them failed.
pub fn moved(counts: Counts, step: u32, tally: u32, held: bool) -> u32
    requires { tally < 4294967295 }
    ensures { result ≡ P.moved (is_hits counts) (is_branches counts) step tally held }
{
    match counts {
        Counts::Hits => if held { tally + 1 } else { tally },
        Counts::Misses => if held { tally } else { tally + 1 },
        Counts::Branches => {
            if held {
                tally
            } else if step == 0 {
                1
            } else {
                2
            }
        }
    }
}

// The step of clause i of the pair after one of its steps, where `tally` is carried: none of allOf is
// left if judging stops.
pub fn next_step(lent: &Lent<'_>, p: Pair, i: u32, row: ClauseRow, step: u32, tally: u32) -> u32
    requires { ReadsClause lent.now (pair_is p) i × (row ≡ row_of lent.now (pair_is p) i) × (step < 4294967295) }
    ensures { result ≡ next_at (lent_case lent.now) (pair_is p) i step tally }
{
    if goes_on(lent.cut, tally == 0) {
        return step + 1;
    }
    after_miss(
        lent.rules,
        lent.rule_text,
        lent.rule_form,
        p.rule,
        i,
        row,
        step,
    )
}

// Whether clause i of the pair, which applies schemas, holds where `tally` is carried in the end.
pub fn finish(lent: &Lent<'_>, p: Pair, i: u32, row: ClauseRow, tally: u32) -> bool
    requires { ReadsClause lent.now (pair_is p) i × (row ≡ row_of lent.now (pair_is p) i) × Applying (lent_case lent.now) (pair_is p) i }
    ensures { result ≡ finish_at (lent_case lent.now) (pair_is p) i tally }
{
    finish_of(
        lent.record,
        lent.form,
        lent.rules,
        lent.rule_text,
        lent.rule_form,
        p,
        i,
        row,
        tally,
    )
}
