// Judging a schema judges its clauses, and judging a clause judges schemas again: `apply`,
// `judge_pair` and `judge_clause` in a cycle. Whatever applies a pair reads its cell first. Each round
// goes down in the record or along an unguarded chain: the rank of a pair is levels left x 33 + its
// schema's longest unguarded chain.
//
// Most pairs have tests only, and the row's own words tell that it passes them: such a pair is settled
// where it is applied, and no frame is made for it. Those that a clause applies first and in a line, one
// schema to one row after the other, are settled at once (`in_line`). The root is judged by
// `run::judge_root`, so that `judge_pair` has two callers and `apply` becomes part of `judge_clause`.
//
// 1,024 pairs can be open at once, so an open pair keeps little: both sheets, their texts and their forms
// lie behind one address, and what is read of them is read in `lent`, `trying`, `stepping` and `marking`,
// where no pair is open.
//
// One cycle serves both calls: whether judging goes on after a failure, in whole, or stops, cut, is
// asked of `lent::next_clause` and `stepping::next_step`, so both loops go by a step that is worked out.
//
// The contracts cite `specs/State.antt` of `progress`, and of what is lent `specs/Lent.antt` and
// `specs/Reads.antt` of `lent`.
ghost use Rattle.std.specs.Prelude.{◌≡◌, ◌+◌, ◌<◌};
ghost use Rattle.rulesheet.specs.Sheet.{schema_at};
ghost use Rattle.areas.specs.Cells.{pair_is, Unsettled};
ghost use Rattle.lent.specs.Lent.{PassesFirst, Applying};
ghost use Rattle.lent.specs.Reads.{lent_case, row_of};
ghost use Rattle.progress.specs.State.{Named, rank_of, Ready, Judged, ClauseJudged};

use areas::settle;
use few::applies;
use lent::{Lent, next_clause};
use lines::in_line;
use marking::{give, shut, verdict_of};
use progress::Done;
use rulesheet::form::ClauseRow;
use sheet::record::{Pair, wide};
use stepping::{finish, moved, next_step, start, turn};
use trying::{holds, plain};

// Applies a pair: its cell answers if it is settled, and else it is judged. The answer is how many
// pairs are settled then.
#[cycle(apply_judge_clause_judge_pair)]
fn apply(lent: &Lent<'_>, cells: &mut [u8], list: &mut [u32], count: usize, p: Pair) -> usize
    requires ready { Ready (lent_case lent.now) (rank_of (lent_case lent.now) (pair_is p) + 1) (pair_is p) cells.old list.old count }
    ensures { Judged (lent_case lent.now) (pair_is p) cells.old list.old count cells.new list.new result }
{
    if verdict_of(lent, cells, p) != 0 {
        return count;
    }
    let many = lent.clauses_of(p.rule);
    let passed = plain(lent, cells, p, many);
    if passed == many {
        return settle(cells, list, lent.schemas(), p, true, count);
    }
    judge_pair(lent, cells, list, count, p, passed)
}

// Judges the clauses of a pair that is not settled, of which the first `passed` are tests that its row
// passes, and settles it.
#[cycle(apply_judge_clause_judge_pair)]
pub fn judge_pair(
    lent: &Lent<'_>,
    cells: &mut [u8],
    list: &mut [u32],
    count: usize,
    p: Pair,
    passed: u32,
) -> usize
    requires ready { Ready (lent_case lent.now) (rank_of (lent_case lent.now) (pair_is p) + 1) (pair_is p) cells.old list.old count }
    requires unsettled { Unsettled (lent_case lent.now).m (pair_is p) cells.old }
    requires passes_first { PassesFirst (lent_case lent.now) (pair_is p) (schema_at lent.now.rules.now p.rule.0).count passed }
    ensures { Judged (lent_case lent.now) (pair_is p) cells.old list.old count cells.new list.new result }
{
    let many = lent.clauses_of(p.rule);
    let mut ok = true;
    let mut now = count;
    let mut i = passed;
    while i < many {
        let row = lent.clause_row(p, i);
        if applies(row) {
            let d = judge_clause(lent, cells, list, now, p, i, row);
            now = d.count;
            ok = ok & d.ok;
        } else {
            ok = ok & holds(lent, cells, p, i);
        }
        i = next_clause(lent.cut, many, i, ok);
    }
    shut(lent, cells, p, ok);
    settle(cells, list, lent.schemas(), p, ok, now)
}

// Judges clause i of a pair that is not settled, which applies schemas and has the words `row`: one pair
// after the other.
#[cycle(apply_judge_clause_judge_pair)]
fn judge_clause(
    lent: &Lent<'_>,
    cells: &mut [u8],
    list: &mut [u32],
    count: usize,
    p: Pair,
    i: u32,
    row: ClauseRow,
) -> Done
    requires ready { Ready (lent_case lent.now) (rank_of (lent_case lent.now) (pair_is p)) (pair_is p) cells.old list.old count }
    requires unsettled { Unsettled (lent_case lent.now).m (pair_is p) cells.old }
    requires i_bound { (i < (schema_at lent.now.rules.now p.rule.0).count) × Applying (lent_case lent.now) (pair_is p) i × Named (lent_case lent.now) (pair_is p) i cells.old }
    requires row_value { row ≡ row_of lent.now (pair_is p) i }
    ensures { ClauseJudged (lent_case lent.now) (pair_is p) i cells.old list.old count cells.new list.new result }
{
    let from = start(lent, p, i);
    let mut tally = 0;
    let mut x = in_line(lent, cells, list, count, p, i, row, from);
    let mut now = count + wide(x);
    while let Some(at) = turn(lent, cells, p, i, row, from, x, tally) {
        now = apply(lent, cells, list, now, at.pair);
        let held = verdict_of(lent, cells, at.pair) == 1;
        tally = moved(at.counts, at.step, tally, held);
        give(lent, cells, p, at.pair, at.counts.keeps(held));
        x = next_step(lent, p, i, row, at.step, tally);
    }
    Done {
        ok: finish(lent, p, i, row, tally),
        count: now,
    }
}
