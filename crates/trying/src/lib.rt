// A pair's tests, tried where both sheets are lent: one of them, the first ones, and those of many rows
// in a line. No pair is open here, so what these functions keep costs no stack.
//
// The contracts cite `specs/Lent.antt` and `specs/Reads.antt` of `lent`.
#![tactic(auto)]

ghost use Rattle.std.specs.Prelude.{◌≡◌, ℕ, ◌+◌, ◌*◌, ◌≤◌, ◌<◌, length};
ghost use Rattle.rulesheet.specs.Sheet.{schema_at};
ghost use Rattle.areas.specs.Cells.{pair_is, cell_at, Unsettled};
ghost use Rattle.rulesheet.specs.Ruleset.{Test, asserts};
ghost use Rattle.meaning.specs.Rules.{passes};
ghost use Rattle.rows.specs.Firsts.{FirstRows};
ghost use Rattle.lent.specs.Lent.{pair, InCase, RowsPass, clause_at, PassesFirst};
ghost use Rattle.lent.specs.Reads.{lent_case, ReadsClause};

use clause::test::passes_clause;
use lent::Lent;
use plain::plainly_passed;
use rows::rows_passed;
use sheet::record::{Pair, RecordRow};

// How many of the first clauses of the pair's schema, which has `many`, are tests that its row's own
// words tell it to pass.
pub fn plain(lent: &Lent<'_>, cells: &[u8], p: Pair, many: u32) -> u32
    requires reads_all_clauses { InCase (lent_case lent.now) (pair_is p) × (many ≡ (schema_at lent.now.rules.now p.rule.0).count) }
    requires unsettled { Unsettled (lent_case lent.now).m (pair_is p) cells.now }
    ensures { PassesFirst (lent_case lent.now) (pair_is p) many result }
{
    plainly_passed(
        lent.record,
        lent.text,
        lent.form,
        lent.rules,
        lent.rule_text,
        lent.rule_form,
        cells,
        p,
        many,
    )
}

// How many of the n rows from q's on are not settled by q's schema, one after the other.
fn unsettled_rows(cells: &[u8], m: usize, q: Pair, n: u32) -> u32
    requires n_bound { (q.row.0 + n < 4294967296) × (length cells.now < 4294967296) }
    requires by_index { (k : ℕ) → k < n → cell_at m (pair (q.row.0 + k) q.rule.0) < length cells.now }
    ensures { FirstRows q.row.0 n result (λ j. Unsettled m (pair j q.rule.0) cells.now) }
{
    for k in 0..n {
        let row = RecordRow(q.row.0 + k);
        if areas::verdict_of(cells, m, Pair { row, ..q }) != 0 {
            return k;
        }
    }
    n
}

// How many of the n rows from q's on are not settled by q's schema and pass all its clauses, as their
// own words tell, one after the other.
pub fn plain_rows(lent: &Lent<'_>, cells: &[u8], q: Pair, n: u32) -> u32
    requires rows_inside { (q.row.0 + n ≤ (lent_case lent.now).n) × (q.rule.0 < (lent_case lent.now).m) }
    requires table_in_cells { ((lent_case lent.now).n * (lent_case lent.now).m ≤ length cells.now) × (length cells.now < 4294967296) }
    ensures { (result ≤ n) × RowsPass (lent_case lent.now) (pair_is q) (schema_at lent.now.rules.now q.rule.0).count result cells.now }
{
    let many = lent.clauses_of(q.rule);
    let open = unsettled_rows(cells, lent.schemas(), q, n);
    rows_passed(
        lent.record,
        lent.text,
        lent.form,
        lent.rules,
        lent.rule_text,
        lent.rule_form,
        cells,
        q,
        open,
        many,
    )
}

// Whether the pair's row passes clause i of its schema, which is a test. What it needs of the stack is kept
// out of the frame of an open pair.
#[inline(never)]
pub fn holds(lent: &Lent<'_>, cells: &[u8], p: Pair, i: u32) -> bool
    requires reads_clause { ReadsClause lent.now (pair_is p) i }
    requires unsettled { Unsettled (lent_case lent.now).m (pair_is p) cells.now }
    ensures { (t : Test) → clause_at (lent_case lent.now) (pair_is p) i ≡ asserts t → result ≡ passes (lent_case lent.now).doc p.row.0 t }
{
    passes_clause(
        lent.record,
        lent.text,
        lent.form,
        lent.rules,
        lent.rule_text,
        lent.rule_form,
        cells,
        p,
        i,
    )
}
