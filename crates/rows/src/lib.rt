// Many rows that stand one after the other, tested by one schema, a clause at a time: a clause is read
// once for all of them, and each keyword's loop does nothing but its own test: `first_rows` is compiled
// anew for each. As in `plain`, the answer is left open where a row's own words do not tell it. Whoever
// tries rows must show that their cells are unsettled (`rows_passed`); what asks less is private to this
// crate.
//
// The contracts cite how clauses are read and tried (`specs/Read.antt` of `clause`) and
// `specs/Firsts.antt`.
#![tactic(auto)]

ghost use Rattle.std.specs.Prelude.{true, List, ◌≡◌, ℕ, ◌+◌, ◌^◌, ◌≤◌, ◌<◌};
ghost use Rattle.decimal.specs.declared.Decimal.{Decimal};
ghost use Rattle.decimal.specs.Value.{Plain};
ghost use Rattle.sheet.specs.Record.{doc_of};
ghost use Rattle.rulesheet.specs.Sheet.{schema_at};
ghost use Rattle.rulesheet.specs.Clauses.{clause_means, number, held};
ghost use Rattle.areas.specs.Cells.{Unsettled};
ghost use Rattle.looking.specs.Read.{RecordRead};
ghost use Rattle.clause.specs.Read.{RulesRead, clause_in, Tries, PassedFirst};
ghost use Rattle.rows.specs.Firsts.{FirstRows, Passing};

use few::plain_of;
use looking::numbers::number_in;
use looking::sizes::string_in;
use rulesheet::clause::Clause;
use rulesheet::form::{RuleForm, schema_at};
use sheet::record::{Pair, RecordForm, RecordRow, kind_of};
use testing::bounds::{plainly_maximum, plainly_minimum};
use testing::sizes::{FEW, few_bytes, few_characters};
use testing::types::plainly_typed;

// How many of the first n rows from `row` on pass the test: those before the first that does not.
fn first_rows<F: Fn(RecordRow) -> bool>(row: RecordRow, n: u32, test: F) -> u32
    requires rows_numbered { row.0 + n < 2 ^ 32 }
    requires callable { (at : RecordRow) → row.0 ≤ at.0 → at.0 < row.0 + n → F.pre test at }
    ensures { FirstRows row.0 n result (Passing (F.post test)) }
{
    for k in 0..n {
        if !test(RecordRow(row.0 + k)) {
            return k;
        }
    }
    n
}

// How many of the first n rows from `row` on pass the clause, as far as their own words tell. No
// string is looked at where more than a few characters are asked for.
fn rows_pass(
    record: &[u32],
    text: &[u8],
    form: RecordForm,
    row: RecordRow,
    n: u32,
    clause: Clause,
) -> u32
    requires record_read { RecordRead «record».now text.now form × (row.0 + n ≤ form.rows) }
    requires plain { (limit : Decimal) → held clause ≡ number limit → Plain limit }
    ensures { FirstRows row.0 n result (λ j. (rs us : List ℕ) → Tries (doc_of «record».now text.now) j (clause_means rs us clause) true) }
{
    match clause {
        Clause::Types(mask) => first_rows(row, n, |at| {
            plainly_typed(number_in(record, form, at), kind_of(record, form, at), mask)
        }),
        Clause::Minimum(limit) => first_rows(row, n, |at| {
            plainly_minimum(number_in(record, form, at), limit)
        }),
        Clause::Maximum(limit) => first_rows(row, n, |at| {
            plainly_maximum(number_in(record, form, at), limit)
        }),
        Clause::MinLength(least) => if least <= FEW {
            first_rows(
                row,
                n,
                |at| few_characters(text, string_in(record, form, at), least),
            )
        } else {
            0
        },
        Clause::MaxLength(most) => first_rows(row, n, |at| {
            few_bytes(string_in(record, form, at), most)
        }),
        _ => 0,
    }
}

// How many of the first n rows from the pair's row on pass all clauses of its schema, as far as their
// own words tell. The cells must show these pairs unsettled: no test of a settled pair is judged again.
pub fn rows_passed<'a>(
    record: &[u32],
    text: &'a [u8],
    form: RecordForm,
    rules: &[u32],
    rule_text: &'a [u8],
    rule_form: RuleForm,
    cells: &[u8],
    p: Pair,
    n: u32,
    many: u32,
) -> u32
    requires record_read { RecordRead «record».now text.now form × (p.row.0 + n ≤ form.rows) }
    requires rules_read { RulesRead rules.now rule_text.now rule_form × (p.rule.0 < rule_form.m) × (many ≡ (schema_at rules.now p.rule.0).count) }
    requires rows_unsettled { (k : ℕ) → k < n → Unsettled rule_form.m (record { row = p.row.0 + k; rule = p.rule.0 }) cells.now }
    ensures { FirstRows p.row.0 n result (λ j. PassedFirst (doc_of «record».now text.now) j (clause_in rules.now rule_text.now p.rule.0) many many) }
{
    let first = schema_at(rules, rule_form, p.rule).first;
    let mut left = n;
    for i in 0..many {
        let clause = plain_of(rules, rule_form, first + i);
        left = rows_pass(record, text, form, p.row, left, clause);
    }
    left
}
