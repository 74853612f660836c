// The tests that a row's own words tell, tried before anything else is done for a pair. Most clauses
// are passed here, in one loop that calls nothing: where an exact test would count many characters or
// divide by a power of ten, the answer is left open. Whoever tries the clauses of a pair must show that
// its cell is unsettled (`plainly_passed`); what asks less is private to this crate.
//
// The contracts cite how clauses are read and tried (`specs/Read.antt` of `clause`).
#![tactic(auto)]

ghost use Rattle.std.specs.Prelude.{true, List, ◌≡◌, ℕ, ◌<◌};
ghost use Rattle.decimal.specs.declared.Decimal.{Decimal};
ghost use Rattle.decimal.specs.Value.{Plain};
ghost use Rattle.sheet.specs.Record.{doc_of};
ghost use Rattle.rulesheet.specs.Sheet.{schema_at};
ghost use Rattle.rulesheet.specs.Clauses.{clause_means, number, held};
ghost use Rattle.areas.specs.Cells.{pair_is, Unsettled};
ghost use Rattle.looking.specs.Read.{RecordRead};
ghost use Rattle.clause.specs.Read.{RulesRead, clause_in, Tries, PassedFirst};

use few::plain_of;
use looking::numbers::number_in;
use looking::sizes::{elements_of, members_of, string_in};
use rulesheet::clause::Clause;
use rulesheet::form::{RuleForm, schema_at};
use sheet::record::{Pair, RecordForm, RecordRow, kind_of};
use testing::bounds::{
    plainly_exclusive_maximum, plainly_exclusive_minimum, plainly_maximum, plainly_minimum,
};
use testing::sizes::{FEW, at_least, at_most, few_bytes, few_characters};
use testing::types::plainly_typed;

// Whether the row's own words tell that it passes the clause. A yes is one; a no leaves it open.
fn plainly(record: &[u32], text: &[u8], form: RecordForm, row: RecordRow, clause: Clause) -> bool
    requires record_read { RecordRead «record».now text.now form × (row.0 < form.rows) }
    requires plain { (limit : Decimal) → held clause ≡ number limit → Plain limit }
    ensures { result ≡ true → (rs us : List ℕ) → Tries (doc_of «record».now text.now) row.0 (clause_means rs us clause) true }
{
    match clause {
        Clause::Types(mask) => plainly_typed(
            number_in(record, form, row),
            kind_of(record, form, row),
            mask,
        ),
        Clause::Minimum(limit) => { plainly_minimum(number_in(record, form, row), limit) }
        Clause::Maximum(limit) => { plainly_maximum(number_in(record, form, row), limit) }
        Clause::ExclusiveMinimum(limit) => {
            plainly_exclusive_minimum(number_in(record, form, row), limit)
        }
        Clause::ExclusiveMaximum(limit) => {
            plainly_exclusive_maximum(number_in(record, form, row), limit)
        }
        Clause::MinLength(k) => (k <= FEW) && few_characters(text, string_in(record, form, row), k),
        Clause::MaxLength(k) => few_bytes(string_in(record, form, row), k),
        Clause::MinItems(k) => at_least(elements_of(record, form, row), k),
        Clause::MaxItems(k) => at_most(elements_of(record, form, row), k),
        Clause::MinProperties(k) => at_least(members_of(record, form, row), k),
        Clause::MaxProperties(k) => at_most(members_of(record, form, row), k),
        _ => false,
    }
}

// How many of the first `many` clauses of the pair's schema the row's own words tell to be passed.
// The cells must show the pair unsettled: no test of a settled pair is judged again.
pub fn plainly_passed<'a>(
    record: &[u32],
    text: &'a [u8],
    form: RecordForm,
    rules: &[u32],
    rule_text: &'a [u8],
    rule_form: RuleForm,
    cells: &[u8],
    p: Pair,
    many: u32,
) -> u32
    requires record_read { RecordRead «record».now text.now form × (p.row.0 < form.rows) }
    requires rules_read { RulesRead rules.now rule_text.now rule_form × (p.rule.0 < rule_form.m) × (many ≡ (schema_at rules.now p.rule.0).count) }
    requires unsettled { Unsettled rule_form.m (pair_is p) cells.now }
    ensures { PassedFirst (doc_of «record».now text.now) p.row.0 (clause_in rules.now rule_text.now p.rule.0) many result }
{
    let first = schema_at(rules, rule_form, p.rule).first;
    for i in 0..many {
        let clause = plain_of(rules, rule_form, first + i);
        if !plainly(record, text, form, p.row, clause) {
            return i;
        }
    }
    many
}
