// A clause that asserts something of a row's value, by its keyword.
ghost use Rattle.std.specs.Prelude.{◌≡◌, ◌<◌};
ghost use Rattle.sheet.specs.Record.{doc_of};
ghost use Rattle.rulesheet.specs.Ruleset.{Test, asserts};
ghost use Rattle.rulesheet.specs.Sheet.{schema_at};
ghost use Rattle.rulesheet.specs.Clauses.{clause_means, Tested};
ghost use Rattle.meaning.specs.Rules.{passes};
ghost use Rattle.areas.specs.Cells.{pair_is, Unsettled};
ghost use Rattle.looking.specs.Read.{RecordRead};
ghost use Rattle.clause.specs.Read.{RulesRead, clause_in};

use crate::members::required;
use crate::read::clause_in;
use crate::sizes::{max_length, min_length};
use crate::values::enum_holds;
use looking::numbers::number_in;
use looking::sizes::{elements_of, members_of};
use rulesheet::clause::Clause;
use rulesheet::form::RuleForm;
use sheet::record::{Pair, RecordForm, RecordRow, kind_of};
use testing::bounds::{exclusive_maximum, exclusive_minimum, maximum, minimum, multiple_of};
use testing::sizes::{at_least, at_most};
use testing::types::typed;

// Whether the row passes the clause, which is a test.
fn passes_test<'a>(
    record: &[u32],
    text: &'a [u8],
    form: RecordForm,
    row: RecordRow,
    rules: &[u32],
    rule_text: &'a [u8],
    rule_form: RuleForm,
    clause: Clause,
) -> bool
    requires record_read { RecordRead «record».now text.now form × (row.0 < form.rows) }
    requires rules_read { RulesRead rules.now rule_text.now rule_form × Tested rules.now rule_form clause }
    ensures { (t : Test) → clause_means rules.now rule_text.now clause ≡ asserts t → result ≡ passes (doc_of «record».now text.now) row.0 t }
{
    match clause {
        Clause::Never => false,
        Clause::Types(mask) => typed(
            number_in(record, form, row),
            kind_of(record, form, row),
            mask,
        ),
        Clause::Enum(es) => enum_holds(record, text, form, row, rules, rule_text, rule_form, es),
        Clause::Minimum(limit) => minimum(number_in(record, form, row), limit),
        Clause::Maximum(limit) => maximum(number_in(record, form, row), limit),
        Clause::ExclusiveMinimum(limit) => exclusive_minimum(number_in(record, form, row), limit),
        Clause::ExclusiveMaximum(limit) => exclusive_maximum(number_in(record, form, row), limit),
        Clause::MultipleOf(limit) => multiple_of(number_in(record, form, row), limit),
        Clause::MinLength(k) => min_length(record, text, form, row, k),
        Clause::MaxLength(k) => max_length(record, text, form, row, k),
        Clause::MinItems(k) => at_least(elements_of(record, form, row), k),
        Clause::MaxItems(k) => at_most(elements_of(record, form, row), k),
        Clause::MinProperties(k) => at_least(members_of(record, form, row), k),
        Clause::MaxProperties(k) => at_most(members_of(record, form, row), k),
        Clause::Required(es) => required(record, text, form, row, rules, rule_text, rule_form, es),
        _ => false,
    }
}

// Whether the pair's row passes clause i of its schema, which is a test. The cells must show the pair
// unsettled: no test of a settled pair is judged again.
pub fn passes_clause<'a>(
    record: &[u32],
    text: &'a [u8],
    form: RecordForm,
    rules: &[u32],
    rule_text: &'a [u8],
    rule_form: RuleForm,
    cells: &[u8],
    p: Pair,
    i: u32,
) -> bool
    requires record_read { RecordRead «record».now text.now form × (p.row.0 < form.rows) }
    requires rules_read { RulesRead rules.now rule_text.now rule_form × (p.rule.0 < rule_form.m) × (i < (schema_at rules.now p.rule.0).count) }
    requires unsettled { Unsettled rule_form.m (pair_is p) cells.now }
    ensures { (t : Test) → clause_in rules.now rule_text.now p.rule.0 i ≡ asserts t → result ≡ passes (doc_of «record».now text.now) p.row.0 t }
{
    let clause = clause_in(rules, rule_text, rule_form, p.rule, i);
    passes_test(
        record, text, form, p.row, rules, rule_text, rule_form, clause,
    )
}
