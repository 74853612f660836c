// The clauses of a schema, read by their numbers.
ghost use Rattle.std.specs.Prelude.{◌<◌};
ghost use Rattle.rulesheet.specs.Sheet.{schema_at};
ghost use Rattle.clause.specs.Read.{RulesRead, ClauseRead};

use rulereader::clause_of;
use rulesheet::clause::Clause;
use rulesheet::form::{RuleForm, schema_at};
use sheet::record::RuleRow;

// Clause i of schema s.
pub(crate) fn clause_in<'a>(
    rules: &[u32],
    rule_text: &'a [u8],
    form: RuleForm,
    s: RuleRow,
    i: u32,
) -> Clause
    requires { RulesRead rules.now rule_text.now form × (s.0 < form.m) × (i < (schema_at rules.now s.0).count) }
    ensures { ClauseRead (λ c. c) rules.now rule_text.now form s.0 i result }
{
    let first = schema_at(rules, form, s).first;
    clause_of(rules, form, first + i)
}
