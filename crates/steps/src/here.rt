// The steps of a clause that applies its schemas to the row itself.
ghost use Rattle.std.specs.Prelude.{List, [], ◌∷◌, ◌≡◌, ◌+◌, ◌≤◌, ◌<◌};
ghost use Rattle.sheet.specs.Doc.{Doc};
ghost use Rattle.sheet.specs.Record.{doc_of};
ghost use Rattle.rulesheet.specs.declared.code.Fields.TheVariants.{Members};
ghost use Rattle.rulesheet.specs.Ruleset as R;
ghost use Rattle.rulesheet.specs.Ruleset.{Mode, in_place};
ghost use Rattle.rulesheet.specs.Read.{RulesFormed};
ghost use Rattle.rulesheet.specs.Clauses.{entry_in, schemas_in, members_in};
ghost use Rattle.meaning.specs.Rules.{Pair as Meant, Marks};
ghost use Rattle.looking.specs.Read.{RecordRead};
ghost use Rattle.clause.specs.Read.{RulesRead, ListRead};
ghost use Rattle.steps.specs.Turns.{Turned, TurnedOn};

use crate::members::first_named;
use crate::turn::{Counts, Turn, at_step, at_step_of};
use rulereader::{entry_schema, member_schema};
use rulesheet::clause::Entries;
use rulesheet::form::RuleForm;
use sheet::record::{RecordForm, RecordRow, RuleRow};

// Of a list of schemas.
pub(crate) fn listed_turn(
    rules: &[u32],
    form: RuleForm,
    row: RecordRow,
    list: Entries,
    x: u32,
) -> Option<Turn>
    requires { RulesFormed rules.now form × (list.first + list.count ≤ form.e) }
    ensures { (d : Doc) (m : Mode) → TurnedOn d row.0 (in_place m (schemas_in rules.now list)) x result }
{
    if x < list.count {
        return at_step(x, row, entry_schema(rules, form, list, x));
    }
    None
}

// Of a condition and two branches: the condition first, then the branch that it chooses.
pub(crate) fn branch_turn(
    rules: &[u32],
    form: RuleForm,
    row: RecordRow,
    list: Entries,
    x: u32,
    tally: u32,
) -> Option<Turn>
    requires { RulesFormed rules.now form × (list.first + list.count ≤ form.e) × (list.count ≡ 3) }
    ensures { (d : Doc) (p : Meant) (before : List R.Clause) (κ : Marks) → p.row ≡ row.0 → Turned d p before (R.if_then_else (entry_in rules.now list 0).first (entry_in rules.now list 1).first (entry_in rules.now list 2).first) x κ tally result }
{
    if x == 0 {
        return at_step_of(0, row, entry_schema(rules, form, list, 0), Counts::Branches);
    }
    if tally == 0 {
        if x == 1 {
            return at_step_of(1, row, entry_schema(rules, form, list, 1), Counts::Branches);
        }
        return None;
    }
    if tally == 1 {
        if x <= 2 {
            return at_step_of(2, row, entry_schema(rules, form, list, 2), Counts::Branches);
        }
        return None;
    }
    None
}

// Of schemas that go with names: each whose name a member has.
pub(crate) fn depended_turn<'a>(
    record: &[u32],
    text: &'a [u8],
    form: RecordForm,
    rules: &[u32],
    rule_text: &'a [u8],
    rule_form: RuleForm,
    row: RecordRow,
    list: Entries,
    x: u32,
) -> Option<Turn>
    requires record_read { RecordRead «record».now text.now form × (row.0 < form.rows) }
    requires rules_read { RulesRead rules.now rule_text.now rule_form × ListRead rules.now rule_form Members list }
    ensures { TurnedOn (doc_of «record».now text.now) row.0 (R.dependent_schemas (members_in rules.now rule_text.now list)) x result }
{
    let (at, _) = first_named(
        record, text, form, rules, rule_text, rule_form, row, list, x,
    )?;
    at_step(at, row, member_schema(rules, rule_form, list, at))
}

// Of one schema.
pub(crate) fn single_turn(row: RecordRow, rule: RuleRow, x: u32) -> Option<Turn>
    ensures { (d : Doc) (m : Mode) → TurnedOn d row.0 (in_place m (rule.0 ∷ [])) x result }
{
    if x < 1 {
        return at_step(x, row, rule);
    }
    None
}
