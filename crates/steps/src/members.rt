// The steps of a clause that takes members by their names.
ghost use Rattle.std.specs.Prelude.{◌≡◌, ℕ, ◌*◌, ◌≤◌, ◌<◌, length};
ghost use Rattle.sheet.specs.Record.{doc_of};
ghost use Rattle.rulesheet.specs.declared.code.Fields.TheVariants.{Members};
ghost use Rattle.rulesheet.specs.Ruleset as R;
ghost use Rattle.rulesheet.specs.Sheet.{schema_at};
ghost use Rattle.rulesheet.specs.Clauses.{members_in};
ghost use Rattle.meaning.specs.Rules.{Pair as Meant, Marks};
ghost use Rattle.areas.specs.Cells.{pair_is, column};
ghost use Rattle.looking.specs.Read.{RecordRead};
ghost use Rattle.clause.specs.Read.{RulesRead, ListRead, before_in};
ghost use Rattle.told.specs.Read.{NamesFrom, by_marks};
ghost use Rattle.steps.specs.Turns.{FirstNamed, NamesMarked, Turned, TurnedOn};

use crate::children::fresh_turn;
use crate::turn::{Turn, at_step};
use line::counts::members_in;
use looking::members::child_named;
use rulereader::{entry_name, member_schema};
use rulesheet::clause::Entries;
use rulesheet::form::{RuleForm, schema_at};
use sheet::record::{Pair, RecordForm, RecordRow, RuleRow, children_of};
use told::{BY_MARKS, unnamed_in};

// The first entry from number x on whose name a member of the row has, and that member's place among the
// children. Each step of `properties` goes through here, so it is put into both of its callers.
#[inline(always)]
pub(crate) fn first_named<'a>(
    record: &[u32],
    text: &'a [u8],
    form: RecordForm,
    rules: &[u32],
    rule_text: &'a [u8],
    rule_form: RuleForm,
    row: RecordRow,
    list: Entries,
    x: u32,
) -> Option<(u32, u32)>
    requires record_read { RecordRead «record».now text.now form × (row.0 < form.rows) }
    requires rules_read { RulesRead rules.now rule_text.now rule_form × ListRead rules.now rule_form Members list }
    ensures { (p : Meant) → p.row ≡ row.0 → FirstNamed (doc_of «record».now text.now) p (members_in rules.now rule_text.now list) x list.count result }
{
    let members = members_in(record, form, row);
    if members == 0 {
        return None;
    }
    for at in x..list.count {
        let name = entry_name(rules, rule_form, list, at);
        let n = child_named(record, text, form, row, rule_text, name, at);
        if n < members {
            return Some((at, n));
        }
    }
    None
}

// Of `properties`: the member that has the name of an entry, with the entry's schema.
pub(crate) fn named_turn<'a>(
    record: &[u32],
    text: &'a [u8],
    form: RecordForm,
    rules: &[u32],
    rule_text: &'a [u8],
    rule_form: RuleForm,
    row: RecordRow,
    list: Entries,
    x: u32,
) -> Option<Turn>
    requires record_read { RecordRead «record».now text.now form × (row.0 < form.rows) }
    requires rules_read { RulesRead rules.now rule_text.now rule_form × ListRead rules.now rule_form Members list }
    ensures { TurnedOn (doc_of «record».now text.now) row.0 (R.takes (R.properties (members_in rules.now rule_text.now list))) x result }
{
    let (at, n) = first_named(
        record, text, form, rules, rule_text, rule_form, row, list, x,
    )?;
    let child = children_of(record, form, row).first + n;
    at_step(
        at,
        RecordRow(child),
        member_schema(rules, rule_form, list, at),
    )
}

// Of `additionalProperties`: each member that no clause before names.
fn other_turn<'a>(
    record: &[u32],
    text: &'a [u8],
    form: RecordForm,
    rules: &[u32],
    rule_text: &'a [u8],
    rule_form: RuleForm,
    p: Pair,
    i: u32,
    from: u32,
    rule: RuleRow,
    x: u32,
) -> Option<Turn>
    requires record_read { RecordRead «record».now text.now form × (p.row.0 < form.rows) }
    requires rules_read { RulesRead rules.now rule_text.now rule_form × (p.rule.0 < rule_form.m) × (i < (schema_at rules.now p.rule.0).count) }
    requires names_from { NamesFrom (before_in rules.now rule_text.now p.rule.0 i) from }
    ensures { (κ : Marks) (t : ℕ) → Turned (doc_of «record».now text.now) (pair_is p) (before_in rules.now rule_text.now p.rule.0 i) (R.takes (R.additional_properties rule.0)) x κ t result }
{
    let start = schema_at(rules, rule_form, p.rule).first;
    let many = members_in(record, form, p.row);
    let first = children_of(record, form, p.row).first;
    for at in x..many {
        let row = RecordRow(first + at);
        if unnamed_in(
            record, text, form, rules, rule_text, rule_form, p.rule, start, i, from, row, at,
        ) {
            return at_step(at, row, rule);
        }
    }
    None
}

// The same. Where the clauses before mark the members that they name and no other, the marks tell which
// those are, and no name is compared again.
pub(crate) fn additional_turn<'a>(
    record: &[u32],
    text: &'a [u8],
    form: RecordForm,
    rules: &[u32],
    rule_text: &'a [u8],
    rule_form: RuleForm,
    cells: &[u8],
    p: Pair,
    i: u32,
    from: u32,
    rule: RuleRow,
    x: u32,
) -> Option<Turn>
    requires record_read_table_in_cells { RecordRead «record».now text.now form × (p.row.0 < form.rows) × (form.rows * rule_form.m ≤ length cells.now) }
    requires rules_read { RulesRead rules.now rule_text.now rule_form × (p.rule.0 < rule_form.m) × (i < (schema_at rules.now p.rule.0).count) }
    requires names_from { (from ≡ by_marks → ⊥) → NamesFrom (before_in rules.now rule_text.now p.rule.0 i) from }
    requires names_marked { from ≡ by_marks → NamesMarked (doc_of «record».now text.now) (pair_is p) (before_in rules.now rule_text.now p.rule.0 i) x (column rule_form.m cells.now p.rule.0) }
    ensures { (t : ℕ) → Turned (doc_of «record».now text.now) (pair_is p) (before_in rules.now rule_text.now p.rule.0 i) (R.takes (R.additional_properties rule.0)) x (column rule_form.m cells.now p.rule.0) t result }
{
    if from == BY_MARKS {
        let many = members_in(record, form, p.row);
        return fresh_turn(record, form, cells, rule_form.m, p, rule, many, x);
    }
    other_turn(
        record, text, form, rules, rule_text, rule_form, p, i, from, rule, x,
    )
}
