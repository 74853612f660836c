// The steps of a clause that takes children by their place, or by the marks on them.
ghost use Rattle.std.specs.Prelude.{List, ◌≡◌, ℕ, ◌+◌, ◌-◌, ◌*◌, ◌≤◌, ◌<◌, min, length};
ghost use Rattle.sheet.specs.Doc.{Doc, child_count};
ghost use Rattle.sheet.specs.Record.{doc_of};
ghost use Rattle.sheet.specs.Accepted.{Laid};
ghost use Rattle.rulesheet.specs.Ruleset as R;
ghost use Rattle.rulesheet.specs.Read.{RulesFormed};
ghost use Rattle.rulesheet.specs.Clauses.{entry_in, schemas_in};
ghost use Rattle.meaning.specs.Rules.{Pair as Meant, Marks};
ghost use Rattle.plan.specs.Plan.{member_count, element_count};
ghost use Rattle.told.specs.Read.{Started};
ghost use Rattle.steps.specs.Turns.{Turned, TurnedOn, TurnedFresh};

use crate::turn::{Counts, Turn, at_step, at_step_of};
use areas::is_marked;
use line::counts::elements_in;
use rulereader::entry_schema;
use rulesheet::clause::Entries;
use rulesheet::form::RuleForm;
use sheet::record::{Pair, RecordForm, RecordRow, RuleRow, children_of, wide};

// ---- by their place

// Of `prefixItems`: each element with the schema at its place.
pub(crate) fn placed_turn(
    record: &[u32],
    form: RecordForm,
    rules: &[u32],
    rule_form: RuleForm,
    row: RecordRow,
    list: Entries,
    x: u32,
) -> Option<Turn>
    requires laid { Laid «record».now form × (row.0 < form.rows) }
    requires list_inside { RulesFormed rules.now rule_form × (list.first + list.count ≤ rule_form.e) }
    ensures { (ts : List ℕ) → TurnedOn (doc_of «record».now ts) row.0 (R.takes (R.prefix_items (schemas_in rules.now list))) x result }
{
    let many = elements_in(record, form, row).min(list.count);
    if x < many {
        let child = children_of(record, form, row).first + x;
        return at_step(x, RecordRow(child), entry_schema(rules, rule_form, list, x));
    }
    None
}

// Of `items`: each element after those that the clauses before speak of.
pub(crate) fn rest_turn(
    record: &[u32],
    form: RecordForm,
    row: RecordRow,
    rule: RuleRow,
    from: u32,
    x: u32,
) -> Option<Turn>
    requires { Laid «record».now form × (row.0 < form.rows) }
    ensures { (ts : List ℕ) (p : Meant) (before : List R.Clause) (κ : Marks) → p.row ≡ row.0 → Started before (R.takes (R.items rule.0)) from → (t : ℕ) → Turned (doc_of «record».now ts) p before (R.takes (R.items rule.0)) x κ t result }
{
    let many = elements_in(record, form, row).saturating_sub(from);
    if x < many {
        let child = children_of(record, form, row).first + from + x;
        return at_step(x, RecordRow(child), rule);
    }
    None
}

// Of `contains`: each element, with the one schema.
pub(crate) fn counted_turn(
    record: &[u32],
    form: RecordForm,
    rules: &[u32],
    rule_form: RuleForm,
    row: RecordRow,
    list: Entries,
    x: u32,
) -> Option<Turn>
    requires laid { Laid «record».now form × (row.0 < form.rows) }
    requires one_entry_inside { RulesFormed rules.now rule_form × (list.first + list.count ≤ rule_form.e) × (list.count ≡ 1) }
    ensures { (ts : List ℕ) (least most : ℕ) → TurnedOn (doc_of «record».now ts) row.0 (R.contains (entry_in rules.now list 0).first least most) x result }
{
    let many = elements_in(record, form, row);
    if x < many {
        let child = children_of(record, form, row).first + x;
        let schema = entry_schema(rules, rule_form, list, 0);
        return at_step_of(x, RecordRow(child), schema, Counts::Hits);
    }
    None
}

// ---- by the marks on them

// Of `unevaluatedProperties` and `unevaluatedItems`, and of `additionalProperties` where the marks tell
// which members are named: each of the first `many` children that is not marked yet.
pub(crate) fn fresh_turn(
    record: &[u32],
    form: RecordForm,
    cells: &[u8],
    m: u32,
    p: Pair,
    rule: RuleRow,
    many: u32,
    x: u32,
) -> Option<Turn>
    requires laid_many_children { Laid «record».now form × (p.row.0 < form.rows) × ((ts : List ℕ) → many ≤ child_count ((doc_of «record».now ts).value p.row.0)) }
    requires table_in_cells { (form.rows * m ≤ length cells.now) × (p.rule.0 < m) }
    ensures fresh_members { (ts : List ℕ) → many ≡ member_count ((doc_of «record».now ts).value p.row.0) → TurnedFresh «record».now ts p (R.takes (R.unevaluated_properties rule.0)) x m cells.now result }
    ensures fresh_elements { (ts : List ℕ) → many ≡ element_count ((doc_of «record».now ts).value p.row.0) → TurnedFresh «record».now ts p (R.takes (R.unevaluated_items rule.0)) x m cells.now result }
{
    let first = children_of(record, form, p.row).first;
    for at in x..many {
        let row = RecordRow(first + at);
        if !is_marked(cells, wide(m), Pair { row, ..p }) {
            return at_step(at, row, rule);
        }
    }
    None
}
