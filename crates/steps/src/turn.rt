// Where a clause that applies schemas stands between two of its steps.
ghost use Rattle.std.specs.Prelude.{◌≡◌, not, ◌||◌};
ghost use Rattle.rulesheet.specs.Clauses.{clause_means};
ghost use Rattle.few.specs.Asked.{applying};
ghost use Rattle.clause.specs.Read.{clause_in, words_in, ClauseRead};
ghost use Rattle.steps.specs.declared.turn.Counts.TheVariants.{Misses};
ghost use Rattle.steps.specs.Turns.{TurnAsked, TurnedIn};

use crate::children::{counted_turn, fresh_turn, placed_turn, rest_turn};
use crate::here::{branch_turn, depended_turn, listed_turn, single_turn};
use crate::members::{additional_turn, named_turn};
use few::applied_by;
use line::counts::{elements_in, members_in};
use rulesheet::clause::Clause;
use rulesheet::form::{ClauseRow, RuleForm};
use sheet::record::{Pair, RecordForm, RecordRow, RuleRow};

// What a clause counts: the steps that fail, or those that hold, or which of a condition and its two
// branches failed.
#[derive(Clone, Copy)]
pub enum Counts {
    Misses,
    Hits,
    Branches,
}

impl Counts {
    ghost use Rattle.steps.specs.Turns.{is_hits};

    // Whether a step hands on the marks of its pair, which held or not: where hits are counted only a hit
    // does.
    pub fn keeps(self, held: bool) -> bool
        ensures { result ≡ (not (is_hits self) || held) }
    {
        match self {
            Counts::Hits => held,
            Counts::Misses | Counts::Branches => true,
        }
    }
}

// A step of a clause that is applied next, and the pair that it applies.
#[derive(Clone, Copy)]
pub struct Turn {
    pub step: u32,
    pub pair: Pair,
    pub counts: Counts,
}

// Step x, which applies the schema to the row; of a clause that counts its hits, or that has branches.
pub(crate) fn at_step_of(x: u32, row: RecordRow, rule: RuleRow, counts: Counts) -> Option<Turn>
    ensures { result ≡ Some (record { step = x; pair = record { row = row; rule = rule }; counts = counts }) }
{
    Some(Turn {
        step: x,
        pair: Pair { row, rule },
        counts,
    })
}

// The same of any other clause.
pub(crate) fn at_step(x: u32, row: RecordRow, rule: RuleRow) -> Option<Turn>
    ensures { result ≡ Some (record { step = x; pair = record { row = row; rule = rule }; counts = Misses }) }
{
    at_step_of(x, row, rule, Counts::Misses)
}

// Where the clause stands, as it was read: at a step, or at its end.
fn turn_in<'a>(
    record: &[u32],
    text: &'a [u8],
    form: RecordForm,
    rules: &[u32],
    rule_text: &'a [u8],
    rule_form: RuleForm,
    cells: &[u8],
    p: Pair,
    i: u32,
    clause: Clause,
    from: u32,
    x: u32,
    tally: u32,
) -> Option<Turn>
    requires turn_asked { TurnAsked «record».now text.now form rules.now rule_text.now rule_form cells.now p i (words_in rules.now p.rule.0 i) from x }
    requires clause_read { ClauseRead applying rules.now rule_text.now rule_form p.rule.0 i clause }
    ensures { TurnedIn «record».now text.now rules.now rule_text.now p i (clause_means rules.now rule_text.now clause) x tally rule_form.m cells.now result }
{
    let row = p.row;
    match clause {
        Clause::AllOf(es) => listed_turn(rules, rule_form, row, es, x),
        Clause::AnyOf(es) => listed_turn(rules, rule_form, row, es, x),
        Clause::OneOf(es) => listed_turn(rules, rule_form, row, es, x),
        Clause::Not(rule) => single_turn(row, rule, x),
        Clause::Ref(rule) => single_turn(row, rule, x),
        Clause::IfThenElse(es) => branch_turn(rules, rule_form, row, es, x, tally),
        Clause::DependentSchemas(es) => {
            depended_turn(record, text, form, rules, rule_text, rule_form, row, es, x)
        }
        Clause::Contains(es) => counted_turn(record, form, rules, rule_form, row, es, x),
        Clause::Properties(es) => {
            named_turn(record, text, form, rules, rule_text, rule_form, row, es, x)
        }
        Clause::AdditionalProperties(rule) => additional_turn(
            record, text, form, rules, rule_text, rule_form, cells, p, i, from, rule, x,
        ),
        Clause::PrefixItems(es) => placed_turn(record, form, rules, rule_form, row, es, x),
        Clause::Items(rule) => rest_turn(record, form, row, rule, from, x),
        Clause::UnevaluatedProperties(rule) => {
            let many = members_in(record, form, row);
            fresh_turn(record, form, cells, rule_form.m, p, rule, many, x)
        }
        Clause::UnevaluatedItems(rule) => {
            let many = elements_in(record, form, row);
            fresh_turn(record, form, cells, rule_form.m, p, rule, many, x)
        }
        _ => None,
    }
}

// Where clause i of the pair's schema, whose words are `row`, stands on the pair's row once its first x
// steps are taken and `tally` is carried, `from` being what the clauses before it tell it. The cells must show the pair
// unsettled: no clause of a settled pair is judged again.
pub fn turn_of<'a>(
    record: &[u32],
    text: &'a [u8],
    form: RecordForm,
    rules: &[u32],
    rule_text: &'a [u8],
    rule_form: RuleForm,
    cells: &[u8],
    p: Pair,
    i: u32,
    row: ClauseRow,
    from: u32,
    x: u32,
    tally: u32,
) -> Option<Turn>
    requires { TurnAsked «record».now text.now form rules.now rule_text.now rule_form cells.now p i row from x }
    ensures { TurnedIn «record».now text.now rules.now rule_text.now p i (clause_in rules.now rule_text.now p.rule.0 i) x tally rule_form.m cells.now result }
{
    let clause = applied_by(row);
    turn_in(
        record, text, form, rules, rule_text, rule_form, cells, p, i, clause, from, x, tally,
    )
}
