// Which steps of a clause stand in a line: each applies one schema, to one row after the other. How many
// members and elements a row has is counted here too (`counts`).
//
// Its contracts cite `specs/Lines.antt`.
#![tactic(auto)]

pub mod counts;

ghost use Rattle.std.specs.Prelude.{List, ◌≡◌, ℕ, ◌+◌, ◌≤◌, ◌<◌};
ghost use Rattle.sheet.specs.Doc.{child_count};
ghost use Rattle.sheet.specs.Record.{doc_of};
ghost use Rattle.sheet.specs.Accepted.{Laid};
ghost use Rattle.rulesheet.specs.declared.form.RuleForm.{RuleForm};
ghost use Rattle.rulesheet.specs.Clauses.{clause_means};
ghost use Rattle.few.specs.Asked.{applying};
ghost use Rattle.clause.specs.Read.{clause_in, words_in, ClauseRead};
ghost use Rattle.line.specs.Lines.{ChildrenLine, LineAsked, LinedIn};

use crate::counts::{elements_in, members_in};
use few::applied_by;
use rulesheet::clause::Clause;
use rulesheet::form::ClauseRow;
use sheet::record::{Pair, RecordForm, RecordRow, RuleRow, children_of};

// The first `count` steps of a clause: step x applies schema `rule` to row `first + x`.
#[derive(Clone, Copy)]
pub struct Line {
    pub first: u32,
    pub count: u32,
    pub rule: RuleRow,
}

// No steps.
fn no_line() -> Line
    ensures { (result.first ≡ 0) × (result.count ≡ 0) }
{
    Line {
        first: 0,
        count: 0,
        rule: RuleRow(0),
    }
}

// The children from number `from` on, of the first `many`.
fn children_line(
    record: &[u32],
    form: RecordForm,
    row: RecordRow,
    rule: RuleRow,
    from: u32,
    many: u32,
) -> Line
    requires { Laid «record».now form × (row.0 < form.rows) × ((ts : List ℕ) → many ≤ child_count ((doc_of «record».now ts).value row.0)) }
    ensures children_line { ChildrenLine «record».now row.0 rule.0 from many result }
    ensures count_bound { result.first + result.count ≤ form.rows }
{
    if many <= from {
        return no_line();
    }
    let first = children_of(record, form, row).first + from;
    let count = many - from;
    Line { first, count, rule }
}

// The line of clause i, as it was read. No clause before an `additionalProperties` names a member if
// `from` is i itself: it takes all of them then.
fn line_in(record: &[u32], form: RecordForm, p: Pair, i: u32, from: u32, clause: Clause) -> Line
    requires { Laid «record».now form × (p.row.0 < form.rows) }
    ensures by_index { (ts rs us : List ℕ) (rule_form : RuleForm) → LineAsked rs us rule_form p i (words_in rs p.rule.0 i) from → ClauseRead applying rs us rule_form p.rule.0 i clause → LinedIn «record».now ts rs us p i (clause_means rs us clause) result }
    ensures count_bound { result.first + result.count ≤ form.rows }
{
    let row = p.row;
    match clause {
        Clause::Items(rule) => {
            let many = elements_in(record, form, row);
            children_line(record, form, row, rule, from, many)
        }
        Clause::AdditionalProperties(rule) => {
            if from == i {
                let many = members_in(record, form, row);
                return children_line(record, form, row, rule, 0, many);
            }
            no_line()
        }
        _ => no_line(),
    }
}

// Which steps of clause i of the pair's schema, whose words are `row`, stand in a line on the pair's
// row, `from` being what the clauses before it tell it: all of `items`, and of `additionalProperties`
// where no clause before names a member; of any other clause none are said to. What they apply to are
// rows of the sheet.
pub fn line_of(record: &[u32], form: RecordForm, p: Pair, i: u32, row: ClauseRow, from: u32) -> Line
    requires { Laid «record».now form × (p.row.0 < form.rows) }
    ensures lined_in { (ts rs us : List ℕ) (rule_form : RuleForm) → LineAsked rs us rule_form p i row from → LinedIn «record».now ts rs us p i (clause_in rs us p.rule.0 i) result }
    ensures rows_inside { result.first + result.count ≤ form.rows }
{
    let clause = applied_by(row);
    line_in(record, form, p, i, from, clause)
}
