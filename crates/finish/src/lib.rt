// What a clause that applies schemas says in the end, by what is carried, and where a failure leads it if
// it is cut. No clause is judged here.
//
// The contracts cite `ends_by` and `after_miss` of crate `plan` (`specs/Plan.antt`).
#![tactic(auto)]

ghost use Rattle.std.specs.Prelude.{List, ◌≡◌, ℕ, ◌<◌};
ghost use Rattle.sheet.specs.Record.{doc_of};
ghost use Rattle.sheet.specs.Accepted.{Laid};
ghost use Rattle.rulesheet.specs.Sheet.{schema_at};
ghost use Rattle.rulesheet.specs.Read.{RulesLaid};
ghost use Rattle.rulesheet.specs.Clauses.{clause_means, Tested};
ghost use Rattle.meaning.specs.Rules.{Pair as Meant, contained};
ghost use Rattle.areas.specs.Cells.{pair_is};
ghost use Rattle.clause.specs.Read.{RulesRead, clause_in, words_in};
ghost use Rattle.plan.specs.Plan.{ends_by, after_miss};

use few::{applied_by, sparing_by};
use looking::sizes::elements_of;
use rulereader::entry_of;
use rulesheet::clause::Clause;
use rulesheet::form::{ClauseRow, RuleForm};
use sheet::record::{Pair, RecordForm, RecordRow, RuleRow};

// Whether so many elements that hold are enough: of a row that is no array any number is.
fn enough(
    record: &[u32],
    form: RecordForm,
    row: RecordRow,
    least: u32,
    most: u32,
    tally: u32,
) -> bool
    requires { Laid «record».now form × (row.0 < form.rows) }
    ensures { (ts : List ℕ) → result ≡ contained (doc_of «record».now ts) row.0 least most tally }
{
    elements_of(record, form, row).is_none_or(|_| (least <= tally) & (tally <= most))
}

// The clause, as it was read.
fn finish_in(
    record: &[u32],
    form: RecordForm,
    rules: &[u32],
    rule_form: RuleForm,
    row: RecordRow,
    clause: Clause,
    tally: u32,
) -> bool
    requires laid { Laid «record».now form × (row.0 < form.rows) }
    requires rules_laid { RulesLaid rules.now rule_form × Tested rules.now rule_form clause }
    ensures { (ts us : List ℕ) (p : Meant) → p.row ≡ row.0 → result ≡ ends_by (doc_of «record».now ts) p (clause_means rules.now us clause) tally }
{
    match clause {
        Clause::AnyOf(es) => tally < es.count,
        Clause::OneOf(es) => es.count.saturating_sub(tally) == 1,
        Clause::Not(_) => tally == 1,
        Clause::IfThenElse(_) => tally < 2,
        Clause::Contains(es) => {
            let entry = entry_of(rules, rule_form, es, 0);
            enough(record, form, row, entry.second, entry.third, tally)
        }
        _ => tally == 0,
    }
}

// Whether clause i of the pair's schema, which applies schemas and whose words are `row`, holds on the
// pair's row where `tally` is carried in the end.
pub fn finish_of<'a>(
    record: &[u32],
    form: RecordForm,
    rules: &[u32],
    rule_text: &'a [u8],
    rule_form: RuleForm,
    p: Pair,
    i: u32,
    row: ClauseRow,
    tally: u32,
) -> bool
    requires laid { Laid «record».now form × (p.row.0 < form.rows) }
    requires rules_read { RulesRead rules.now rule_text.now rule_form × (p.rule.0 < rule_form.m) × (i < (schema_at rules.now p.rule.0).count) }
    requires row_is_clause_words { row ≡ words_in rules.now p.rule.0 i }
    ensures { (ts : List ℕ) → result ≡ ends_by (doc_of «record».now ts) (pair_is p) (clause_in rules.now rule_text.now p.rule.0 i) tally }
{
    let clause = sparing_by(row);
    finish_in(record, form, rules, rule_form, p.row, clause, tally)
}

// The clause, as it was read.
fn after_in(clause: Clause, step: u32) -> u32
    requires { step < 4294967295 }
    ensures { (rs us : List ℕ) → result ≡ after_miss (clause_means rs us clause) step }
{
    match clause {
        Clause::AllOf(es) => es.count,
        _ => step + 1,
    }
}

// The step that clause i of schema s, whose words are `row`, goes on with where the pair of step `step`
// failed and judgements are cut: past the last of allOf, and else the next.
pub fn after_miss<'a>(
    rules: &[u32],
    rule_text: &'a [u8],
    form: RuleForm,
    s: RuleRow,
    i: u32,
    row: ClauseRow,
    step: u32,
) -> u32
    requires rules_read { RulesRead rules.now rule_text.now form × (s.0 < form.m) × (i < (schema_at rules.now s.0).count) × (step < 4294967295) }
    requires row_is_clause_words { row ≡ words_in rules.now s.0 i }
    ensures { result ≡ after_miss (clause_in rules.now rule_text.now s.0 i) step }
{
    let clause = applied_by(row);
    after_in(clause, step)
}
