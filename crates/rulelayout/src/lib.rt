// Refusals 5 and 6 of a rule sheet, as far as they are the trailer's and the schemas': the trailer is
// in order, and the lowest schema at fault. `ruleclauses` and `ruleentries` go on with 6.
//
// Contracts cite `rulesheet`'s `Faults` and `Read`.
#![tactic(auto)]

ghost use Rattle.std.specs.Prelude.{◌&&◌, ◌≡◌};
ghost use Rattle.laws.specs.Lowest.{lowest};
ghost use Rattle.rulesheet.specs.Sheet.{schemas_word};
ghost use Rattle.rulesheet.specs.Faults.{trailer_fits, words_ok, text_ok, schema_fault};
ghost use Rattle.rulesheet.specs.Read.{RulesFormed};

use rulesheet::form::{RuleForm, schema_at};
use sheet::layout::TEXT_MAX;
use sheet::record::{RuleRow, wide};

// Whether the trailer's words fit each other and a sheet of `size` words.
fn trailer_fits(size: usize, m: u32, c: u32, e: u32, back: u32, kind: u32) -> bool
    ensures { result ≡ trailer_fits size m c e back kind }
{
    let schemas = wide(m);
    let clauses = wide(c);
    let entries = wide(e);
    let back = wide(back);
    let sum = RuleForm::SCHEMA_WORDS * schemas
        + RuleForm::CLAUSE_WORDS * clauses
        + RuleForm::ENTRY_WORDS * entries;
    (kind == RuleForm::KIND)
        & (((1 <= schemas) & (schemas <= RuleForm::SCHEMAS_MAX))
            & (((clauses <= RuleForm::PARTS_MAX) & (entries <= RuleForm::PARTS_MAX))
                & ((back == sum) & (back + RuleForm::TRAILER_WORDS <= size))))
}

// Whether the trailer is in order, over a text of `size` bytes.
pub fn trailer_ok(words: &[u32], size: usize) -> bool
    ensures { result ≡ (words_ok words.now && text_ok words.now size) }
{
    match words {
        [.., m, c, e, back, said, kind] => {
            trailer_fits(words.len(), *m, *c, *e, *back, *kind)
                & ((wide(*said) == size) & (size <= TEXT_MAX))
        }
        _ => false,
    }
}

// The lowest schema at fault, or the number of schemas, as `lowest` in the promise has it.
pub fn first_bad_schema(words: &[u32], form: RuleForm) -> u32
    requires { RulesFormed words.now form }
    ensures { result ≡ lowest (schema_fault words.now) (schemas_word words.now) }
{
    let c = wide(form.c);
    let mut start = 0;
    for s in 0..form.m {
        let row = schema_at(words, form, RuleRow(s));
        let first = wide(row.first);
        let end = first + wide(row.count);
        if !((first == start) & (end <= c)) {
            return s;
        }
        start = end;
    }
    form.m
}
