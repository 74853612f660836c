// Refusal 7 of a rule sheet: two entries of one clause that share a name. Contracts cite
// `rulesheet`'s `Faults`.
ghost use Rattle.std.specs.Prelude.{true, ◌≡◌, ◌<◌, length};
ghost use Rattle.laws.specs.Lowest.{lowest, lowest_from};
ghost use Rattle.rulesheet.specs.Sheet.{entries_word, text_word, clause_at};
ghost use Rattle.rulesheet.specs.Faults.{is_named, fields_at, repeated};
ghost use Rattle.rulesheet.specs.Read.{RulesLaid};

use names::Names;
use rulecodes::shape_of;
use rulesheet::form::{RuleForm, clause_at};
use sheet::record::wide;

// The lowest entry of clause k, whose entries have names, whose name an earlier one has, or where
// they end: no Option, since `namesakes` tells it so too.
fn first_repeated_in(words: &[u32], text: &[u8], form: RuleForm, k: u32) -> u32
    requires rules_laid { RulesLaid words.now form × (length text.now ≡ text_word words.now) }
    requires clause_named { (k < form.c) × (is_named (fields_at words.now k) ≡ true) }
    ensures { result ≡ lowest_from (repeated words.now text.now) (clause_at words.now k).count (clause_at words.now k).first }
{
    let clause = clause_at(words, form, k);
    let lying = Names {
        base: form.entries + RuleForm::ENTRY_WORDS * wide(clause.first),
        stride: RuleForm::ENTRY_WORDS,
        count: wide(clause.count),
    };
    clause.first + namesakes::first_repeated(words, text, lying) as u32
}

// The lowest entry whose name an earlier entry of its clause has, or the number of entries, as
// `lowest` in the promise has it.
pub fn first_repeated_entry(words: &[u32], text: &[u8], form: RuleForm) -> u32
    requires { RulesLaid words.now form × (length text.now ≡ text_word words.now) }
    ensures { result ≡ lowest (repeated words.now text.now) (entries_word words.now) }
{
    for k in 0..form.c {
        let clause = clause_at(words, form, k);
        let shape = shape_of(clause.code);
        let fields = shape.fields;
        if fields.is_named() {
            let again = first_repeated_in(words, text, form, k);
            if again < clause.first + clause.count {
                return again;
            }
        }
    }
    form.e
}
