// The unguarded steps of a clause: the schemas that it applies to the row itself. They do not depend
// on the text. Every clause of a sheet is asked for them, so only the codes that have some are told here.
ghost use Rattle.std.specs.Prelude.{◌≡◌, ◌<◌, length, get_or};
ghost use Rattle.rulesheet.specs.Sheet.{targets_of};
ghost use Rattle.rulesheet.specs.Read.{RulesFormed, ClausesLaid};

use rulesheet::codes;
use rulesheet::form::{RuleForm, clause_at, entry_at};
use sheet::record::RuleRow;

// How many schemas clause k reaches unguarded.
pub fn steps_of(words: &[u32], form: RuleForm, k: u32) -> u32
    requires { RulesFormed words.now form × (k < form.c) }
    ensures { result ≡ length (targets_of words.now k) }
{
    let clause = clause_at(words, form, k);
    match clause.code {
        codes::IF_THEN_ELSE => 3,
        codes::DEPENDENT_SCHEMAS => clause.count,
        codes::ALL_OF..=codes::ONE_OF => clause.count,
        codes::NOT | codes::REF => 1,
        _ => 0,
    }
}

// The ith of them.
pub fn step_at(words: &[u32], form: RuleForm, k: u32, i: u32) -> RuleRow
    requires { ClausesLaid words.now form × (k < form.c) × (i < length (targets_of words.now k)) }
    ensures { result.0 ≡ get_or (targets_of words.now k) i 0 }
{
    let clause = clause_at(words, form, k);
    match clause.code {
        codes::NOT | codes::REF => RuleRow(clause.first),
        codes::DEPENDENT_SCHEMAS => RuleRow(entry_at(words, form, clause.first + i).third),
        _ => RuleRow(entry_at(words, form, clause.first + i).first),
    }
}
