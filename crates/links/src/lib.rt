// Unguarded chains link by link: the schema that takes a clause, the last clause that has a step, and
// what one step more makes of a length.
//
// Its contracts cite `Graph` and `Lengths` of `unguarded`.
#![tactic(auto)]

ghost use Rattle.std.specs.Prelude.{◌≤◌, ◌<◌};
ghost use Rattle.rulesheet.specs.Sheet.{schemas_word, clauses_word};
ghost use Rattle.rulesheet.specs.Read.{RulesLaid};
ghost use Rattle.unguarded.specs.Graph.{chain_steps};
ghost use Rattle.unguarded.specs.Lengths.{Quiet, StartAfter, Takes, Longer};

use rulereader::steps::steps_of;
use rulesheet::form::{RuleForm, schema_at};
use sheet::record::RuleRow;

// The steps of a chain that is refused; it has one schema more.
pub const CHAIN_STEPS: u8 = 32;

// One past the last of the first `to` clauses that has a step; 0 if none has. It is a bound and no
// Option: the clauses from it on have no step.
pub fn last_step(words: &[u32], form: RuleForm, to: u32) -> u32
    requires { RulesLaid words.now form × (to ≤ clauses_word words.now) }
    ensures { Quiet words.now result to }
{
    for k in (0..to).rev() {
        if steps_of(words, form, k) != 0 {
            return k + 1;
        }
    }
    0
}

// The schema that takes clause k, if those after `last` start after it.
pub fn taker(words: &[u32], form: RuleForm, last: RuleRow, k: u32) -> RuleRow
    requires { RulesLaid words.now form × (last.0 < schemas_word words.now) × (k < clauses_word words.now) × StartAfter words.now last.0 k }
    ensures { Takes words.now result.0 k }
{
    for s in (1..=last.0).rev() {
        if schema_at(words, form, RuleRow(s)).first <= k {
            return RuleRow(s);
        }
    }
    RuleRow(0)
}

// The longer of `most` and a chain with one step more than `length`, as far as lengths are told.
pub fn longer(most: u8, length: u8) -> u8
    requires { most ≤ chain_steps }
    ensures { Longer most length result }
{
    if length < most {
        return most;
    }
    if length < CHAIN_STEPS {
        return length + 1;
    }
    CHAIN_STEPS
}
