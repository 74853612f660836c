// Refusal 9: the lowest schema that starts an unguarded chain of 33 schemas.
//
// Its contracts cite `Graph`, `Places` and `Lengths` of `unguarded`.
#![tactic(auto)]

ghost use Rattle.std.specs.Prelude.{◌∷◌, [], ◌≡◌, ◌≤◌, ◌<◌, length};
ghost use Rattle.rulesheet.specs.Sheet.{schemas_word, clauses_word, targets_of, next_of};
ghost use Rattle.rulesheet.specs.Faults.{schemas_max};
ghost use Rattle.rulesheet.specs.Read.{RulesLaid};
ghost use Rattle.unguarded.specs.Graph.{chain_steps};
ghost use Rattle.unguarded.specs.Places.{chain_place};
ghost use Rattle.unguarded.specs.Lengths.{Quiet, Noted, Raised, Passed, Lengths, Ready};

use links::{CHAIN_STEPS, last_step, longer, taker};
use rulereader::steps::{step_at, steps_of};
use rulesheet::form::RuleForm;
use sheet::record::{RuleRow, wide};

// So many schemas, or fewer, have smaller tables, which are blanked sooner.
const FEW: usize = 64;

// Marks schema t if a step from s to it does not lead to a later schema.
fn mark_late(late: &mut [bool], s: RuleRow, t: RuleRow)
    requires { t.0 < length late.old }
    ensures { Noted s.0 (t.0 ∷ []) late.old late.new }
{
    if t.0 <= s.0 {
        let at = wide(t.0);
        late[at] = true;
    }
}

// The longest chain of schema s, told from `most`, its longest so far, and from those of the schemas
// that clause k reaches; these are marked if they do not come after s. Lengths and marks are two
// slices, and none of structs, since the lengths are only read here.
fn clause_length(
    words: &[u32],
    form: RuleForm,
    s: RuleRow,
    k: u32,
    table: &[u8],
    late: &mut [bool],
    most: u8,
) -> u8
    requires { RulesLaid words.now form × (k < clauses_word words.now) × (schemas_word words.now ≤ length table.now) × (schemas_word words.now ≤ length late.old) × (most ≤ chain_steps) }
    ensures { Raised (targets_of words.now k) table.now most result × Noted s.0 (targets_of words.now k) late.old late.new }
{
    let mut long = most;
    for i in 0..steps_of(words, form, k) {
        let t = step_at(words, form, k, i);
        let at = wide(t.0);
        long = longer(long, table[at]);
        mark_late(late, s, t);
    }
    long
}

// A pass from the last clause to the first, so that a schema's length is told from those of the
// schemas that come after it and were passed. The answer says whether one was raised that an earlier
// one in the pass had asked for: if not, the table is right. It goes from one clause that has a step
// to the next, so no range counts it.
fn pass(words: &[u32], form: RuleForm, last: u32, table: &mut [u8], late: &mut [bool]) -> bool
    requires { Ready words.now form last table.old late.old }
    ensures { Passed (schemas_word words.now) (next_of words.now) table.old table.new result }
{
    let mut again = false;
    let last_schema = form.m - 1;
    let mut s = RuleRow(last_schema);
    let mut k = last;
    while 0 < k {
        k -= 1;
        s = taker(words, form, s, k);
        let at = wide(s.0);
        let most = table[at];
        let long = clause_length(words, form, s, k, table, late, most);
        if most < long {
            table[at] = long;
            again |= late[at];
        }
        k = last_step(words, form, k);
    }
    again
}

// Passes up to the first that leaves the table right. That is the first of all where each step leads to
// a later schema or to one without steps, and never later than the 32nd.
fn fill_lengths(words: &[u32], form: RuleForm, last: u32, table: &mut [u8], late: &mut [bool])
    requires { Ready words.now form last table.old late.old }
    ensures { Lengths (schemas_word words.now) (next_of words.now) table.new }
{
    for _k in 0..CHAIN_STEPS {
        if !pass(words, form, last, table, late) {
            return;
        }
    }
}

// The lowest schema that starts a chain of 33 schemas, or the number of schemas, as `lowest` in
// `chain_place` has it.
fn first_long(words: &[u32], form: RuleForm, table: &[u8]) -> u32
    requires { RulesLaid words.now form × Lengths (schemas_word words.now) (next_of words.now) table.now }
    ensures { result ≡ chain_place (schemas_word words.now) (next_of words.now) }
{
    for s in 0..form.m {
        let at = wide(s);
        if table[at] >= CHAIN_STEPS {
            return s;
        }
    }
    form.m
}

// The same, from nothing, with tables for N schemas. The clauses from `last` on have no step.
fn long_within<const N: usize>(words: &[u32], form: RuleForm, last: u32) -> u32
    requires { RulesLaid words.now form × Quiet words.now last (clauses_word words.now) × (form.m ≤ N) × (N ≤ schemas_max) }
    ensures { result ≡ chain_place (schemas_word words.now) (next_of words.now) }
{
    let mut table = [0u8; N];
    let mut late = [false; N];
    fill_lengths(words, form, last, &mut table, &mut late);
    first_long(words, form, &table)
}

// The same, from nothing. Where no clause has a step, no table is needed.
pub fn long_place(words: &[u32], form: RuleForm) -> u32
    requires { RulesLaid words.now form }
    ensures { result ≡ chain_place (schemas_word words.now) (next_of words.now) }
{
    let m = form.m;
    let last = last_step(words, form, form.c);
    if last == 0 {
        return m;
    }
    if wide(m) <= FEW {
        return long_within::<FEW>(words, form, last);
    }
    long_within::<{ RuleForm::SCHEMAS_MAX }>(words, form, last)
}
