// How many clauses of a rule sheet had steps, as long as each step led to a later schema. Contracts
// cite `specs/Later.antt`.
#![tactic(auto)]

ghost use Rattle.std.specs.Prelude.{true, ◌≡◌, ◌+◌, ◌≤◌, ◌<◌};
ghost use Rattle.rulesheet.specs.Faults.{is_named};
ghost use Rattle.rulesheet.specs.Read.{RulesFormed};
ghost use Rattle.rulesteps.specs.Later.{schema_in, AllLater, Counted};

use rulesheet::clause::Entries;
use rulesheet::code::Shape;
use rulesheet::form::{EntryRow, RuleForm, entry_at};
use sheet::record::RuleRow;

// So many clauses with steps, or more, or one step to a schema that is not later: then the count
// tells nothing. That is no None, since a count is only asked whether it is below MANY.
pub const MANY: u32 = 32;

// The schema of an entry, which has a name or not.
fn schema_in(named: bool, entry: EntryRow) -> u32
    ensures { result ≡ schema_in named entry }
{
    if named { entry.third } else { entry.first }
}

// Whether the schemas of these entries, which have names or not, stand after s.
fn all_later(words: &[u32], form: RuleForm, s: RuleRow, named: bool, list: Entries) -> bool
    requires { RulesFormed words.now form × (0 < list.count → list.first + list.count ≤ form.e) }
    ensures { result ≡ true → AllLater words.now named s.0 list.first (list.first + list.count) }
{
    for x in list.first..list.first + list.count {
        if schema_in(named, entry_at(words, form, x)) <= s.0 {
            return false;
        }
    }
    true
}

// One more than so many clauses with steps, if the steps of this one lead to later schemas.
fn one_more(steps: u32, later: bool) -> u32
    ensures { Counted true (later ≡ true) steps result }
{
    if later && steps < MANY {
        return steps + 1;
    }
    MANY
}

// The clauses with steps, after one of schema s whose schemas are those of these entries.
pub fn after_list(
    words: &[u32],
    form: RuleForm,
    s: RuleRow,
    shape: Shape,
    list: Entries,
    steps: u32,
) -> u32
    requires { RulesFormed words.now form × (0 < list.count → list.first + list.count ≤ form.e) }
    ensures { Counted shape.unguarded (AllLater words.now (is_named shape.fields) s.0 list.first (list.first + list.count)) steps result }
{
    if !shape.unguarded {
        return steps;
    }
    let named = shape.fields.is_named();
    one_more(steps, all_later(words, form, s, named, list))
}

// The same, of one whose schema is t.
pub fn after_one(s: RuleRow, unguarded: bool, t: u32, steps: u32) -> u32
    ensures { Counted unguarded (s.0 < t) steps result }
{
    if !unguarded {
        return steps;
    }
    one_more(steps, s.0 < t)
}
