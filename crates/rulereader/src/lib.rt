// The readers of a rule sheet's clauses: a clause, each code its own variant; the entries of its list;
// and its unguarded steps (`steps`). No word's position and no code's number leaves them.
//
// Its contracts cite `rulesheet`'s `Sheet`, `Read` and `Clauses`.
#![tactic(auto)]

ghost use Rattle.std.specs.Prelude.{List, [], ◌≡◌, ℕ, ◌+◌, ◌≤◌, ◌<◌, get_or};
ghost use Rattle.rulesheet.specs.Sheet.{entry_at, clause_of};
ghost use Rattle.rulesheet.specs.Read.{RulesFormed};
ghost use Rattle.rulesheet.specs.Clauses.{schemas_in, members_in, clause_means, Tested, Decoded, EntryNameRead};

use decimal::Decimal;
use rulesheet::clause::{Clause, Entries};
use rulesheet::codes;
use rulesheet::form::{ClauseRow, EntryRow, RuleForm, clause_at, entry_at};
use sheet::record::RuleRow;
use text::Range;

pub mod steps;

// The clause of these three words. One whose code the table does not have reads as `Clause::Never`;
// no sheet with it is accepted.
fn decoded(row: ClauseRow) -> Clause
    ensures { Decoded row.code row.first row.count result }
{
    let ClauseRow { code, first, count } = row;
    let schema = RuleRow(first);
    let entries = Entries { first, count };
    match code {
        codes::NEVER => Clause::Never,
        codes::TYPE => Clause::Types(first),
        codes::ENUM => Clause::Enum(entries),
        codes::MINIMUM => Clause::Minimum(Decimal::of_word(first, count)),
        codes::MAXIMUM => Clause::Maximum(Decimal::of_word(first, count)),
        codes::EXCLUSIVE_MINIMUM => Clause::ExclusiveMinimum(Decimal::of_word(first, count)),
        codes::EXCLUSIVE_MAXIMUM => Clause::ExclusiveMaximum(Decimal::of_word(first, count)),
        codes::MULTIPLE_OF => Clause::MultipleOf(Decimal::of_word(first, count)),
        codes::MIN_LENGTH => Clause::MinLength(first),
        codes::MAX_LENGTH => Clause::MaxLength(first),
        codes::MIN_ITEMS => Clause::MinItems(first),
        codes::MAX_ITEMS => Clause::MaxItems(first),
        codes::MIN_PROPERTIES => Clause::MinProperties(first),
        codes::MAX_PROPERTIES => Clause::MaxProperties(first),
        codes::REQUIRED => Clause::Required(entries),
        codes::ALL_OF => Clause::AllOf(entries),
        codes::ANY_OF => Clause::AnyOf(entries),
        codes::ONE_OF => Clause::OneOf(entries),
        codes::NOT => Clause::Not(schema),
        codes::REF => Clause::Ref(schema),
        codes::IF_THEN_ELSE => Clause::IfThenElse(entries),
        codes::DEPENDENT_SCHEMAS => Clause::DependentSchemas(entries),
        codes::PROPERTIES => Clause::Properties(entries),
        codes::ADDITIONAL_PROPERTIES => Clause::AdditionalProperties(schema),
        codes::PREFIX_ITEMS => Clause::PrefixItems(entries),
        codes::ITEMS => Clause::Items(schema),
        codes::CONTAINS => Clause::Contains(entries),
        codes::UNEVALUATED_PROPERTIES => Clause::UnevaluatedProperties(schema),
        codes::UNEVALUATED_ITEMS => Clause::UnevaluatedItems(schema),
        _ => Clause::Never,
    }
}

// Clause k.
pub fn clause_of(words: &[u32], form: RuleForm, k: u32) -> Clause
    requires { RulesFormed words.now form × (k < form.c) }
    ensures means_clause { (ts : List ℕ) → clause_means words.now ts result ≡ clause_of words.now ts k }
    ensures tested { Tested words.now form result }
{
    let row = clause_at(words, form, k);
    decoded(row)
}

// Entry i of a list, its words by name: of an enum a value's kind, first and count.
pub fn entry_of(words: &[u32], form: RuleForm, list: Entries, i: u32) -> EntryRow
    requires { RulesFormed words.now form × (list.first + list.count ≤ form.e) × (i < list.count) }
    ensures { result ≡ entry_at words.now (list.first + i) }
{
    entry_at(words, form, list.first + i)
}

// The schema of entry i of a list of schemas.
pub fn entry_schema(words: &[u32], form: RuleForm, list: Entries, i: u32) -> RuleRow
    requires { RulesFormed words.now form × (list.first + list.count ≤ form.e) × (i < list.count) }
    ensures { result.0 ≡ get_or (schemas_in words.now list) i 0 }
{
    RuleRow(entry_of(words, form, list, i).first)
}

// The schema of entry i of a list of names with schemas.
pub fn member_schema(words: &[u32], form: RuleForm, list: Entries, i: u32) -> RuleRow
    requires { RulesFormed words.now form × (list.first + list.count ≤ form.e) × (i < list.count) }
    ensures { (ts : List ℕ) → result.0 ≡ (get_or (members_in words.now ts list) i ([], 0)).1 }
{
    RuleRow(entry_of(words, form, list, i).third)
}

// The name of entry i of a list of names, or of names with schemas, as a range of the rule text.
pub fn entry_name(words: &[u32], form: RuleForm, list: Entries, i: u32) -> Range
    requires { RulesFormed words.now form × (list.first + list.count ≤ form.e) × (i < list.count) }
    ensures { EntryNameRead words.now list i result }
{
    let entry = entry_of(words, form, list, i);
    entry.name()
}
