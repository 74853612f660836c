// Clauses of a few codes. Who asks a clause one thing reads only the codes that matter for it, so that
// reading and asking become one dispatch: over one table of all codes they were two. Each clause of
// another code reads as `Clause::Never`, and no `None`, since the promises say what `Never` means.
//
// Its contracts cite `specs/Asked.antt`.
#![tactic(auto)]

ghost use Rattle.std.specs.Prelude.{true, List, ◌≡◌, ℕ, ◌<◌};
ghost use Rattle.rulesheet.specs.Sheet.{clause_at, clause_of};
ghost use Rattle.rulesheet.specs.Faults.{clause_fine};
ghost use Rattle.rulesheet.specs.Read.{RulesFormed};
ghost use Rattle.rulesheet.specs.Clauses.{clause_means, Tested};
ghost use Rattle.few.specs.Asked.{telling, applying, told, sparing, applies_any, PlainRead, ReadBy};

use decimal::Decimal;
use rulesheet::clause::{Clause, Entries};
use rulesheet::codes;
use rulesheet::form::{ClauseRow, RuleForm, clause_at};
use sheet::record::RuleRow;

// Clause k if it tells something to those after it.
pub fn telling_of(words: &[u32], form: RuleForm, k: u32) -> Clause
    requires { RulesFormed words.now form × (k < form.c) }
    ensures means_telling { (ts : List ℕ) → clause_means words.now ts result ≡ telling (clause_of words.now ts k) }
    ensures tested { Tested words.now form result }
{
    let row = clause_at(words, form, k);
    let list = Entries {
        first: row.first,
        count: row.count,
    };
    match row.code {
        codes::PROPERTIES => Clause::Properties(list),
        codes::PREFIX_ITEMS => Clause::PrefixItems(list),
        _ => Clause::Never,
    }
}

// Clause k if those before it tell it something.
pub fn told_of(words: &[u32], form: RuleForm, k: u32) -> Clause
    requires { RulesFormed words.now form × (k < form.c) }
    ensures means_told { (ts : List ℕ) → clause_means words.now ts result ≡ told (clause_of words.now ts k) }
    ensures tested { Tested words.now form result }
{
    let row = clause_at(words, form, k);
    let schema = RuleRow(row.first);
    match row.code {
        codes::ADDITIONAL_PROPERTIES => Clause::AdditionalProperties(schema),
        codes::ITEMS => Clause::Items(schema),
        _ => Clause::Never,
    }
}

// The least code that applies schemas: those below it are tests.
const APPLYING: u32 = codes::ALL_OF;

// Whether the clause of these words, which breaks no layout, applies schemas.
pub fn applies(row: ClauseRow) -> bool
    ensures { (ws ts : List ℕ) (k : ℕ) → clause_fine ws k ≡ true → row ≡ clause_at ws k → result ≡ applies_any (clause_of ws ts k) }
{
    APPLYING <= row.code
}

// The clause of these words if it applies schemas.
pub fn applied_by(row: ClauseRow) -> Clause
    ensures { ReadBy applying row result }
{
    let schema = RuleRow(row.first);
    let entries = Entries {
        first: row.first,
        count: row.count,
    };
    match row.code {
        codes::ALL_OF => Clause::AllOf(entries),
        codes::ANY_OF => Clause::AnyOf(entries),
        codes::ONE_OF => Clause::OneOf(entries),
        codes::NOT => Clause::Not(schema),
        codes::REF => Clause::Ref(schema),
        codes::IF_THEN_ELSE => Clause::IfThenElse(entries),
        codes::DEPENDENT_SCHEMAS => Clause::DependentSchemas(entries),
        codes::PROPERTIES => Clause::Properties(entries),
        codes::ADDITIONAL_PROPERTIES => Clause::AdditionalProperties(schema),
        codes::PREFIX_ITEMS => Clause::PrefixItems(entries),
        codes::ITEMS => Clause::Items(schema),
        codes::CONTAINS => Clause::Contains(entries),
        codes::UNEVALUATED_PROPERTIES => Clause::UnevaluatedProperties(schema),
        codes::UNEVALUATED_ITEMS => Clause::UnevaluatedItems(schema),
        _ => Clause::Never,
    }
}

// The clause of these words if it may hold although one of its schemas fails.
pub fn sparing_by(row: ClauseRow) -> Clause
    ensures { ReadBy sparing row result }
{
    let schema = RuleRow(row.first);
    let entries = Entries {
        first: row.first,
        count: row.count,
    };
    match row.code {
        codes::ANY_OF => Clause::AnyOf(entries),
        codes::ONE_OF => Clause::OneOf(entries),
        codes::NOT => Clause::Not(schema),
        codes::IF_THEN_ELSE => Clause::IfThenElse(entries),
        codes::CONTAINS => Clause::Contains(entries),
        _ => Clause::Never,
    }
}

// Clause k if its test is one that a row's own words mostly tell.
pub fn plain_of(words: &[u32], form: RuleForm, k: u32) -> Clause
    requires { RulesFormed words.now form × (k < form.c) }
    ensures { PlainRead words.now form k result }
{
    let row = clause_at(words, form, k);
    let first = row.first;
    let count = row.count;
    match row.code {
        codes::TYPE => Clause::Types(first),
        codes::MINIMUM => Clause::Minimum(Decimal::of_word(first, count)),
        codes::MAXIMUM => Clause::Maximum(Decimal::of_word(first, count)),
        codes::EXCLUSIVE_MINIMUM => Clause::ExclusiveMinimum(Decimal::of_word(first, count)),
        codes::EXCLUSIVE_MAXIMUM => Clause::ExclusiveMaximum(Decimal::of_word(first, count)),
        codes::MIN_LENGTH => Clause::MinLength(first),
        codes::MAX_LENGTH => Clause::MaxLength(first),
        codes::MIN_ITEMS => Clause::MinItems(first),
        codes::MAX_ITEMS => Clause::MaxItems(first),
        codes::MIN_PROPERTIES => Clause::MinProperties(first),
        codes::MAX_PROPERTIES => Clause::MaxProperties(first),
        _ => Clause::Never,
    }
}
