// Refusal 6 of a rule sheet whose schemas are in order: their clauses, each passed once.
//
// Contracts cite `rulesheet`'s `Faults` and `Read`, and `specs/Passes.antt`.
#![tactic(auto)]

ghost use Rattle.std.specs.Prelude.{◌≡◌, ◌<◌, MatchResult};
ghost use Rattle.laws.specs.Lowest.{lowest};
ghost use Rattle.rulesheet.specs.Sheet.{clauses_word, schema_at};
ghost use Rattle.rulesheet.specs.Faults.{positive_ok, fields_ok, list_start, clause_fault};
ghost use Rattle.rulesheet.specs.Read.{RulesFormed, SchemasLaid};
ghost use Rattle.ruleclauses.specs.Passes.{passed_by, ClausesPassed, ClauseFaulty};

use decimal::Decimal;
use rulecodes::shape_of;
use rulesheet::code::Fields;
use rulesheet::form::{ClauseRow, RuleForm, clause_at, schema_at};
use sheet::kind::RowKind;
use sheet::record::{RuleRow, wide};

// Whether first and count are what these fields ask, with m schemas.
pub fn fields_ok(fields: Fields, m: u32, first: u32, count: u32) -> bool
    ensures { result ≡ fields_ok fields m first count }
{
    match fields {
        Fields::Unknown => false,
        Fields::Bare => (first == 0) & (count == 0),
        Fields::Types => ((1 <= first) & (first < 128)) & (count == 0),
        Fields::Number => RowKind::number_ok(first, count),
        Fields::Positive => positive_ok(first, count),
        Fields::Limit => count == 0,
        Fields::Schema => (first < m) & (count == 0),
        Fields::Values
        | Fields::Names
        | Fields::Schemas
        | Fields::Members
        | Fields::Branches
        | Fields::Counted => true,
    }
}

// Whether the two words are a number above 0, within its bounds.
fn positive_ok(first: u32, count: u32) -> bool
    ensures { result ≡ positive_ok first count }
{
    (1 <= first) & ((u64::from(first) <= RowKind::NUMBER_MAX) & (count <= Decimal::SCALE_MAX))
}

// Passes a clause of a schema, but for the rise of its code: where the next list starts after it, if
// it is not at fault. `start` is where it starts before it.
fn pass_clause(words: &[u32], form: RuleForm, start: usize, clause: ClauseRow) -> Option<usize>
    requires { RulesFormed words.now form }
    ensures { result ≡ passed_by words.now start clause }
{
    let shape = shape_of(clause.code);
    let fields = shape.fields;
    if fields.is_list() {
        let first = wide(clause.first);
        let end = first + wide(clause.count);
        if (first == start)
            & ((end <= wide(form.e))
                & ((shape.least <= clause.count) & (clause.count <= shape.most)))
        {
            return Some(end);
        }
        return None;
    }
    if fields_ok(fields, form.m, clause.first, clause.count) {
        return Some(start);
    }
    None
}

// Passes the clauses of a schema, each read once: where the next list starts after them, or the lowest
// clause at fault.
fn pass_clauses(words: &[u32], form: RuleForm, schema: RuleRow, from: usize) -> Result<usize, u32>
    requires { SchemasLaid words.now form × (schema.0 < form.m) × (from ≡ list_start words.now (schema_at words.now schema.0).first) }
    ensures { MatchResult result (ClausesPassed words.now schema.0) (ClauseFaulty words.now schema.0) }
{
    let row = schema_at(words, form, schema);
    let first = row.first;
    let end = first + row.count;
    let mut start = from;
    let mut last = 0;
    for k in first..end {
        let clause = clause_at(words, form, k);
        let code = clause.code;
        if !((k == first) | (last < code)) {
            return Err(k);
        }
        let Some(next) = pass_clause(words, form, start, clause) else {
            return Err(k);
        };
        start = next;
        last = code;
    }
    Ok(start)
}

// The lowest clause at fault, or the number of clauses, as `lowest` in the promise has it. Clauses
// after the last schema's are taken by none.
pub fn first_bad_clause(words: &[u32], form: RuleForm) -> u32
    requires { SchemasLaid words.now form }
    ensures { result ≡ lowest (clause_fault words.now) (clauses_word words.now) }
{
    let mut start = 0;
    let mut k = 0;
    for s in 0..form.m {
        let row = schema_at(words, form, RuleRow(s));
        match pass_clauses(words, form, RuleRow(s), start) {
            Ok(next) => start = next,
            Err(fault) => return fault,
        }
        k = row.first + row.count;
    }
    k
}
