// Refusals 6 and 7 of a rule sheet whose clauses are in order: the clauses' entries, each passed once,
// and their names.
//
// Contracts cite `rulesheet`'s `Faults`, `Found` and `Read`.
#![tactic(auto)]

ghost use Rattle.std.specs.Prelude.{not, ◌≡◌, ◌+◌, ◌≤◌};
ghost use Rattle.laws.specs.Lowest.{lowest};
ghost use Rattle.rulesheet.specs.Sheet.{schemas_word, entries_word, text_word, entry_at};
ghost use Rattle.rulesheet.specs.Faults.{entry_ok, entry_fault};
ghost use Rattle.rulesheet.specs.Found.{FoundIn};
ghost use Rattle.rulesheet.specs.Read.{RulesFormed, ClausesLaid};

use rulecodes::shape_of;
use rulesheet::clause::Entries;
use rulesheet::code::Fields;
use rulesheet::form::{EntryRow, RuleForm, clause_at, entry_at};
use sheet::kind::RowKind;
use sheet::layout::scalar_ok;

pub mod repeats;

// Whether an entry of a list of these fields is not at fault, with m schemas and a text of `size`
// bytes.
fn entry_ok(fields: Fields, size: usize, m: u32, entry: EntryRow) -> bool
    ensures { result ≡ entry_ok fields size m entry }
{
    match fields {
        Fields::Values => {
            RowKind::known(entry.first)
                & scalar_ok(RowKind::of(entry.first), size, entry.second, entry.third)
        }
        Fields::Names => text::range_fits(size, entry.name()) & (entry.third == 0),
        Fields::Members => text::range_fits(size, entry.name()) & (entry.third < m),
        Fields::Schemas | Fields::Branches => {
            (entry.first < m) & ((entry.second == 0) & (entry.third == 0))
        }
        Fields::Counted => entry.first < m,
        _ => false,
    }
}

// The lowest of the entries of a list of these fields that is at fault.
pub fn first_bad_in(
    words: &[u32],
    form: RuleForm,
    size: usize,
    fields: Fields,
    list: Entries,
) -> Option<u32>
    requires { RulesFormed words.now form × (size ≡ text_word words.now) × (list.first + list.count ≤ form.e) }
    ensures { FoundIn (λ x. not (entry_ok fields (text_word words.now) (schemas_word words.now) (entry_at words.now x))) list.count list.first result }
{
    for x in list.first..list.first + list.count {
        if !entry_ok(fields, size, form.m, entry_at(words, form, x)) {
            return Some(x);
        }
    }
    None
}

// The lowest entry at fault, or the number of entries, as `lowest` in the promise has it. Entries
// after the last list's are taken by none.
pub fn first_bad_entry(words: &[u32], form: RuleForm, size: usize) -> u32
    requires { ClausesLaid words.now form × (size ≡ text_word words.now) }
    ensures { result ≡ lowest (entry_fault words.now) (entries_word words.now) }
{
    let mut x = 0;
    for k in 0..form.c {
        let clause = clause_at(words, form, k);
        let shape = shape_of(clause.code);
        let fields = shape.fields;
        if fields.is_list() {
            let list = Entries {
                first: clause.first,
                count: clause.count,
            };
            if let Some(bad) = first_bad_in(words, form, size, fields, list) {
                return bad;
            }
            x = list.first + list.count;
        }
    }
    x
}
