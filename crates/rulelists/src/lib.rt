// The entries of a list clause: whether all are in order, and their names differ. Contracts cite
// `specs/Lists.antt`.
#![tactic(auto)]

ghost use Rattle.std.specs.Prelude.{true, false, ◌≡◌, ◌+◌, ◌≤◌, ◌<◌, length};
ghost use Rattle.text.specs.Part.{fits};
ghost use Rattle.rulesheet.specs.Sheet.{text_word, entry_at};
ghost use Rattle.rulesheet.specs.Codes.{entry_range, entry_name};
ghost use Rattle.rulesheet.specs.Faults.{is_named};
ghost use Rattle.rulesheet.specs.Read.{RulesFormed};
ghost use Rattle.rulelists.specs.Lists.{named_ok, bound_of, key_of, AllNamed, NamesFit, NamesDiffer, ListFine};

use names::Names;
use ruleentries::first_bad_in;
use rulesheet::clause::Entries;
use rulesheet::code::Fields;
use rulesheet::form::{EntryRow, RuleForm, entry_at};
use sheet::record::wide;

// Up to so many names are told apart by their keys.
const KEYS: u32 = 4;

// Below which number the third word of an entry stands, of a list of these fields: 0 beside a mere
// name.
fn bound_of(fields: Fields, m: u32) -> u32
    ensures { result ≡ bound_of fields m }
{
    match fields {
        Fields::Members => m,
        _ => 1,
    }
}

// Whether an entry's name lies within a text of `size` bytes, and its third word below the bound.
fn named_ok(size: usize, bound: u32, entry: EntryRow) -> bool
    ensures { result ≡ named_ok size bound entry }
{
    text::range_fits(size, entry.name()) & (entry.third < bound)
}

// Whether that is so of all these entries.
fn all_named(words: &[u32], form: RuleForm, size: usize, bound: u32, list: Entries) -> bool
    requires { RulesFormed words.now form × (list.first + list.count ≤ form.e) }
    ensures { result ≡ true → AllNamed words.now size bound list.first (list.first + list.count) }
{
    for x in list.first..list.first + list.count {
        if !named_ok(size, bound, entry_at(words, form, x)) {
            return false;
        }
    }
    true
}

// A key of a name, by its length and its last byte: names whose keys differ are not the same.
fn key(name: &[u8]) -> u64
    requires { length name.now < 4294967296 }
    ensures { result ≡ key_of name.now }
{
    match name {
        [.., last] => 256 * name.len() as u64 + u64::from(*last),
        [] => 0,
    }
}

// The key of an entry's name.
fn key_at(words: &[u32], text: &[u8], form: RuleForm, x: u32) -> u64
    requires { RulesFormed words.now form × (x < form.e) × (fits (length text.now) (entry_range (entry_at words.now x)) ≡ true) }
    ensures { result ≡ key_of (entry_name text.now (entry_at words.now x)) }
{
    let entry = entry_at(words, form, x);
    key(text::bytes_of(text, entry.name()))
}

// Whether two names, or three or four, all have different keys.
fn keys_differ(words: &[u32], text: &[u8], form: RuleForm, list: Entries) -> bool
    requires rules_formed { RulesFormed words.now form × (list.first + list.count ≤ form.e) × NamesFit words.now (length text.now) list.first list.count }
    requires le_count { (2 ≤ list.count) × (list.count ≤ 4) }
    ensures { result ≡ true → NamesDiffer words.now text.now list.first list.count }
{
    let Entries { first, count } = list;
    let a = key_at(words, text, form, first);
    let b = key_at(words, text, form, first + 1);
    if a == b {
        return false;
    }
    if count == 2 {
        return true;
    }
    let c = key_at(words, text, form, first + 2);
    if (a == c) | (b == c) {
        return false;
    }
    if count == 3 {
        return true;
    }
    let d = key_at(words, text, form, first + 3);
    if (a == d) | ((b == d) | (c == d)) {
        return false;
    }
    true
}

// Whether no two of these entries share a name.
fn names_differ(words: &[u32], text: &[u8], form: RuleForm, list: Entries) -> bool
    requires { RulesFormed words.now form × (list.first + list.count ≤ form.e) × NamesFit words.now (length text.now) list.first list.count }
    ensures { result ≡ true → NamesDiffer words.now text.now list.first list.count }
{
    let lying = Names {
        base: form.entries + RuleForm::ENTRY_WORDS * wide(list.first),
        stride: RuleForm::ENTRY_WORDS,
        count: wide(list.count),
    };
    namesakes::first_repeated(words, text, lying) == wide(list.count)
}

// The same; most lists have few names, whose keys tell.
fn few_differ(words: &[u32], text: &[u8], form: RuleForm, list: Entries) -> bool
    requires { RulesFormed words.now form × (list.first + list.count ≤ form.e) × NamesFit words.now (length text.now) list.first list.count }
    ensures { result ≡ true → NamesDiffer words.now text.now list.first list.count }
{
    if list.count <= 1 {
        return true;
    }
    if list.count <= KEYS && keys_differ(words, text, form, list) {
        return true;
    }
    names_differ(words, text, form, list)
}

// The same, and whether the entries, which have names, are in order.
pub fn named_fine(words: &[u32], text: &[u8], form: RuleForm, fields: Fields, list: Entries) -> bool
    requires { RulesFormed words.now form × (length text.now ≡ text_word words.now) × (list.first + list.count ≤ form.e) × (is_named fields ≡ true) }
    ensures { result ≡ true → ListFine words.now text.now fields list.first list.count }
{
    let bound = bound_of(fields, form.m);
    all_named(words, form, text.len(), bound, list) && few_differ(words, text, form, list)
}

// Whether the entries of a list of fields without names are in order.
fn unnamed_fine(words: &[u32], text: &[u8], form: RuleForm, fields: Fields, list: Entries) -> bool
    requires { RulesFormed words.now form × (length text.now ≡ text_word words.now) × (list.first + list.count ≤ form.e) × (is_named fields ≡ false) }
    ensures { result ≡ true → ListFine words.now text.now fields list.first list.count }
{
    first_bad_in(words, form, text.len(), fields, list).is_none()
}

// Whether the entries of a list of any fields are in order, and their names, if they have some, differ.
fn others_fine(words: &[u32], text: &[u8], form: RuleForm, fields: Fields, list: Entries) -> bool
    requires { RulesFormed words.now form × (length text.now ≡ text_word words.now) × (list.first + list.count ≤ form.e) }
    ensures { result ≡ true → ListFine words.now text.now fields list.first list.count }
{
    if !fields.is_named() {
        return unnamed_fine(words, text, form, fields, list);
    }
    first_bad_in(words, form, text.len(), fields, list).is_none()
        && names_differ(words, text, form, list)
}

// The same. Enums and lists of schemas, of which most sheets have some, are asked for by themselves, as
// lists of names are by `named_fine`, which has one caller so that it becomes part of it.
pub fn entries_fine(
    words: &[u32],
    text: &[u8],
    form: RuleForm,
    fields: Fields,
    list: Entries,
) -> bool
    requires { RulesFormed words.now form × (length text.now ≡ text_word words.now) × (list.first + list.count ≤ form.e) }
    ensures { result ≡ true → ListFine words.now text.now fields list.first list.count }
{
    match fields {
        Fields::Values => unnamed_fine(words, text, form, Fields::Values, list),
        Fields::Schemas => unnamed_fine(words, text, form, Fields::Schemas, list),
        _ => others_fine(words, text, form, fields, list),
    }
}
