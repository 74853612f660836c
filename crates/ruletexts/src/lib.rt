// Refusal 13 of a rule sheet: an entry whose name or, of an enum, whose string is not UTF-8.
//
// Contracts cite `rulesheet`'s `Faults`, `Found` and `Read`, and `specs/Ranges.antt`.
#![tactic(auto)]

ghost use Rattle.std.specs.Prelude.{true, ◌≡◌, ◌<◌, length};
ghost use Rattle.laws.specs.Lowest.{lowest};
ghost use Rattle.reach.specs.Reach.{Known, places};
ghost use Rattle.rulesheet.specs.Sheet.{entries_word, text_word, clause_at};
ghost use Rattle.rulesheet.specs.Faults.{is_list, fields_at, not_utf8};
ghost use Rattle.rulesheet.specs.Found.{FoundIn};
ghost use Rattle.rulesheet.specs.Read.{RulesLaid};
ghost use Rattle.ruletexts.specs.Ranges.{StringRange, TextRange};

use reach::{BLOCKS, is_ascii, know, settles};
use rulecodes::shape_of;
use rulesheet::code::Fields;
use rulesheet::form::{EntryRow, RuleForm, clause_at, entry_at};
use sheet::kind::RowKind;
use text::Range;

// An empty range, which every text has.
const NOTHING: Range = Range {
    start: 0,
    length: 0,
};

// The string that an entry of an enum holds, as a range of the text: an empty one of any other kind.
fn string_range(entry: EntryRow) -> Range
    ensures { StringRange entry result }
{
    if RowKind::of(entry.first).number() != RowKind::STRING {
        return NOTHING;
    }
    Range {
        start: entry.second,
        length: entry.third,
    }
}

// The text that an entry of a list of these fields names: an empty range where it names none.
fn text_range(fields: Fields, entry: EntryRow) -> Range
    ensures { TextRange fields entry result }
{
    match fields {
        Fields::Values => string_range(entry),
        Fields::Names | Fields::Members => entry.name(),
        _ => NOTHING,
    }
}

// The lowest entry of clause k, which is a list, whose text is not UTF-8.
fn first_in(
    words: &[u32],
    text: &[u8],
    form: RuleForm,
    memo: &[u32],
    whole: bool,
    k: u32,
) -> Option<u32>
    requires rules_laid { RulesLaid words.now form × (length text.now ≡ text_word words.now) × Known text.now memo.now whole }
    requires clause_listed { (k < form.c) × (is_list (fields_at words.now k) ≡ true) }
    ensures { FoundIn (not_utf8 words.now text.now) (clause_at words.now k).count (clause_at words.now k).first result }
{
    let clause = clause_at(words, form, k);
    let shape = shape_of(clause.code);
    let fields = shape.fields;
    let end = clause.first + clause.count;
    for x in clause.first..end {
        let range = text_range(fields, entry_at(words, form, x));
        if !settles(text, memo, whole, range) {
            return Some(x);
        }
    }
    None
}

// The lowest such entry of all the clauses, or the number of entries, as `lowest` has it.
fn first_by(words: &[u32], text: &[u8], form: RuleForm, memo: &[u32], whole: bool) -> u32
    requires { RulesLaid words.now form × (length text.now ≡ text_word words.now) × Known text.now memo.now whole }
    ensures { result ≡ lowest (not_utf8 words.now text.now) (entries_word words.now) }
{
    for k in 0..form.c {
        let clause = clause_at(words, form, k);
        let shape = shape_of(clause.code);
        let fields = shape.fields;
        if fields.is_list() {
            if let Some(bad) = first_in(words, text, form, memo, whole, k) {
                return bad;
            }
        }
    }
    form.e
}

// The lowest entry that names a text range that is not UTF-8, or the number of entries. A text of
// ASCII settles all ranges at once.
pub fn first_not_utf8(words: &[u32], text: &[u8], form: RuleForm) -> u32
    requires { RulesLaid words.now form × (length text.now ≡ text_word words.now) × (length text.now < places) }
    ensures { result ≡ lowest (not_utf8 words.now text.now) (entries_word words.now) }
{
    if is_ascii(text) {
        return form.e;
    }
    let mut memo = [0u32; BLOCKS];
    let whole = know(text, &mut memo);
    first_by(words, text, form, &memo, whole)
}
