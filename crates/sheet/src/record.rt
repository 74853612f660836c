// The rows of a record sheet, read by name. Contracts speak of the record that the words stand for
// (`doc_of`), whatever the text; no word's position leaves this file.
ghost use Rattle.std.specs.Prelude.{true, List, ◌≡◌, ℕ, ◌<◌};
ghost use Rattle.sheet.specs.Doc.{value_kind};
ghost use Rattle.sheet.specs.Record.{form_of, row_at, doc_of};
ghost use Rattle.sheet.specs.Faults.{words_ok};
ghost use Rattle.sheet.specs.Accepted.{Formed, Laid, ChildrenRead, NameRead, StringRead, NumberRead};

use crate::kind::RowKind;
use decimal::Decimal;
use text::Range;

// A row of the record: never a schema.
#[derive(Clone, Copy)]
pub struct RecordRow(pub u32);

// A row of the rules, which is a schema: never a row of the record.
#[derive(Clone, Copy)]
pub struct RuleRow(pub u32);

// A row and a schema that judges it.
#[derive(Clone, Copy)]
pub struct Pair {
    pub row: RecordRow,
    pub rule: RuleRow,
}

// Where row 0 stands among the words, and how many rows there are.
#[derive(Clone, Copy)]
pub struct RecordForm {
    pub start: usize,
    pub rows: u32,
}

// A row's six words, by name.
#[derive(Clone, Copy)]
pub struct Row {
    pub kind: u32,
    pub first: u32,
    pub count: u32,
    pub owner: u32,
    pub label: Range,
}

// The children of a row: `count` rows from `first` on; 0 and 0 where there are none.
#[derive(Clone, Copy)]
pub struct Children {
    pub first: u32,
    pub count: u32,
}

// A word as a number that can be an index.
pub fn wide(word: u32) -> usize
    ensures { result ≡ word }
{
    word as usize
}

impl RecordForm {
    pub const KIND: u32 = 1;

    pub const TRAILER_WORDS: usize = 4;

    pub const ROW_WORDS: usize = 6;

    pub const ROWS_MAX: usize = 1_024;

    // The form of words whose trailer is in order.
    pub fn of(words: &[u32]) -> RecordForm
        requires { words_ok words.now ≡ true }
        ensures { result ≡ form_of words.now }
    {
        let size = words.len();
        let back = wide(words[size - 3]);
        RecordForm {
            start: size - RecordForm::TRAILER_WORDS - back,
            rows: words[size - 4],
        }
    }
}

// The row's words.
pub fn row_at(words: &[u32], form: RecordForm, row: RecordRow) -> Row
    requires { Formed words.now form × (row.0 < form.rows) }
    ensures { result ≡ row_at words.now row.0 }
{
    let at = form.start + RecordForm::ROW_WORDS * wide(row.0);
    Row {
        kind: words[at],
        first: words[at + 1],
        count: words[at + 2],
        owner: words[at + 3],
        label: Range {
            start: words[at + 4],
            length: words[at + 5],
        },
    }
}

// The row's kind.
pub fn kind_of(words: &[u32], form: RecordForm, row: RecordRow) -> RowKind
    requires { Formed words.now form × (row.0 < form.rows) }
    ensures { (ts : List ℕ) → result ≡ value_kind ((doc_of words.now ts).value row.0) }
{
    RowKind::of(row_at(words, form, row).kind)
}

// The row's children: none of a row that is no array and no object.
pub fn children_of(words: &[u32], form: RecordForm, row: RecordRow) -> Children
    requires { Formed words.now form × (row.0 < form.rows) }
    ensures { ChildrenRead words.now row.0 result }
{
    let Row {
        kind,
        first,
        count,
        ..
    } = row_at(words, form, row);
    if RowKind::of(kind).holds_children() {
        Children { first, count }
    } else {
        Children { first: 0, count: 0 }
    }
}

// The row's name under its owner, as a range of the text; an empty range where it has none.
pub fn name_of(words: &[u32], form: RecordForm, row: RecordRow) -> Range
    requires { Laid words.now form × (row.0 < form.rows) }
    ensures { NameRead words.now row.0 result }
{
    row_at(words, form, row).label
}

// The bytes of a row that is a string, as a range of the text.
pub fn string_of(words: &[u32], form: RecordForm, row: RecordRow) -> Range
    requires { Laid words.now form × (row.0 < form.rows) }
    ensures { StringRead words.now row.0 result }
{
    let it = row_at(words, form, row);
    Range {
        start: it.first,
        length: it.count,
    }
}

// The value of a row that is a number.
pub fn number_of(words: &[u32], form: RecordForm, row: RecordRow) -> Decimal
    requires { Laid words.now form × (row.0 < form.rows) }
    ensures { NumberRead words.now row.0 result }
{
    let it = row_at(words, form, row);
    Decimal::of_word(it.first, it.count)
}
