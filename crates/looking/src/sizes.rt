// The size of a row: the characters of a string, the elements of an array, the members of an object;
// and where the bytes of a string stand.
ghost use Rattle.std.specs.Prelude.{List, ◌≡◌, ℕ, ◌<◌, length};
ghost use Rattle.sheet.specs.Doc.{Value};
ghost use Rattle.sheet.specs.Record.{text_word, doc_of};
ghost use Rattle.sheet.specs.Accepted.{Laid};
ghost use Rattle.meaning.specs.Tests.{bytes?, elements?, members?, length_of};
ghost use Rattle.looking.specs.Read.{FitsIn, size_in, size_by, size_of, count_if, StringFound};

use crate::numbers::is_kind;
use sheet::kind::RowKind;
use sheet::record::{RecordForm, RecordRow, children_of, string_of};
use text::Range;

// The row's bytes, as a range of the text, if it is a string.
pub fn string_in(record: &[u32], form: RecordForm, row: RecordRow) -> Option<Range>
    requires { Laid «record».now form × (row.0 < form.rows) }
    ensures { (ts : List ℕ) → length ts ≡ text_word «record».now → StringFound ts ((doc_of «record».now ts).value row.0) result }
{
    is_kind(record, form, row, RowKind::STRING).then(|| string_of(record, form, row))
}

// How many characters a string has that was found.
pub fn length_of(text: &[u8], found: Option<Range>) -> Option<u32>
    requires { FitsIn (length text.now) found }
    ensures { (v : Value) → StringFound text.now v found → size_in result ≡ size_by length_of (bytes? v) }
{
    found.map(|bytes| counting::characters(text, bytes))
}

// How many children the row has, if it is of the kind that has this number.
fn children_of_kind(record: &[u32], form: RecordForm, row: RecordRow, kind: u32) -> Option<u32>
    requires { Laid «record».now form × (row.0 < form.rows) }
    ensures { (ts : List ℕ) → size_in result ≡ count_if kind ((doc_of «record».now ts).value row.0) }
{
    is_kind(record, form, row, kind).then(|| children_of(record, form, row).count)
}

// How many elements an array has.
pub fn elements_of(record: &[u32], form: RecordForm, row: RecordRow) -> Option<u32>
    requires { Laid «record».now form × (row.0 < form.rows) }
    ensures { (ts : List ℕ) → size_in result ≡ size_of (elements? ((doc_of «record».now ts).value row.0)) }
{
    children_of_kind(record, form, row, RowKind::ARRAY)
}

// How many members an object has.
pub fn members_of(record: &[u32], form: RecordForm, row: RecordRow) -> Option<u32>
    requires { Laid «record».now form × (row.0 < form.rows) }
    ensures { (ts : List ℕ) → size_in result ≡ size_of (members? ((doc_of «record».now ts).value row.0)) }
{
    children_of_kind(record, form, row, RowKind::OBJECT)
}
