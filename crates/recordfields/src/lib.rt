// What a record sheet's trailer and the words of one row tell without the other rows: refusal 1, and
// the parts of 2 that are asked of a row by itself. Contracts cite `sheet`'s specs/Faults.antt.
#![tactic(auto)]

ghost use Rattle.std.specs.Prelude.{◌&&◌, ◌≡◌};
ghost use Rattle.sheet.specs.Faults.{trailer_fits, words_ok, text_ok, children_ok, fields_ok, label_ok, root_ok};

use sheet::kind::RowKind;
use sheet::layout::{TEXT_MAX, scalar_ok};
use sheet::record::{RecordForm, Row, wide};
use text::Range;

// Whether the trailer's words fit each other and a sheet of `size` words.
fn trailer_fits(size: usize, rows: u32, back: u32, kind: u32) -> bool
    ensures { result ≡ trailer_fits size rows back kind }
{
    let n = rows as usize;
    let b = back as usize;
    (kind == RecordForm::KIND)
        & ((1 <= n)
            & ((n <= RecordForm::ROWS_MAX)
                & ((b == RecordForm::ROW_WORDS * n) & (b + RecordForm::TRAILER_WORDS <= size))))
}

// Whether the trailer is in order, over a text of `size` bytes.
pub fn trailer_ok(words: &[u32], size: usize) -> bool
    ensures { result ≡ (words_ok words.now && text_ok words.now size) }
{
    let n = words.len();
    if n < RecordForm::TRAILER_WORDS {
        return false;
    }
    let said = wide(words[n - 2]);
    trailer_fits(n, words[n - 4], words[n - 3], words[n - 1])
        & ((said == size) & (size <= TEXT_MAX))
}

// Whether row j of n may have these children: none, or rows that stand after it.
fn children_ok(n: u32, j: u32, first: u32, count: u32) -> bool
    ensures { result ≡ children_ok n j first count }
{
    ((first == 0) & (count == 0))
        | ((0 < count) & ((j < first) & (first as usize + count as usize <= n as usize)))
}

// Whether the row's kind is known and its fields are what that kind may hold.
pub fn fields_ok(size: usize, n: u32, j: u32, row: Row) -> bool
    ensures { result ≡ fields_ok size n j row }
{
    match RowKind::try_from(row.kind) {
        Ok(kind) if kind.holds_children() => children_ok(n, j, row.first, row.count),
        Ok(kind) => scalar_ok(kind, size, row.first, row.count),
        Err(_) => false,
    }
}

// Whether a child of an owner of this kind may have this label.
pub fn label_ok(kind: RowKind, size: usize, label: Range) -> bool
    ensures { result ≡ label_ok kind size label }
{
    match kind {
        RowKind::Array => (label.start == 0) & (label.length == 0),
        RowKind::Object => text::range_fits(size, label),
        _ => false,
    }
}

// Whether the row is the root as it must be: it names itself and has no label.
pub fn root_ok(row: Row) -> bool
    ensures { result ≡ root_ok row }
{
    let Row { owner, label, .. } = row;
    (owner == 0) & ((label.start == 0) & (label.length == 0))
}
