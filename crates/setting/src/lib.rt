// What the second pass over a JSON text does to the words, in code: how a row is written, how a
// container is closed, and the trailer.
//
// Contracts cite `placing`'s specs/Desk.antt.
#![tactic(auto)]

ghost use Rattle.std.specs.Prelude.{◌≡◌, [], ◌∷◌, ◌+◌, ◌*◌, ◌≤◌, ◌<◌, length};
ghost use Rattle.sheet.specs.Record.{row_words};
ghost use Rattle.placing.specs.Desk.{row_put, row_shut, owner_at, cleared, finished};

use sheet::kind::RowKind;
use sheet::record::{RecordForm, Row};

// Row r of n takes these words.
pub fn put_row(words: &mut [u32], n: usize, r: usize, row: Row)
    requires { row_words * n ≤ length words.old }
    ensures { words.new ≡ row_put n words.old r (row.kind ∷ row.first ∷ row.count ∷ row.owner ∷ row.label.start ∷ row.label.length ∷ []) }
{
    if r >= n {
        return;
    }
    let at = RecordForm::ROW_WORDS * r;
    words[at] = row.kind;
    words[at + 1] = row.first;
    words[at + 2] = row.count;
    words[at + 3] = row.owner;
    words[at + 4] = row.label.start;
    words[at + 5] = row.label.length;
}

// Row r of n, if it is a container, once its children are counted: `next` is the next row of their
// level.
pub fn shut_row(words: &mut [u32], n: usize, r: usize, next: u32)
    requires { row_words * n ≤ length words.old }
    ensures { words.new ≡ row_shut n words.old r next }
{
    if r >= n {
        return;
    }
    let at = RecordForm::ROW_WORDS * r;
    if words[at] < RowKind::ARRAY {
        return;
    }
    let first = words[at + 1];
    if next <= first {
        words[at + 1] = 0;
        words[at + 2] = 0;
        return;
    }
    words[at + 1] = first;
    words[at + 2] = next - first;
}

// The owner of a row of level k: the last row that was taken one level higher.
pub fn owner_at(rows: &[u32], k: usize) -> u32
    requires { k < length rows.now }
    ensures { result ≡ owner_at k rows.now }
{
    if k == 0 {
        return 0;
    }
    rows[k - 1].saturating_sub(1)
}

// The words of n rows are 0.
pub fn clear_rows(words: &mut [u32], n: usize)
    requires { row_words * n ≤ length words.old }
    ensures { words.new ≡ cleared n words.old }
{
    words[..RecordForm::ROW_WORDS * n].fill(0);
}

// The trailer behind n rows, where the text has so many bytes.
pub fn finish(words: &mut [u32], n: u32, size: u32)
    requires { (row_words * n + 4 ≤ length words.old) × (n < 65_536) }
    ensures { words.new ≡ finished n size words.old }
{
    let back = RecordForm::ROW_WORDS as u32 * n;
    let at = back as usize;
    words[at] = n;
    words[at + 1] = back;
    words[at + 2] = size;
    words[at + 3] = RecordForm::KIND;
}
