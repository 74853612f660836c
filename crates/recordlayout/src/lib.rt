// Refusals 2 and 4 of a record sheet: one forward pass over the rows that finds the lowest row at
// fault and the lowest row too deep. Contracts cite `sheet`'s specs/Faults.antt, and specs/Passes.antt.
#![tactic(auto)]

ghost use Rattle.std.specs.Prelude.{true, cond, ◌≡◌, ◌<◌, eqb, ltb};
ghost use Rattle.sheet.specs.Record.{text_word};
ghost use Rattle.sheet.specs.Faults.{fields_ok, placed_under, place_ok, owns_ok, row_ok, level_refused};
ghost use Rattle.sheet.specs.Accepted.{Formed};
ghost use Rattle.recordlayout.specs.Passes.{Passed};

use recordfields::{fields_ok, label_ok, root_ok};
use sheet::kind::RowKind;
use sheet::record::{RecordForm, Row, wide};
use sheet::record_rows::RecordRows;
use text::Range;

// The first level that is refused; the root is at level 1.
pub const LEVEL_REFUSED: u16 = 33;

// What one pass over the rows finds: the lowest row at fault, and, where none is, the lowest row at
// the first level that is refused. Each is the number of rows where there is none: `Passed` says so
// by `lowest`, as all lines of the refusal table do.
#[derive(Clone, Copy)]
pub struct Pass {
    pub fault: u32,
    pub deep: u32,
}

// Whether row j, with this label, lies in the range of this owner.
fn placed_under(owner: Row, j: u32, size: usize, label: Range) -> bool
    ensures { result ≡ placed_under owner j size label }
{
    let end = owner.first as usize + owner.count as usize;
    label_ok(RowKind::of(owner.kind), size, label) & ((owner.first <= j) & ((j as usize) < end))
}

// Whether row j is the root as it must be, or lies in the range of the owner it names.
fn place_ok(rows: &RecordRows<'_>, j: u32, row: Row) -> bool
    ensures { result ≡ place_ok rows.now.words.now j row }
{
    if j == 0 {
        return root_ok(row);
    }
    if rows.form.rows <= row.owner {
        return false;
    }
    placed_under(rows.row(row.owner), j, rows.size, row.label)
}

// Whether the rows in the range of row j, if it can have children, name it as their owner.
fn owns_ok(rows: &RecordRows<'_>, j: u32, row: Row) -> bool
    requires { fields_ok rows.now.size rows.now.form.rows j row ≡ true }
    ensures { result ≡ owns_ok rows.now.words.now j row }
{
    if !RowKind::of(row.kind).holds_children() {
        return true;
    }
    for k in row.first..row.first + row.count {
        if rows.row(k).owner != j {
            return false;
        }
    }
    true
}

// Whether row j is not at fault.
fn row_ok(rows: &RecordRows<'_>, j: u32) -> bool
    requires { j < rows.now.form.rows }
    ensures { result ≡ row_ok rows.now.words.now j }
{
    let row = rows.row(j);
    fields_ok(rows.size, rows.form.rows, j, row) && place_ok(rows, j, row) && owns_ok(rows, j, row)
}

// The row too deep that was found before row j, or j if it is the first: n while there is none.
fn first_deep(deep: u32, n: u32, j: u32, level: u16) -> u32
    ensures { result ≡ cond (ltb deep n) deep (cond (eqb level level_refused) j n) }
{
    if deep < n {
        deep
    } else if level == LEVEL_REFUSED {
        j
    } else {
        n
    }
}

// One forward pass over the rows, each asked once for its faults and its level; it ends at the
// first row at fault.
pub fn pass_rows(words: &[u32], form: RecordForm, size: usize) -> Pass
    requires { Formed words.now form × (size ≡ text_word words.now) }
    ensures { Passed words.now result }
{
    let rows = RecordRows { words, form, size };
    let n = form.rows;
    let mut levels = [0u16; RecordForm::ROWS_MAX];
    let mut deep = n;
    for j in 0..n {
        if !row_ok(&rows, j) {
            return Pass { fault: j, deep };
        }
        let level = levels[wide(rows.row(j).owner)] + 1;
        levels[wide(j)] = level;
        deep = first_deep(deep, n, j, level);
    }
    Pass { fault: n, deep }
}
