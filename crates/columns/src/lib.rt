// The marks of many rows in one column: `kids` are the children of some row, whose marks stand in the
// column of a schema. Nothing here stores into cells but by `areas::write_mark`.
//
// Its contracts cite specs/ of `areas`: `Cells`, `Writers`.
#![tactic(auto)]

ghost use Rattle.std.specs.Prelude.{false, ◌≡◌, ◌+◌, ◌<◌};
ghost use Rattle.areas.specs.Cells.{marked_by};
ghost use Rattle.areas.specs.Writers.{Writes, Marked, merged};

use areas::{is_marked, write_mark};
use sheet::record::{Children, Pair, RecordRow, RuleRow};

// Marks the row in column s too if it is marked in column `from`.
fn add_mark(cells: &mut [u8], m: usize, row: RecordRow, s: RuleRow, from: RuleRow)
    requires { Writes m row.0 1 s.0 from.0 cells.old }
    ensures { Marked m row.0 1 s.0 (merged m cells.old s.0 from.0) cells.old cells.new }
{
    if is_marked(cells, m, Pair { row, rule: from }) {
        write_mark(cells, m, row, s, true);
    }
}

// To the marks of the rows in column s adds those in column `from`.
pub fn add_marks(cells: &mut [u8], m: usize, kids: Children, s: RuleRow, from: RuleRow)
    requires columns_in_cells { Writes m kids.first kids.count s.0 from.0 cells.old }
    requires kids_end_fits { kids.first + kids.count < 4294967296 }
    ensures { Marked m kids.first kids.count s.0 (merged m cells.old s.0 from.0) cells.old cells.new }
{
    for i in 0..kids.count {
        add_mark(cells, m, RecordRow(kids.first + i), s, from);
    }
}

// Takes the row's mark in column s away, if it has one.
fn take_mark(cells: &mut [u8], m: usize, row: RecordRow, s: RuleRow)
    requires { Writes m row.0 1 s.0 s.0 cells.old }
    ensures { Marked m row.0 1 s.0 (λ k. false) cells.old cells.new }
{
    if is_marked(cells, m, Pair { row, rule: s }) {
        write_mark(cells, m, row, s, false);
    }
}

// Takes the marks of the rows in column s away.
pub fn take_marks(cells: &mut [u8], m: usize, kids: Children, s: RuleRow)
    requires columns_in_cells { Writes m kids.first kids.count s.0 s.0 cells.old }
    requires kids_end_fits { kids.first + kids.count < 4294967296 }
    ensures { Marked m kids.first kids.count s.0 (λ k. false) cells.old cells.new }
{
    for i in 0..kids.count {
        take_mark(cells, m, RecordRow(kids.first + i), s);
    }
}

// How many of the rows are marked in column 0.
pub fn marked_of(cells: &[u8], m: usize, kids: Children) -> usize
    requires columns_in_cells { Writes m kids.first kids.count 0 0 cells.now }
    requires kids_end_fits { kids.first + kids.count < 4294967296 }
    ensures { result ≡ marked_by m cells.now kids.first kids.count }
{
    let mut n = 0;
    for i in 0..kids.count {
        let row = RecordRow(kids.first + i);
        let marked = is_marked(
            cells,
            m,
            Pair {
                row,
                rule: RuleRow(0),
            },
        );
        n += usize::from(marked);
    }
    n
}
