// The two areas that a caller lends for judging: the cells, one byte for each pair of a record row
// and a schema, and the list of the pairs in the order in which they are settled. No sheet is read
// here: m is the number of schemas. A schema's cells are a column.
//
// After `clear` two functions alone store into the cells: `settle`, which writes verdicts, and
// `write_mark`, which writes marks.
//
// Its contracts cite specs/, in reading order: `Cells`, `Writers`.
#![tactic(auto)]

ghost use Rattle.std.specs.Prelude.{◌≡◌, ◌<◌, length, get_or, set};
ghost use Rattle.areas.specs.Cells.{pair_is, cell_at, verd, bit, four, settled_as, Cleared};
ghost use Rattle.areas.specs.Writers.{Open, Shut, Writes, Marked};

use sheet::record::{Pair, RecordRow, RuleRow, wide};

// ---- reading a cell

// The number of a pair's cell.
fn cell_of(m: usize, p: Pair) -> usize
    requires { cell_at m (pair_is p) < 18446744073709551616 }
    ensures { result ≡ cell_at m (pair_is p) }
{
    wide(p.row.0) * m + wide(p.rule.0)
}

// The verdict in cell k: 0 not settled, 1 held, 2 failed. No enum: C reads the same codes in the cells.
pub fn verdict_at(cells: &[u8], k: usize) -> u8
    requires { k < length cells.now }
    ensures { result ≡ verd (get_or cells.now k 0) }
{
    cells[k] % 4
}

// Whether cell k is marked.
fn bit_at(cells: &[u8], k: usize) -> bool
    requires { k < length cells.now }
    ensures { result ≡ bit (get_or cells.now k 0) }
{
    let x = cells[k];
    3 < x
}

// The verdict in the pair's cell.
pub fn verdict_of(cells: &[u8], m: usize, p: Pair) -> u8
    requires { (cell_at m (pair_is p) < length cells.now) × (length cells.now < 4294967296) }
    ensures { result ≡ verd (get_or cells.now (cell_at m (pair_is p)) 0) }
{
    verdict_at(cells, cell_of(m, p))
}

// Whether the pair's cell is marked.
pub fn is_marked(cells: &[u8], m: usize, p: Pair) -> bool
    requires { cell_at m (pair_is p) < length cells.now }
    ensures { result ≡ bit (get_or cells.now (cell_at m (pair_is p)) 0) }
{
    bit_at(cells, cell_of(m, p))
}

// ---- settling

// The verdict of a pair that holds or fails.
fn settled_as(holds: bool) -> u8
    ensures { result ≡ settled_as holds }
{
    if holds { 1 } else { 2 }
}

// Writes k after the first `count` words of the list, if it has a place there: a list of no places is
// left alone.
fn enlist(list: &mut [u32], count: usize, k: usize)
    requires { k < 4294967296 }
    ensures { list.new ≡ set list.old count k }
{
    if count < list.len() {
        list[count] = k as u32;
    }
}

// Settles the pair, which is not settled, and lists it after the first `count` words. The answer is
// how many are settled then.
pub fn settle(
    cells: &mut [u8],
    list: &mut [u32],
    m: usize,
    p: Pair,
    ok: bool,
    count: usize,
) -> usize
    requires { Open cells.old count (cell_at m (pair_is p)) }
    ensures { Shut cells.old list.old count (cell_at m (pair_is p)) ok cells.new list.new result }
{
    let k = cell_of(m, p);
    let x = cells[k];
    cells[k] = x + settled_as(ok);
    enlist(list, count, k);
    count + 1
}

// ---- marking

// What a mark adds to a verdict.
fn four_of(marked: bool) -> u8
    ensures { result ≡ four marked }
{
    if marked { 4 } else { 0 }
}

// Marks the row in column s, or takes its mark away.
pub fn write_mark(cells: &mut [u8], m: usize, row: RecordRow, s: RuleRow, on: bool)
    requires { Writes m row.0 1 s.0 s.0 cells.old }
    ensures { Marked m row.0 1 s.0 (λ k. on) cells.old cells.new }
{
    let k = cell_of(m, Pair { row, rule: s });
    let x = verdict_at(cells, k);
    cells[k] = x + four_of(on);
}

// ---- before the first pair

// Sets every cell to 0.
pub fn clear(cells: &mut [u8])
    ensures { Cleared cells.old cells.new }
{
    cells.fill(0);
}
