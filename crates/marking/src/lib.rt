// A pair's cells where both sheets are lent: its verdict is read, and its marks are written. No pair is
// open here, so what these functions keep costs no stack.
//
// The contracts cite `specs/Lent.antt` and `specs/Reads.antt` of `lent`.
#![tactic(auto)]

ghost use Rattle.std.specs.Prelude.{◌≡◌, ◌<◌, length, get_or};
ghost use Rattle.areas.specs.Cells.{pair_is, cell_at, verd};
ghost use Rattle.lent.specs.Lent.{InCase, WritesMarks, MarksWritten, kept, Hands, given_on};
ghost use Rattle.lent.specs.Reads.{lent_case};

use areas::write_mark;
use columns::{add_marks, take_marks};
use lent::Lent;
use sheet::record::{Pair, children_of};

// The verdict in the pair's cell.
pub fn verdict_of(lent: &Lent<'_>, cells: &[u8], p: Pair) -> u8
    requires { (cell_at (lent_case lent.now).m (pair_is p) < length cells.now) × (length cells.now < 4294967296) }
    ensures { result ≡ verd (get_or cells.now (cell_at (lent_case lent.now).m (pair_is p)) 0) }
{
    areas::verdict_of(cells, lent.schemas(), p)
}

// Hands on to the pair p what the pair q that it applied has to give, if it is to be kept.
pub fn give(lent: &Lent<'_>, cells: &mut [u8], p: Pair, q: Pair, keeps: bool)
    requires inside { InCase (lent_case lent.now) (pair_is p) }
    requires hands { Hands (lent_case lent.now) (pair_is p) (pair_is q) cells.old }
    ensures { MarksWritten (lent_case lent.now) (pair_is p) (given_on keeps (lent_case lent.now).m cells.old p.row.0 p.rule.0 q.row.0 q.rule.0) cells.old cells.new }
{
    if !keeps {
        return;
    }
    let m = lent.schemas();
    if q.row.0 == p.row.0 {
        let kids = children_of(lent.record, lent.form, p.row);
        add_marks(cells, m, kids, p.rule, q.rule);
    } else {
        write_mark(cells, m, q.row, p.rule, true);
    }
}

// Takes the marks of the pair away, unless it holds. What it needs of the stack is kept out of the frame of
// an open pair.
#[inline(never)]
pub fn shut(lent: &Lent<'_>, cells: &mut [u8], p: Pair, ok: bool)
    requires inside { InCase (lent_case lent.now) (pair_is p) }
    requires writes_marks { WritesMarks (lent_case lent.now) (pair_is p) cells.old }
    ensures { MarksWritten (lent_case lent.now) (pair_is p) (kept (lent_case lent.now).m cells.old p.rule.0 ok) cells.old cells.new }
{
    if ok {
        return;
    }
    let kids = children_of(lent.record, lent.form, p.row);
    take_marks(cells, lent.schemas(), kids, p.rule);
}
