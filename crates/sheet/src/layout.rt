// What a value that is no array and no object may hold, and how long a text may be: the same in rows
// and in the entries of an enum. Contracts cite `specs/Faults.antt`.
ghost use Rattle.std.specs.Prelude.{◌≡◌};
ghost use Rattle.sheet.specs.Faults.{scalar_ok};

use crate::kind::RowKind;
use text::Range;

pub const TEXT_MAX: usize = 65_535;

// Whether a row of this kind, which is none of array and object, may hold this, over a text of
// `size` bytes.
pub fn scalar_ok(kind: RowKind, size: usize, first: u32, count: u32) -> bool
    ensures { result ≡ scalar_ok kind size first count }
{
    match kind {
        RowKind::Null | RowKind::False | RowKind::True => (first == 0) & (count == 0),
        RowKind::Number => RowKind::number_ok(first, count),
        RowKind::String => {
            let range = Range {
                start: first,
                length: count,
            };
            text::range_fits(size, range)
        }
        RowKind::Array | RowKind::Object => false,
    }
}
