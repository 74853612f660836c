// A number of a JSON text under way: what is kept of it as its digits, its point and its exponent
// are read, and the digits and the scale of its row in the end (`specs/Figure.antt`, which
// contracts cite).
#![tactic(auto)]

ghost use Rattle.std.specs.Prelude.{◌≡◌, ◌<◌};
ghost use Rattle.numeral.specs.Numeral.{row_of};
ghost use Rattle.figure.specs.Figure.{Fair, whole_more, part_more, power_back, power_more, figured};

use numeral::{Kept, Written, digit_more, power_more, write_down};

// The digits up to the last that is not 0 and how many zeros follow it, how many digits stand
// behind the point, whether the exponent has a minus, and the exponent. The first two are no `Kept`, so that who holds
// a figure need not name crate `numeral`. `Fair` is no part of the type: the next digit need not keep it.
#[derive(Clone, Copy)]
pub struct Figure {
    pub kept: u64,
    pub zeros: u32,
    pub places: u32,
    pub back: bool,
    pub power: u64,
}

// A digit of the whole part.
pub fn whole_more(f: Figure, digit: u64) -> Figure
    requires { Fair f × (digit < 10) }
    ensures { result ≡ whole_more f digit }
{
    let held = Kept {
        kept: f.kept,
        zeros: f.zeros,
    };
    let Kept { kept, zeros } = digit_more(held, digit);
    Figure { kept, zeros, ..f }
}

// A digit behind the point.
pub fn part_more(f: Figure, digit: u64) -> Figure
    requires { Fair f × (digit < 10) }
    ensures { result ≡ part_more f digit }
{
    Figure {
        places: f.places + 1,
        ..whole_more(f, digit)
    }
}

// The minus of the exponent.
pub fn power_back(f: Figure) -> Figure
    ensures { result ≡ power_back f }
{
    Figure { back: true, ..f }
}

// A digit of the exponent.
pub fn power_digit(f: Figure, digit: u64) -> Figure
    requires { Fair f × (digit < 10) }
    ensures { result ≡ power_more f digit }
{
    Figure {
        power: power_more(f.power, digit),
        ..f
    }
}

// The digits and the scale of the number, if a row can hold it.
pub fn written(f: Figure) -> Option<Written>
    requires { Fair f }
    ensures { result ≡ row_of (figured f) }
{
    if f.back {
        return write_down(f.kept, f.zeros, f.places + f.power as u32);
    }
    write_down(f.kept, f.power as u32 + f.zeros, f.places)
}
