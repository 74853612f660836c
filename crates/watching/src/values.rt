// Values: their starts, and the faults 22 and 24 of all that are no numbers.
ghost use Rattle.std.specs.Prelude.{◌≡◌, ◌<◌, ◌≤◌};
ghost use Rattle.sheet.specs.Record.{rows_max};
ghost use Rattle.figure.specs.Figure.{no_figure};
ghost use Rattle.survey.specs.Watching.{found, numeric, is_digit, first_figure, counted, begun, opened};

use figure::{Figure, whole_more};
use survey::{Escapes, Watch};

// A fault is found.
pub(crate) fn at_fault(number: u32, left: usize, s: Watch) -> Watch
    ensures { result ≡ found number left s }
{
    Watch {
        fault: number,
        left,
        ..s
    }
}

// Whether the byte is a digit.
pub(crate) fn digit(byte: u8) -> bool
    ensures { result ≡ is_digit byte }
{
    matches!(byte, b'0'..=b'9')
}

// Whether a number starts with the byte.
pub(crate) fn starts_number(byte: u8) -> bool
    ensures { result ≡ numeric byte }
{
    (byte == b'-') | digit(byte)
}

// Before the first digit of a number.
pub(crate) fn no_figure() -> Figure
    ensures { result ≡ no_figure }
{
    Figure {
        kept: 0,
        zeros: 0,
        places: 0,
        back: false,
        power: 0,
    }
}

// The figure of a value's first byte.
pub(crate) fn first_figure(byte: u8) -> Figure
    ensures { result ≡ first_figure byte }
{
    if digit(byte) {
        return whole_more(no_figure(), (byte - b'0') as u64);
    }
    no_figure()
}

// One value more.
pub(crate) fn one_more(byte: u8, left: usize, s: Watch) -> Watch
    requires { s.values < rows_max }
    ensures { result ≡ counted byte left s }
{
    Watch {
        fault: 0,
        left: 0,
        values: s.values + 1,
        start: left,
        figure: first_figure(byte),
        escapes: Escapes::default(),
    }
}

// A value starts with the byte, where so many brackets are open.
pub(crate) fn value_begins(depth: u32, byte: u8, left: usize, s: Watch) -> Watch
    requires { (depth < 100) × (s.values ≤ rows_max) }
    ensures { result ≡ begun depth byte left s }
{
    if s.values == 1024 {
        return at_fault(22, left, s);
    }
    if (depth + 1 == 33) & !starts_number(byte) {
        return at_fault(24, left, one_more(byte, left, s));
    }
    one_more(byte, left, s)
}

// Where a value may start.
pub(crate) fn value_starts(depth: u32, byte: u8, left: usize, s: Watch) -> Watch
    requires { (depth < 100) × (s.values ≤ rows_max) }
    ensures { result ≡ opened depth byte left s }
{
    if b' ' < byte {
        return value_begins(depth, byte, left, s);
    }
    s
}
