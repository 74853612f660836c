// Numbers: their digits, and the faults 23 and 24 at their end.
ghost use Rattle.std.specs.Prelude.{cond, ◌≡◌, ℕ, ◌-◌, eqb, ◌<◌};
ghost use Rattle.figure.specs.declared.Figure.{Figure};
ghost use Rattle.figure.specs.Figure.{Fair, power_more, power_back};
ghost use Rattle.survey.specs.Watching.{with_figure, ended, digited, digit_or, is_end};

use crate::values::{at_fault, digit};
use figure::{Figure, power_back, power_digit, written};
use survey::Watch;

// A number ends, where so many brackets are open.
pub fn number_ends(depth: u32, s: Watch) -> Watch
    requires { (depth < 100) × Fair s.figure }
    ensures { result ≡ ended depth s }
{
    if written(s.figure).is_none() {
        return at_fault(23, s.start, s);
    }
    if depth + 1 == 33 {
        return at_fault(24, s.start, s);
    }
    s
}

// A digit, where `more` takes one into the figure: in the whole part, behind the point or in the exponent.
pub(crate) fn take_digit<F: FnOnce(Figure, u64) -> Figure>(more: F, byte: u8, s: Watch) -> Watch
    requires { (d : ℕ) → d < 10 → F.pre more s.figure d }
    ensures { (o : Figure → ℕ → Figure) → ((f : _) → F.post more s.figure (byte - 0x30) f → f ≡ o s.figure (byte - 0x30)) → result ≡ digited o byte s }
{
    if digit(byte) {
        let figure = more(s.figure, (byte - b'0') as u64);
        return Watch { figure, ..s };
    }
    s
}

// Whether a number ends with the byte behind it.
pub(crate) fn number_over(byte: u8) -> bool
    ensures { result ≡ is_end byte }
{
    (byte < b'.') | ((byte == b']') | (byte == b'}'))
}

// The same, where the number may also end.
pub(crate) fn take_digit_or_end<F: FnOnce(Figure, u64) -> Figure>(
    more: F,
    depth: u32,
    byte: u8,
    s: Watch,
) -> Watch
    requires ends { (depth < 100) × Fair s.figure }
    requires takes { (d : ℕ) → d < 10 → F.pre more s.figure d }
    ensures { (o : Figure → ℕ → Figure) → ((f : _) → F.post more s.figure (byte - 0x30) f → f ≡ o s.figure (byte - 0x30)) → result ≡ digit_or o depth byte s }
{
    if number_over(byte) {
        return number_ends(depth, s);
    }
    take_digit(more, byte, s)
}

// Behind the letter e.
pub(crate) fn in_exponent(byte: u8, s: Watch) -> Watch
    requires { Fair s.figure }
    ensures { result ≡ cond (eqb byte 0x2D) (with_figure (power_back s.figure) s) (digited power_more byte s) }
{
    if byte == b'-' {
        let figure = power_back(s.figure);
        return Watch { figure, ..s };
    }
    take_digit(power_digit, byte, s)
}
