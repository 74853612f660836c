// Within a number.
#![tactic(auto, using(crate::proofs::Leading::tables))]

ghost use Rattle.std.proofs.Math.Option.{none};
ghost use Rattle.std.specs.Prelude.{◌≡◌};
ghost use Rattle.jsontext.specs.Automaton as Auto;
ghost use Rattle.jsontext.specs.Automaton.{moves};
ghost use Rattle.grammar.specs.Codes.{leads, bracket_at};

use crate::ranges::to;
use crate::values::at_end;
use crate::{Bracket, Move};

// After the minus of a number.
pub(crate) fn minus(byte: u8) -> Option<Move>
    ensures { result ≡ leads (moves Auto.minus none) byte }
{
    match byte {
        b'0' => to(17),
        b'1'..=b'9' => to(18),
        _ => None,
    }
}

// After a leading 0.
pub(crate) fn nought(around: Option<Bracket>, byte: u8) -> Option<Move>
    ensures { result ≡ leads (moves Auto.nought (bracket_at around)) byte }
{
    match byte {
        b'.' => to(19),
        b'E' | b'e' => to(21),
        _ => at_end(around, byte),
    }
}

// After a digit of the whole part.
pub(crate) fn whole(around: Option<Bracket>, byte: u8) -> Option<Move>
    ensures { result ≡ leads (moves Auto.whole (bracket_at around)) byte }
{
    match byte {
        b'0'..=b'9' => to(18),
        b'.' => to(19),
        b'E' | b'e' => to(21),
        _ => at_end(around, byte),
    }
}

// After a digit of the fraction.
pub(crate) fn part(around: Option<Bracket>, byte: u8) -> Option<Move>
    ensures { result ≡ leads (moves Auto.part (bracket_at around)) byte }
{
    match byte {
        b'0'..=b'9' => to(20),
        b'E' | b'e' => to(21),
        _ => at_end(around, byte),
    }
}

// After the letter e.
pub(crate) fn letter(byte: u8) -> Option<Move>
    ensures { result ≡ leads (moves Auto.letter none) byte }
{
    match byte {
        b'+' | b'-' => to(22),
        b'0'..=b'9' => to(23),
        _ => None,
    }
}

// After a digit of the exponent.
pub(crate) fn power(around: Option<Bracket>, byte: u8) -> Option<Move>
    ensures { result ≡ leads (moves Auto.power (bracket_at around)) byte }
{
    match byte {
        b'0'..=b'9' => to(23),
        _ => at_end(around, byte),
    }
}
