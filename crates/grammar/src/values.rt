// Where a value or a name is to come, and after them.
#![tactic(auto, using(crate::proofs::Leading::tables))]

ghost use Rattle.std.specs.Prelude.{◌≡◌, [], ◌∷◌};
ghost use Rattle.jsontext.specs.Automaton as Auto;
ghost use Rattle.jsontext.specs.Automaton.{as_name, starts, ends, only, shuts, blanks};
ghost use Rattle.grammar.specs.Codes.{leads, bracket_at};

use crate::ranges::{opens, shuts, to};
use crate::{Bracket, Move};

// The first byte of a value.
pub(crate) fn at_start(byte: u8) -> Option<Move>
    ensures { result ≡ leads starts byte }
{
    match byte {
        b'"' => to(24),
        b'[' => opens(1, Bracket::Square),
        b'{' => opens(4, Bracket::Curly),
        b'-' => to(16),
        b'0' => to(17),
        b'1'..=b'9' => to(18),
        b'n' => to(6),
        b't' => to(9),
        b'f' => to(12),
        _ => None,
    }
}

// Where a value is to come.
pub(crate) fn ahead(byte: u8) -> Option<Move>
    ensures { result ≡ leads (blanks Auto.ahead starts) byte }
{
    match byte {
        b' ' | b'\t' | b'\n' | b'\r' => to(0),
        _ => at_start(byte),
    }
}

// Where an array was opened.
pub(crate) fn first_element(byte: u8) -> Option<Move>
    ensures { result ≡ leads (blanks Auto.first_element (shuts 0x5D ∷ starts)) byte }
{
    match byte {
        b' ' | b'\t' | b'\n' | b'\r' => to(1),
        b']' => shuts(),
        _ => at_start(byte),
    }
}

// Where a name is to come.
pub(crate) fn name(byte: u8) -> Option<Move>
    ensures { result ≡ leads (blanks Auto.name (only 0x22 (Auto.text as_name) ∷ [])) byte }
{
    match byte {
        b' ' | b'\t' | b'\n' | b'\r' => to(3),
        b'"' => to(25),
        _ => None,
    }
}

// Where an object was opened.
pub(crate) fn first_name(byte: u8) -> Option<Move>
    ensures { result ≡ leads (blanks Auto.first_name (shuts 0x7D ∷ only 0x22 (Auto.text as_name) ∷ [])) byte }
{
    match byte {
        b' ' | b'\t' | b'\n' | b'\r' => to(4),
        b'}' => shuts(),
        b'"' => to(25),
        _ => None,
    }
}

// After a name.
pub(crate) fn colon(byte: u8) -> Option<Move>
    ensures { result ≡ leads (blanks Auto.colon (only 0x3A Auto.ahead ∷ [])) byte }
{
    match byte {
        b' ' | b'\t' | b'\n' | b'\r' => to(5),
        b':' => to(0),
        _ => None,
    }
}

// After the root.
pub(crate) fn outside(byte: u8) -> Option<Move>
    ensures { result ≡ leads (blanks Auto.after []) byte }
{
    match byte {
        b' ' | b'\t' | b'\n' | b'\r' => to(2),
        _ => None,
    }
}

// After an element.
pub(crate) fn in_array(byte: u8) -> Option<Move>
    ensures { result ≡ leads (blanks Auto.after (only 0x2C Auto.ahead ∷ shuts 0x5D ∷ [])) byte }
{
    match byte {
        b' ' | b'\t' | b'\n' | b'\r' => to(2),
        b',' => to(0),
        b']' => shuts(),
        _ => None,
    }
}

// After a member.
pub(crate) fn in_object(byte: u8) -> Option<Move>
    ensures { result ≡ leads (blanks Auto.after (only 0x2C Auto.name ∷ shuts 0x7D ∷ [])) byte }
{
    match byte {
        b' ' | b'\t' | b'\n' | b'\r' => to(2),
        b',' => to(3),
        b'}' => shuts(),
        _ => None,
    }
}

// After a value, by the innermost open bracket.
pub(crate) fn at_end(around: Option<Bracket>, byte: u8) -> Option<Move>
    ensures { result ≡ leads (ends (bracket_at around)) byte }
{
    match around {
        None => outside(byte),
        Some(Bracket::Square) => in_array(byte),
        Some(Bracket::Curly) => in_object(byte),
    }
}
