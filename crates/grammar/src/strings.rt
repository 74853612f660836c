// Within a string: its characters, the first byte of one that has several, and escapes.
#![tactic(auto, using(crate::proofs::Leading::tables))]

ghost use Rattle.std.proofs.Math.Option.{none};
ghost use Rattle.std.specs.Prelude.{◌≡◌};
ghost use Rattle.jsontext.specs.Automaton as Auto;
ghost use Rattle.jsontext.specs.Automaton.{moves};
ghost use Rattle.grammar.specs.Codes.{leads, role_of, place_code, goes};

use crate::ranges::{to, within};
use crate::{Move, Role};

// The first byte of a character of several bytes.
pub(crate) fn several(role: Role, byte: u8) -> Option<Move>
    ensures { result ≡ leads (Auto.several (role_of role)) byte }
{
    match byte {
        0xC2..=0xDF => within(36, role),
        0xE0 => within(42, role),
        0xE1..=0xEC | 0xEE..=0xEF => within(38, role),
        0xED => within(44, role),
        0xF0 => within(46, role),
        0xF1..=0xF3 => within(40, role),
        0xF4 => within(48, role),
        _ => None,
    }
}

// At the closing quote.
fn closed(role: Role) -> Option<Move>
    ensures { result ≡ goes (place_code (Auto.closed (role_of role))) }
{
    match role {
        Role::AsValue => to(2),
        Role::AsName => to(5),
    }
}

// Within a string.
pub(crate) fn text(role: Role, byte: u8) -> Option<Move>
    ensures { result ≡ leads (moves (Auto.text (role_of role)) none) byte }
{
    match byte {
        b'"' => closed(role),
        b'\\' => within(26, role),
        b' '..=0x7F => within(24, role),
        _ => several(role, byte),
    }
}

// After a backslash.
#[inline(always)]
pub(crate) fn escape(role: Role, byte: u8) -> Option<Move>
    ensures { result ≡ leads (moves (Auto.escape (role_of role)) none) byte }
{
    match byte {
        b'"' | b'\\' | b'/' | b'b' | b'f' | b'n' | b'r' | b't' => within(24, role),
        b'u' => within(34, role),
        _ => None,
    }
}
