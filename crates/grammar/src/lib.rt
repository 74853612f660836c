// One step of the automaton of JSON texts (`specs/Codes.antt`): a contract says where the moves of a
// place lead with a byte. Each function is the table of its place.
#![tactic(auto)]

ghost use Rattle.std.proofs.Math.Option as Math;
ghost use Rattle.std.proofs.Math.Option.{none};
ghost use Rattle.std.specs.Prelude.{◌≡◌, ◌≤◌, ◌<◌};
ghost use Rattle.jsontext.specs.Automaton as Auto;
ghost use Rattle.jsontext.specs.Automaton.{moves};
ghost use Rattle.grammar.specs.Codes.{leads, bracket_at, bracket_numbered, place_at, LeadsWithin};

mod numbers;
mod ranges;
mod strings;
mod values;

use crate::numbers::{letter, minus, nought, part, power, whole};
use crate::ranges::{hex_move, one_move};
use crate::strings::{escape, text};
use crate::values::{ahead, at_end, colon, first_element, first_name, name};

#[derive(Clone, Copy, PartialEq, Eq)]
pub enum Bracket {
    Square,
    Curly,
}

impl Bracket {
    // The bracket of a number, for who keeps numbers: 1 a square one, 2 a curly one, any other none.
    pub fn of(number: u8) -> Option<Bracket>
        ensures { bracket_at result ≡ bracket_numbered number }
    {
        match number {
            1 => Some(Bracket::Square),
            2 => Some(Bracket::Curly),
            _ => None,
        }
    }
}

// How the innermost open bracket is told to a step: as it is, if one is open, or by its number.
pub trait Around {
    ghost innermost: { Self → Math.Option Auto.Bracket };

    fn bracket(self) -> Option<Bracket>
        ensures { bracket_at result ≡ innermost self };
}

impl Around for Option<Bracket> {
    ghost innermost = { bracket_at };

    #[inline(always)]
    fn bracket(self) -> Option<Bracket> {
        self
    }
}

impl Around for u8 {
    ghost innermost = { bracket_numbered };

    #[inline(always)]
    fn bracket(self) -> Option<Bracket> {
        Bracket::of(self)
    }
}

// What a step does to the open brackets.
#[derive(Clone, Copy, PartialEq, Eq)]
pub enum Change {
    Keep,
    Push(Bracket),
    Pop,
}

// Where a byte leads. Kept, a place is a number: `watching`, `tally` and `gathering` ask whether it is in a string by
// its order, and in a name by its last bit, which is as fast as no enum.
#[derive(Clone, Copy)]
pub struct Move {
    pub place: u8,
    pub change: Change,
}

// What a string is used as.
#[derive(Clone, Copy)]
pub(crate) enum Role {
    AsValue,
    AsName,
}

// Within a word.
#[tactic(auto, using(crate::proofs::Leading::tables))]
fn spelled(place: u8, byte: u8) -> Option<Move>
    requires { (6 ≤ place) × (place < 16) }
    ensures { LeadsWithin place byte result }
{
    match place {
        6 => one_move(b'u', b'u', 7, byte),
        7 => one_move(b'l', b'l', 8, byte),
        8 => one_move(b'l', b'l', 2, byte),
        9 => one_move(b'r', b'r', 10, byte),
        10 => one_move(b'u', b'u', 11, byte),
        11 => one_move(b'e', b'e', 2, byte),
        12 => one_move(b'a', b'a', 13, byte),
        13 => one_move(b'l', b'l', 14, byte),
        14 => one_move(b's', b's', 15, byte),
        _ => one_move(b'e', b'e', 2, byte),
    }
}

// Within an escape's hexadecimal digits.
#[inline(always)]
#[tactic(auto, using(crate::proofs::Leading::tables))]
fn escaped(place: u8, byte: u8) -> Option<Move>
    requires { (28 ≤ place) × (place < 36) }
    ensures { LeadsWithin place byte result }
{
    match place {
        28 => hex_move(24, byte),
        29 => hex_move(25, byte),
        30 => hex_move(28, byte),
        31 => hex_move(29, byte),
        32 => hex_move(30, byte),
        33 => hex_move(31, byte),
        34 => hex_move(32, byte),
        _ => hex_move(33, byte),
    }
}

// Within a character of several bytes.
#[tactic(auto, using(crate::proofs::Leading::tables))]
fn character(place: u8, byte: u8) -> Option<Move>
    requires { (36 ≤ place) × (place < 50) }
    ensures { LeadsWithin place byte result }
{
    match place {
        36 => one_move(0x80, 0xBF, 24, byte),
        37 => one_move(0x80, 0xBF, 25, byte),
        38 => one_move(0x80, 0xBF, 36, byte),
        39 => one_move(0x80, 0xBF, 37, byte),
        40 => one_move(0x80, 0xBF, 38, byte),
        41 => one_move(0x80, 0xBF, 39, byte),
        42 => one_move(0xA0, 0xBF, 36, byte),
        43 => one_move(0xA0, 0xBF, 37, byte),
        44 => one_move(0x80, 0x9F, 36, byte),
        45 => one_move(0x80, 0x9F, 37, byte),
        46 => one_move(0x90, 0xBF, 38, byte),
        47 => one_move(0x90, 0xBF, 39, byte),
        48 => one_move(0x80, 0x8F, 38, byte),
        _ => one_move(0x80, 0x8F, 39, byte),
    }
}

// One step: where a byte leads from a place, with the innermost open bracket around it; no step where no text goes on so.
// Inlined always: a `Move` handed back through memory, byte by byte, makes reading a tenth slower.
#[inline(always)]
pub fn step<A: Around>(place: u8, around: A, byte: u8) -> Option<Move>
    requires { place < 50 }
    ensures { result ≡ leads (moves (place_at place) (A.innermost around)) byte }
{
    step_within(place, around.bracket(), byte)
}

// The same, of the bracket as it is.
#[inline(always)]
#[tactic(auto, using(crate::proofs::Leading::tables))]
fn step_within(place: u8, around: Option<Bracket>, byte: u8) -> Option<Move>
    requires { place < 50 }
    ensures { result ≡ leads (moves (place_at place) (bracket_at around)) byte }
{
    match place {
        0 => ahead(byte),
        1 => first_element(byte),
        2 => at_end(around, byte),
        3 => name(byte),
        4 => first_name(byte),
        5 => colon(byte),
        6..=15 => spelled(place, byte),
        16 => minus(byte),
        17 => nought(around, byte),
        18 => whole(around, byte),
        19 => one_move(b'0', b'9', 20, byte),
        20 => part(around, byte),
        21 => letter(byte),
        22 => one_move(b'0', b'9', 23, byte),
        23 => power(around, byte),
        24 => text(Role::AsValue, byte),
        25 => text(Role::AsName, byte),
        26 => escape(Role::AsValue, byte),
        27 => escape(Role::AsName, byte),
        28..=35 => escaped(place, byte),
        _ => character(place, byte),
    }
}
