// Steps, and places with a single kind of move.
#![tactic(auto, using(crate::proofs::Leading::tables))]

ghost use Rattle.std.specs.Prelude.{Some, ◌≡◌, ◌+◌, ◌<◌};
ghost use Rattle.grammar.specs.Codes.{goes, one_move, hex_move, role_of, role_code};
ghost use Rattle.grammar.specs.declared.Change.TheVariants.{Push, Pop};

use crate::{Bracket, Change, Move, Role};

// A step to a place that leaves the brackets as they are.
pub(crate) fn to(place: u8) -> Option<Move>
    ensures { result ≡ goes place }
{
    Some(Move {
        place,
        change: Change::Keep,
    })
}

// The same within a string, whose places in a name are each the next after that in a value.
pub(crate) fn within(place: u8, role: Role) -> Option<Move>
    requires { place < 50 }
    ensures { result ≡ goes (place + role_code (role_of role)) }
{
    match role {
        Role::AsValue => to(place),
        Role::AsName => to(place + 1),
    }
}

// A bracket more.
pub(crate) fn opens(place: u8, bracket: Bracket) -> Option<Move>
    ensures { result ≡ Some (record { place = place; change = Push bracket }) }
{
    Some(Move {
        place,
        change: Change::Push(bracket),
    })
}

// A bracket less, after which a value was read.
pub(crate) fn shuts() -> Option<Move>
    ensures { result ≡ Some (record { place = 2; change = Pop }) }
{
    Some(Move {
        place: 2,
        change: Change::Pop,
    })
}

// A place with a single move.
pub(crate) fn one_move(low: u8, high: u8, next: u8, byte: u8) -> Option<Move>
    ensures { result ≡ one_move low high next byte }
{
    if low <= byte && byte <= high {
        to(next)
    } else {
        None
    }
}

// A hexadecimal digit.
pub(crate) fn hex_move(next: u8, byte: u8) -> Option<Move>
    ensures { result ≡ hex_move next byte }
{
    match byte {
        b'0'..=b'9' | b'A'..=b'F' | b'a'..=b'f' => to(next),
        _ => None,
    }
}
