// The open brackets around a place in a JSON text, as bits of one number (`specs/Brackets.antt`,
// which contracts cite): the innermost one, and what a step of the automaton does to them.
#![tactic(auto)]

ghost use Rattle.std.specs.Prelude.{◌≡◌, ◌<◌};
ghost use Rattle.grammar.specs.declared.Change.TheVariants.{Push, Pop};
ghost use Rattle.brackets.specs.Brackets.{bit_of, Around, Fits, Turned};

use grammar::{Bracket, Change};

// The brackets that are open, the innermost lowest, and how many there are. That no other bit is set (`Fits`) is no
// part of the type, since `around` is for any number (docs/PROMISES.md).
#[derive(Clone, Copy)]
pub struct Open {
    pub bits: u64,
    pub depth: u32,
}

// The innermost bracket, if one is open.
pub fn around(o: Open) -> Option<Bracket>
    ensures { Around o result }
{
    if o.depth == 0 {
        None
    } else if o.bits % 2 == 0 {
        Some(Bracket::Square)
    } else {
        Some(Bracket::Curly)
    }
}

// The bit of a bracket.
fn bit_of(bracket: Bracket) -> u64
    ensures { result ≡ bit_of bracket }
{
    match bracket {
        Bracket::Square => 0,
        Bracket::Curly => 1,
    }
}

// A bracket more.
fn pushed(o: Open, bracket: Bracket) -> Open
    requires { Fits o × (o.depth < 62) }
    ensures { Turned o (Push bracket) result }
{
    Open {
        bits: o.bits * 2 + bit_of(bracket),
        depth: o.depth + 1,
    }
}

// The innermost bracket is closed.
pub fn popped(o: Open) -> Open
    requires { Fits o }
    ensures { Turned o Pop result }
{
    if o.depth == 0 {
        return o;
    }
    Open {
        bits: o.bits / 2,
        depth: o.depth - 1,
    }
}

// The brackets after a change.
pub fn changed_by(o: Open, change: Change) -> Open
    requires { Fits o × (o.depth < 62) }
    ensures { Turned o change result }
{
    match change {
        Change::Keep => o,
        Change::Push(bracket) => pushed(o, bracket),
        Change::Pop => popped(o),
    }
}
