// The automaton of JSON texts from a state on: whether the text is one as a whole, and how far it
// goes if not (`specs/Following.antt`, which contracts cite). What else is at fault is not asked.
#![tactic(auto)]

ghost use Rattle.std.specs.Prelude.{◌&&◌, List, ◌≡◌, ◌≤◌, ◌<◌, eqb, length};
ghost use Rattle.jsontext.specs.Automaton.{at, ended};
ghost use Rattle.grammar.specs.Codes.{place_at};
ghost use Rattle.grammar.specs.declared.Bracket.{Bracket};
ghost use Rattle.grammar.specs.declared.Change.TheVariants.{Pop};
ghost use Rattle.brackets.specs.Brackets.{brackets, Fits};
ghost use Rattle.follow.specs.Following.{AroundAll, Shifted, Followed};

use brackets::{Open, around, changed_by, popped};
use grammar::{Bracket, Change, step};

// How far a text goes, and whether it is one to its end. No `Result`: one clause (`Followed`) tells how far either way.
#[derive(Clone, Copy)]
pub struct End {
    pub at: usize,
    pub whole: bool,
}

// Open brackets, and how many more of them stand in a table.
#[derive(Clone, Copy)]
struct Stack {
    opened: Open,
    more: usize,
}

// Whether a value was read, or a number that may end here.
fn may_end(place: u8) -> bool
    requires { place < 50 }
    ensures { result ≡ ended (place_at place) }
{
    matches!(place, 2 | 17 | 18 | 20 | 23)
}

// The end of a text, where so many brackets are open.
fn at_end(place: u8, depth: u32) -> bool
    requires { place < 50 }
    ensures { result ≡ ended (place_at place) && eqb depth 0 }
{
    may_end(place) & (depth == 0)
}

// The innermost bracket, if one is open.
fn around_all(table: &[Bracket], s: Stack) -> Option<Bracket>
    requires { s.more ≤ length table.now }
    ensures { AroundAll table.now s result }
{
    if s.more == 0 {
        around(s.opened)
    } else {
        Some(table[s.more - 1])
    }
}

// The innermost bracket is closed, in the table or below it.
fn fewer(s: Stack) -> Stack
    requires { Fits s.opened }
    ensures { (cells : List Bracket) → Shifted cells s Pop cells result }
{
    if s.more == 0 {
        Stack {
            opened: popped(s.opened),
            ..s
        }
    } else {
        Stack {
            more: s.more - 1,
            ..s
        }
    }
}

// The brackets after a change.
fn shifted(table: &mut [Bracket], s: Stack, change: Change) -> Stack
    requires { (s.more < length table.old) × Fits s.opened }
    ensures { Shifted table.old s change table.new result }
{
    match change {
        Change::Keep => s,
        Change::Push(bracket) => {
            table[s.more] = bracket;
            Stack {
                more: s.more + 1,
                ..s
            }
        }
        Change::Pop => fewer(s),
    }
}

// The same as `follow`, with any number of brackets.
fn follow_deep(json: &[u8], from: usize, place: u8, opened: Open) -> End
    requires { (from ≤ length json.now) × (length json.now ≤ 65_536) × (place < 50) × Fits opened }
    ensures { Followed json.now from (at (place_at place) (brackets opened)) result }
{
    let mut table = [Bracket::Square; 65_536];
    let n = json.len();
    let mut s = Stack { opened, more: 0 };
    let mut p = place;
    for at in from..n {
        let Some(m) = step(p, around_all(&table, s), json[at]) else {
            return End { at, whole: false };
        };
        p = m.place;
        s = shifted(&mut table, s, m.change);
    }
    End {
        at: n,
        whole: at_end(p, s.opened.depth) & (s.more == 0),
    }
}

// From a place of the text on, with these brackets open around it. Its loop is not `follow_deep`'s: it has no table to
// clear, and leaves where the brackets of a number are full.
pub fn follow(json: &[u8], from: usize, place: u8, opened: Open) -> End
    requires { (from ≤ length json.now) × (length json.now ≤ 65_536) × (place < 50) × Fits opened }
    ensures { Followed json.now from (at (place_at place) (brackets opened)) result }
{
    let n = json.len();
    let mut o = opened;
    let mut p = place;
    for at in from..n {
        if 62 <= o.depth {
            return follow_deep(json, at, p, o);
        }
        let Some(m) = step(p, around(o), json[at]) else {
            return End { at, whole: false };
        };
        p = m.place;
        o = changed_by(o, m.change);
    }
    End {
        at: n,
        whole: at_end(p, o.depth),
    }
}
