// Whether a range of a lent text is UTF-8.
//
// Contracts cite `is_utf8` of crate `utf8`, and `specs/Places.antt`: the places inside a character,
// and what is passed between two characters.
#![tactic(auto)]

ghost use Rattle.std.specs.Prelude.{◌≡◌, true, ◌≤◌, length};
ghost use Rattle.text.specs.Part.{fits, part};
ghost use Rattle.utf8.specs.Automaton.{is_utf8};
ghost use Rattle.utf8range.specs.Places.{inside as inside_of, Onward};

use ascii::ascii_run;
use text::Range;
use utf8::{State, step};

// Where the next byte stands that has to be looked at: between two characters ASCII is passed.
fn onward(text: &[u8], s: State, from: usize, end: usize) -> usize
    requires end_in_bounds { end ≤ length text.now }
    requires from_bound { from ≤ 0xFFFF_FFFF_FFFF }
    requires end_bound { end ≤ 0xFFFF_FFFF_FFFF }
    ensures { Onward text.now s from end result }
{
    if s.need == 0 {
        return ascii_run(text, from, end);
    }
    from
}

// Whether the range's bytes are UTF-8.
pub fn is_utf8(text: &[u8], range: Range) -> bool
    requires { fits (length text.now) range ≡ true }
    ensures { result ≡ is_utf8 (part text.now range) }
{
    let end = range.end();
    let mut s = State::waiting(0);
    let mut at = ascii_run(text, range.start as usize, end);
    while at < end {
        s = step(s, text[at]);
        at = onward(text, s, at + 1, end);
    }
    s.need == 0
}

// Whether the place is inside a character of a text that is UTF-8.
#[tactic(auto, unfolding(crate::specs::Places::inside, crate::specs::Places::continues))]
pub fn inside(text: &[u8], at: usize) -> bool
    ensures { result ≡ inside_of text.now at }
{
    at < text.len() && 0x80 <= text[at] && text[at] < 0xC0
}

// Whether the range's bytes are UTF-8, where the whole text is: two bytes are read.
pub fn range_is_utf8(text: &[u8], range: Range) -> bool
    requires text_is_utf8 { is_utf8 text.now ≡ true }
    requires range_fits { fits (length text.now) range ≡ true }
    ensures { result ≡ is_utf8 (part text.now range) }
{
    if range.length == 0 {
        return true;
    }
    if inside(text, range.start as usize) {
        return false;
    }
    let end = range.end();
    if inside(text, end) {
        return false;
    }
    true
}
