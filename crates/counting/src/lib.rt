// How many characters a range of a lent text has, if it is UTF-8.
//
// Contracts cite `specs/Counting.antt`, what is computed, and of crate `utf8` the meaning (`Utf8`,
// `characters`).
#![tactic(auto)]

ghost use Rattle.std.specs.Prelude.{◌≡◌, true, leb, length};
ghost use Rattle.text.specs.Part.{fits, part};
ghost use Rattle.utf8.specs.Encoding.{Utf8, characters as characters_of};
ghost use Rattle.counting.specs.Counting.{lead_length, count};

use ascii::ascii_run;
use text::Range;

// How many bytes a character has that begins with b.
fn lead_length(b: u8) -> u32
    ensures { result ≡ lead_length b }
{
    let n = (!b).leading_zeros();
    if n == 0 { 1 } else { n }
}

// How many characters the range has, if it is UTF-8. Only the first byte of each is read.
pub fn characters(text: &[u8], range: Range) -> u32
    requires { fits (length text.now) range ≡ true }
    ensures counted { result ≡ count (part text.now range) }
    ensures meant { (u : Utf8 (part text.now range)) → result ≡ characters_of u }
{
    let start = range.start as usize;
    let end = range.end();
    let mut at = ascii_run(text, start, end);
    let mut many = at - start;
    while at < end {
        let next = at + lead_length(text[at]) as usize;
        at = ascii_run(text, next, end);
        many += 1 + (at - next);
    }
    many as u32
}

// Whether the range has at least k characters, if it is UTF-8: no more than k of their first bytes are read.
pub fn has_characters(text: &[u8], range: Range, k: u32) -> bool
    requires { fits (length text.now) range ≡ true }
    ensures { result ≡ leb k (count (part text.now range)) }
{
    let end = range.end();
    let mut at = range.start as usize;
    for _many in 0..k {
        if end <= at {
            return false;
        }
        at += lead_length(text[at]) as usize;
    }
    true
}
