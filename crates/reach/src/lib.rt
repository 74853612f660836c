// The ranges of a text settled one by one, whether the text as a whole is UTF-8 or not, so that many
// ranges that overlap cost a few steps each. Contracts cite `specs/Reach.antt`.
//
// Where the whole text is UTF-8 a range is by its two ends. Elsewhere one pass from the end fills a
// table: for each block of 128 bytes, how far characters go on from the first of its places at which
// one may begin. No answer rests on which places stand in the table, only the time it takes.
#![tactic(auto)]

ghost use Rattle.std.specs.Prelude.{true, IfSome, MatchOption, List, ◌≡◌, ℕ, ◌≤◌, ◌<◌, length};
ghost use Rattle.text.specs.Part.{fits, part};
ghost use Rattle.utf8.specs.Automaton.{is_utf8};
ghost use Rattle.reach.specs.Reach.{NoneFrom, CharacterAt, Walked, Reach, Told, Known, AllUtf8, places, blocks};

use ascii::all_ascii;
use text::Range;
use utf8::{begin, step};
use utf8range::{inside, is_utf8, range_is_utf8};

pub const BLOCKS: usize = 512;

const BLOCK: usize = 128;

// How many bytes the character has that begins at the place, if one does.
fn character_at(text: &[u8], at: usize) -> Option<usize>
    requires { at < length text.now }
    ensures { MatchOption result (NoneFrom text.now at) (CharacterAt text.now at) }
{
    let n = text.len();
    let mut s = begin(text[at]);
    for to in at + 1..n {
        if s.need == 0 {
            return Some(to - at);
        }
        if s.high < s.low {
            return None;
        }
        s = step(s, text[to]);
    }
    if s.need == 0 { Some(n - at) } else { None }
}

// Goes on from a place, character by character, to the end or to where none begins.
fn walk(text: &[u8], from: usize, end: usize) -> usize
    requires { (from ≤ length text.now) × (end ≤ length text.now) }
    ensures { Walked text.now from end result }
{
    let mut at = from;
    while at < end {
        let Some(size) = character_at(text, at) else {
            return at;
        };
        at += size;
    }
    at
}

// What the table tells of a place: how far characters go on from there.
fn told_of(memo: &[u32], at: usize) -> Option<usize>
    requires { (at < places) × (length memo.now ≡ blocks) }
    ensures { (text : List ℕ) → Told text memo.now → IfSome result (Reach text at) }
{
    let word = memo[at / BLOCK] as usize;
    let to = word % 65_536;
    if word / 65_536 == at && to != 0 {
        return Some(to);
    }
    None
}

// Where the block of a place ends, or the text.
fn block_end(at: usize, n: usize) -> usize
    requires { (at < n) × (n < places) }
    ensures { (at < result) × (result ≤ n) }
{
    usize::min(n, (at / BLOCK + 1) * BLOCK)
}

// The last place to which characters go on from a place.
fn reach_of(text: &[u8], memo: &[u32], from: usize) -> usize
    requires { Told text.now memo.now × (from ≤ length text.now) }
    ensures { Reach text.now from result }
{
    let n = text.len();
    let mut at = from;
    while at < n {
        let end = block_end(at, n);
        let stop = walk(text, at, end);
        if stop < end {
            return stop;
        }
        if let Some(to) = told_of(memo, stop) {
            return to;
        }
        at = stop;
    }
    at
}

// The first place from one on, or the third after it, that is not inside a character.
fn beginning(text: &[u8], from: usize) -> usize
    requires { (from ≤ length text.now) × (length text.now < places) }
    ensures { result ≤ length text.now }
{
    for at in from..from + 3 {
        if !inside(text, at) {
            return at;
        }
    }
    from + 3
}

// Puts into the table how far characters go on from a place.
fn note(text: &[u8], memo: &mut [u32], at: usize)
    requires { Told text.now memo.old × (at ≤ length text.now) }
    ensures { Told text.now memo.new }
{
    let to = reach_of(text, memo, at);
    memo[at / BLOCK] = (at * 65_536 + to) as u32;
}

// Fills the table, from the last block to the second.
fn fill(text: &[u8], memo: &mut [u32])
    requires { Told text.now memo.old }
    ensures { Told text.now memo.new }
{
    for b in (1..text.len() / BLOCK + 1).rev() {
        let at = beginning(text, b * BLOCK);
        note(text, memo, at);
    }
}

// Whether the whole text is UTF-8; where it is not, the table is filled.
pub fn know(text: &[u8], memo: &mut [u32]) -> bool
    requires { Told text.now memo.old }
    ensures { Known text.now memo.new result }
{
    let all = Range {
        start: 0,
        length: text.len() as u32,
    };
    let whole = is_utf8(text, all);
    if !whole {
        fill(text, memo);
    }
    whole
}

// Whether the range's bytes are UTF-8.
pub fn settles(text: &[u8], memo: &[u32], whole: bool, range: Range) -> bool
    requires { Known text.now memo.now whole × (fits (length text.now) range ≡ true) }
    ensures { result ≡ is_utf8 (part text.now range) }
{
    if whole {
        return range_is_utf8(text, range);
    }
    let start = range.start as usize;
    let to = reach_of(text, memo, start);
    if to < range.end() {
        return false;
    }
    range_is_utf8(&text[start..to], Range { start: 0, ..range })
}

// Whether the text is ASCII, so that every range of it is UTF-8.
pub fn is_ascii(text: &[u8]) -> bool
    requires { length text.now < places }
    ensures { result ≡ true → AllUtf8 text.now }
{
    all_ascii(text)
}
