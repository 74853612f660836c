// The names of a JSON text, gathered byte by byte into slices that are lent (`specs/Held.antt`, which
// contracts cite).
#![tactic(auto)]

ghost use Rattle.std.specs.Prelude.{List, ◌≢◌, ◌≡◌, ℕ, suc, ◌%◌, ◌≤◌, ◌<◌, length, drop};
ghost use Rattle.jsontext.specs.Automaton.{Bracket, as_name};
ghost use Rattle.naming.specs.Gathering.{text_more, escape_more, escaped};
ghost use Rattle.gathering.specs.Held.{Small, Sound, Does, OnText, Within, Gathers};

use escapes::high;
use putting::short_of;
use watching::escaping::hex_more;

mod holding;
mod units;

use crate::holding::{object_at, open_name, say_byte, say_code, shut_name, start_value};
use crate::units::{character, low_ahead};

// How many bytes and words are gathered; how many values have started; whether a name is being
// gathered, where it begins and how many bytes of text are left from its quote on; the number of an
// escape so far, and the high surrogate that waits for its low one, or 0.
// No `Option` of a name: `Gather` of `naming`, which `Held` equates with this, keeps it when it ended; and its `waits`
// is a number, 0 for none, as `joined` has it. Nor are text, words and objects one struct: each function takes only
// those that it writes, and its clause (`OnText`, `OnWords`, `OnObjects`) says so.
#[derive(Clone, Copy)]
pub struct Gathered {
    pub size: usize,
    pub filled: usize,
    pub values: u32,
    pub on: bool,
    pub begun: usize,
    pub left: u32,
    pub unit: u32,
    pub waits: u32,
}

// A byte within a name.
fn in_text(byte: u8, n: Gathered, text: &mut [u8], words: &mut [u32]) -> Gathered
    requires { Small n }
    ensures { (objects : List ℕ) → Does (text_more as_name byte) text.old words.old objects n text.new words.new objects result }
{
    if byte == b'"' {
        return shut_name(n, words);
    }
    if byte == b'\\' {
        return n;
    }
    say_byte(byte, n, text)
}

// The byte after a backslash.
fn in_escape(byte: u8, n: Gathered, text: &mut [u8]) -> Gathered
    requires { Small n }
    ensures { OnText (escape_more as_name byte) text.old n text.new result }
{
    if byte == b'u' {
        return Gathered { unit: 0, ..n };
    }
    say_byte(short_of(byte), n, text)
}

// The escape of a number is whole, at place `at` of the text.
fn escape_whole(json: &[u8], at: usize, code: u32, n: Gathered, text: &mut [u8]) -> Gathered
    requires { Small n × (at ≤ 65536) × (code < 0x20000) }
    ensures { OnText (escaped code (drop (suc at) json.now)) text.old n text.new result }
{
    if high(code) & low_ahead(json, at + 1) {
        return Gathered { waits: code, ..n };
    }
    say_code(character(n.waits, code), n, text)
}

// A byte of a name but for its opening quote, the byte at place `at` of the text.
fn name_moves(
    json: &[u8],
    at: usize,
    place: u8,
    n: Gathered,
    text: &mut [u8],
    words: &mut [u32],
) -> Gathered
    requires { Small n × (25 ≤ place) × (place < 50) × (place % 2 ≢ 0) × (length json.now ≤ 65536) × (at < length json.now) }
    ensures { (ks : List Bracket) (objects : List ℕ) → Within json.now at place ks text.old words.old objects n text.new words.new objects result }
{
    let byte = json[at];
    if place == 25 {
        return in_text(byte, n, text, words);
    }
    if place == 27 {
        return in_escape(byte, n, text);
    }
    if place >= 37 {
        return say_byte(byte, n, text);
    }
    let unit = hex_more(n.unit, byte);
    if place == 29 {
        return escape_whole(json, at, unit, n, text);
    }
    Gathered { unit, ..n }
}

// Where a value or a name may start.
fn outer_moves(
    json: &[u8],
    at: usize,
    place: u8,
    depth: u32,
    n: Gathered,
    text: &mut [u8],
    objects: &mut [u32],
) -> Gathered
    requires { (place < 5) × (length json.now ≤ 65536) × (at < length json.now) × Sound at n objects.old }
    ensures { (ks : List Bracket) → length ks ≡ depth → (words : List ℕ) → Within json.now at place ks text.old words objects.old n text.new words objects.new result }
{
    let byte = json[at];
    if byte <= b' ' {
        return n;
    }
    if place == 0 {
        return start_value(depth, byte, n, objects);
    }
    if place == 1 {
        if byte == b']' {
            return n;
        }
        return start_value(depth, byte, n, objects);
    }
    if place == 2 {
        return n;
    }
    if byte != b'"' {
        return n;
    }
    let object = object_at(objects, depth);
    open_name(object, (json.len() - at) as u32, n, text)
}

// The byte at place `at` of the text is read on, at a place of the grammar with so many brackets open.
pub fn gather_byte(
    json: &[u8],
    at: usize,
    place: u8,
    depth: u32,
    n: Gathered,
    text: &mut [u8],
    words: &mut [u32],
    objects: &mut [u32],
) -> Gathered
    requires { (place < 50) × (length json.now ≤ 65536) × (at < length json.now) × Sound at n objects.old }
    ensures { Gathers json.now at place depth text.old words.old objects.old n text.new words.new objects.new result }
{
    if place >= 24 {
        if place % 2 == 0 {
            return n;
        }
        return name_moves(json, at, place, n, text, words);
    }
    if place >= 5 {
        return n;
    }
    outer_moves(json, at, place, depth, n, text, objects)
}
