// A number of a JSON text, read from the text: the word of its digits and its scale, as a row holds
// them (`specs/Figures.antt`, which contracts cite).
#![tactic(auto)]

ghost use Rattle.std.specs.Prelude.{cond, ◌≡◌, ◌+◌, ◌≤◌, ◌<◌, suc, length, get_or};
ghost use Rattle.numeral.specs.Numeral.{power_max};
ghost use Rattle.figures.specs.Figures.{digit_in, is_letter, Sound, DigitsAt, DigitsRead, FractionAt, FractionRead, PowerRead, ExponentAt, ExponentRead, NumberAt, NumberRead};

use numeral::{Kept, Written, digit_more, power_more, word_of, write_down};

// What was read up to a place of the text, and what is held of it.
#[derive(Clone, Copy)]
struct Read<T> {
    to: usize,
    held: T,
}

// A number's whole part and its fraction up to a place of the text, and how many digits the fraction has.
#[derive(Clone, Copy)]
struct Part {
    to: usize,
    places: u32,
    kept: Kept,
}

// By how much an exponent moves the point to the right, and to the left.
#[derive(Clone, Copy)]
struct Shift {
    to: usize,
    up: u32,
    down: u32,
}

// Where a number ends in the text, the word of its digits, and its scale.
#[derive(Clone, Copy)]
pub struct Figure {
    pub to: usize,
    pub word: u32,
    pub scale: u32,
}

// The byte at a place of the text, or 0 behind its end.
pub fn byte_at(json: &[u8], i: usize) -> u8
    ensures { result ≡ get_or json.now i 0 }
{
    json.get(i).copied().unwrap_or(0)
}

// What the digit there is worth, if one stands there.
fn digit_at(json: &[u8], i: usize) -> Option<u64>
    ensures { result ≡ digit_in (get_or json.now i 0) }
{
    match byte_at(json, i) {
        byte @ b'0'..=b'9' => Some(u64::from(byte - b'0')),
        _ => None,
    }
}

// The digits from a place on, after those that `first` is kept of. The loop of an exponent's digits stays beside it:
// one function for both needs a trait with the bound that each of the two keeps.
fn digits_from(json: &[u8], start: usize, first: Kept) -> Read<Kept>
    requires { (Sound first start) × (start ≤ 65_536) × (length json.now ≤ 65_536) }
    ensures read { (q : DigitsAt json.now start) → DigitsRead json.now start first q result.to result.held }
    ensures sound { (Sound result.held result.to) × (start ≤ result.to) × (result.to ≤ 65_536) }
{
    let mut k = first;
    for i in start..json.len() {
        let Some(worth) = digit_at(json, i) else {
            return Read { to: i, held: k };
        };
        k = digit_more(k, worth);
    }
    Read {
        to: start.max(json.len()),
        held: k,
    }
}

// The digits of an exponent from a place on.
fn power_from(json: &[u8], start: usize) -> Read<u64>
    requires { (start ≤ 65_536) × (length json.now ≤ 65_536) }
    ensures read { (q : DigitsAt json.now start) → PowerRead json.now start 0 q result.to result.held }
    ensures sound { (result.held ≤ suc power_max) × (start ≤ result.to) × (result.to ≤ 65_536) }
{
    let mut p: u64 = 0;
    for i in start..json.len() {
        let Some(worth) = digit_at(json, i) else {
            return Read { to: i, held: p };
        };
        p = power_more(p, worth);
    }
    Read {
        to: start.max(json.len()),
        held: p,
    }
}

// The fraction from a place on, if one stands there, after the digits that `first` is kept of.
fn fraction_from(json: &[u8], start: usize, first: Kept) -> Part
    requires { (Sound first start) × (start ≤ 65_536) × (length json.now ≤ 65_536) }
    ensures read { (q : FractionAt json.now start) → FractionRead json.now start first q result.to result.kept result.places }
    ensures sound { (Sound result.kept result.to) × (start ≤ result.to) × (result.to ≤ 65_536) × (result.places ≤ 65_536) }
{
    if byte_at(json, start) != b'.' {
        return Part {
            to: start,
            places: 0,
            kept: first,
        };
    }
    let run = digits_from(json, start + 1, first);
    let places = run.to - (start + 1);
    Part {
        to: run.to,
        places: places as u32,
        kept: run.held,
    }
}

// Whether the letter of an exponent stands there.
fn letter_at(json: &[u8], i: usize) -> bool
    ensures { result ≡ is_letter (get_or json.now i 0) }
{
    matches!(byte_at(json, i), b'E' | b'e')
}

// The exponent from a place on, if one stands there.
fn exponent_from(json: &[u8], start: usize) -> Shift
    requires { (start ≤ 65_536) × (length json.now ≤ 65_536) }
    ensures read { (q : ExponentAt json.now start) → ExponentRead json.now start q result.to result.up result.down }
    ensures sound { (start ≤ result.to) × (result.up ≤ suc power_max) × (result.down ≤ suc power_max) }
{
    if !letter_at(json, start) {
        return Shift {
            to: start,
            up: 0,
            down: 0,
        };
    }
    match byte_at(json, start + 1) {
        b'-' => {
            let p = power_from(json, start + 2);
            Shift {
                to: p.to,
                up: 0,
                down: p.held as u32,
            }
        }
        b'+' => to_the_right(power_from(json, start + 2)),
        _ => to_the_right(power_from(json, start + 1)),
    }
}

// An exponent without a minus.
fn to_the_right(p: Read<u64>) -> Shift
    requires { p.held ≤ suc power_max }
    ensures { result ≡ record { to = p.to; up = p.held; down = 0 } }
{
    Shift {
        to: p.to,
        up: p.held as u32,
        down: 0,
    }
}

// Where the digits start of a number that starts there, below zero or not.
fn behind_minus(start: usize, below: bool) -> usize
    requires { start ≤ 65_536 }
    ensures { result ≡ start + cond below 1 0 }
{
    if below { start + 1 } else { start }
}

// The number that starts at a place of the text.
pub fn read_number(json: &[u8], start: usize) -> Figure
    requires { (start < 65_536) × (length json.now ≤ 65_536) }
    ensures { (q : NumberAt json.now start) → NumberRead json.now start q result.to result.word result.scale }
{
    let below = byte_at(json, start) == b'-';
    let first = behind_minus(start, below);
    let none = Kept { kept: 0, zeros: 0 };
    let whole = digits_from(json, first, none);
    let part = fraction_from(json, whole.to, whole.held);
    let shift = exponent_from(json, part.to);
    let all = part.kept;
    let up = shift.up + all.zeros;
    let down = shift.down + part.places;
    let written = write_down(all.kept, up, down).unwrap_or(Written {
        digits: 0,
        scale: 0,
    });
    let word = word_of(below, written.digits as u32);
    Figure {
        to: shift.to,
        word,
        scale: written.scale,
    }
}
