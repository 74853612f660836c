// The first pass over a JSON text, as far as it looks for faults: what each byte does to what is
// kept, in code. Its contracts cite `Watching` and `Bounds` of `survey`.
#![tactic(auto)]

ghost use Rattle.std.specs.Prelude.{◌≡◌, ◌≤◌, ◌<◌};
ghost use Rattle.grammar.specs.Codes.{place_at};
ghost use Rattle.survey.specs.Watching.{moved};
ghost use Rattle.survey.specs.Bounds.{Sound};

pub mod escaping;
pub mod numbers;
mod values;

use crate::escaping::{backslash, hex_digit, hex_last, surrogate_parts};
use crate::numbers::{in_exponent, take_digit, take_digit_or_end};
use crate::values::value_starts;
use figure::{part_more, power_digit, whole_more};
use survey::{Escapes, Watch};

// Within a number.
fn number_moves(place: u8, depth: u32, byte: u8, left: usize, s: Watch) -> Watch
    requires { (16 ≤ place) × (place < 24) × (depth < 100) × Sound s }
    ensures { result ≡ moved (place_at place) depth byte left s }
{
    if place == 16 {
        return take_digit(whole_more, byte, s);
    }
    if place < 19 {
        return take_digit_or_end(whole_more, depth, byte, s);
    }
    if place == 19 {
        return take_digit(part_more, byte, s);
    }
    if place == 20 {
        return take_digit_or_end(part_more, depth, byte, s);
    }
    if place == 21 {
        return in_exponent(byte, s);
    }
    if place == 22 {
        return take_digit(power_digit, byte, s);
    }
    take_digit_or_end(power_digit, depth, byte, s)
}

// Within a string.
fn string_moves(place: u8, depth: u32, byte: u8, left: usize, s: Watch) -> Watch
    requires { (24 ≤ place) × (place < 36) }
    ensures { result ≡ moved (place_at place) depth byte left s }
{
    if place < 26 {
        if byte == b'\\' {
            return backslash(left, s);
        }
        return surrogate_parts(s);
    }
    if place < 28 {
        if byte == b'u' {
            return s;
        }
        return surrogate_parts(s);
    }
    if place < 30 {
        return hex_last(byte, s);
    }
    hex_digit(byte, s)
}

// Where a value or a name may start, and after a value.
fn outer_moves(place: u8, depth: u32, byte: u8, left: usize, s: Watch) -> Watch
    requires { (place < 5) × (depth < 100) × Sound s }
    ensures { result ≡ moved (place_at place) depth byte left s }
{
    if place == 0 {
        return value_starts(depth, byte, left, s);
    }
    if place == 2 {
        return s;
    }
    if byte <= b' ' {
        return s;
    }
    if place == 3 {
        return Watch {
            escapes: Escapes::default(),
            ..s
        };
    }
    if place == 1 {
        if byte == b']' {
            return s;
        }
        return value_starts(depth, byte, left, s);
    }
    if byte == b'}' {
        return s;
    }
    Watch {
        escapes: Escapes::default(),
        ..s
    }
}

// What a byte does to what is kept, before a fault: the place it is read at, how many brackets are
// open around it, and how many bytes are left from it on.
pub fn move_on(place: u8, depth: u32, byte: u8, left: usize, s: Watch) -> Watch
    requires { (place < 50) × (depth < 100) × Sound s }
    ensures { result ≡ moved (place_at place) depth byte left s }
{
    if 36 <= place {
        return s;
    }
    if 24 <= place {
        return string_moves(place, depth, byte, left, s);
    }
    if 16 <= place {
        return number_moves(place, depth, byte, left, s);
    }
    if 5 <= place {
        return s;
    }
    outer_moves(place, depth, byte, left, s)
}
