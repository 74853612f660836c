// A string of a JSON text, read from the text and written, decoded, into an area: byte by byte as it
// stands, escapes as the characters they are of (`specs/Atoms.antt`, which contracts cite).
#![tactic(auto)]

ghost use Rattle.std.proofs.Props.{props};
ghost use Rattle.std.specs.Prelude.{IfSome, ◌≢◌, ◌≡◌, ◌+◌, ◌≤◌, ◌<◌, length, get_or};
ghost use Rattle.escapes.specs.Escapes.{waiting};
ghost use Rattle.strings.specs.Atoms.{code_at, HexAt, Inside, Onward, Copied};

use characters::append;
use escapes::{character_of, hex_of, high, unit_of};
use putting::{put, short_of};

// How far a string was read and written, and the high surrogate that waits for its low one.
#[derive(Clone, Copy)]
struct Spot {
    to: usize,
    at: usize,
    waits: Option<u32>,
    ghost not_nought: { IfSome waits (λ high. 0 < high) } by { Prim.hlevel props },
}

// Where a string ends in the text, behind its quote, and in the area.
#[derive(Clone, Copy)]
pub struct Ended {
    pub to: usize,
    pub at: usize,
}

// The number of the escape at place i.
fn code_at(json: &[u8], i: usize) -> u32
    requires { (HexAt json.now (i + 2)) × (HexAt json.now (i + 3)) × (HexAt json.now (i + 4)) × (HexAt json.now (i + 5)) }
    ensures { result ≡ code_at json.now i }
{
    let a = hex_of(u32::from(json[i + 2]));
    let b = hex_of(u32::from(json[i + 3]));
    let c = hex_of(u32::from(json[i + 4]));
    let d = hex_of(u32::from(json[i + 5]));
    unit_of(a, b, c, d)
}

// One atom of a string, from a spot of the text and of the area to the next.
fn atom(json: &[u8], area: &mut [u8], spot: Spot) -> Spot
    requires inside { Inside json.now spot.to (waiting spot.waits) }
    requires not_at_quote { (get_or json.now spot.to 0 ≢ 0x22) × (spot.at < 1_000_000_000_000) }
    ensures onward { (s : Inside json.now spot.to (waiting spot.waits)) → Onward json.now spot.to (waiting spot.waits) spot.at area.old s result.to (waiting result.waits) result.at area.new }
    ensures further { spot.to < result.to }
{
    let Spot { to: i, at, waits } = spot;
    let byte = json[i];
    if byte != b'\\' {
        put(area, at, byte);
        return Spot {
            to: i + 1,
            at: at + 1,
            waits: None,
        };
    }
    let next = json[i + 1];
    if next != b'u' {
        put(area, at, short_of(next));
        return Spot {
            to: i + 2,
            at: at + 1,
            waits: None,
        };
    }
    let code = code_at(json, i);
    if high(code) {
        return Spot {
            to: i + 6,
            at,
            waits: Some(code),
        };
    }
    let end = append(area, at, character_of(waits, code));
    Spot {
        to: i + 6,
        at: end,
        waits: None,
    }
}

// The string whose inside starts at place `start` of the text, decoded, from place `from` of the
// area on.
pub fn copy_string(json: &[u8], start: usize, area: &mut [u8], from: usize) -> Ended
    requires string_goes_on { Inside json.now start 0 }
    requires sizes_bounded { (from < 100_000_000_000) × (length json.now < 100_000_000_000) }
    ensures { (s : Inside json.now start 0) → Copied json.now start from area.old s result.to result.at area.new }
{
    let mut spot = Spot {
        to: start,
        at: from,
        waits: None,
    };
    while json[spot.to] != b'"' {
        spot = atom(json, area, spot);
    }
    Ended {
        to: spot.to + 1,
        at: spot.at,
    }
}
