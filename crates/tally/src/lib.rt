// The counters of the first pass over a JSON text: what each byte adds to them, by the place that it
// is read at (`specs/Tallying.antt` and `specs/Bounds.antt`, which contracts cite); and the theorem
// that they are those of its value's rows and text (`proofs/Tallied.antt`).
#![tactic(auto)]

ghost use Rattle.std.specs.Prelude.{List, ◌≡◌, ℕ, ◌≤◌, ◌<◌, ◌+◌};
ghost use Rattle.grammar.specs.Codes.{place_at};
ghost use Rattle.tally.specs.Tallying.{add_at, unit_size, tally_of, counting};
ghost use Rattle.tally.specs.Bounds.{UpTo, most};

use escapes::{high, low, size_of};
use watching::escaping::hex_more;

// The digits of the escape under way, and whether a high surrogate's escape stands directly before.
#[derive(Clone, Copy, Default)]
pub struct Units {
    pub code: u32,
    pub high: bool,
}

// n more on level k, if it is counted.
fn add(counters: &mut [u32], k: u32, n: u32)
    requires { (UpTo most counters.old) × (n ≤ 4) }
    ensures { counters.new ≡ add_at k n counters.old }
{
    // No `get_mut`: of a slice that it lent out a proof knows only the length.
    let at = k as usize;
    if at < counters.len() {
        counters[at] += n;
    }
}

// The bytes of an escape.
fn unit_size(behind: bool, code: u32) -> u32
    ensures { (result ≡ unit_size behind code) × (result ≤ 4) }
{
    if behind & low(code) {
        return 1;
    }
    size_of(code)
}

// Within an escape's hexadecimal digits.
fn hex_counts(place: u8, depth: u32, byte: u8, s: Units, texts: &mut [u32]) -> Units
    requires { (28 ≤ place) × (place < 36) × (UpTo most texts.old) }
    ensures { (values : List ℕ) → tally_of result values texts.new ≡ counting (place_at place) depth byte (tally_of s values texts.old) }
{
    let code = hex_more(s.code, byte);
    if place < 30 {
        add(texts, depth, unit_size(s.high, code));
        return Units {
            high: high(code),
            ..s
        };
    }
    Units { code, ..s }
}

// Within a string: a plain byte first, of which there are the most.
fn string_counts(place: u8, depth: u32, byte: u8, s: Units, texts: &mut [u32]) -> Units
    requires { (24 ≤ place) × (place < 50) × (UpTo most texts.old) }
    ensures { (values : List ℕ) → tally_of result values texts.new ≡ counting (place_at place) depth byte (tally_of s values texts.old) }
{
    if place < 26 {
        if byte == b'\\' {
            return Units { code: 0, ..s };
        }
        if byte == b'"' {
            return s;
        }
        add(texts, depth, 1);
        return Units { high: false, ..s };
    }
    if 36 <= place {
        add(texts, depth, 1);
        return s;
    }
    if 28 <= place {
        return hex_counts(place, depth, byte, s, texts);
    }
    if byte == b'u' {
        return s;
    }
    add(texts, depth, 1);
    Units { high: false, ..s }
}

// Where a value or a name may start, and after a value.
fn outer_counts(place: u8, depth: u32, byte: u8, s: Units, values: &mut [u32]) -> Units
    requires { (place < 5) × (UpTo most values.old) }
    ensures { (texts : List ℕ) → tally_of result values.new texts ≡ counting (place_at place) depth byte (tally_of s values.old texts) }
{
    if byte <= b' ' {
        return s;
    }
    if place == 2 {
        return s;
    }
    if (place == 1) & (byte == b']') {
        return s;
    }
    if (place == 4) & (byte == b'}') {
        return s;
    }
    if place < 2 {
        add(values, depth, 1);
    }
    Units::default()
}

// What a byte adds to the counters: the place it is read at, and how many brackets are open around it.
pub fn count(
    place: u8,
    depth: u32,
    byte: u8,
    s: Units,
    values: &mut [u32],
    texts: &mut [u32],
) -> Units
    requires { (place < 50) × (UpTo most values.old) × (UpTo most texts.old) }
    ensures { tally_of result values.new texts.new ≡ counting (place_at place) depth byte (tally_of s values.old texts.old) }
{
    if 24 <= place {
        return string_counts(place, depth, byte, s, texts);
    }
    if 5 <= place {
        return s;
    }
    outer_counts(place, depth, byte, s, values)
}
