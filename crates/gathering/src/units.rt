// Escapes: their numbers, digit by digit, the escape of a low surrogate that follows, and characters.
ghost use Rattle.std.specs.Prelude.{◌≡◌, ◌≤◌, ◌<◌, drop};
ghost use Rattle.jsontext.specs.Value.{joined};
ghost use Rattle.naming.specs.Gathering.{low_ahead};
ghost use Rattle.gathering.specs.Held.{unit_from};

use escapes::{character_of, low};
use figures::byte_at;
use watching::escaping::hex_more;

// The number of the four digits from place i on; behind the end they count as 0. No loop: its invariant would be the
// clause's four lines again.
pub(crate) fn unit_from(json: &[u8], i: usize) -> u32
    requires { i ≤ 100_000 }
    ensures { result ≡ unit_from json.now i }
{
    let a = hex_more(0, byte_at(json, i));
    let b = hex_more(a, byte_at(json, i + 1));
    let c = hex_more(b, byte_at(json, i + 2));
    hex_more(c, byte_at(json, i + 3))
}

// Whether the escape of a low surrogate stands at place i.
pub(crate) fn low_ahead(json: &[u8], i: usize) -> bool
    requires { i ≤ 90_000 }
    ensures { result ≡ low_ahead (drop i json.now) }
{
    byte_at(json, i) == b'\\' && byte_at(json, i + 1) == b'u' && low(unit_from(json, i + 2))
}

// The character of a low surrogate for which a high one waits, or of the escape by itself where none does.
pub(crate) fn character(waits: u32, code: u32) -> u32
    requires { (waits < 0xDC00) × (code < 0x20000) }
    ensures { (result ≡ joined waits code) × (result < 0x200000) }
{
    if waits == 0 {
        return character_of(None, code);
    }
    character_of(Some(waits), code)
}
