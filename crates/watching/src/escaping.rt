// Strings: escapes, and the fault 26.
ghost use Rattle.std.specs.Prelude.{◌≡◌, ◌+◌, ◌*◌, ◌%◌, ◌<◌};
ghost use Rattle.escapes.specs.Escapes.{hex_at};
ghost use Rattle.survey.specs.Watching.{parted, coded, slashed, code_more, hexed};

use crate::values::at_fault;
use escapes::{hex_of, high, low};
use survey::{Escapes, Watch};

// A high surrogate that waits is lone, unless a low one follows directly.
pub(crate) fn surrogate_parts(s: Watch) -> Watch
    ensures { result ≡ parted s }
{
    let e = s.escapes;
    if e.waits == 0 {
        return s;
    }
    at_fault(26, e.waiting, s)
}

// The escape of a code is whole.
pub(crate) fn escape_whole(code: u32, s: Watch) -> Watch
    ensures { result ≡ coded code s }
{
    let e = s.escapes;
    if low(code) {
        if e.waits == 0 {
            return at_fault(26, e.here, s);
        }
        let escapes = Escapes {
            waits: 0,
            waiting: 0,
            ..e
        };
        return Watch { escapes, ..s };
    }
    if e.waits != 0 {
        return at_fault(26, e.waiting, s);
    }
    if high(code) {
        let escapes = Escapes {
            waits: code,
            waiting: e.here,
            ..e
        };
        return Watch { escapes, ..s };
    }
    s
}

// A backslash.
pub(crate) fn backslash(left: usize, s: Watch) -> Watch
    ensures { result ≡ slashed left s }
{
    let escapes = Escapes {
        code: 0,
        here: left,
        ..s.escapes
    };
    Watch { escapes, ..s }
}

// A code with a hexadecimal digit more.
pub fn hex_more(code: u32, byte: u8) -> u32
    ensures { (result ≡ code % 0x1000 * 16 + hex_at byte) × (result < 0x20000) }
{
    code % 0x1000 * 16 + hex_of(u32::from(byte))
}

// A hexadecimal digit, before the last.
pub(crate) fn hex_digit(byte: u8, s: Watch) -> Watch
    ensures { result ≡ hexed byte s }
{
    let e = s.escapes;
    let escapes = Escapes {
        code: hex_more(e.code, byte),
        ..e
    };
    Watch { escapes, ..s }
}

// The last hexadecimal digit.
pub(crate) fn hex_last(byte: u8, s: Watch) -> Watch
    ensures { result ≡ coded (code_more byte s) s }
{
    escape_whole(hex_more(s.escapes.code, byte), s)
}
