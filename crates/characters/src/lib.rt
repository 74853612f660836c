// A character, written into an area: its bytes in UTF-8 (`jsontext/specs/Utf8.antt`, which the contract cites).
#![tactic(auto)]

ghost use Rattle.std.specs.Prelude.{[], ◌≡◌, ◌+◌, ◌<◌, length};
ghost use Rattle.std.proofs.lemmas.List.Edits.{sets};
ghost use Rattle.jsontext.specs.Utf8.{encode};

use putting::put;

// A character's bytes in UTF-8 from a place on; the place behind them.
pub fn append(area: &mut [u8], at: usize, code: u32) -> usize
    requires { (code < 0x200000) × (at < 1_000_000_000_000) }
    ensures { (result ≡ at + length (encode code [])) × (area.new ≡ sets area.old at (encode code [])) }
{
    if code < 0x80 {
        put(area, at, code as u8);
        return at + 1;
    }
    if code < 0x800 {
        put(area, at, (0xC0 + code / 0x40) as u8);
        put(area, at + 1, (0x80 + code % 0x40) as u8);
        return at + 2;
    }
    if code < 0x10000 {
        put(area, at, (0xE0 + code / 0x1000) as u8);
        put(area, at + 1, (0x80 + code / 0x40 % 0x40) as u8);
        put(area, at + 2, (0x80 + code % 0x40) as u8);
        return at + 3;
    }
    put(area, at, (0xF0 + code / 0x40000) as u8);
    put(area, at + 1, (0x80 + code / 0x1000 % 0x40) as u8);
    put(area, at + 2, (0x80 + code / 0x40 % 0x40) as u8);
    put(area, at + 3, (0x80 + code % 0x40) as u8);
    at + 4
}
