// Escapes of a JSON text, read: a hexadecimal digit, the four of an escape, the character of a pair
// of surrogates, and how many bytes a character takes (`specs/Escapes.antt`, which contracts cite).
#![tactic(auto)]

ghost use Rattle.std.specs.Prelude.{◌≡◌, ◌+◌, ◌*◌, ◌≤◌, ◌<◌, IfSome};
ghost use Rattle.jsontext.specs.Value.{is_high, is_low, joined};
ghost use Rattle.escapes.specs.Escapes.{hex_at, waiting, encoded_size};

// What a byte is worth as a hexadecimal digit; of one that is none something small.
pub fn hex_of(byte: u32) -> u32
    ensures worth { result ≡ hex_at byte }
    ensures small { result ≤ byte }
{
    if byte <= 0x39 {
        return byte.saturating_sub(0x30);
    }
    if byte <= 0x46 {
        return byte - 0x37;
    }
    byte.saturating_sub(0x57)
}

// Whether the code is a high surrogate, and a low one.
pub fn high(code: u32) -> bool
    ensures { result ≡ is_high code }
{
    matches!(code, 0xD800..=0xDBFF)
}

pub fn low(code: u32) -> bool
    ensures { result ≡ is_low code }
{
    matches!(code, 0xDC00..=0xDFFF)
}

// The number of four hexadecimal digits.
pub fn unit_of(a: u32, b: u32, c: u32, d: u32) -> u32
    requires { (a < 16) × (b < 16) × (c < 16) × (d < 16) }
    ensures { result ≡ ((a * 16 + b) * 16 + c) * 16 + d }
{
    ((a * 16 + b) * 16 + c) * 16 + d
}

// The character of a low surrogate for which a high one waits, or of the escape by itself where none does.
pub fn character_of(waits: Option<u32>, code: u32) -> u32
    requires { (waiting waits < 0xDC00) × (code < 0x20000) × IfSome waits (λ high. 0 < high) }
    ensures joined { result ≡ joined (waiting waits) code }
    ensures small { result < 0x200000 }
{
    match waits {
        None => code,
        Some(high) => 0x10000 + high.saturating_sub(0xD800) * 0x400 + code.saturating_sub(0xDC00),
    }
}

// How many bytes a character takes.
pub fn size_of(code: u32) -> u32
    ensures { result ≡ encoded_size code }
{
    if code < 0x80 {
        return 1;
    }
    if code < 0x800 {
        return 2;
    }
    if code < 0x10000 {
        return 3;
    }
    4
}
