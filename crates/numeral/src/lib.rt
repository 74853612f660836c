// A number of a JSON text, digit by digit: what is kept of its digits, its exponent, and in the end
// the digits and the scale that a row holds, if one can (`specs/Numeral.antt`, which
// contracts cite). No number of digits and no exponent overflows anything.
#![tactic(auto)]

ghost use Rattle.std.specs.Prelude.{◌≡◌, suc, ◌+◌, ◌*◌, ◌^◌, ◌≤◌, ◌<◌};
ghost use Rattle.sheet.specs.Kinds.{number_max};
ghost use Rattle.numeral.specs.Numeral.{power_max, capped, kept_more, Holding, row_of, written_of, word_of};

use decimal::{Decimal, power};
use sheet::kind::RowKind;

// Digits up to the last that is not 0, as a number, and how many zeros follow it.
#[derive(Clone, Copy)]
pub struct Kept {
    pub kept: u64,
    pub zeros: u32,
}

// The digits and the scale of a number that a row can hold.
#[derive(Clone, Copy)]
pub struct Written {
    pub digits: u64,
    pub scale: u32,
}

// The digits with zeros and one more digit behind them, or one more than the most.
fn longer(kept: u64, zeros: u32, digit: u64) -> u64
    requires { (kept ≤ suc number_max) × (kept ≡ 0 → zeros ≡ 0) × (digit < 10) }
    ensures { result ≡ capped number_max (kept * 10 ^ (zeros + 1) + digit) }
{
    if zeros >= Decimal::SCALE_MAX {
        return RowKind::NUMBER_MAX + 1;
    }
    let all = kept * power(zeros + 1) + digit;
    if all > RowKind::NUMBER_MAX {
        return RowKind::NUMBER_MAX + 1;
    }
    all
}

// The digits so far and one more.
pub fn digit_more(k: Kept, digit: u64) -> Kept
    requires { Holding k × (k.zeros < power_max) × (digit < 10) }
    ensures { (result ≡ kept_more k digit) × Holding result }
{
    if digit != 0 {
        return Kept {
            kept: longer(k.kept, k.zeros, digit),
            zeros: 0,
        };
    }
    if k.kept == 0 {
        return Kept { kept: 0, zeros: 0 };
    }
    Kept {
        zeros: k.zeros + 1,
        ..k
    }
}

// The exponent so far and one more digit, or one more than the most.
pub fn power_more(held: u64, digit: u64) -> u64
    requires { (held ≤ suc power_max) × (digit < 10) }
    ensures { (result ≡ capped power_max (held * 10 + digit)) × (result ≤ suc power_max) }
{
    let all = held * 10 + digit;
    if all > 999_999 {
        return 1_000_000;
    }
    all
}

// kept × 10^up / 10^down as digits and scale, the smallest, if a row can hold it.
pub fn write_down(kept: u64, up: u32, down: u32) -> Option<Written>
    requires { kept ≤ suc number_max }
    ensures { result ≡ row_of (written_of kept up down) }
{
    if kept == 0 {
        return Some(Written {
            digits: 0,
            scale: 0,
        });
    }
    if up < down {
        return lowered(kept, up, down);
    }
    let by = up - down;
    if by >= Decimal::SCALE_MAX {
        return None;
    }
    let digits = kept * power(by);
    if digits > RowKind::NUMBER_MAX {
        return None;
    }
    Some(Written { digits, scale: 0 })
}

// The same where the point moves to the left.
fn lowered(kept: u64, up: u32, down: u32) -> Option<Written>
    requires { (0 < kept) × (up < down) }
    ensures { result ≡ row_of (written_of kept up down) }
{
    let by = down - up;
    if by > Decimal::SCALE_MAX {
        return None;
    }
    if kept > RowKind::NUMBER_MAX {
        return None;
    }
    Some(Written {
        digits: kept,
        scale: by,
    })
}

// Digits with their sign as a word, in two's complement.
pub fn word_of(below: bool, digits: u32) -> u32
    requires { digits ≤ number_max }
    ensures { result ≡ word_of below digits }
{
    if digits == 0 {
        return 0;
    }
    if below {
        return 0xFFFF_FFFF - (digits - 1);
    }
    digits
}
