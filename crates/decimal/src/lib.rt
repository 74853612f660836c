// Exact decimals: a sign, digits and a scale, with order, equality, wholeness and multiples. Nothing is rounded, and nothing needs
// more than 64 bits.
//
// The contracts cite `specs/Value.antt`: `value` is what a decimal stands for, a whole number of billionths, and `Plain` says that a
// decimal is within the limits, which every question about its value asks.
#![tactic(auto)]

ghost use Rattle.std.specs.Prelude.{true, ◌≡◌, ◌*◌, ◌%◌, ◌^◌, ◌≤◌, ◌<◌, leb, nat_abs};
ghost use Rattle.std.specs.Int.Signed.{le_z, lt_z};
ghost use Rattle.decimal.specs.Value.{scale_max, digits_max, value, Plain, equal_z, is_whole, is_multiple, OfWord};

// digits / 10^scale, below zero if `below` says so. Zero may have either sign.
//
// `Plain` is no invariant: `of_word` takes any scale, and its callers test later. So order and equality, which ask for `Plain`, are
// functions and no `Ord`, whose methods may ask for nothing.
#[derive(Clone, Copy)]
pub struct Decimal {
    pub below: bool,
    pub digits: u64,
    pub scale: u32,
}

impl Decimal {
    pub const SCALE_MAX: u32 = 9;

    // The word as a signed number in two's complement, over 10^scale. It is plain if the scale is at most `SCALE_MAX`.
    pub fn of_word(word: u32, scale: u32) -> Decimal
        ensures { OfWord word scale result }
    {
        let number = word.cast_signed();
        Decimal {
            below: number < 0,
            digits: u64::from(number.unsigned_abs()),
            scale,
        }
    }
}

// 10^n, at the place n.
const POWERS: [u64; 10] = [
    1,
    10,
    100,
    1_000,
    10_000,
    100_000,
    1_000_000,
    10_000_000,
    100_000_000,
    1_000_000_000,
];

// 10^n, for an `n` up to `SCALE_MAX`, the last place of the table.
pub fn power(n: u32) -> u64
    requires { n ≤ scale_max }
    ensures { result ≡ 10 ^ n }
{
    prove_eq!(POWERS.len(), Decimal::SCALE_MAX as usize + 1);
    POWERS[n as usize]
}

// Whether the size of `a` is at most that of `b`, their signs left out. The digits with more places are divided, rounded up on the left
// and down on the right: the others multiplied may not fit.
fn size_at_most(a: Decimal, b: Decimal) -> bool
    requires { Plain a × Plain b }
    ensures { result ≡ leb (nat_abs (value a)) (nat_abs (value b)) }
{
    if a.scale < b.scale {
        return a.digits <= b.digits / power(b.scale - a.scale);
    }
    let unit = power(a.scale - b.scale);
    (a.digits + (unit - 1)) / unit <= b.digits
}

// Whether a ≤ b, at one scale, with different signs, or of zero: then the digits are compared as they stand.
fn alike_at_most(a: Decimal, b: Decimal) -> bool
    requires { Plain a × Plain b × (a.below ≡ b.below → 0 < a.digits → a.scale ≡ b.scale) }
    ensures { result ≡ le_z (value a) (value b) }
{
    if a.below {
        if b.below {
            return b.digits <= a.digits;
        }
        return true;
    }
    if b.below {
        return a.digits == 0 && b.digits == 0;
    }
    a.digits <= b.digits
}

// Whether a ≤ b, at whatever scales.
fn unlike_at_most(a: Decimal, b: Decimal) -> bool
    requires { Plain a × Plain b }
    ensures { result ≡ le_z (value a) (value b) }
{
    if a.below == b.below {
        if a.below {
            return size_at_most(b, a);
        }
        return size_at_most(a, b);
    }
    alike_at_most(a, b)
}

// Whether a ≤ b. The two zeros are at most each other.
pub fn at_most(a: Decimal, b: Decimal) -> bool
    requires { Plain a × Plain b }
    ensures { result ≡ le_z (value a) (value b) }
{
    if a.scale == b.scale {
        return alike_at_most(a, b);
    }
    unlike_at_most(a, b)
}

// Whether a < b: not b ≤ a. It calls what `at_most` calls, which so has two callers: the compiler keeps it behind a call, and makes
// the comparison at one scale part of whoever asks.
pub fn less(a: Decimal, b: Decimal) -> bool
    requires { Plain a × Plain b }
    ensures { result ≡ lt_z (value a) (value b) }
{
    if b.scale == a.scale {
        return !alike_at_most(b, a);
    }
    !unlike_at_most(b, a)
}

// Whether the digits as they stand tell that a ≤ b: those of zero do, whatever the scales. A yes is one; a no leaves it open.
pub fn plainly_at_most(a: Decimal, b: Decimal) -> bool
    requires { Plain a × Plain b }
    ensures { result ≡ true → le_z (value a) (value b) ≡ true }
{
    ((a.digits == 0) | (a.scale == b.scale)) && alike_at_most(a, b)
}

// Whether they tell that a < b. A yes is one; a no leaves it open.
pub fn plainly_less(a: Decimal, b: Decimal) -> bool
    requires { Plain a × Plain b }
    ensures { result ≡ true → lt_z (value a) (value b) ≡ true }
{
    a.scale == b.scale && !alike_at_most(b, a)
}

// Whether a = b, at whatever scales: a ≤ b and b ≤ a.
pub fn equal(a: Decimal, b: Decimal) -> bool
    requires { Plain a × Plain b }
    ensures { result ≡ equal_z (value a) (value b) }
{
    at_most(a, b) && at_most(b, a)
}

// Whether `a` is a whole number: 1 is, 1.0 is, and 1.5 is not.
pub fn whole(a: Decimal) -> bool
    requires { Plain a }
    ensures { result ≡ is_whole (value a) }
{
    if a.scale == 0 {
        return true;
    }
    a.digits % power(a.scale) == 0
}

// What division of digits * 10^places by `m` leaves. The product may not fit and is never made: each place is added and divided at once.
fn left_of(digits: u64, places: u32, m: u64) -> u64
    requires { (0 < m) × (m ≤ digits_max) }
    ensures { result ≡ (digits * 10 ^ places) % m }
{
    let mut left = digits % m;
    for _place in 0..places {
        left = (left * 10) % m;
    }
    left
}

// Whether `a` is `m` times a whole number. Signs do not matter, and 0 is the only multiple of 0.
pub fn multiple_of(a: Decimal, m: Decimal) -> bool
    requires { Plain a × Plain m }
    ensures { result ≡ is_multiple (value a) (value m) }
{
    let digits = a.digits;
    let by = m.digits;
    if by == 0 {
        return digits == 0;
    }
    if m.scale < a.scale {
        if digits % by == 0 {
            return (digits / by) % power(a.scale - m.scale) == 0;
        }
        return false;
    }
    left_of(digits, m.scale - a.scale, by) == 0
}
