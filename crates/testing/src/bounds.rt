// The bounds of a number that was read. What is no number keeps them.
ghost use Rattle.std.specs.Prelude.{true, ◌≡◌};
ghost use Rattle.std.specs.Int.Signed.{le_z, lt_z};
ghost use Rattle.decimal.specs.Value.{value, Plain, is_multiple};
ghost use Rattle.sheet.specs.Doc.{Value};
ghost use Rattle.meaning.specs.Tests.{number?, given};
ghost use Rattle.looking.specs.Read.{PlainIn, NumberFound};

use decimal::{Decimal, at_most, less, plainly_at_most, plainly_less};

// Whether the number, if there is one, is at least the limit.
pub fn minimum(found: Option<Decimal>, limit: Decimal) -> bool
    requires { PlainIn found × Plain limit }
    ensures { (v : Value) → NumberFound v found → result ≡ given (number? v) (λ y. le_z (value limit) y) }
{
    found.is_none_or(|number| at_most(limit, number))
}

// Whether the number, if there is one, is at most the limit.
pub fn maximum(found: Option<Decimal>, limit: Decimal) -> bool
    requires { PlainIn found × Plain limit }
    ensures { (v : Value) → NumberFound v found → result ≡ given (number? v) (λ y. le_z y (value limit)) }
{
    found.is_none_or(|number| at_most(number, limit))
}

// Whether the number, if there is one, is above the limit.
pub fn exclusive_minimum(found: Option<Decimal>, limit: Decimal) -> bool
    requires { PlainIn found × Plain limit }
    ensures { (v : Value) → NumberFound v found → result ≡ given (number? v) (λ y. lt_z (value limit) y) }
{
    found.is_none_or(|number| less(limit, number))
}

// Whether the number, if there is one, is below the limit.
pub fn exclusive_maximum(found: Option<Decimal>, limit: Decimal) -> bool
    requires { PlainIn found × Plain limit }
    ensures { (v : Value) → NumberFound v found → result ≡ given (number? v) (λ y. lt_z y (value limit)) }
{
    found.is_none_or(|number| less(number, limit))
}

// Whether the number, if there is one, is the limit times a whole number.
pub fn multiple_of(found: Option<Decimal>, limit: Decimal) -> bool
    requires { PlainIn found × Plain limit }
    ensures { (v : Value) → NumberFound v found → result ≡ given (number? v) (λ y. is_multiple y (value limit)) }
{
    found.is_none_or(|number| decimal::multiple_of(number, limit))
}

// ---- as far as the digits tell as they stand

// Whether its digits tell that the number, if there is one, is at least the limit. A yes is one.
pub fn plainly_minimum(found: Option<Decimal>, limit: Decimal) -> bool
    requires { PlainIn found × Plain limit }
    ensures { result ≡ true → (v : Value) → NumberFound v found → given (number? v) (λ y. le_z (value limit) y) ≡ true }
{
    found.is_none_or(|number| plainly_at_most(limit, number))
}

// Whether its digits tell that the number, if there is one, is at most the limit. A yes is one.
pub fn plainly_maximum(found: Option<Decimal>, limit: Decimal) -> bool
    requires { PlainIn found × Plain limit }
    ensures { result ≡ true → (v : Value) → NumberFound v found → given (number? v) (λ y. le_z y (value limit)) ≡ true }
{
    found.is_none_or(|number| plainly_at_most(number, limit))
}

// Whether its digits tell that the number, if there is one, is above the limit. A yes is one.
pub fn plainly_exclusive_minimum(found: Option<Decimal>, limit: Decimal) -> bool
    requires { PlainIn found × Plain limit }
    ensures { result ≡ true → (v : Value) → NumberFound v found → given (number? v) (λ y. lt_z (value limit) y) ≡ true }
{
    found.is_none_or(|number| plainly_less(limit, number))
}

// Whether its digits tell that the number, if there is one, is below the limit. A yes is one.
pub fn plainly_exclusive_maximum(found: Option<Decimal>, limit: Decimal) -> bool
    requires { PlainIn found × Plain limit }
    ensures { result ≡ true → (v : Value) → NumberFound v found → given (number? v) (λ y. lt_z y (value limit)) ≡ true }
{
    found.is_none_or(|number| plainly_less(number, limit))
}
