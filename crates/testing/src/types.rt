// The types of a mask, by the number and the kind that were read.
ghost use Rattle.std.specs.Prelude.{true, ◌≡◌, ◌<◌};
ghost use Rattle.decimal.specs.Value.{value, Plain};
ghost use Rattle.sheet.specs.Doc.{Value, number, value_kind};
ghost use Rattle.meaning.specs.Tests.{has, typed};
ghost use Rattle.looking.specs.Read.{PlainIn, NumberFound};
ghost use Rattle.testing.specs.Types.{type_number};

use decimal::{Decimal, whole};
use sheet::kind::RowKind;

// The number of a whole number's other type.
const INTEGER: u32 = 4;

// The number of a kind's type.
fn type_of(kind: RowKind) -> u32
    ensures { result ≡ type_number kind }
{
    match kind {
        RowKind::Null => 1,
        RowKind::False => 2,
        RowKind::True => 2,
        RowKind::Number => 8,
        RowKind::String => 16,
        RowKind::Array => 32,
        RowKind::Object => 64,
    }
}

// Whether the mask, a sum of types, has this one.
fn has_type(mask: u32, number: u32) -> bool
    requires { 0 < number }
    ensures { result ≡ has mask number }
{
    mask / number % 2 == 1
}

// Whether a number has one of the mask's types: it is an integer by its value, however it is written.
fn numeric(mask: u32, it: Decimal) -> bool
    requires { Plain it }
    ensures { result ≡ typed mask (number (value it)) }
{
    if has_type(mask, type_of(RowKind::Number)) {
        return true;
    }
    has_type(mask, INTEGER) && whole(it)
}

// Whether a value has one of the mask's types, by its number, if it is one, and by its kind.
pub fn typed(found: Option<Decimal>, kind: RowKind, mask: u32) -> bool
    requires { PlainIn found }
    ensures { (v : Value) → NumberFound v found → kind ≡ value_kind v → result ≡ typed mask v }
{
    match found {
        Some(number) => numeric(mask, number),
        None => has_type(mask, type_of(kind)),
    }
}

// Whether a number has one of the mask's types, as far as it tells without a division. A yes is one.
fn plainly_numeric(mask: u32, it: Decimal) -> bool
    requires { Plain it }
    ensures { result ≡ true → typed mask (number (value it)) ≡ true }
{
    if it.scale == 0 {
        return numeric(mask, it);
    }
    has_type(mask, type_of(RowKind::Number))
}

// The same, as far as it tells without a division. A yes is one.
pub fn plainly_typed(found: Option<Decimal>, kind: RowKind, mask: u32) -> bool
    requires { PlainIn found }
    ensures { result ≡ true → (v : Value) → NumberFound v found → kind ≡ value_kind v → typed mask v ≡ true }
{
    match found {
        Some(number) => plainly_numeric(mask, number),
        None => has_type(mask, type_of(kind)),
    }
}
