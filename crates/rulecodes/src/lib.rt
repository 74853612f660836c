// The table of codes, in code: the shape of a code. No other crate asks for a code but the readers of
// clauses, `rulereader` and `few`; the numbers are `rulesheet`'s. Codes are told by size and then by
// number, and not by one `match`, which takes up to seven comparisons where this takes two to four.
//
// Its contracts cite `rulesheet`'s `Codes`, which has 01's table.
#![tactic(auto)]

ghost use Rattle.std.specs.Prelude.{◌≡◌, ◌≤◌, ◌<◌};
ghost use Rattle.rulesheet.specs.declared.code.Fields.TheVariants.{Unknown};
ghost use Rattle.rulesheet.specs.Codes.{guarded_shape, in_place_shape, exact_shape, shape_of};

use rulesheet::code::{Fields, Shape};
use rulesheet::codes;

// More than a sheet has entries.
const NO_MOST: u32 = 4_294_967_295;

// The shape of one of the codes that few sheets have, or of none.
fn seldom(code: u32) -> Shape
    requires { (code ≡ 36 → ⊥) → (code ≡ 37 → ⊥) → (code ≡ 45 → ⊥) → shape_of code ≡ guarded_shape Unknown 0 }
    ensures { result ≡ shape_of code }
{
    if code == codes::IF_THEN_ELSE {
        return exactly(Fields::Branches, 3, true);
    }
    if code == codes::DEPENDENT_SCHEMAS {
        return in_place(Fields::Members, 0);
    }
    if code == codes::CONTAINS {
        return exactly(Fields::Counted, 1, false);
    }
    guarded(Fields::Unknown, 0)
}

// The shape of a code below 10.
fn below_ten(code: u32) -> Shape
    requires { code < 10 }
    ensures { result ≡ shape_of code }
{
    if code == codes::TYPE {
        return guarded(Fields::Types, 0);
    }
    if code == codes::NEVER {
        return guarded(Fields::Bare, 0);
    }
    if code == codes::ENUM {
        return guarded(Fields::Values, 1);
    }
    seldom(code)
}

// The shape of a code below 26.
fn low(code: u32) -> Shape
    requires { code < 26 }
    ensures { result ≡ shape_of code }
{
    if code < codes::MINIMUM {
        return below_ten(code);
    }
    if code < codes::MULTIPLE_OF {
        return guarded(Fields::Number, 0);
    }
    if codes::MIN_LENGTH <= code {
        return guarded(Fields::Limit, 0);
    }
    if code == codes::MULTIPLE_OF {
        return guarded(Fields::Positive, 0);
    }
    seldom(code)
}

// The shape of a code from 27 to 39.
fn middle(code: u32) -> Shape
    requires { (27 ≤ code) × (code < 40) }
    ensures { result ≡ shape_of code }
{
    if code < codes::ALL_OF {
        return seldom(code);
    }
    if code < codes::NOT {
        return in_place(Fields::Schemas, 1);
    }
    if code <= codes::REF {
        return in_place(Fields::Schema, 0);
    }
    seldom(code)
}

// The shape of a code above 40.
fn high(code: u32) -> Shape
    requires { 41 ≤ code }
    ensures { result ≡ shape_of code }
{
    if (code == codes::ADDITIONAL_PROPERTIES) | (code == codes::ITEMS) {
        return guarded(Fields::Schema, 0);
    }
    if (code == codes::UNEVALUATED_PROPERTIES) | (code == codes::UNEVALUATED_ITEMS) {
        return guarded(Fields::Schema, 0);
    }
    if code == codes::PREFIX_ITEMS {
        return guarded(Fields::Schemas, 1);
    }
    seldom(code)
}

// The shape of a code, `Fields::Unknown` where there is no such code: those that most sheets have
// are told after a few comparisons.
pub fn shape_of(code: u32) -> Shape
    ensures { result ≡ shape_of code }
{
    if code < codes::REQUIRED {
        return low(code);
    }
    if code == codes::REQUIRED {
        return guarded(Fields::Names, 0);
    }
    if code == codes::PROPERTIES {
        return guarded(Fields::Members, 0);
    }
    if code < codes::PROPERTIES {
        return middle(code);
    }
    high(code)
}

fn guarded(fields: Fields, least: u32) -> Shape
    ensures { result ≡ guarded_shape fields least }
{
    Shape {
        fields,
        least,
        most: NO_MOST,
        unguarded: false,
    }
}

fn in_place(fields: Fields, least: u32) -> Shape
    ensures { result ≡ in_place_shape fields least }
{
    Shape {
        fields,
        least,
        most: NO_MOST,
        unguarded: true,
    }
}

fn exactly(fields: Fields, many: u32, unguarded: bool) -> Shape
    ensures { result ≡ exact_shape fields many unguarded }
{
    Shape {
        fields,
        least: many,
        most: many,
        unguarded,
    }
}
