// The tests of what was looked up of a row: its number, its type, its size. No row and no sheet is seen
// here, so nothing here judges a clause of a pair: that is done in `clause`, `plain` and `rows`, which
// look up and then ask these.
//
// Its contracts cite the tests of `meaning` (`specs/Tests.antt`), how a number, bytes and a size are held
// (`specs/Read.antt` of `looking`) and `specs/Types.antt`.
#![tactic(auto)]

pub mod bounds;
pub mod sizes;
pub mod types;
