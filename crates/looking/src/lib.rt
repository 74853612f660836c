// What is looked up of a row: its kind and its number, its bytes, its size, its children by name.
// Nothing here judges: what was looked up is tested in `testing`, and what asks whether a row passes a
// test is in `clause`, `plain` and `rows`.
//
// Its contracts cite what a value has by the tests of `meaning` (`specs/Tests.antt`), when a row is
// called by a name (`specs/Rules.antt`), and `specs/Read.antt`.
#![tactic(auto)]

pub mod members;
pub mod numbers;
pub mod sizes;
