// The assertions of one clause on one row. Rows and clauses are read by `sheet`, `looking` and
// `rulereader`, and what was read is tested by `testing`: nothing here knows that sheets are words. Whoever
// tries a clause must show that the pair's cell is unsettled (`test::passes_clause`); what asks less is
// private to this crate.
//
// Its contracts cite the tests of `meaning` (`specs/Tests.antt`, `specs/Rules.antt`), what is looked up
// of a row (`specs/Read.antt` of `looking`) and `specs/Read.antt`.
#![tactic(auto)]

mod members;
mod read;
mod sizes;
pub mod test;
mod values;
