// Sheets: lent words with their text bytes. This crate says when a record sheet is accepted, and reads
// the rows of one that was; `recordcheck` checks it. Who stands above knows a sheet only by what is
// promised here.
//
// Its contracts cite specs/, in reading order: `Kinds`, `Refusals`, `Doc`, `Record`, `Faults`,
// `Accepted`.
#![tactic(auto)]

pub mod kind;
pub mod layout;
pub mod record;
pub mod record_rows;
pub mod refusal;
