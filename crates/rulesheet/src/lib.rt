// Rule sheets: lent words with their text bytes. This crate has the table of codes, as a
// specification, the codes by name, and the words of a schema, a clause and an entry by name. Above it
// `rulecodes` tells a code's shape, `rulereader` and `few` read clauses, and `rulelayout`,
// `ruleclauses`, `ruleentries` and `ruletexts` test layout, names and their text.
//
// Its contracts, and those of these crates, cite specs/, in reading order: `Ruleset`, `Codes`, `Sheet`,
// `Faults`, `Read`, `Clauses`.
#![tactic(auto)]

pub mod clause;
pub mod code;
pub mod codes;
pub mod form;
