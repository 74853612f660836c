// The check of a rule sheet, as it is specified: the lines of the refusal table in order
// (`specs/Check.antt`), what acceptance gives (`specs/Accepted.antt`), and their laws (`proofs`). There
// is no code here; `rulecheck` has it.
#![tactic(auto)]
