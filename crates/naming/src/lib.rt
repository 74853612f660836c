// The names of a JSON text, each with the number of its object (`specs/Members.antt`), and that 25 of
// paper 02 is a name that an earlier one of them repeats (`proofs/Repeated.antt`).
#![tactic(auto)]
