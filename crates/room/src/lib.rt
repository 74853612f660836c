// What the first pass over a JSON text gathers has room: of the bytes of names there are hardly more
// than bytes of text, and of names no more than values (`proofs/`). There is no code here.
#![tactic(auto)]
