// What the first pass over a JSON text keeps, byte by byte (`specs/Trail.antt`), and what follows from
// it for the text as a whole (`proofs/`). There is no code here.
#![tactic(auto)]
