// What a JSON text is (`specs/Text.antt`), the byte automaton that computes it
// (`specs/Automaton.antt`), and the theorems that tie the two (`proofs`). There is no code here.
#![tactic(auto)]
