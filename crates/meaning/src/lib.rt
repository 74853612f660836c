// What a judgement is: the rules over a record and rules that are no longer words, the derivation
// as a tree, the settling order and the whole call (`specs`), their theorems and 01's samples
// (`proofs`). There is no code here.
#![tactic(auto)]
