// The second pass over a JSON text: what is done at each of its lexemes, over the words and the text
// lent and a counter of rows and of bytes for each level (`specs/Desk.antt`), and that in the end the
// sheet of the text's value stands there (`proofs/Theorem.antt`). There is no code here; `setting` has
// rows, containers' ends and the trailer, and `writing` the pass.
#![tactic(auto)]
