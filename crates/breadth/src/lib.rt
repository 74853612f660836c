// The record sheet of a JSON value: rows breadth first, each number at its smallest scale, the text
// row by row (`specs/Sheet.antt`, `Words.antt`); that it passes the record check and means the value
// (`proofs/Acceptance.antt`); and two passes that write it by counting on each level. There is no
// code here.
#![tactic(auto)]
