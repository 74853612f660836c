// Reading JSON into a record sheet: what the call gives for every text and areas
// (`specs/Call.antt`), and that an accepted sheet passes the record check and means the text's
// value (`proofs/Reading.antt`). There is no code here.
#![tactic(auto)]
