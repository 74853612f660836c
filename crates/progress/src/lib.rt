// A pair in progress: what the areas show while a record is judged, and what the judging functions ask
// and leave (`specs/State.antt`); a clause between two of its steps (`specs/Steps.antt`); and the laws of
// both (`proofs`). There is no code here but what judging a clause gives.
#![tactic(auto)]

// What judging a clause gives: whether it holds, and how many pairs are settled by then.
#[derive(Clone, Copy)]
pub struct Done {
    pub ok: bool,
    pub count: usize,
}
