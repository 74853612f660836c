// Refusals 8 and 9 of a rule sheet whose layout is accepted: unguarded loops, and unguarded chains
// that are too long (`specs`, in reading order `Graph`, `Places`, `Worklist`, `Lengths`), and their laws
// (`proofs`). There is no code here but what is found of both; `chains` and `loops` find it.
#![tactic(auto)]

// The places of refusals 8 and 9; the number of schemas where there is none, as `lowest` in their
// definitions (specs/Places.antt) has it.
#[derive(Clone, Copy)]
pub struct Unguarded {
    pub looped: u32,
    pub long: u32,
}
