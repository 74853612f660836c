// Where a clause that applies schemas stands on a row, between two of its steps: which step is applied
// next, and which pair it aims at. Whoever asks must show that the pair's cell is unsettled
// (`turn::turn_of`); what asks less is private to this crate.
//
// Its contracts cite `specs/Turns.antt`.
#![tactic(auto)]

mod children;
mod here;
mod members;
pub mod turn;
