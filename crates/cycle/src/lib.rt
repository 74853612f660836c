// Judging pairs: schema and clause functions in a cycle. Contracts cite `specs/State.antt` of `progress`.
#![tactic(auto)]

pub mod cycle;
