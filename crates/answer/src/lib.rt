// What judging answers. `specs/Call.antt` gives each case 01's number and values.
#![tactic(auto)]

use sheet::refusal::Refused;

// Whether the record is valid, with the number of settled pairs and that of marked children of the root.
#[derive(Clone, Copy, Debug, PartialEq, Eq)]
pub struct Judged {
    pub valid: bool,
    pub pairs: usize,
    pub marked: usize,
}

// A call judges, or it is refused.
pub type Answer = Result<Judged, Refused>;
