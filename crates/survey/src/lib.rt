// The first pass over a JSON text, as far as it looks for faults: what each byte does to what is kept
// (`specs/Watching.antt`), within what bounds that stays, what it tells of the whole text, and that it
// tells the first fault (`proofs`). There is no code here but what is kept; `watching` has it.
#![tactic(auto)]

use figure::Figure;

// The escape under way and the high surrogate that waits for its low one, or 0; each place is told
// by how many bytes are left from there on.
#[derive(Clone, Copy, Default)]
pub struct Escapes {
    pub code: u32,
    pub here: usize,
    pub waits: u32,
    pub waiting: usize,
}

// Numbers with 0 for none, no `Option`: `scan` and `trail` read these fields (`fault`, `waits`) as such.
// What the first pass keeps of faults: the first one's number, or 0, and how many bytes are left
// from its start on; how many values have started; the number under way; the escapes.
#[derive(Clone, Copy)]
pub struct Watch {
    pub fault: u32,
    pub left: usize,
    pub values: u32,
    pub start: usize,
    pub figure: Figure,
    pub escapes: Escapes,
}
