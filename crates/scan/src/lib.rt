// The first pass over a JSON text (`specs/Scanning.antt`, which contracts cite): the automaton, what
// is kept of faults, the counters and the gathered names, byte by byte.
#![tactic(auto)]

ghost use Rattle.std.specs.Prelude.{cond, ◌≡◌, ◌≤◌, ◌<◌, eqb, length};
ghost use Rattle.grammar.specs.Codes.{place_at};
ghost use Rattle.survey.specs.Bounds.{Sound};
ghost use Rattle.survey.specs.Watching.{moved};
ghost use Rattle.naming.specs.Gathering.{nothing_yet};
ghost use Rattle.gathering.specs.Held.{numbers};
ghost use Rattle.scan.specs.Scanning.{areas, at_start, Blank, Ready, Stepped, Halted};

use brackets::{Open, around, changed_by};
use figure::Figure;
use gathering::{Gathered, gather_byte};
use grammar::step;
use survey::{Escapes, Watch};
use tally::{Units, count};
use watching::move_on;

// The place in the grammar, 63 where no text goes on so; the open brackets; what is kept of faults;
// the escape under way, for the counters; the numbers of the gathered names.
#[derive(Clone, Copy)]
pub struct Scan {
    pub place: u8,
    pub opened: Open,
    pub watch: Watch,
    pub units: Units,
    pub gathered: Gathered,
}

// What is kept of faults after a byte: after a fault it stays.
fn watch_on(place: u8, depth: u32, byte: u8, left: usize, s: Watch) -> Watch
    requires { (place < 50) × (depth < 100) × Sound s }
    ensures { result ≡ cond (eqb s.fault 0) (moved (place_at place) depth byte left s) s }
{
    if s.fault == 0 {
        return move_on(place, depth, byte, left, s);
    }
    s
}

// After the byte at a place of the text, if a text goes on so. The areas are five parameters: a struct of them would be
// made in `first_pass`, whose signature stays, and taken apart here.
fn next(
    json: &[u8],
    at: usize,
    p: Scan,
    values: &mut [u32],
    texts: &mut [u32],
    names: &mut [u8],
    words: &mut [u32],
    objects: &mut [u32],
) -> Option<Scan>
    requires at_in_bounds { (at < length json.now) × (length json.now ≤ 65536) }
    requires ready { Ready at p (areas values.old texts.old names.old words.old objects.old) }
    ensures { Stepped json.now at p (areas values.old texts.old names.old words.old objects.old) result (areas values.new texts.new names.new words.new objects.new) }
{
    let byte = json[at];
    let depth = p.opened.depth;
    let Some(m) = step(p.place, around(p.opened), byte) else {
        return None;
    };
    Some(Scan {
        place: m.place,
        opened: changed_by(p.opened, m.change),
        watch: watch_on(p.place, depth, byte, json.len() - at, p.watch),
        units: count(p.place, depth, byte, p.units, values, texts),
        gathered: gather_byte(json, at, p.place, depth, p.gathered, names, words, objects),
    })
}

// Where the pass halts, and what it has come to there.
#[derive(Clone, Copy)]
pub struct Halt {
    pub at: usize,
    pub scan: Scan,
}

// No name is gathered yet.
fn no_names() -> Gathered
    ensures { result ≡ numbers nothing_yet }
{
    Gathered {
        size: 0,
        filled: 0,
        values: 0,
        on: false,
        begun: 0,
        left: 0,
        unit: 0,
        waits: 0,
    }
}

// Before the first byte.
fn begin() -> Scan
    ensures { result ≡ at_start }
{
    Scan {
        place: 0,
        opened: Open { bits: 0, depth: 0 },
        watch: Watch {
            fault: 0,
            left: 0,
            values: 0,
            start: 0,
            figure: Figure {
                kept: 0,
                zeros: 0,
                places: 0,
                back: false,
                power: 0,
            },
            escapes: Escapes {
                code: 0,
                here: 0,
                waits: 0,
                waiting: 0,
            },
        },
        units: Units {
            code: 0,
            high: false,
        },
        gathered: no_names(),
    }
}

// The pass, up to the first byte with which no text goes on so, to a fault and the end of the name
// that it is in, or to the end.
pub fn first_pass(
    json: &[u8],
    values: &mut [u32],
    texts: &mut [u32],
    names: &mut [u8],
    words: &mut [u32],
    objects: &mut [u32],
) -> Halt
    requires json_len_bound { length json.now ≤ 65536 }
    requires blank { Blank (areas values.old texts.old names.old words.old objects.old) }
    ensures { Halted json.now (areas values.old texts.old names.old words.old objects.old) result (areas values.new texts.new names.new words.new objects.new) }
{
    let n = json.len();
    let mut p = begin();
    for at in 0..n {
        if (p.watch.fault != 0) & !p.gathered.on {
            return Halt { at, scan: p };
        }
        if p.opened.depth >= 62 {
            return Halt { at, scan: p };
        }
        let Some(q) = next(json, at, p, values, texts, names, words, objects) else {
            let scan = Scan { place: 63, ..p };
            return Halt { at, scan };
        };
        p = q;
    }
    Halt { at: n, scan: p }
}
