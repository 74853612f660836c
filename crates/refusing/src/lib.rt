// Refusals 21 to 26 of a JSON text (`specs/Refusing.antt`, which contracts cite): from where the first
// pass halts, whether the text is JSON, and if it is, the fault that starts first.
#![tactic(auto)]

ghost use Rattle.std.specs.Prelude.{◌≡◌, ◌/◌, ◌≤◌, length};
ghost use Rattle.jsontext.specs.Automaton.{start};
ghost use Rattle.follow.specs.Following.{Followed};
ghost use Rattle.names.specs.Names.{Lying};
ghost use Rattle.naming.proofs.Lying.{in_threes};
ghost use Rattle.scan.specs.Scanning.{areas, Blank};
ghost use Rattle.refusing.specs.Refusing.{Come, Ended, Endable, first_one_of, Finds, Lent, Answers};

use brackets::Open;
use follow::{End, follow};
use laying::{Refusal, Refused};
use names::Names;
use namesakes::first_repeated;
use scan::first_pass;
use survey::Watch;
use watching::numbers::number_ends;

// A fault: its number, and how many bytes are left from its start on.
#[derive(Clone, Copy)]
struct Amiss {
    number: u32,
    left: usize,
}

// Whether the text is JSON, and how far it goes if not.
fn whole_text(json: &[u8], at: usize, place: u8, opened: Open) -> End
    requires { (length json.now ≤ 65_536) × Come json.now at place opened }
    ensures { Followed json.now 0 start result }
{
    if place == 63 {
        return End { at, whole: false };
    }
    follow(json, at, place, opened)
}

// What is kept of faults when the text has ended: a number may end with it.
fn last_watch(place: u8, depth: u32, watch: Watch) -> Watch
    requires { Endable place depth watch }
    ensures { Ended place depth watch result }
{
    if watch.fault != 0 {
        return watch;
    }
    match place {
        16..=23 => number_ends(depth, watch),
        _ => watch,
    }
}

// The first name that an earlier one repeats, of those that lie in three words each, or else the
// fault that was watched.
fn first_amiss(words: &[u32], names: &[u8], filled: usize, watch: Watch) -> Option<Amiss>
    requires { (Lying words.now names.now (in_threes (filled / 3))) × (filled ≤ length words.now) }
    ensures { Finds result (first_one_of words.now names.now (filled / 3) watch) }
{
    let count = filled / 3;
    let all = Names {
        base: 0,
        stride: 3,
        count,
    };
    let k = first_repeated(words, names, all);
    if k < count {
        return Some(Amiss {
            number: Refusal::REPEATED_NAME,
            left: words[3 * k + 2] as usize,
        });
    }
    if watch.fault == 0 {
        return None;
    }
    Some(Amiss {
        number: watch.fault,
        left: watch.left,
    })
}

// Refuses a text, or finds no fault: then the counters are those of its value.
pub fn refusal_of(
    json: &[u8],
    values: &mut [u32],
    texts: &mut [u32],
    names: &mut [u8],
    words: &mut [u32],
    objects: &mut [u32],
) -> Result<(), Refused>
    requires short_and_lent { (length json.now ≤ 65_536) × Lent json.now names.old words.old }
    requires blank { Blank (areas values.old texts.old names.old words.old objects.old) }
    ensures { Answers json.now result values.new texts.new }
{
    let halt = first_pass(json, values, texts, names, words, objects);
    let scan = halt.scan;
    let opened = scan.opened;
    let end = whole_text(json, halt.at, scan.place, opened);
    if !end.whole {
        return Err(Refused {
            number: Refusal::NOT_JSON,
            place: end.at as u32,
        });
    }
    let gathered = scan.gathered;
    let watch = scan.watch;
    let last = last_watch(scan.place, opened.depth, watch);
    match first_amiss(words, names, gathered.filled, last) {
        Some(Amiss { number, left }) => Err(Refused {
            number,
            place: (json.len() - left) as u32,
        }),
        None => Ok(()),
    }
}
