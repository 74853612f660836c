// The lowest of many names that an earlier one repeats. A few names are told apart by their signs; more
// stand in tables (`nametables`).
//
// Its contracts cite `names`' specs/Names.antt: `repeats_at`, `Lying`.
#![tactic(auto)]

ghost use Rattle.std.specs.Prelude.{◌≡◌, ◌≤◌};
ghost use Rattle.laws.specs.Lowest.{lowest};
ghost use Rattle.names.specs.Names.{repeats_at, Lying};
ghost use Rattle.names.specs.Lain.{repeats_in};

use names::{Lain, Names, first_same, range_at};
use nametables::first_in_tables;

// Up to so many names are compared pair by pair.
const PAIRS: usize = 4;

// Up to so many names are told apart by their signs.
const FEW: usize = 16;

// Longer names are not compared pair by pair.
const LONG: usize = 64;

// The same as `first_repeated`, for few names: those whose signs differ are not compared.
fn first_of_few(lain: &Lain) -> usize
    ensures { result ≡ lowest (repeats_in lain.now) lain.now.names.count }
{
    let mut seen = [false; 128];
    for i in 0..lain.names.count {
        let name = lain.name(i);
        let sign = text::print::sign(name) as usize;
        if seen[sign] {
            if LONG < name.len() {
                return first_in_tables(lain);
            }
            if first_same(lain.words, lain.text, lain.names, i) < i {
                return i;
            }
        }
        seen[sign] = true;
    }
    lain.names.count
}

// The same, for two names or a few more: each is compared with those before it, unless it is long.
fn first_by_pairs(lain: &Lain) -> usize
    requires { 1 ≤ lain.now.names.count }
    ensures { result ≡ lowest (repeats_in lain.now) lain.now.names.count }
{
    for i in 1..lain.names.count {
        let name = range_at(lain.words, lain.names, i);
        if LONG < name.length as usize {
            return first_of_few(lain);
        }
        if first_same(lain.words, lain.text, lain.names, i) < i {
            return i;
        }
    }
    lain.names.count
}

// The lowest name that an earlier one repeats, or the number of names where none is repeated: docs/
// PROMISES.md names the function, and `lowest` of its clause is that number.
pub fn first_repeated(words: &[u32], text: &[u8], names: Names) -> usize
    requires { Lying words.now text.now names }
    ensures { result ≡ lowest (repeats_at words.now text.now names) names.count }
{
    let n = names.count;
    if n <= 1 {
        return n;
    }
    let lain = Lain { words, text, names };
    if n <= PAIRS {
        return first_by_pairs(&lain);
    }
    if n <= FEW {
        return first_of_few(&lain);
    }
    first_in_tables(&lain)
}
