// The lowest of many names that an earlier one repeats, by tables that are cleared for each search.
// Contracts cite `ways`' specs/Tree.antt.
#![tactic(auto)]

ghost use Rattle.std.specs.Prelude.{◌≡◌, ℕ, ◌≤◌, ◌<◌, get_or};
ghost use Rattle.laws.specs.Lowest.{lowest};
ghost use Rattle.names.specs.Lain.{repeats_in};
ghost use Rattle.ways.specs.Tree.{places_max, Room};

use names::Lain;
use ways::Tables;

// The lowest name that an earlier one repeats, or their number, in tables that are clear. Both by value: behind an
// address the slices are read again after each store, and the check of 100 names takes a quarter longer.
fn first_among(lain: Lain, mut tables: Tables) -> usize
    requires room { Room lain.names.count tables.heads.now tables.next.now tables.nodes.now tables.marks.now }
    requires by_index { (p : ℕ) → get_or tables.heads.now p 0 ≡ 0 }
    ensures { result ≡ lowest (repeats_in lain.entry) lain.entry.names.count }
{
    for i in 0..lain.names.count {
        let Some(spot) = tables.spot_of(&lain, i) else {
            return i;
        };
        tables.put(i, spot);
    }
    lain.names.count
}

// The same for up to N names, in tables of their own.
fn first_of<const N: usize, const PLACES: usize>(lain: &Lain) -> usize
    requires count_in_bounds { lain.now.names.count ≤ N }
    requires places { (0 < PLACES) × (N ≤ PLACES) × (PLACES ≤ places_max) }
    ensures { result ≡ lowest (repeats_in lain.now) lain.now.names.count }
{
    let mut heads = [0u16; PLACES];
    let mut next = [0u16; N];
    let mut nodes = [0u16; N];
    let mut marks = [0u32; N];
    let tables = Tables {
        heads: &mut heads,
        next: &mut next,
        nodes: &mut nodes,
        marks: &mut marks,
    };
    first_among(*lain, tables)
}

// The lowest name that an earlier one repeats, or the number of names where none is repeated, as
// `namesakes::first_repeated` tells it, which docs/PROMISES.md names; the tables are as large as there
// are names, since clearing them takes time too.
pub fn first_in_tables(lain: &Lain) -> usize
    ensures { result ≡ lowest (repeats_in lain.now) lain.now.names.count }
{
    if lain.names.count <= 128 {
        return first_of::<128, 512>(lain);
    }
    if lain.names.count <= 1_024 {
        return first_of::<1_024, 4_096>(lain);
    }
    first_of::<4_096, 8_192>(lain)
}
