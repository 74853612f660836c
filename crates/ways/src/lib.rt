// The way of a name through the tables (`specs/Tree.antt`, which contracts cite): from the root of
// its print to an earlier name that it might be the same as, from there to one that it agrees with
// further, and so on, until it is the same or no name leads on.
//
// No byte of a name is compared twice, and no earlier name is passed more than twice, whatever the
// names are: who builds names with equal prints makes the search slower, up to one step for each
// earlier name, and never wrong.
#![tactic(auto)]

ghost use Rattle.std.specs.Prelude.{◌≡◌, ◌+◌, ◌≤◌, ◌<◌, length, get_or, MatchOption};
ghost use Rattle.names.specs.Lain.{name_in};
ghost use Rattle.ways.specs.Tree.{scaled_to, letter_of, place_of, Told, Reached, Alone, Child, Repeated, Spotted, StandingIn, StoodIn, PutIn};

use names::Lain;

// Where the way of a name ends: under which node, with which mark.
#[derive(Clone, Copy, PartialEq, Eq)]
pub struct Spot {
    pub node: usize,
    pub mark: u32,
}

// The names that stand: the last of each place and the one before each in its chain, by one more than
// their number, or 0, so that tables of zeros are clear; and under which node each stands, with which
// mark.
#[derive(Drop)]
pub struct Tables<'a> {
    pub heads: &'a mut [u16],
    pub next: &'a mut [u16],
    pub nodes: &'a mut [u16],
    pub marks: &'a mut [u32],
}

// The same, as they are read: the tables may be lent to others meanwhile.
#[derive(Clone, Copy)]
pub struct Stood<'a> {
    pub heads: &'a [u16],
    pub next: &'a [u16],
    pub nodes: &'a [u16],
    pub marks: &'a [u32],
}

// The place of a number of 32 bits among so many.
fn scaled(places: usize, number: u64) -> usize
    requires { (number < 4294967296) × (0 < places) × (places ≤ 8192) }
    ensures { (result ≡ scaled_to places number) × (result < places) }
{
    (number * places as u64 / 4_294_967_296) as usize
}

// A name's letter under a node, by its mark.
fn letter_of(places: usize, node: usize, mark: u32, name: &[u8]) -> u64
    requires { places ≤ node → mark < length name.now }
    ensures { result ≡ letter_of places node mark name.now }
{
    if node < places {
        return name.len() as u64;
    }
    u64::from(name[mark as usize])
}

// The place of the names under a node.
fn place_of(places: usize, node: usize) -> usize
    requires { node < places + places }
    ensures { (result ≡ place_of places node) × (result < places) }
{
    if node < places {
        return node;
    }
    node - places
}

impl<'a> Stood<'a> {
    // Whether name k stands under the node with this mark and this letter.
    fn leads(&self, lain: &Lain, node: usize, mark: u32, letter: u64, k: usize) -> bool
        requires k_in_bounds { (k < lain.now.names.count) × (k < length self.now.nodes.now) × (k < length self.now.marks.now) }
        requires mark_in_bounds { length self.now.heads.now ≤ get_or self.now.nodes.now k 0 → get_or self.now.marks.now k 0 < length (name_in lain.now k) }
        ensures { Told (length self.now.heads.now) (name_in lain.now) self.now.nodes.now self.now.marks.now node mark letter k result }
    {
        if usize::from(self.nodes[k]) != node {
            return false;
        }
        if self.marks[k] != mark {
            return false;
        }
        letter_of(self.heads.len(), node, mark, lain.name(k)) == letter
    }

    // The name that leads name i on from the node with the mark, if one does.
    fn child(&self, lain: &Lain, i: usize, node: usize, mark: u32) -> Option<usize>
        requires i_in_bounds { i < lain.now.names.count }
        requires standing { StoodIn lain.now self.now i }
        requires reached { Reached (length self.now.heads.now) (name_in lain.now) self.now.nodes.now self.now.marks.now (name_in lain.now i) i node mark }
        ensures { MatchOption result
            (Alone (length self.now.heads.now) (name_in lain.now) self.now.nodes.now self.now.marks.now (name_in lain.now i) i node mark)
            (Child (length self.now.heads.now) (name_in lain.now) self.now.nodes.now self.now.marks.now (name_in lain.now i) i node mark) }
    {
        let places = self.heads.len();
        let letter = letter_of(places, node, mark, lain.name(i));
        let place = place_of(places, node);
        let mut c = usize::from(self.heads[place]);
        while 0 < c {
            let k = c - 1;
            if self.leads(lain, node, mark, letter, k) {
                return Some(k);
            }
            c = usize::from(self.next[k]);
        }
        None
    }

    // Where the way of name i ends, if no earlier name is the same.
    pub fn spot_of(&self, lain: &Lain, i: usize) -> Option<Spot>
        requires i_in_bounds { i < lain.now.names.count }
        requires standing { StoodIn lain.now self.now i }
        ensures { MatchOption result (Repeated (name_in lain.now) i)
            (Spotted (length self.now.heads.now) (name_in lain.now) self.now.nodes.now self.now.marks.now i) }
    {
        let places = self.heads.len();
        let name = lain.name(i);
        let print = text::print::fingerprint(name);
        let mut node = scaled(places, print / 4_294_967_296);
        let mut mark = (print % 4_294_967_296) as u32;
        let mut from = 0;
        loop {
            let Some(k) = self.child(lain, i, node, mark) else {
                return Some(Spot { node, mark });
            };
            let other = lain.name(k);
            from = text::compare::agreed(name, other, from);
            if name.len() <= from {
                return None;
            }
            node = places + k;
            mark = from as u32;
        }
    }
}

impl<'a> Tables<'a> {
    // Where the way of name i ends, if no earlier name is the same.
    pub fn spot_of(&self, lain: &Lain, i: usize) -> Option<Spot>
        requires i_in_bounds { i < lain.now.names.count }
        requires standing { StandingIn lain.now self.now i }
        ensures { MatchOption result (Repeated (name_in lain.now) i)
            (Spotted (length self.now.heads.now) (name_in lain.now) self.now.nodes.now self.now.marks.now i) }
    {
        let stood = Stood {
            heads: &*self.heads,
            next: &*self.next,
            nodes: &*self.nodes,
            marks: &*self.marks,
        };
        stood.spot_of(lain, i)
    }

    // Puts name i at the spot, in front of the chain there.
    pub fn put(&mut self, i: usize, spot: Spot)
        requires i_in_bounds { (i < length self.old.next.now) × (i < length self.old.nodes.now) × (i < length self.old.marks.now) × (i < 65535) }
        requires node_in_bounds { (spot.node < length self.old.heads.now + length self.old.heads.now) × (spot.node < 65536) }
        ensures { PutIn self.old i spot self.new }
    {
        let place = place_of(self.heads.len(), spot.node);
        self.next[i] = self.heads[place];
        self.nodes[i] = spot.node as u16;
        self.marks[i] = spot.mark;
        self.heads[place] = (i + 1) as u16;
    }
}
