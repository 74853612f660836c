// Names that stand among a sheet's words as ranges of its text: what it is that an earlier one repeats
// one of them, and its laws. In code here: a name's range and bytes, and the lowest name that has them;
// `namesakes` finds the lowest name that an earlier one repeats.
//
// Its contracts cite `specs/Names.antt`: `range_at`, `name_at`, `first_same`, `Lying`.
#![tactic(auto)]

ghost use Rattle.std.specs.Prelude.{◌≡◌, ◌+◌, ◌*◌, ◌<◌, length};
ghost use Rattle.names.specs.Names.{range_at, name_at, first_same, Lying};

use text::Range;

// `count` names, each a start and a length in two neighbouring words: the first name's stand at
// `base`, and each later one's `stride` words further on.
#[derive(Clone, Copy)]
pub struct Names {
    pub base: usize,
    pub stride: usize,
    pub count: usize,
}

// Names that may be compared, and the words and the text that they stand in.
#[derive(Clone, Copy)]
pub struct Lain<'a> {
    pub words: &'a [u32],
    pub text: &'a [u8],
    pub names: Names,
    pub ghost lying: { Lying words.now text.now names },
}

// Name i's range.
pub fn range_at(words: &[u32], names: Names, i: usize) -> Range
    requires { names.base + names.stride * i + 1 < length words.now }
    ensures { result ≡ range_at words.now names i }
{
    let at = names.base + names.stride * i;
    Range {
        start: words[at],
        length: words[at + 1],
    }
}

// The lowest name with the bytes of name i, or i where no earlier one has them: so `first_same`
// of `specs/` is defined, and by it when a name is repeated.
pub fn first_same(words: &[u32], text: &[u8], names: Names, i: usize) -> usize
    requires { Lying words.now text.now names × (i < names.count) }
    ensures { result ≡ first_same (name_at words.now text.now names) i }
{
    let name = range_at(words, names, i);
    for k in 0..i {
        let other = range_at(words, names, k);
        if text::same_part(text, other, text, name) {
            return k;
        }
    }
    i
}

impl<'a> Lain<'a> {
    // Name i's bytes.
    pub fn name(&self, i: usize) -> &'a [u8]
        requires { i < self.now.names.count }
        ensures bytes { result.now ≡ name_at self.now.words.now self.now.text.now self.now.names i }
        ensures short { length result.now < 4294967296 }
    {
        text::bytes_of(self.text, range_at(self.words, self.names, i))
    }
}
