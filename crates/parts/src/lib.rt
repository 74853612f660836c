// The parts of a bundle: record words, record text, rule words and rule text, and then the four
// lengths in bytes. Which bundle is bad, how long the parts of a good one are, and its words.
//
// Its contracts cite `specs/Bundle.antt`.
#![tactic(auto)]

ghost use Rattle.std.specs.Prelude.{◌≡◌, ◌+◌, ◌/◌, ◌≤◌, ◌<◌, length};
ghost use Rattle.parts.specs.Bundle.{word_bytes, word_at, Reads, LengthsRead, parts_of};

use sheet::record::wide;

pub const BUNDLE_MAX: usize = 65_536;

const TRAILER: usize = 16;

// The bytes of a word.
pub const WORD: usize = 4;

// How many bytes of a bundle are a sheet's words, and how many its text.
#[derive(Clone, Copy)]
pub struct Lengths {
    pub words: usize,
    pub text: usize,
}

// A good bundle's lengths.
#[derive(Clone, Copy)]
pub struct Parts {
    pub of_record: Lengths,
    pub of_rules: Lengths,
}

// How long the parts of a bundle are, if it is good.
pub fn parts_of(bundle: &[u8]) -> Option<Parts>
    ensures { result ≡ parts_of bundle.now }
{
    let size = bundle.len();
    if (BUNDLE_MAX < size) | (size < TRAILER) {
        return None;
    }
    let trailer = size - TRAILER;
    let of_record = lengths_at(bundle, trailer);
    let of_rules = lengths_at(bundle, trailer + 8);
    let all = of_record.words + of_record.text + of_rules.words + of_rules.text;
    if (all + TRAILER != size) | (of_record.words % WORD != 0) | (of_rules.words % WORD != 0) {
        return None;
    }
    Some(Parts {
        of_record,
        of_rules,
    })
}

// The two lengths that the trailer has at this place.
fn lengths_at(bundle: &[u8], at: usize) -> Lengths
    requires { at + 8 ≤ length bundle.now }
    ensures { LengthsRead bundle.now at result }
{
    Lengths {
        words: wide(word_at(bundle, at)),
        text: wide(word_at(bundle, at + WORD)),
    }
}

// Puts the words of the bytes at the start of `words`, and answers how many there are.
pub fn read_words(bytes: &[u8], words: &mut [u32]) -> usize
    requires { length bytes.now / word_bytes ≤ length words.old }
    ensures { Reads bytes.now words.old result words.new }
{
    let count = bytes.len() / WORD;
    for i in 0..count {
        words[i] = word_at(bytes, i * WORD);
    }
    count
}

// The four bytes from `at` on as a word: the first counts least.
fn word_at(bytes: &[u8], at: usize) -> u32
    requires { at + word_bytes ≤ length bytes.now }
    ensures { result ≡ word_at bytes.now at }
{
    u32::from_le_bytes([bytes[at], bytes[at + 1], bytes[at + 2], bytes[at + 3]])
}
