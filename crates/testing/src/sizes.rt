// The limits of a size, by the size or the bytes that were read: the characters of a string, the
// elements of an array, the members of an object. What has no such size keeps them.
ghost use Rattle.std.specs.Prelude.{true, List, ◌≡◌, ℕ, length};
ghost use Rattle.std.proofs.Math.Option.{Option};
ghost use Rattle.sheet.specs.Doc.{Value};
ghost use Rattle.meaning.specs.Tests.{bytes?, length_of, at_least, at_most};
ghost use Rattle.looking.specs.Read.{FitsIn, StringFound, size_in, size_by};

use text::Range;

// Whether a size, if there is one, is at least k.
pub fn at_least(found: Option<u32>, k: u32) -> bool
    ensures { (size : List ℕ → ℕ) (xs : Option (List ℕ)) → size_in found ≡ size_by size xs → result ≡ at_least size k xs }
{
    found.is_none_or(|size| k <= size)
}

// Whether a size, if there is one, is at most k.
pub fn at_most(found: Option<u32>, k: u32) -> bool
    ensures { (size : List ℕ → ℕ) (xs : Option (List ℕ)) → size_in found ≡ size_by size xs → result ≡ at_most size k xs }
{
    found.is_none_or(|size| size <= k)
}

// The most characters that are looked at one by one; more are counted by many bytes at once.
pub const FEW: u32 = 8;

// Whether a string, if there is one, has at least k characters: no more than k are looked at.
pub fn few_characters(text: &[u8], found: Option<Range>, k: u32) -> bool
    requires { FitsIn (length text.now) found }
    ensures { (v : Value) → StringFound text.now v found → result ≡ at_least length_of k (bytes? v) }
{
    found.is_none_or(|bytes| counting::has_characters(text, bytes, k))
}

// Whether a string, if there is one, has at most k bytes: then it has at most k characters.
pub fn few_bytes(found: Option<Range>, k: u32) -> bool
    ensures { result ≡ true → (ts : List ℕ) (v : Value) → StringFound ts v found → at_most length_of k (bytes? v) ≡ true }
{
    found.is_none_or(|bytes| bytes.length <= k)
}
