// What is written of a string as one byte: a byte, or another word, put into an area, and the character of a short escape
// (`specs/Letters.antt`, which contracts cite).
#![tactic(auto)]

ghost use Rattle.std.specs.Prelude.{◌≡◌, set};
ghost use Rattle.putting.specs.Letters.{short_at};

// A byte or a word at a place of the area, if it has that place. By an index: of a slice lent through `get_mut` nothing
// but its length is known afterwards.
pub fn put<T: Copy>(area: &mut [T], at: usize, word: T)
    ensures { area.new ≡ set area.old at word }
{
    if at < area.len() {
        area[at] = word;
    }
}

// The character of the byte after a backslash.
#[tactic(auto, unfolding(crate::specs::Letters::short_at))]
pub fn short_of(byte: u8) -> u8
    ensures { result ≡ short_at byte }
{
    match byte {
        b'b' => 0x08,
        b'f' => 0x0C,
        b'n' => b'\n',
        b'r' => b'\r',
        b't' => b'\t',
        _ => byte,
    }
}
