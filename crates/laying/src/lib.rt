// A JSON text without fault becomes a record sheet and its text, if the areas are long enough
// (`specs/Laying.antt`, which contracts cite).
#![tactic(auto)]

ghost use Rattle.std.specs.Prelude.{◌≡◌, suc, ◌≤◌, ◌<◌, length};
ghost use Rattle.laying.specs.Laying.{start_at, Started, Countable, Laid, refusal_number};

use writing::write_sheet;

// Why a text is refused, with 01's numbers: the areas of its call are too short for it (`FewWords`,
// `ShortText`), or it is at fault itself.
#[derive(Clone, Copy, Debug, PartialEq, Eq)]
pub enum Refusal {
    TooLong = 20,
    NotJson = 21,
    RepeatedName = 25,
    FewWords = 27,
    ShortText = 28,
}

impl Refusal {
    pub const TOO_LONG: u32 = Refusal::TooLong as u32;

    pub const NOT_JSON: u32 = Refusal::NotJson as u32;

    pub const REPEATED_NAME: u32 = Refusal::RepeatedName as u32;

    pub const FEW_WORDS: u32 = Refusal::FewWords as u32;

    pub const SHORT_TEXT: u32 = Refusal::ShortText as u32;

    // 01's number of the refusal.
    pub fn number(self) -> u32
        ensures { result ≡ refusal_number self }
    {
        self as u32
    }
}

// A text is refused: the refusal's number, and its place.
#[derive(Clone, Copy)]
pub struct Refused {
    pub number: u32,
    pub place: u32,
}

// Where each level starts, from how many there are on each; and how many there are in all, which is
// where the level behind the last would start.
fn start_levels(counters: &[u32], starts: &mut [u32]) -> u32
    requires { (length counters.now < length starts.old) × (start_at counters.now (length counters.now) ≤ 65_536) }
    ensures { (result ≡ start_at counters.now (length counters.now)) × Started counters.now starts.new (suc (length counters.now)) }
{
    let mut sum = 0;
    for (k, counter) in counters.iter().enumerate() {
        starts[k] = sum;
        sum += *counter;
    }
    starts[counters.len()] = sum;
    sum
}

// Writes a text without fault to the starts of the areas, where `values` and `texts` have how many
// values and bytes of text there are on each of its levels; or writes nothing and refuses: the place
// is how many words (27) or bytes (28) are needed.
pub fn write(
    json: &[u8],
    values: &[u32],
    texts: &[u32],
    words: &mut [u32],
    text: &mut [u8],
) -> Result<u32, Refused>
    requires countable { Countable json.now values.now texts.now }
    requires json_len_bound { length json.now ≤ 65_536 }
    ensures { (c : Countable json.now values.now texts.now) → Laid c.of words.old text.old result words.new text.new }
{
    let mut rows = [0u32; 33];
    let mut bytes = [0u32; 33];
    let n = start_levels(values, &mut rows);
    let size = start_levels(texts, &mut bytes);
    let needed = 6 * n + 4;
    if words.len() < needed as usize {
        return Err(Refused {
            number: Refusal::FEW_WORDS,
            place: needed,
        });
    }
    if text.len() < size as usize {
        return Err(Refused {
            number: Refusal::SHORT_TEXT,
            place: size,
        });
    }
    write_sheet(json, n, size, &mut rows, &mut bytes, words, text);
    Ok(n)
}
