// Reading JSON into a record sheet and its text (`reader/specs/Call.antt`, which the contract cites).
#![tactic(auto)]

ghost use Rattle.std.specs.Prelude.{◌⊎◌, ◌≡◌, ◌+◌, ◌*◌, ◌≤◌, ◌<◌, length};
ghost use Rattle.reader.specs.Call.{Reads};
ghost use Rattle.laying.specs.Laying.{outcome_of};
ghost use Rattle.refusing.specs.Refusing.{Lent};

use laying::{Refusal, Refused, write};
use refusing::refusal_of;

// Reads a text with areas for its names.
fn read_with(
    json: &[u8],
    names: &mut [u8],
    ranges: &mut [u32],
    words: &mut [u32],
    text: &mut [u8],
) -> Result<u32, Refused>
    requires { (length json.now ≤ 65_536) × Lent json.now names.old ranges.old }
    ensures { Reads json.now words.old text.old (record { outcome = outcome_of result; words = words.new; room = text.new }) }
{
    let mut values = [0u32; 32];
    let mut texts = [0u32; 32];
    let mut objects = [0u32; 33];
    refusal_of(json, &mut values, &mut texts, names, ranges, &mut objects)?;
    write(json, &values, &texts, words, text)
}

// Reads a text with areas for so many bytes of names, and for so many words of where they lie. What
// is long stands in `read_with`, once for all sizes: in copies of it a byte takes a tenth longer.
fn read_sized<const NAMES: usize, const RANGES: usize>(
    json: &[u8],
    words: &mut [u32],
    text: &mut [u8],
) -> Result<u32, Refused>
    requires short { length json.now ≤ 65_536 }
    requires names_long { (length json.now < NAMES) × (NAMES ≤ 65_537) }
    requires ranges_long { (3_072 ≡ RANGES) ⊎ ((3 * length json.now + 3 ≤ 2 * RANGES) × (RANGES ≤ 3_072)) }
    ensures { Reads json.now words.old text.old (record { outcome = outcome_of result; words = words.new; room = text.new }) }
{
    let mut names = [0u8; NAMES];
    let mut ranges = [0u32; RANGES];
    read_with(json, &mut names, &mut ranges, words, text)
}

// Reads JSON, whatever the bytes and the areas: the record sheet and its text are written to the
// starts of the areas, or nothing is written and the text is refused. A text of few bytes need not
// pay for large areas.
pub fn read(json: &[u8], words: &mut [u32], text: &mut [u8]) -> Result<u32, Refused>
    ensures { Reads json.now words.old text.old (record { outcome = outcome_of result; words = words.new; room = text.new }) }
{
    match json.len() {
        ..=1_024 => read_sized::<1_025, 1_538>(json, words, text),
        ..=65_536 => read_sized::<65_537, 3_072>(json, words, text),
        _ => Err(Refused {
            number: Refusal::TOO_LONG,
            place: 0,
        }),
    }
}
