// The check of a record sheet: refusals 1, 2, 3, 13 and 4. One pass tells of most sheets that they are
// in order; only of one that is not are the lines of the table asked one by one.
//
// Contracts cite `sheet`'s specs/Faults.antt, and specs/Order.antt.
#![tactic(auto)]

pub mod order;

ghost use Rattle.std.specs.Prelude.{◌≡◌, ℕ, ◌<◌};
ghost use Rattle.sheet.specs.Refusals.{outcome_of};
ghost use Rattle.sheet.specs.Faults.{record_outcome};
ghost use Rattle.recordcheck.specs.Order.{Begun, Ordered};

use reach::is_ascii;
use sheet::record::RecordForm;
use sheet::refusal::{Checked, Refusal, Refused};

// The answer where all rows are in order: whether their text is UTF-8 is left to ask, and a text of
// ASCII is.
fn check_texts(words: &[u32], text: &[u8], form: RecordForm) -> Checked
    requires { Begun words.now text.now form × ((j : ℕ) → j < form.rows → Ordered words.now text.now j) }
    ensures { outcome_of result ≡ record_outcome words.now text.now }
{
    let rows = form.rows;
    if is_ascii(text) {
        return Ok(rows);
    }
    let bad = recordtexts::first_not_utf8(words, text, form);
    Refusal::NotUtf8.line(0, bad, rows)?;
    Ok(rows)
}

// The answer where the trailer is in order, line by line of the table.
fn check_lines(words: &[u32], text: &[u8], form: RecordForm) -> Checked
    requires { Begun words.now text.now form }
    ensures { outcome_of result ≡ record_outcome words.now text.now }
{
    let rows = form.rows;
    let pass = recordlayout::pass_rows(words, form, text.len());
    Refusal::RecordLayout.line(0, pass.fault, rows)?;
    let again = recordnames::first_repeated(words, text, form);
    Refusal::RepeatedName.line(0, again, rows)?;
    let bad = recordtexts::first_not_utf8(words, text, form);
    Refusal::NotUtf8.line(0, bad, rows)?;
    Refusal::TooDeep.line(0, pass.deep, rows)?;
    Ok(rows)
}

// Checks a record sheet, whatever the words and the text: accepted with its number of rows, or
// refused with the first refusal of 1, 2, 3, 13 and 4 that applies and its place.
pub fn check_record(words: &[u32], text: &[u8]) -> Checked
    ensures { outcome_of result ≡ record_outcome words.now text.now }
{
    if !recordfields::trailer_ok(words, text.len()) {
        return Err(Refused {
            refusal: Refusal::RecordTrailer,
            place: 0,
        });
    }
    let form = RecordForm::of(words);
    if order::in_order(words, text, form) {
        return check_texts(words, text, form);
    }
    check_lines(words, text, form)
}
