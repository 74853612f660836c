// Refusal 3 of a record sheet: two children of one object that share a name. Contracts cite
// `sheet`'s specs/Faults.antt.
#![tactic(auto)]

ghost use Rattle.std.specs.Prelude.{◌≡◌, ◌≤◌, ◌<◌, length};
ghost use Rattle.laws.specs.Lowest.{lowest};
ghost use Rattle.sheet.specs.Record.{rows_word, text_word, doc_of};
ghost use Rattle.sheet.specs.Faults.{repeated};
ghost use Rattle.sheet.specs.Accepted.{Laid, Lowered};

use sheet::kind::RowKind;
use sheet::record::{Children, RecordForm, Row};
use sheet::record_rows::RecordSheet;

// The lower of `least` and the lowest child of row o, if that is an object, whose name an earlier
// one has.
fn lowest_under(sheet: &RecordSheet<'_>, o: u32, least: u32) -> u32
    requires { Laid sheet.now.rows.words.now sheet.now.rows.form × (o < sheet.now.rows.form.rows) × (least ≤ sheet.now.rows.form.rows) }
    ensures { Lowered (doc_of sheet.now.rows.words.now sheet.now.text.now) o least result }
{
    let Row {
        kind,
        first,
        count,
        ..
    } = sheet.rows.row(o);
    if !RowKind::of(kind).is_object() {
        return least;
    }
    let labels = sheet.rows.labels(Children { first, count });
    let at = namesakes::first_repeated(sheet.rows.words, sheet.text, labels);
    if labels.count <= at {
        return least;
    }
    (first + at as u32).min(least)
}

// The lowest row whose name an earlier sibling under the same object has, or the number of rows:
// `lowest` of the clause is that where there is none.
pub fn first_repeated(words: &[u32], text: &[u8], form: RecordForm) -> u32
    requires { Laid words.now form × (length text.now ≡ text_word words.now) }
    ensures { result ≡ lowest (repeated (doc_of words.now text.now)) (rows_word words.now) }
{
    let sheet = RecordSheet::new(words, text, form);
    let mut least = form.rows;
    for o in 0..form.rows {
        least = lowest_under(&sheet, o, least);
    }
    least
}
