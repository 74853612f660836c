// Refusal 13 of a record sheet: a row whose name or, of a string, whose bytes are not UTF-8.
// Contracts cite `sheet`'s specs/Faults.antt.
#![tactic(auto)]

ghost use Rattle.std.specs.Prelude.{◌≡◌, ◌<◌, length};
ghost use Rattle.laws.specs.Lowest.{lowest};
ghost use Rattle.reach.specs.Reach.{Known, places};
ghost use Rattle.sheet.specs.Record.{rows_word, text_word, doc_of};
ghost use Rattle.sheet.specs.Faults.{not_utf8};
ghost use Rattle.sheet.specs.Accepted.{Laid};

use reach::{BLOCKS, know, settles};
use sheet::kind::RowKind;
use sheet::record::{RecordForm, Row};
use sheet::record_rows::RecordSheet;
use text::Range;

// A sheet whose layout is without fault, and what is known of its text.
#[derive(Clone, Copy)]
struct Asked<'a> {
    sheet: RecordSheet<'a>,
    memo: &'a [u32],
    whole: bool,
    ghost laid: { Laid sheet.rows.words.now sheet.rows.form },
    ghost known: { Known sheet.text.now memo.now whole },
}

impl<'a> Asked<'a> {
    // Whether row j has a name or a string that is not UTF-8.
    fn not_utf8(&self, j: u32) -> bool
        requires { j < self.now.sheet.rows.form.rows }
        ensures { result ≡ not_utf8 (doc_of self.now.sheet.rows.words.now self.now.sheet.text.now) j }
    {
        let Asked { sheet, memo, whole } = *self;
        let Row {
            kind,
            first,
            count,
            label,
            ..
        } = sheet.rows.row(j);
        if !settles(sheet.text, memo, whole, label) {
            return true;
        }
        if RowKind::of(kind) != RowKind::String {
            return false;
        }
        let string = Range {
            start: first,
            length: count,
        };
        !settles(sheet.text, memo, whole, string)
    }
}

// The lowest row that names a text range that is not UTF-8, or the number of rows: `lowest` of the
// clause is that where there is none.
pub fn first_not_utf8(words: &[u32], text: &[u8], form: RecordForm) -> u32
    requires { Laid words.now form × (length text.now ≡ text_word words.now) × (length text.now < places) }
    ensures { result ≡ lowest (not_utf8 (doc_of words.now text.now)) (rows_word words.now) }
{
    let sheet = RecordSheet::new(words, text, form);
    let mut memo = [0u32; BLOCKS];
    let whole = know(text, &mut memo);
    let asked = Asked {
        sheet,
        memo: &memo,
        whole,
    };
    let n = form.rows;
    for j in 0..n {
        if asked.not_utf8(j) {
            return j;
        }
    }
    n
}
