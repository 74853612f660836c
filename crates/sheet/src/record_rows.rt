// A record sheet whose trailer is in order, as those who check its rows hand it on: the facts that
// each of them leans on go with the words.
ghost use Rattle.std.specs.Prelude.{◌≡◌, ◌+◌, ◌*◌, ◌≤◌, ◌<◌, length};
ghost use Rattle.sheet.specs.Record.{row_words, text_word, row_at};
ghost use Rattle.sheet.specs.Accepted.{Formed};

use crate::record::{Children, RecordForm, RecordRow, Row, row_at, wide};
use names::Names;

// The rows, and how many bytes of text there are.
#[derive(Clone, Copy)]
pub struct RecordRows<'a> {
    pub words: &'a [u32],
    pub form: RecordForm,
    pub size: usize,
    ghost formed: { Formed words.now form },
    ghost sized: { size ≡ text_word words.now },
}

// The rows and the text.
#[derive(Clone, Copy)]
pub struct RecordSheet<'a> {
    pub rows: RecordRows<'a>,
    pub text: &'a [u8],
    ghost whole: { length text.now ≡ rows.size },
}

impl<'a> RecordRows<'a> {
    // The words of row j.
    pub fn row(&self, j: u32) -> Row
        requires { j < self.now.form.rows }
        ensures { result ≡ row_at self.now.words.now j }
    {
        row_at(self.words, self.form, RecordRow(j))
    }

    // Where the labels of these children stand among the words.
    pub fn labels(&self, children: Children) -> Names
        requires { children.first + children.count ≤ self.now.form.rows }
        ensures { result ≡ record { base = self.now.form.start + row_words * children.first + 4; stride = row_words; count = children.count } }
    {
        Names {
            base: self.form.start + RecordForm::ROW_WORDS * wide(children.first) + 4,
            stride: RecordForm::ROW_WORDS,
            count: wide(children.count),
        }
    }
}

impl<'a> RecordSheet<'a> {
    // The sheet of these words and this text.
    pub fn new(words: &'a [u32], text: &'a [u8], form: RecordForm) -> RecordSheet<'a>
        requires formed { Formed words.now form }
        requires whole { length text.now ≡ text_word words.now }
        ensures words { result.rows.words.now ≡ words.now }
        ensures text { result.text.now ≡ text.now }
        ensures form { result.rows.form ≡ form }
    {
        let size = text.len();
        RecordSheet {
            rows: RecordRows { words, form, size },
            text,
        }
    }
}
