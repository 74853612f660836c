// The words that the bench program prints: paper 01, "The bench program". `specs/Words.antt` says them.
ghost use Rattle.std.specs.Prelude.{◌≡◌, Some};
ghost use Rattle.bundle.specs.Words.{unjudged_words, verdict_word, judgement_words, held_word, line_words};

use crate::{Judgement, Line, Unjudged};
use std::fmt;

impl fmt::Display for Unjudged {
    ghost output = { λ u. Some (unjudged_words u) };

    fn fmt<W: fmt::Write>(&self, f: &mut fmt::Formatter<W>) -> fmt::Result {
        match self {
            Unjudged::BadBundle => write!(f, "bad bundle"),
            Unjudged::Refused(refused) => {
                let number = refused.refusal.number();
                write!(f, "refused {number} {}", refused.place)
            }
            Unjudged::TooLarge => write!(f, "too large"),
        }
    }
}

// The verdict, how many pairs were settled and how many children of the root are marked.
impl fmt::Display for Judgement {
    ghost output = { λ j. Some (judgement_words j) };

    fn fmt<W: fmt::Write>(&self, f: &mut fmt::Formatter<W>) -> fmt::Result {
        let verdict = verdict_word(self.valid);
        write!(f, "{verdict}\npairs {} marked {}", self.pairs, self.marked)
    }
}

fn verdict_word(valid: bool) -> &'static str
    ensures { result.now ≡ verdict_word valid }
{
    if valid { "valid" } else { "invalid" }
}

// A pair's row, its schema, and whether it held.
impl fmt::Display for Line {
    ghost output = { λ l. Some (line_words l) };

    fn fmt<W: fmt::Write>(&self, f: &mut fmt::Formatter<W>) -> fmt::Result {
        let held = held_word(self.held);
        write!(f, "{} {} {held}", self.row, self.schema)
    }
}

fn held_word(held: bool) -> &'static str
    ensures { result.now ≡ held_word held }
{
    if held { "held" } else { "failed" }
}
