// The reply to a bundle, all that the bench program prints; crate `parts` takes it apart. Nothing here
// reads or writes a file.
//
// Its contracts cite `specs/Printed.antt`, and those of `display` `specs/Words.antt`.
#![tactic(auto)]

pub mod display;

ghost use Rattle.std.specs.Prelude.{◌≡◌};
ghost use Rattle.bundle.specs.declared.Unjudged.TheVariants.{Refused as NotInOrder};
ghost use Rattle.bundle.specs.Printed.{is_too_large, told_sheets, told_of, line_at, Roomy, InOrder, LineIn, Replies};

use parts::{BUNDLE_MAX, WORD, parts_of, read_words};
use sheet::record::wide;
use sheet::refusal::Refused;

// The most rows and the most schemas that are judged here.
const SIDE_MAX: u32 = 128;

// The pairs of as many rows and schemas.
pub const AREA: usize = (SIDE_MAX * SIDE_MAX) as usize;

// The verdict, and how many schemas there are, how many pairs were settled and how many children of
// the root are marked.
#[derive(Clone, Copy)]
pub struct Judgement {
    pub valid: bool,
    pub schemas: usize,
    pub pairs: usize,
    pub marked: usize,
}

// Why nothing is judged.
#[derive(Clone, Copy, Debug, PartialEq, Eq)]
pub enum Unjudged {
    BadBundle,
    Refused(Refused),
    TooLarge,
}

impl From<Refused> for Unjudged {
    ghost from_gives = { λ r u. u ≡ NotInOrder r };

    fn from(refused: Refused) -> Unjudged {
        Unjudged::Refused(refused)
    }
}

// All that is printed but for the lines of the settled pairs, which `line_at` gives.
pub type Reply = Result<Judgement, Unjudged>;

// A settled pair, and whether it held.
#[derive(Clone, Copy)]
pub struct Line {
    pub row: usize,
    pub schema: usize,
    pub held: bool,
}

// The reply to a bundle. Where the record was judged, the areas are as judging leaves them; otherwise
// nothing is written to them.
pub fn reply_to(bundle: &[u8], cells: &mut [u8], list: &mut [u32]) -> Reply
    requires { Roomy cells.old list.old }
    ensures { Replies (told_of bundle.now cells.old list.old) result cells.new list.new }
{
    let Some(parts) = parts_of(bundle) else {
        return Err(Unjudged::BadBundle);
    };
    let text = parts.of_record.words;
    let rules = text + parts.of_record.text;
    let rule_text = rules + parts.of_rules.words;
    let end = rule_text + parts.of_rules.text;
    let mut record_words = [0u32; BUNDLE_MAX / WORD];
    let mut rule_words = [0u32; BUNDLE_MAX / WORD];
    let a = read_words(&bundle[..text], &mut record_words);
    let c = read_words(&bundle[rules..rule_text], &mut rule_words);
    reply_to_sheets(
        &record_words[..a],
        &bundle[text..rules],
        &rule_words[..c],
        &bundle[rule_text..end],
        cells,
        list,
    )
}

// The reply to two sheets: a refusal comes before `too large`.
fn reply_to_sheets<'a>(
    record: &'a [u32],
    text: &'a [u8],
    rules: &'a [u32],
    rule_text: &'a [u8],
    cells: &mut [u8],
    list: &mut [u32],
) -> Reply
    requires { Roomy cells.old list.old }
    ensures { Replies (told_sheets «record».now text.now rules.now rule_text.now cells.old list.old) result cells.new list.new }
{
    let n = recordcheck::check_record(record, text)?;
    let m = rulecheck::check_rules(rules, rule_text)?;
    if too_large(n, m) {
        return Err(Unjudged::TooLarge);
    }
    judge_all(record, text, rules, rule_text, cells, list, n, m)
}

// Whether so many rows and schemas are too many.
fn too_large(n: u32, m: u32) -> bool
    ensures { result ≡ is_too_large n m }
{
    (SIDE_MAX < n) | (SIDE_MAX < m)
}

// Both sheets are in order, the record with n rows and the rules with m schemas, and not too large.
fn judge_all<'a>(
    record: &'a [u32],
    text: &'a [u8],
    rules: &'a [u32],
    rule_text: &'a [u8],
    cells: &mut [u8],
    list: &mut [u32],
    n: u32,
    m: u32,
) -> Reply
    requires { InOrder «record».now text.now rules.now rule_text.now cells.old list.old n m }
    ensures { Replies (told_sheets «record».now text.now rules.now rule_text.now cells.old list.old) result cells.new list.new }
{
    // Never refused: the sheets are in order, and the areas are long enough.
    let judged = judge::judge(record, text, rules, rule_text, cells, list)?;
    Ok(Judgement {
        valid: judged.valid,
        schemas: wide(m),
        pairs: judged.pairs,
        marked: judged.marked,
    })
}

// Line i of the settled pairs.
pub fn line_at(cells: &[u8], list: &[u32], schemas: usize, i: usize) -> Line
    requires { LineIn cells.now list.now schemas i }
    ensures { result ≡ line_at cells.now list.now schemas i }
{
    let word = wide(list[i]);
    Line {
        row: word / schemas,
        schema: word % schemas,
        held: areas::verdict_at(cells, word) == 1,
    }
}
