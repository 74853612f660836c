// One record of a queue: the call of `judge` with rules that were checked before. The contracts cite
// `call_leaves` of crate `answer`, `Called` of crate `number`, and `specs/Asked.antt`.
#![tactic(auto)]

ghost use Rattle.std.specs.Prelude.{◌≡◌, true, length};
ghost use Rattle.text.specs.Part.{fits, part};
ghost use Rattle.meaning.specs.Rules.{whole};
ghost use Rattle.answer.specs.Call.{call_leaves};
ghost use Rattle.number.specs.Called.{Called};
ghost use Rattle.listing.specs.Listing.{words_at, text_at};
ghost use Rattle.recordcall.specs.Asked.{RulesChecked, Inside};

use answer::Answer;
use judge::judge_checked;
use listing::{text_at, words_at};
use number::number_of;
use recordcheck::check_record;
use sheet::refusal::Checked;
use text::{Range, bytes_of};

// Judges record i of the listing, and gives the number of its answer.
pub fn judge_listed<'a>(
    words: &'a [u32],
    bytes: &'a [u8],
    listing: &'a [u32],
    rules: &'a [u32],
    rule_text: &'a [u8],
    cells: &mut [u8],
    list: &mut [u32],
    checked: Checked,
    i: usize,
) -> u64
    requires record_listed { Inside (length words.now) (length bytes.now) listing.now i }
    requires rules_checked { RulesChecked rules.now rule_text.now checked }
    ensures { Called whole (part words.now (words_at listing.now i)) (part bytes.now (text_at listing.now i)) rules.now rule_text.now cells.old list.old cells.new list.new result }
{
    let record = words_of(words, words_at(listing, i));
    let text = bytes_of(bytes, text_at(listing, i));
    let answer = judge_record(record, text, rules, rule_text, cells, list, checked);
    number_of(answer)
}

// The words of the range.
fn words_of(words: &[u32], range: Range) -> &[u32]
    requires { fits (length words.now) range ≡ true }
    ensures { result.now ≡ part words.now range }
{
    let start = range.start as usize;
    let end = start + range.length as usize;
    &words[start..end]
}

// Judges a record by rules of which `checked` is what their check gave.
fn judge_record<'a>(
    record: &'a [u32],
    text: &'a [u8],
    rules: &'a [u32],
    rule_text: &'a [u8],
    cells: &mut [u8],
    list: &mut [u32],
    checked: Checked,
) -> Answer
    requires { RulesChecked rules.now rule_text.now checked }
    ensures { call_leaves «record».now text.now rules.now rule_text.now cells.old list.old result cells.new list.new }
{
    let n = check_record(record, text)?;
    judge_checked(
        record, text, rules, rule_text, cells, list, false, n, checked,
    )
}
