// A whole queue at once: up to 512 records, listed by where their words and texts stand in two slices,
// are judged by one rule sheet, one after the other in the same areas, and each is answered by its
// number.
//
// The listing is tested whole before anything is judged, and the rules are checked once. The contract
// of `judge_queue` cites `specs/Queue.antt`.
#![tactic(auto)]

ghost use Rattle.std.specs.Prelude.{◌≡◌, length};
ghost use Rattle.listing.specs.Listing.{Tested};
ghost use Rattle.recordcall.specs.Asked.{RulesChecked};
ghost use Rattle.queue.specs.Queue.{queue_leaves};
ghost use Rattle.queue.specs.Parts.{AllJudged};

use listing::{Queued, records_in, test_listing};
use recordcall::judge_listed;
use rulecheck::check_rules;
use sheet::refusal::Checked;

// Judges the listed records by the rules, whatever the words, texts, listing and areas. A refused call
// leaves the areas and the answers as they were. Otherwise the answer of record k is its number, and the
// areas are left as by so many calls of `judge`, one after the other.
pub fn judge_queue<'a>(
    words: &'a [u32],
    bytes: &'a [u8],
    listing: &'a [u32],
    rules: &'a [u32],
    rule_text: &'a [u8],
    cells: &mut [u8],
    list: &mut [u32],
    answers: &mut [u64],
) -> Queued
    ensures { queue_leaves words.now bytes.now listing.now rules.now rule_text.now cells.old list.old answers.old result cells.new list.new answers.new }
{
    let many = test_listing(words.len(), bytes.len(), listing, answers.len())?;
    let checked = check_rules(rules, rule_text);
    judge_all(
        words, bytes, listing, rules, rule_text, cells, list, answers, checked,
    );
    Ok(many)
}

// Judges the records of a listing that was tested, by rules of which `checked` is what their check gave.
fn judge_all<'a>(
    words: &'a [u32],
    bytes: &'a [u8],
    listing: &'a [u32],
    rules: &'a [u32],
    rule_text: &'a [u8],
    cells: &mut [u8],
    list: &mut [u32],
    answers: &mut [u64],
    checked: Checked,
)
    requires tested { Tested (length words.now) (length bytes.now) (length answers.old) listing.now }
    requires rules_checked { RulesChecked rules.now rule_text.now checked }
    ensures { AllJudged words.now bytes.now listing.now rules.now rule_text.now cells.old list.old answers.old cells.new list.new answers.new }
{
    let many = records_in(listing);
    for i in 0..many {
        answers[i] = judge_listed(
            words, bytes, listing, rules, rule_text, cells, list, checked, i,
        );
    }
}
