// The entries for the hub's host program, which is written in C: reading JSON, checking a sheet,
// judging a record, only the verdict, and judging a queue, each answer as one number.
//
// `include/amphorust.h` says the same to a C programmer. The contracts cite `specs/Entry.antt`.
#![tactic(auto)]

ghost use Rattle.std.specs.Prelude.{[], ◌≡◌};
ghost use Rattle.sheetcheck.specs.LastWord.{check_outcome};
ghost use Rattle.meaning.specs.Rules.{whole, cut};
ghost use Rattle.meaning.specs.Answer.{number_for_c};
ghost use Rattle.number.specs.Called.{Called, outcome_answer};
ghost use Rattle.hub.specs.Entry.{QueueCalled, ReadCalled};

use number::number_of;
use outcomes::{number_of_kind, number_of_queued, number_of_read};

// Reads JSON into a record sheet and its text, whatever the bytes and the areas. The number's lowest
// byte is 0 for a text that is read, and 10 more than the refusal's number for refused; what stands
// above it is the number of rows or, of a refusal, the place.
#[unsafe(no_mangle)]
pub extern "C" fn amphorust_read(json: &[u8], words: &mut [u32], text: &mut [u8]) -> u64
    ensures { ReadCalled json.now words.old text.old words.new text.new result }
{
    number_of_read(reading::read(json, words, text))
}

// Checks a sheet, whatever the words and the text. The number's lowest byte is 0 for a sheet in
// order, and 10 more than the refusal's number for refused; what stands above it is the number of
// rows (of rules, the schemas) or, of a refusal, the place.
#[unsafe(no_mangle)]
pub extern "C" fn amphorust_check(words: &[u32], text: &[u8]) -> u64
    ensures { result ≡ number_for_c (outcome_answer (check_outcome words.now text.now)) }
{
    let found = sheetcheck::check(words, text);
    number_of_kind(found)
}

// Judges a record by rules, whatever the words, texts and areas. The number's lowest byte is 0 for
// valid, 1 for invalid, and 10 more than the refusal's number for refused; what stands above it is
// the number of settled pairs or, of a refusal, the place.
#[unsafe(no_mangle)]
pub extern "C" fn amphorust_judge<'a>(
    record: &'a [u32],
    record_text: &'a [u8],
    rules: &'a [u32],
    rule_text: &'a [u8],
    cells: &mut [u8],
    list: &mut [u32],
) -> u64
    ensures { Called whole «record».now record_text.now rules.now rule_text.now cells.old list.old cells.new list.new result }
{
    let answer = judge::judge(record, record_text, rules, rule_text, cells, list);
    number_of(answer)
}

// Judges a record by rules as far as the verdict needs, and lists nothing. The number is told as that
// of judging is; the settled pairs are those of the cells.
#[unsafe(no_mangle)]
pub extern "C" fn amphorust_verdict<'a>(
    record: &'a [u32],
    record_text: &'a [u8],
    rules: &'a [u32],
    rule_text: &'a [u8],
    cells: &mut [u8],
) -> u64
    ensures { Called cut «record».now record_text.now rules.now rule_text.now cells.old [] cells.new [] result }
{
    let answer = judge::verdict(record, record_text, rules, rule_text, cells);
    number_of(answer)
}

// Judges a queue of records, each listed by four words: where its words start and how many they are,
// and the same of its text. Each record's answer is the number that `amphorust_judge` gives it. The
// call's own has the lowest byte 0, or 10 more than the refusal's number for refused; what stands above
// it is the number of records answered or, of a refusal, the place.
#[unsafe(no_mangle)]
pub extern "C" fn amphorust_judge_queue<'a>(
    words: &'a [u32],
    bytes: &'a [u8],
    listing: &'a [u32],
    rules: &'a [u32],
    rule_text: &'a [u8],
    cells: &mut [u8],
    list: &mut [u32],
    answers: &mut [u64],
) -> u64
    ensures { QueueCalled words.now bytes.now listing.now rules.now rule_text.now cells.old list.old answers.old cells.new list.new answers.new result }
{
    let queued = queue::judge_queue(
        words, bytes, listing, rules, rule_text, cells, list, answers,
    );
    number_of_queued(queued)
}
