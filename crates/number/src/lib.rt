// The number that a caller gets for an answer: one 64-bit number, for every call made by one
// definition.
//
// The contracts cite `number_for_c` of crate `meaning`, and `specs/Called.antt`.
#![tactic(auto)]

ghost use Rattle.std.specs.Prelude.{◌≡◌, ◌<◌, ◌^◌};
ghost use Rattle.meaning.specs.Answer.{valid, verdict, refuses, number_for_c};
ghost use Rattle.answer.specs.Call.{answer_of};
ghost use Rattle.number.specs.Called.{counted};

use answer::Answer;

// The number of an answer whose count fits a word, as that of every call does.
pub fn number_of(answer: Answer) -> u64
    requires { counted (answer_of answer) < 2 ^ 32 }
    ensures { result ≡ number_for_c (answer_of answer) }
{
    match answer {
        Ok(judged) => number_of_judged(judged.valid, judged.pairs),
        Err(refused) => number_of_refusal(refused.refusal.number(), refused.place),
    }
}

// The number of a judged record, of which so many pairs are settled.
fn number_of_judged(valid: bool, pairs: usize) -> u64
    requires { pairs < 2 ^ 32 }
    ensures { result ≡ number_for_c (verdict valid pairs 0) }
{
    let number = pairs as u64 * 256;
    if valid { number } else { number + 1 }
}

// The number of a call that is not refused and counts `many`: rows, schemas, records.
pub fn number_of_count(many: u32) -> u64
    ensures { result ≡ number_for_c (valid many 0) }
{
    u64::from(many) * 256
}

// The number of a refusal.
pub fn number_of_refusal(number: u32, place: u32) -> u64
    ensures { result ≡ number_for_c (refuses number place) }
{
    u64::from(place) * 256 + (10 + u64::from(number))
}
