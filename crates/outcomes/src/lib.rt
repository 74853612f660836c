// The number that a caller gets of a call that judges no record itself: of what reading gives, the check
// of a sheet and a queue.
//
// The contracts cite `number_for_c` of crate `meaning`, and `outcome_answer` of crate `number`.
#![tactic(auto)]

ghost use Rattle.std.specs.Prelude.{◌≡◌, Err};
ghost use Rattle.sheet.specs.Refusals.{outcome_of};
ghost use Rattle.sheetcheck.specs.LastWord.{outcome_by_kind};
ghost use Rattle.laying.specs.Laying.{outcome_of as read_outcome};
ghost use Rattle.listing.specs.Listing.{queued_outcome};
ghost use Rattle.meaning.specs.Answer.{number_for_c};
ghost use Rattle.number.specs.Called.{outcome_answer};

use laying::Refused;
use listing::{QueueRefused, Queued};
use number::{number_of_count, number_of_refusal};
use sheet::refusal::Checked;

// The number of what reading gives.
pub fn number_of_read(answer: Result<u32, Refused>) -> u64
    ensures { result ≡ number_for_c (outcome_answer (read_outcome answer)) }
{
    match answer {
        Ok(rows) => number_of_count(rows),
        Err(refused) => number_of_refusal(refused.number, refused.place),
    }
}

// The number of what the check of a sheet gives.
pub fn number_of_kind(found: Option<Checked>) -> u64
    ensures { result ≡ number_for_c (outcome_answer (outcome_by_kind found)) }
{
    match found {
        Some(checked) => number_of_checked(checked),
        None => number_of_refusal(sheetcheck::UNKNOWN_KIND, 0),
    }
}

// The number of what the check of a known kind gives.
fn number_of_checked(checked: Checked) -> u64
    ensures { result ≡ number_for_c (outcome_answer (outcome_of checked)) }
{
    match checked {
        Ok(rows) => number_of_count(rows),
        Err(refused) => number_of_refusal(refused.refusal.number(), refused.place),
    }
}

// The number of what a queue gives.
pub fn number_of_queued(queued: Queued) -> u64
    ensures { result ≡ number_for_c (outcome_answer (queued_outcome queued)) }
{
    match queued {
        Ok(many) => number_of_count(many),
        Err(refused) => number_of_queue_refused(refused),
    }
}

// The number of a queue's refusal.
fn number_of_queue_refused(refused: QueueRefused) -> u64
    ensures { result ≡ number_for_c (outcome_answer (queued_outcome (Err refused))) }
{
    match refused {
        QueueRefused::BadListing => number_of_refusal(30, 0),
        QueueRefused::Outside(place) => number_of_refusal(31, place),
        QueueRefused::FewAnswers(many) => number_of_refusal(32, many),
    }
}
