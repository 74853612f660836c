// The listing of a queue: four words for each record. It is read here, and tested against the slices that
// the records stand in and the area for their answers; nothing is judged. The contracts cite
// `specs/Listing.antt`.
#![tactic(auto)]

ghost use Rattle.std.specs.Prelude.{◌≡◌, ◌*◌, ◌<◌, ◌≤◌, MatchOption, length};
ghost use Rattle.laws.specs.Lowest.{lowest};
ghost use Rattle.listing.specs.Listing.{records_in, words_at, text_at, outside, queue_outcome, queued_outcome};

use text::{Range, range_fits};

// Four words for each of 512 records.
const MOST_WORDS: usize = 2048;

// Why a queue is refused, with the place: the lowest record outside the slices, or the records given. A
// listing that is none has place 0.
#[derive(Clone, Copy, Debug, PartialEq, Eq)]
pub enum QueueRefused {
    BadListing,
    Outside(u32),
    FewAnswers(u32),
}

// What a queue is answered: how many records are answered, or why it is refused.
pub type Queued = Result<u32, QueueRefused>;

// What a queue is answered that has this listing, slices of so many words and bytes, and an area for so
// many answers.
pub fn test_listing(words: usize, bytes: usize, listing: &[u32], answers: usize) -> Queued
    ensures { queued_outcome result ≡ queue_outcome words bytes answers listing.now }
{
    let size = listing.len();
    if (size % 4 != 0) | (size > MOST_WORDS) {
        return Err(QueueRefused::BadListing);
    }
    if let Some(place) = first_outside(words, bytes, listing) {
        return Err(QueueRefused::Outside(place as u32));
    }
    let many = records_in(listing);
    if answers < many {
        return Err(QueueRefused::FewAnswers(many as u32));
    }
    Ok(many as u32)
}

// How many records are given.
pub fn records_in(listing: &[u32]) -> usize
    ensures { result ≡ records_in listing.now }
{
    listing.len() / 4
}

// Where the words of record k stand.
pub fn words_at(listing: &[u32], k: usize) -> Range
    requires { k < records_in listing.now }
    ensures { result ≡ words_at listing.now k }
{
    Range {
        start: listing[4 * k],
        length: listing[4 * k + 1],
    }
}

// Where the text of record k stands.
pub fn text_at(listing: &[u32], k: usize) -> Range
    requires { k < records_in listing.now }
    ensures { result ≡ text_at listing.now k }
{
    Range {
        start: listing[4 * k + 2],
        length: listing[4 * k + 3],
    }
}

// Whether record k does not lie in slices of so many words and bytes.
fn is_outside(words: usize, bytes: usize, listing: &[u32], k: usize) -> bool
    requires { k < records_in listing.now }
    ensures { result ≡ outside words bytes listing.now k }
{
    !range_fits(words, words_at(listing, k)) | !range_fits(bytes, text_at(listing, k))
}

// The lowest record that does not lie in slices of so many words and bytes.
fn first_outside(words: usize, bytes: usize, listing: &[u32]) -> Option<usize>
    ensures { MatchOption result (records_in listing.now ≤ lowest (outside words bytes listing.now) (records_in listing.now)) (λ k. (k < records_in listing.now) × (k ≡ lowest (outside words bytes listing.now) (records_in listing.now))) }
{
    for k in 0..records_in(listing) {
        if is_outside(words, bytes, listing, k) {
            return Some(k);
        }
    }
    None
}
