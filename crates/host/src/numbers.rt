// The eight numbers of a run.
ghost use Rattle.std.specs.Prelude.{◌≡◌};
ghost use Rattle.host.specs.AnsweringNumbers.{no_reason, reason_of, outcome_of, listing_number, packed, answers, told};

use crate::hosting::RunSummary;
use crate::reasons::{Reason, as_numbers};
use errors::Refusal;
use listing::Head;

// No refusal.
fn no_reason() -> Reason
    ensures { result ≡ no_reason }
{
    Reason {
        number: 0,
        first: 0,
        second: 0,
    }
}

// Why a run was refused, or else the save after it.
#[tactic(auto, unfolding(crate::specs::AnsweringNumbers::reason_of, crate::specs::AnsweringNumbers::save_reason))]
fn reason_of(head: Head, save: Result<usize, Refusal>) -> Reason
    ensures { result ≡ reason_of head save }
{
    match (head, save) {
        (Head::Refused(refusal), _) | (_, Err(refusal)) => as_numbers(refusal),
        (_, Ok(_)) => no_reason(),
    }
}

// How a run ended: 0 done, 1 paused, 2 refused.
#[tactic(auto, unfolding(crate::specs::AnsweringNumbers::outcome_of))]
fn outcome_of(head: Head) -> u32
    ensures { result ≡ outcome_of head }
{
    match head {
        Head::Done(_) | Head::Saved(_) => 0,
        Head::Paused(_) => 1,
        Head::Refused(_) => 2,
    }
}

// 24 where the listing was not written, else 0.
#[tactic(auto, unfolding(crate::specs::AnsweringNumbers::listing_number))]
fn listing_number(written: usize) -> u32
    ensures { result ≡ listing_number written }
{
    if written == 0 { 24 } else { 0 }
}

// The outcome, the refusal's number and the listing's number, a byte each.
fn packed(outcome: u32, number: u32, listing: u32) -> u64
    ensures { result ≡ packed outcome number listing }
{
    u64::from(outcome) + 256 * u64::from(number) + 65536 * u64::from(listing)
}

// Writes the eight numbers of a run, and answers with its packed one.
#[tactic(auto, unfolding(crate::specs::AnsweringNumbers::answers), using(slices::proofs::SlicesWrites::sets_whole))]
pub(crate) fn tell(answer: &mut [u64; 8], performed: RunSummary) -> u64
    ensures { told result answer.new ≡ answers answer.old performed }
{
    let outcome = outcome_of(performed.head);
    let why = reason_of(performed.head, performed.save);
    *answer = [
        u64::from(outcome),
        performed.finished,
        u64::from(why.number),
        why.first,
        why.second,
        performed.listing.written as u64,
        performed.saved as u64,
        performed.listing.needed as u64,
    ];
    packed(
        outcome,
        why.number,
        listing_number(performed.listing.written),
    )
}
