// A run for a host on a machine of its own: created over the tasks of an image, started, saved and listed.

use crate::answering::ListingLengths;
use errors::Refusal;
use listing::Head;

// What came of a run: how it ended, its finished instructions, what the save by the host answered, the length of the image that was saved last, and what
// came of its listing.
#[derive(Drop)]
pub struct RunSummary {
    pub head: Head,
    pub finished: u64,
    pub save: Result<usize, Refusal>,
    pub saved: usize,
    pub listing: ListingLengths,
}
