// A refusal as numbers: its number and its details.
ghost use Rattle.std.specs.Prelude.{◌≡◌, get_or};
ghost use Rattle.errors.specs.Refusals.{details_of};
ghost use Rattle.host.specs.Reasons.{number_and_detail, number_beside, as_numbers};

use errors::{Details, Refusal};

// A refusal as numbers: its number and its details, 0 for each that there is not.
#[derive(Drop)]
pub struct Reason {
    pub number: u32,
    pub first: u64,
    pub second: u64,
}

// The first two details of a refusal, 0 for each that there is not.
fn two_details(refusal: Refusal) -> (usize, usize)
    ensures { result ≡ (get_or (details_of refusal) 0 0, get_or (details_of refusal) 1 0) }
{
    match errors::details_of(refusal) {
        Details::Nothing => (0, 0),
        Details::One(first) => (first, 0),
        Details::Two(first, second) => (first, second),
    }
}

// A number in the lowest byte, and a detail above it.
pub(crate) fn number_and_detail(number: u32, detail: usize) -> u64
    ensures { result ≡ number_and_detail number detail }
{
    u64::from(number % 256) + 256 * ((detail % 72057594037927936) as u64)
}

// The number of a refusal, and its first detail.
pub(crate) fn number_beside(refusal: Refusal) -> u64
    ensures { result ≡ number_beside refusal }
{
    let (first, _) = two_details(refusal);
    number_and_detail(errors::number_of(refusal), first)
}

// A refusal as numbers.
pub(crate) fn as_numbers(refusal: Refusal) -> Reason
    ensures { result ≡ as_numbers refusal }
{
    let (first, second) = two_details(refusal);
    Reason {
        number: errors::number_of(refusal),
        first: first as u64,
        second: second as u64,
    }
}
