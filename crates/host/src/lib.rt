// The library for a host: a run with its listing and its new image, the admission of a program, the test of an image.
#![tactic(auto)]

pub mod answering;
pub mod hosting;
mod lines;
mod listings;
mod numbers;
mod outcomes;
pub mod owner;
pub mod reasons;

ghost use Rattle.std.specs.Prelude.{◌≡◌};
ghost use Rattle.labels.specs.Check.{admission};
ghost use Rattle.admission.specs.Answer.{answered};
ghost use Rattle.image.specs.Image.{read_image};
ghost use Rattle.image.specs.Reading.{image_result};
ghost use Rattle.host.specs.Numbers.{admitted, packed_admission, packed_image};
ghost use Rattle.host.specs.Answering.{ran, rafenuma_run};

use crate::reasons::{number_and_detail, number_beside};
use image::reading::test_image;

// Runs a program on a fresh machine over the tasks of an image; writes the listing and the new image.
pub fn rafenuma_run(
    memory: &mut [u8],
    image: &[u8],
    program: &[u8],
    new_image: &mut [u8],
    listing: &mut [u8],
    answer: &mut [u64; 8],
    fuel: u64,
) -> u64
    ensures { ran result memory.new new_image.new listing.new answer.new ≡ rafenuma_run fuel memory.old image.now program.now new_image.old listing.old answer.old }
{
    crate::answering::run(memory, image, program, new_image, listing, answer, fuel)
}

// Whether a program is admitted, with the kinds at its end.
#[tactic(auto, unfolding(crate::specs::Numbers::admission_number))]
pub fn rafenuma_admit(program: &[u8], kinds: &mut [u8; 1000]) -> u64
    ensures { admitted result kinds.new ≡ packed_admission (answered (admission program.now) kinds.old) }
{
    match admission::admit(program, kinds) {
        Ok(count) => number_and_detail(0, count),
        Err(refusal) => number_beside(refusal),
    }
}

// Whether an image is sound.
#[tactic(auto, unfolding(crate::specs::Numbers::packed_image))]
pub fn rafenuma_test_image(image: &[u8]) -> u64
    ensures { result ≡ packed_image (image_result (read_image image.now)) }
{
    match test_image(image) {
        Ok(_) => 0,
        Err(refusal) => number_beside(refusal),
    }
}
