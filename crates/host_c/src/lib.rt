// The library for a host as C links it: each function of `host` under its own name, with the same contract.
#![tactic(auto)]

ghost use Rattle.std.specs.Prelude.{◌≡◌};
ghost use Rattle.labels.specs.Check.{admission};
ghost use Rattle.admission.specs.Answer.{answered};
ghost use Rattle.image.specs.Image.{read_image};
ghost use Rattle.image.specs.Reading.{image_result};
ghost use Rattle.host.specs.Numbers.{admitted, packed_admission, packed_image};
ghost use Rattle.host.specs.Answering.{ran, rafenuma_run};

// Runs a program on a fresh machine over the tasks of an image; writes the listing and the new image.
#[unsafe(no_mangle)]
pub extern "C" fn rafenuma_run(
    memory: &mut [u8],
    image: &[u8],
    program: &[u8],
    new_image: &mut [u8],
    listing: &mut [u8],
    answer: &mut [u64; 8],
    fuel: u64,
) -> u64
    ensures { ran result memory.new new_image.new listing.new answer.new ≡ rafenuma_run fuel memory.old image.now program.now new_image.old listing.old answer.old }
{
    host::rafenuma_run(memory, image, program, new_image, listing, answer, fuel)
}

// Whether a program is admitted, with the kinds at its end.
#[unsafe(no_mangle)]
pub extern "C" fn rafenuma_admit(program: &[u8], kinds: &mut [u8; 1000]) -> u64
    ensures { admitted result kinds.new ≡ packed_admission (answered (admission program.now) kinds.old) }
{
    host::rafenuma_admit(program, kinds)
}

// Whether an image is sound.
#[unsafe(no_mangle)]
pub extern "C" fn rafenuma_test_image(image: &[u8]) -> u64
    ensures { result ≡ packed_image (image_result (read_image image.now)) }
{
    host::rafenuma_test_image(image)
}
