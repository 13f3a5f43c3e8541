// A run for a host with buffers of its own: its listing, whole or not at all, and its answer in eight numbers.
ghost use Rattle.std.specs.Prelude.{◌≡◌};
ghost use Rattle.host.specs.Answering.{ran, rafenuma_run};

// What came of a listing: its length where it was written, else 0; its whole length, or 0 where 64 bits do not hold it.
#[derive(Drop)]
pub struct ListingLengths {
    pub written: usize,
    pub needed: usize,
}

// Runs a program on a fresh machine over the tasks of an image; writes the listing and the new image.
pub fn run(
    memory: &mut [u8],
    image: &[u8],
    program: &[u8],
    new_image: &mut [u8],
    listing: &mut [u8],
    answer: &mut [u64; 8],
    fuel: u64,
) -> u64
    ensures { ran result memory.new new_image.new listing.new answer.new ≡ rafenuma_run fuel memory.old image.now program.now new_image.old listing.old answer.old }
{
    let mut stack = [0u64; 1000];
    let mut ends = [0u32; 1024];
    let mut pool = [0u8; 65536];
    let performed = crate::owner::own(
        &mut stack, memory, &mut pool, &mut ends, new_image, image, program, listing, fuel,
    );
    crate::numbers::tell(answer, performed)
}
