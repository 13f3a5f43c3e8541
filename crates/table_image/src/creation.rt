// The tests of creation, all of them before anything is written.
ghost use Rattle.std.specs.Prelude.{◌≡◌, length};
ghost use Rattle.table_image.specs.Creation.{creation_tests};

use errors::Refusal;
use image::SoundImage;
use image::reading::test_image;
use pools::capacity::has_room;
use storage::TaskId;

// What creation's tests answer: the image's next id, its task count and S_LEN, or the refusal.
#[derive(Drop)]
pub struct Fit {
    pub next_id: TaskId,
    pub count: u32,
    pub s_len: u32,
}

// Tests a table's slots, a lent pool's length, a program and an image: 26, then 1, 28, 25, 22.
#[tactic(auto, unfolding(crate::specs::Creation::creation_tests, crate::specs::Creation::image_tests))]
pub fn creation_tests(
    slots: usize,
    pool_lent: usize,
    program: &[u8],
    image: &[u8],
) -> Result<Fit, Refusal>
    ensures { result ≡ creation_tests slots pool_lent (length program.now) image.now }
{
    if slots != 256 {
        return Err(Refusal::WrongPhaseOrUnsound);
    }
    if program.is_empty() {
        return Err(Refusal::EmptyInstructions);
    }
    if 65535 < program.len() {
        return Err(Refusal::ProgramTooLong);
    }
    let SoundImage {
        next_id,
        count,
        s_len,
        instructions,
    } = test_image(image)?;
    if !has_room(pool_lent, program.len(), count as usize, instructions) {
        return Err(Refusal::PoolFull);
    }
    Ok(Fit {
        next_id,
        count,
        s_len,
    })
}
