// The size of a slot's record in the image of a table.
ghost use Rattle.std.specs.Prelude.{◌≡◌};
ghost use Rattle.image.specs.Slots.{saved_task};
ghost use Rattle.image.specs.Writing.{stepped, measure_slot, size_of, measure};

use errors::Refusal;
use slices::places::on;
use storage::Task;

// The size of a task's record, where its title is UTF-8.
#[tactic(auto, using(crate::proofs::Puts::size_is, crate::proofs::Puts::no_text))]
fn size_of(instructions: &[u8], task: Task) -> Result<usize, Refusal>
    ensures { result ≡ size_of (saved_task task instructions.now) }
{
    // a copy of the title alone: where the task's own is read, the whole task is copied (measured)
    let held = task.title;
    let title = slices::part(&held, 0, task.title_len);
    if !utf8::is_utf8(title) {
        return Err(Refusal::BytesToStringConversionError);
    }
    Ok(14 + title.len() + instructions.len())
}

// The size of a task's record: 12 where its reference names no entry, then 15 where its title is not UTF-8.
#[tactic(auto, unfolding(crate::specs::Writing::measure, crate::specs::Writing::sized, crate::specs::Slots::task_in))]
fn measure(pool: &[u8], ends: &[u32; 1024], entries: usize, task: Task) -> Result<usize, Refusal>
    ensures { result ≡ measure pool.now ends.now entries task }
{
    let reference = task.instructions_ref;
    pools::bounds(ends, entries, reference)?;
    size_of(pools::get(pool, ends, reference), task)
}

// A slot is measured: the size with its record, counted no further than the limit.
#[tactic(auto, unfolding(crate::specs::Writing::measure_slot, crate::specs::Writing::added, crate::specs::Walking::on))]
pub fn measure_slot(
    pool: &mut [u8],
    ends: &mut [u32; 1024],
    task: Task,
    entries: usize,
    limit: usize,
    size: usize,
) -> Result<usize, Refusal>
    ensures { stepped result pool.new ends.new ≡ stepped (measure_slot pool.old ends.old entries limit task size) pool.old ends.old }
{
    if !task.living {
        return Ok(size);
    }
    let more = measure(pool, ends, entries, task)?;
    Ok(on(limit, size, more))
}
