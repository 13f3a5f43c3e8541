// One slot of a loop over the lent table: all is lent as the loop holds it, and what is only read stays.
ghost use Rattle.std.specs.Prelude.{◌≡◌};
ghost use Rattle.image.specs.Writing.{stepped, save_slot, put};

use crate::writing::write_record;
use storage::Task;

// A living slot's record is written from a place on; answered is the place behind it.
#[tactic(auto, unfolding(crate::specs::Writing::save_slot, crate::specs::Slots::task_in))]
pub fn save_slot(
    pool: &mut [u8],
    ends: &mut [u32; 1024],
    save: &mut [u8],
    task: Task,
    at: usize,
) -> usize
    ensures { stepped (put result save.new) pool.new ends.new ≡ stepped (save_slot pool.old ends.old task at save.old) pool.old ends.old }
{
    if !task.living {
        return at;
    }
    write_record(
        save,
        pools::get(pool, ends, task.instructions_ref),
        task,
        at,
    )
}
