// All slots of the lent table one after another: cleared, the living counted, and whether the table is sound.
ghost use Rattle.std.specs.Prelude.{◌≡◌, length, replicate};
ghost use Rattle.storage.specs.Tasks.{blank, after};
ghost use Rattle.storage.specs.Table.{living_of, sound_slot, sound_counts, sound_table};

use storage::{Task, TaskId, task_types};

// The blank record written to every slot.
pub fn clear_all(table: &mut [Task])
    ensures { table.new ≡ replicate (length table.old) blank }
{
    table.fill(task_types::blank());
}

// How many slots are living.
#[tactic(auto, using(crate::proofs::Turns::living_counted))]
pub fn living(table: &mut [Task]) -> usize
    ensures { after result table.new ≡ after (living_of table.old) table.old }
{
    table.iter().filter(|task| task.living).count()
}

// Whether a slot is within its limits.
#[tactic(auto, unfolding(storage::specs::Table::sound_slot))]
fn sound_slot(task: Task, slot: usize, count: u32) -> bool
    ensures { result ≡ sound_slot task slot count }
{
    !task.living
        || (task.id.0 as usize == slot
            && task.id.0 < count
            && task.title_len <= 128
            && task.state.state < task.state.len)
}

// Whether the numbers beside a table are within their limits.
#[tactic(auto, unfolding(storage::specs::Table::sound_counts))]
fn sound_counts(slots: usize, next_id: TaskId, count: u32) -> bool
    ensures { result ≡ sound_counts slots next_id.0 count }
{
    slots == 256 && next_id.0 <= 256 && count <= 256 && count <= next_id.0
}

// Whether a table, with the next id and the S_LEN count, is sound.
#[tactic(auto, unfolding(storage::specs::Table::sound_table), using(crate::proofs::Turns::sound_last))]
pub fn sound(table: &mut [Task], next_id: TaskId, count: u32) -> bool
    ensures { after result table.new ≡ after (sound_table table.old next_id.0 count) table.old }
{
    if !sound_counts(table.len(), next_id, count) {
        return false;
    }
    for (slot, &task) in table.iter().enumerate() {
        if !sound_slot(task, slot, count) {
            return false;
        }
    }
    true
}
