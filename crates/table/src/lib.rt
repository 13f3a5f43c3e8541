// The lent table of tasks: one slot read, written, cleared, or put into a state.
#![tactic(auto)]

pub mod slots;

ghost use Rattle.std.specs.Prelude.{◌≡◌, get_or, set};
ghost use Rattle.storage.specs.Tasks.{blank, after};
ghost use Rattle.storage.specs.Table.{set_state_at};

use errors::Refusal;
use storage::{Task, task_types};

// The record of a slot; past the last slot the blank one.
pub fn get(table: &mut [Task], slot: usize) -> Task
    ensures { after result table.new ≡ after (get_or table.old slot blank) table.old }
{
    match table.get(slot) {
        Some(&task) => task,
        None => task_types::blank(),
    }
}

// A record written to a slot; past the last slot nothing is.
pub fn put(table: &mut [Task], slot: usize, task: Task)
    ensures { table.new ≡ set table.old slot task }
{
    if slot < table.len() {
        table[slot] = task;
    }
}

// The blank record written to a slot.
pub fn clear(table: &mut [Task], slot: usize)
    ensures { table.new ≡ set table.old slot blank }
{
    put(table, slot, task_types::blank());
}

// The task of a slot put into a state; past the last slot there is no state to take.
#[tactic(auto, using(storage::proofs::Setting::set_past))]
pub fn set_state_at(table: &mut [Task], slot: usize, new_state: u32) -> Result<(), Refusal>
    ensures { after result table.new ≡ set_state_at table.old slot new_state }
{
    // A test, and not `get_mut`: with that the proof did not close.
    if slot < table.len() {
        return storage::states::set_state(&mut table[slot], new_state);
    }
    storage::states::no_such_state(new_state)
}
