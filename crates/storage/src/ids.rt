// Tasks by id: the slot of one, its refusal where there is none, and room for one more.
ghost use Rattle.std.specs.Prelude.{◌≡◌};
ghost use Rattle.storage.specs.Storage.{slot_of, find, room, len_after};

use crate::{Task, TaskId};
use errors::Refusal;

// The slot of a task: its id.
#[tactic(auto, unfolding(crate::specs::Storage::slot_of))]
pub fn slot_of(id: TaskId) -> usize
    ensures { result ≡ slot_of id }
{
    id.0 as usize
}

// Whether the record of an id's slot is a task.
#[tactic(auto, unfolding(crate::specs::Storage::find))]
pub fn find(task: Task, id: TaskId) -> Result<(), Refusal>
    ensures { result ≡ find task id }
{
    if task.living {
        return Ok(());
    }
    Err(Refusal::TaskNotFound(id.0))
}

// Whether one more task has room: a slot first, then its title.
#[tactic(auto, unfolding(crate::specs::Storage::room))]
pub fn room(next_id: TaskId, title_len: usize) -> Result<(), Refusal>
    ensures { result ≡ room next_id.0 title_len }
{
    if 256 <= next_id.0 {
        return Err(Refusal::TableFull);
    }
    if 128 < title_len {
        return Err(Refusal::TitleTooLong);
    }
    Ok(())
}

// What S_LEN pushes once a task with this id was held.
#[tactic(auto, unfolding(crate::specs::Storage::len_after))]
pub fn len_after(count: u32, id: TaskId) -> u32
    ensures { result ≡ len_after count id.0 }
{
    if id.0 < count {
        return count;
    }
    id.0.wrapping_add(1)
}
