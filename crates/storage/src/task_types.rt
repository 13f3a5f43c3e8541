// Task records: the blank one, and a new one.
ghost use Rattle.std.specs.Prelude.{◌≡◌};
ghost use Rattle.storage.specs.Tasks.{blank, title_of, new_task};

use crate::{Task, TaskId, TaskState};
use pools::InstructionsRef;

// The record of a slot that is not living.
#[tactic(auto, unfolding(crate::specs::Tasks::blank, crate::specs::Tasks::no_title))]
pub fn blank() -> Task
    ensures { result ≡ blank }
{
    Task {
        living: false,
        id: TaskId(0),
        state: TaskState { len: 0, state: 0 },
        instructions_ref: InstructionsRef(0),
        title_len: 0,
        title: [0; 128],
    }
}

// A title as a record holds it: its first 128 bytes, zeros behind.
#[tactic(auto, using(crate::proofs::Titles::title_written))]
pub(crate) fn title_of(bytes: &[u8]) -> [u8; 128]
    ensures { result ≡ title_of bytes.now }
{
    let mut title = [0; 128];
    slices::writes::write(&mut title, bytes, 0);
    title
}

// A living task with a title.
#[tactic(auto, unfolding(crate::specs::Tasks::new_task))]
pub fn new_task(
    id: TaskId,
    title: &[u8],
    state: TaskState,
    instructions_ref: InstructionsRef,
) -> Task
    ensures { result ≡ new_task id title.now state instructions_ref }
{
    Task {
        living: true,
        id,
        state,
        instructions_ref,
        title_len: title.len().min(128),
        title: title_of(title),
    }
}
