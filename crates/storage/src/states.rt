// A task's state: the first of so many, and the change of one, by value and on a record that is lent.
ghost use Rattle.std.specs.Prelude.{◌≡◌};
ghost use Rattle.storage.specs.Tasks.{default_state, no_such_state, with_state, after, set_state};

use crate::{StateChange, Task, TaskState};
use errors::Refusal;

// The first of so many states.
#[tactic(auto, unfolding(crate::specs::Tasks::default_state))]
pub fn default_state(len: u8) -> Result<TaskState, Refusal>
    ensures { result ≡ default_state len }
{
    if len == 0 {
        return Err(Refusal::MaxStatesError);
    }
    Ok(TaskState { len, state: 0 })
}

// 11, with the state that was asked for.
pub fn no_such_state(new_state: u32) -> Result<(), Refusal>
    ensures { result ≡ no_such_state new_state }
{
    Err(Refusal::InvalidStatus(new_state))
}

// The state byte that a task has after it was put into a state, and the answer.
#[tactic(auto, unfolding(crate::specs::Tasks::with_state))]
pub fn with_state(state: TaskState, new_state: u32) -> StateChange
    ensures { result ≡ with_state state new_state }
{
    if u32::from(state.len) <= new_state || 255 <= new_state {
        return StateChange {
            state: state.state,
            answer: no_such_state(new_state),
        };
    }
    StateChange {
        state: new_state as u8,
        answer: Ok(()),
    }
}

// A task that is lent is put into a state: its state byte is written, and nothing else.
#[tactic(auto, unfolding(crate::specs::Tasks::set_state))]
pub fn set_state(task: &mut Task, new_state: u32) -> Result<(), Refusal>
    ensures { after result task.new ≡ set_state task.old new_state }
{
    let stated = with_state(task.state, new_state);
    task.state.state = stated.state;
    stated.answer
}
