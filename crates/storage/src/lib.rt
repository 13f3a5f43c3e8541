// Tasks: the record, its state, and its id.
#![tactic(auto)]

pub mod ids;
pub mod states;
pub mod task_types;

use errors::Refusal;
use pools::InstructionsRef;

// Which task: never a pool reference, never an element's index.
#[derive(Clone, Copy)]
pub struct TaskId(pub u32);

// How many states a task has, and which of them it is in.
#[derive(Clone, Copy)]
pub struct TaskState {
    pub len: u8,
    pub state: u8,
}

// A slot of the table. One that is not living is the blank record; bytes past the title are 0. The fields go from wide to narrow, so that no byte between two
// of them is nobody's: a record is then written in whole words.
#[derive(Clone, Copy)]
pub struct Task {
    pub title: [u8; 128],
    pub title_len: usize,
    pub id: TaskId,
    pub instructions_ref: InstructionsRef,
    pub state: TaskState,
    pub living: bool,
}

// The state byte after setting a state, and the answer.
#[derive(Drop)]
pub struct StateChange {
    pub state: u8,
    pub answer: Result<(), Refusal>,
}
