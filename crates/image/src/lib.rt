// The task image: tested, and read a record at a time.
#![tactic(auto)]

pub mod numbers;
pub mod reading;
pub mod sizes;
pub mod steps;
pub mod writing;

use errors::Refusal;
use storage::{Task, TaskId};

// What testing an image finds: the next id, how many tasks, the greatest id plus 1, and the bytes of all instructions.
#[derive(Drop)]
pub struct SoundImage {
    pub next_id: TaskId,
    pub count: u32,
    pub s_len: u32,
    pub instructions: usize,
}

// A record of the image: its task, and where its instructions start and end; there the next record starts.
#[derive(Drop)]
pub struct Record {
    pub task: Task,
    pub start: usize,
    pub end: usize,
}

// A record that was loaded: its task, where the next one starts, and the pool's bytes and entries in use.
#[derive(Drop)]
pub struct LoadedRecord {
    pub task: Task,
    pub end: usize,
    pub bytes: usize,
    pub entries: usize,
}
