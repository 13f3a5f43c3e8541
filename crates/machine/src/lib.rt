// The machine: its record, what its calls are asked and answer, and in specs/ what all of it means.
#![tactic(auto)]

pub mod new_machines;

use errors::Refusal;
use inlinevec::{Frames, Loops};
use storage::{Task, TaskId};

// Where a machine stands between two calls.
#[derive(Clone, Copy)]
pub enum Phase {
    New,
    Paused,
    Done,
    Stopped,
}

// The machine by value. Lent at each call, in this order: the table of tasks, the stack, memory, the pool, its ends, the save buffer.
#[derive(Clone, Copy)]
pub struct Machine {
    pub phase: Phase,
    pub height: usize,
    pub loops: Loops,
    pub frames: Frames,
    pub memory: usize,
    pub pool: usize,
    pub entries: usize,
    pub next_id: TaskId,
    pub count: u32,
    pub saved: usize,
}

// How a run ends: at its code's end, without fuel, or at a refused instruction.
#[derive(Clone, Copy)]
pub enum Outcome {
    Done,
    Paused,
    Refused(Refusal),
}

// A machine at the end of a run, the fuel that is left, and how the run ended.
#[derive(Clone, Copy)]
pub struct RunEnd {
    pub machine: Machine,
    pub left: u64,
    pub outcome: Outcome,
}

// What a host asks of a run: to start at main, to rerun from where the run before ended, or to continue where it paused.
#[derive(Clone, Copy)]
pub enum Verb {
    Start,
    Rerun,
    Continue,
}

// What start, rerun and continue answer: the machine, the instructions that were finished, and how the run ended.
#[derive(Clone, Copy)]
pub struct Report {
    pub machine: Machine,
    pub finished: u64,
    pub outcome: Outcome,
}

// What the read of a task answers, and its record. No Result of a record: the record is promised on a refusal, too.
#[derive(Drop)]
pub struct TaskRead {
    pub result: Result<(), Refusal>,
    pub task: Task,
}

// What a save by the host answers, and the machine after it. No Result of a machine: a refused save leaves one, too.
#[derive(Drop)]
pub struct SaveReport {
    pub machine: Machine,
    pub result: Result<usize, Refusal>,
}

// What a creation goes on with: the machine before its tasks are loaded, and how many there are.
#[derive(Drop)]
pub struct Preparation {
    pub machine: Machine,
    pub count: u32,
}
