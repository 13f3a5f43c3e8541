// How the code takes an instruction apart: by what it changes of the registers, of a task's slot, of the frames and the pool. That this is the machine's step is shown in proofs/.
#![tactic(auto)]

pub mod machines;
pub mod stack;
pub mod store;

use errors::Refusal;
use inlinevec::Loops;
use machine::{Machine, Outcome};
use storage::Task;

// What an instruction that needs no task, frame or pool changes of the machine: the length of memory in use, the place in the current code, the height of
// the stack, the open loops. The length that fewest change comes first, where a refusal lies in a `Result` of them: what lies there goes through memory.
#[derive(Clone, Copy)]
pub struct Registers {
    pub memory: usize,
    pub place: usize,
    pub height: usize,
    pub loops: Loops,
}

// Why the steps of a code halted.
#[derive(Drop)]
pub enum Halt {
    AtEnd,
    OutOfFuel,
    Outer,
    Refused(Refusal),
}

// Where they halted, and the fuel that is left.
#[derive(Drop)]
pub struct StepsEnd {
    pub registers: Registers,
    pub left: u64,
    pub halt: Halt,
}

// What an instruction changes in the slot that it names: nothing, the whole record, or its state byte alone.
#[derive(Clone, Copy)]
pub enum Change {
    Keep,
    Put(Task),
    Restate(u32),
}

// Where a run stands: it goes on; before an instruction that needs a task, a frame or the pool, with its opcode; or at its outcome.
#[derive(Clone, Copy)]
pub enum Standing {
    Going,
    AtHand(u8),
    Ended(Outcome),
}

// A machine on its way, the fuel that is left, and where the run stands.
#[derive(Clone, Copy)]
pub struct Progress {
    pub machine: Machine,
    pub left: u64,
    pub standing: Standing,
}
