// The admission check: the admission rules (docs/REFERENCE.md, 'Admission') in code, in time that grows with the program's length.
#![tactic(auto)]

pub mod changes;
mod decision;
pub mod elements;
pub mod finding;
mod jumps;
pub mod marks;
mod nodes;
mod sweep;

ghost use Rattle.std.specs.Prelude.{◌≡◌, ◌+◌, ◌*◌, ◌≤◌, length};
ghost use Rattle.labels.specs.Check.{admission};
ghost use Rattle.admission.specs.Answer.{answer, answered};

use crate::decision::decide;
use errors::Refusal;

// A program whose elements are looked at: of 1 to 65,535 bytes.
#[derive(Clone, Copy)]
pub struct Program<'a> {
    pub code: &'a [u8],
    pub ghost some: { 1 ≤ length code.now },
    pub ghost short: { length code.now ≤ 65535 },
}

// What is to be noted behind an element. Its label's kinds are two letters on a node (0: none), its open loops a word: the place behind the outer DO
// times 65,536, and that behind the inner one (0: none).
#[derive(Drop)]
pub struct Plan {
    pub node: usize,
    pub low: u32,
    pub top: u32,
    pub word: u32,
    pub height: usize,
    pub ghost most: { height ≤ 1000 },
}

// Where the sweep stands: at a place, with so many kinds, and the nodes from `free` on are free. Each element before gave at most two.
#[derive(Clone, Copy)]
pub struct Step {
    pub at: usize,
    pub height: usize,
    pub free: usize,
    pub ghost near: { at ≤ 65535 },
    pub ghost most: { height ≤ 1000 },
    pub ghost room: { free ≤ 2 * at + 1 },
}

// Whether a program is admitted, and the kinds at its end: their letters, bottom first, at the head of a buffer.
pub fn admit(program: &[u8], kinds: &mut [u8; 1000]) -> Result<usize, Refusal>
    ensures { answer result kinds.new ≡ answered (admission program.now) kinds.old }
{
    if program.is_empty() {
        return Err(Refusal::EmptyInstructions);
    }
    if 65535 < program.len() {
        return Err(Refusal::ProgramTooLong);
    }
    decide(kinds, Program { code: program })
}
