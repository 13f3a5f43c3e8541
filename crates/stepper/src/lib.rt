// Instructions one after the other, up to the code's end, the fuel's end, a refusal, or one that needs a task, a frame or the pool.
#![tactic(auto)]

pub mod advance;
mod arithmetic;
mod control;
mod cut;
pub mod entering;
mod equality;
mod execute;
mod jumps;
mod mutation;
mod operated;
mod ordering;
mod pushes;
mod stack;
pub mod store;

ghost use Rattle.std.specs.Prelude.{◌≡◌};
ghost use Rattle.mechanism.specs.Steps.{is_outer, stepped, steps};

use crate::execute::{instruct, is_plain, plain};
use bytecode::opcodes::{
    CALL, END_CALL, PUSH_CALLDATA, S_SAVE, T_CREATE, T_DELETE, T_GET_FIELD, T_SET_FIELD,
};
use mechanism::{Halt, Registers, StepsEnd};

// Whether an opcode needs a task, a frame or the pool: PUSH_CALLDATA, T_CREATE to S_SAVE, CALL, END_CALL. An arm for each opcode, for
// the reason that `is_plain` gives.
#[tactic(auto, unfolding(mechanism::specs::Steps::is_outer))]
fn is_outer(op: u8) -> bool
    ensures { result ≡ is_outer op }
{
    match op {
        PUSH_CALLDATA => true,
        T_CREATE => true,
        T_GET_FIELD => true,
        T_SET_FIELD => true,
        T_DELETE => true,
        S_SAVE => true,
        CALL => true,
        END_CALL => true,
        _ => false,
    }
}

// Halted for a reason, with so much fuel left.
fn halted(registers: Registers, left: u64, halt: Halt) -> StepsEnd
    ensures { result ≡ record { registers = registers; left = left; halt = halt } }
{
    StepsEnd {
        registers,
        left,
        halt,
    }
}

// The run of one code from its registers on. A plain instruction has its own place here: where all came together, each carried what only DO and LOOP change.
#[tactic(auto, unfolding(mechanism::specs::Steps::onward), using(crate::proofs::Turns::ended, crate::proofs::Turns::exhausted, crate::proofs::Turns::at_outer, crate::proofs::Turns::turned, crate::proofs::Reach::instruct_plain, crate::proofs::Reach::instruct_uncounted))]
pub(crate) fn steps(
    stack: &mut [u64; 1000],
    memory: &mut [u8],
    code: &[u8],
    registers: Registers,
    count: u32,
    fuel: u64,
) -> StepsEnd
    ensures { stepped result stack.new memory.new ≡ steps fuel stack.old memory.old code.now registers count }
{
    let mut at = registers;
    let mut left = fuel;
    while at.place < code.len() {
        if left == 0 {
            return halted(at, left, Halt::OutOfFuel);
        }
        let place = at.place;
        let op = code[place];
        if is_outer(op) {
            return halted(at, left, Halt::Outer);
        }
        if is_plain(op) {
            match plain(stack, at, place + 1, op, count) {
                Ok(next) => {
                    at = next;
                    left -= 1;
                }
                Err(refusal) => return halted(at, left, Halt::Refused(refusal)),
            }
        } else {
            match instruct(stack, memory, code, at) {
                Ok(next) => {
                    at = next;
                    left -= 1;
                }
                Err(refusal) => return halted(at, left, Halt::Refused(refusal)),
            }
        }
    }
    halted(at, left, Halt::AtEnd)
}
