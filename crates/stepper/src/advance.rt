// The run of the current code, up to an instruction that needs a task, a frame or the pool.
ghost use Rattle.std.specs.Prelude.{◌≡◌};
ghost use Rattle.mechanism.specs.Advance.{ended, halted_at, progress_on, advance};

use crate::steps;
use machine::{Machine, Outcome};
use mechanism::machines::{code_of, registers_of, settled};
use mechanism::{Halt, Progress, Standing};
use slices::get_or;

// At an outcome.
fn ended(machine: Machine, left: u64, outcome: Outcome) -> Progress
    ensures { result ≡ ended machine left outcome }
{
    Progress {
        machine,
        left,
        standing: Standing::Ended(outcome),
    }
}

// Why the steps halted, and what is at hand.
#[tactic(auto, unfolding(mechanism::specs::Advance::halted_at))]
fn halted_at(machine: Machine, op: u8, left: u64, halt: Halt) -> Progress
    ensures { result ≡ halted_at machine op left halt }
{
    match halt {
        Halt::AtEnd => ended(machine, left, Outcome::Done),
        Halt::OutOfFuel => ended(machine, left, Outcome::Paused),
        Halt::Refused(refusal) => ended(machine, left, Outcome::Refused(refusal)),
        Halt::Outer => Progress {
            machine,
            left,
            standing: Standing::AtHand(op),
        },
    }
}

// The run of the current code from the machine's place on.
#[tactic(auto, unfolding(mechanism::specs::Advance::advance, mechanism::specs::Advance::after_steps))]
pub fn advance(
    stack: &mut [u64; 1000],
    memory: &mut [u8],
    pool: &mut [u8],
    ends: &mut [u32; 1024],
    machine: Machine,
    fuel: u64,
) -> Progress
    ensures { progress_on result stack.new memory.new pool.new ends.new ≡ advance stack.old memory.old pool.old ends.old machine fuel }
{
    let code = code_of(pool, ends, machine);
    let stepped = steps(
        stack,
        memory,
        code,
        registers_of(machine),
        machine.count,
        fuel,
    );
    let halt = stepped.halt;
    let op = get_or(code, stepped.registers.place, 0);
    let after = settled(machine, stepped.registers);
    halted_at(after, op, stepped.left, halt)
}
