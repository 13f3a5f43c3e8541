// What an instruction that needs a task, a frame or the pool makes of a machine on its way: one unit of fuel less, or a refusal.
ghost use Rattle.std.specs.Prelude.{◌≡◌};
ghost use Rattle.storage.specs.Tasks.{after};
ghost use Rattle.mechanism.specs.Turns.{going_on, spent, turned};
ghost use Rattle.runner.specs.Behind.{next_of, save_answered, saved};
ghost use Rattle.runner.specs.Going.{returned, called};

use errors::Refusal;
use machine::{Machine, Outcome};
use mechanism::machines::{current, registers_of, settled};
use mechanism::stack::moved;
use mechanism::{Progress, Standing};
use storage::Task;

// A run that goes on, as at its beginning.
pub(crate) fn going_on(machine: Machine, left: u64) -> Progress
    ensures { result ≡ going_on machine left }
{
    Progress {
        machine,
        left,
        standing: Standing::Going,
    }
}

// The fuel after one instruction.
fn spent(left: u64) -> u64
    ensures { result ≡ spent left }
{
    left.saturating_sub(1)
}

// After an instruction: the run goes on, or is refused, the machine as before it.
#[tactic(auto, unfolding(mechanism::specs::Turns::turned))]
pub(crate) fn turned(machine: Machine, left: u64, res: Result<Machine, Refusal>) -> Progress
    ensures { result ≡ turned machine left res }
{
    match res {
        Ok(after) => going_on(after, spent(left)),
        Err(refusal) => Progress {
            machine,
            left,
            standing: Standing::Ended(Outcome::Refused(refusal)),
        },
    }
}

// The place behind an instruction without operands.
#[tactic(auto, unfolding(crate::specs::Behind::next_of))]
pub(crate) fn next_of(machine: Machine) -> usize
    ensures { result ≡ next_of machine }
{
    current(machine.frames).place.wrapping_add(1)
}

// After END_CALL, which needs no slot.
#[tactic(auto, unfolding(crate::specs::Going::returned))]
pub(crate) fn returned(machine: Machine, left: u64) -> Progress
    ensures { result ≡ returned machine left }
{
    let result = stepper::entering::op_end_call(machine, next_of(machine));
    turned(machine, left, result)
}

// After CALL, which changes no slot.
#[tactic(auto, unfolding(crate::specs::Going::called))]
pub(crate) fn called(
    stack: &mut [u64; 1000],
    ends: &mut [u32; 1024],
    machine: Machine,
    left: u64,
    task: Task,
) -> Progress
    ensures { after (after result stack.new) ends.new ≡ after (after (called stack.old ends.old machine left task) stack.old) ends.old }
{
    let result = stepper::entering::op_call(stack, ends, machine, next_of(machine), task);
    turned(machine, left, result)
}

// What S_SAVE answers: the length of the image is kept.
#[tactic(auto, unfolding(crate::specs::Behind::save_answered))]
fn save_answered(machine: Machine, res: Result<usize, Refusal>) -> Result<Machine, Refusal>
    ensures { result ≡ save_answered machine res }
{
    let length = res?;
    let registers = registers_of(machine);
    let next = next_of(machine);
    let mut after = settled(machine, moved(registers, next, machine.height));
    after.saved = length;
    Ok(after)
}

// After S_SAVE.
#[tactic(auto, unfolding(crate::specs::Behind::saved))]
pub(crate) fn saved(machine: Machine, left: u64, res: Result<usize, Refusal>) -> Progress
    ensures { result ≡ saved machine left res }
{
    turned(machine, left, save_answered(machine, res))
}
