// CALL and END_CALL: a task's frame is entered and left.
ghost use Rattle.std.specs.Prelude.{◌≡◌};
ghost use Rattle.mechanism.specs.Frames.{enter, op_call, op_end_call};

use errors::Refusal;
use inlinevec::Frame;
use machine::Machine;
use mechanism::machines::{registers_of, settled};
use mechanism::stack::moved;
use pools::InstructionsRef;
use storage::Task;

// A task's instructions begin, where there are any.
#[tactic(auto, unfolding(mechanism::specs::Frames::enter, mechanism::specs::Frames::enter_bounded, mechanism::specs::Frames::framed))]
fn enter(ends: &[u32; 1024], caller: Machine, entry: InstructionsRef) -> Result<Machine, Refusal>
    ensures { result ≡ enter ends.now caller entry }
{
    let (start, end) = pools::bounds(ends, caller.entries, entry)?;
    if end <= start {
        return Ok(caller);
    }
    let mut entered = caller;
    entered.frames = caller.frames.push(Frame { entry, place: 0 })?;
    Ok(entered)
}

// CALL: the id is on top; the task of its slot is given.
#[tactic(auto, unfolding(mechanism::specs::Frames::op_call, mechanism::specs::Frames::call_popped))]
pub fn op_call(
    stack: &[u64; 1000],
    ends: &[u32; 1024],
    machine: Machine,
    next: usize,
    task: Task,
) -> Result<Machine, Refusal>
    ensures { result ≡ op_call stack.now ends.now machine next task }
{
    let (_, height) = inlinevec::pop(stack, machine.height)?;
    let registers = registers_of(machine);
    let caller = settled(machine, moved(registers, next, height));
    if task.living {
        return enter(ends, caller, task.instructions_ref);
    }
    Ok(caller)
}

// END_CALL.
#[tactic(auto, unfolding(mechanism::specs::Frames::op_end_call, mechanism::specs::Frames::left_frame))]
pub fn op_end_call(machine: Machine, next: usize) -> Result<Machine, Refusal>
    ensures { result ≡ op_end_call machine next }
{
    if machine.frames.count <= 1 {
        let registers = registers_of(machine);
        return Ok(settled(machine, moved(registers, next, machine.height)));
    }
    let (_, frames) = machine.frames.pop()?;
    let mut caller = machine;
    caller.frames = frames;
    Ok(caller)
}
