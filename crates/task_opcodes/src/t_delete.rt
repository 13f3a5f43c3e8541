// T_DELETE: the slot of a task becomes blank.
ghost use Rattle.std.specs.Prelude.{◌≡◌};
ghost use Rattle.mechanism.specs.Create.{op_t_delete};

use errors::Refusal;
use mechanism::stack::moved;
use mechanism::{Change, Registers};
use storage::task_types::blank;
use storage::{Task, TaskId};

// T_DELETE: the id is on top; the task of its slot is given.
#[tactic(auto, unfolding(mechanism::specs::Create::op_t_delete, mechanism::specs::Create::delete_found, mechanism::specs::Create::delete_popped))]
pub fn op_t_delete(
    stack: &[u64; 1000],
    registers: Registers,
    next: usize,
    task: Task,
) -> Result<(Registers, Change), Refusal>
    ensures { result ≡ op_t_delete stack.now registers next task }
{
    let (value, height) = inlinevec::pop(stack, registers.height)?;
    storage::ids::find(task, TaskId(values::to_u32(value)))?;
    Ok((moved(registers, next, height), Change::Put(blank())))
}
