// T_CREATE: the record of a new task, from its title, its state count and its instructions.
ghost use Rattle.std.specs.Prelude.{◌≡◌};
ghost use Rattle.mechanism.specs.Create.{new, titled, op_t_create};

use crate::titles::within;
use errors::Refusal;
use mechanism::stack::{moved, pop_two};
use mechanism::{Change, Registers};
use pools::InstructionsRef;
use storage::task_types::new_task;
use storage::{TaskId, TaskState};
use values::FatPointer;

// The new task, where its title lies in the memory in use and the table has room for it.
#[tactic(auto, unfolding(mechanism::specs::Create::new, mechanism::specs::Create::if_within, mechanism::specs::Create::with_room))]
fn new(
    memory: &[u8],
    after: Registers,
    pointer: FatPointer,
    id: TaskId,
    state: TaskState,
    instructions_ref: InstructionsRef,
) -> Result<(Registers, Change), Refusal>
    ensures { result ≡ new memory.now after pointer id state instructions_ref }
{
    within(memory, pointer)?;
    storage::ids::room(id, pointer.size as usize)?;
    let title = memory::reads::get_slice_bytes(memory, pointer);
    Ok((
        after,
        Change::Put(new_task(id, title, state, instructions_ref)),
    ))
}

// The title is popped last, and must be a vector.
#[tactic(auto, unfolding(mechanism::specs::Create::titled, mechanism::specs::Create::if_vector, mechanism::specs::Create::with_title))]
fn titled(
    stack: &[u64; 1000],
    memory: &[u8],
    before: Registers,
    id: TaskId,
    state: TaskState,
    instructions_ref: InstructionsRef,
) -> Result<(Registers, Change), Refusal>
    ensures { result ≡ titled stack.now memory.now before id state instructions_ref }
{
    let (value, height) = inlinevec::pop(stack, before.height)?;
    let pointer = values::to_fat_pointer(value)?;
    let used = slices::part(memory, 0, before.memory);
    let after = moved(before, before.place, height);
    new(used, after, pointer, id, state, instructions_ref)
}

// T_CREATE: the reference is on top, the state count below it, then the title.
#[tactic(auto, unfolding(mechanism::specs::Create::op_t_create, mechanism::specs::Create::with_state, mechanism::specs::Create::with_two))]
pub fn op_t_create(
    stack: &[u64; 1000],
    memory: &[u8],
    registers: Registers,
    next: usize,
    next_id: TaskId,
) -> Result<(Registers, Change), Refusal>
    ensures { result ≡ op_t_create stack.now memory.now registers next next_id.0 }
{
    let (reference, count, height) = pop_two(stack, registers.height)?;
    let state = storage::states::default_state((values::to_u32(count) % 256) as u8)?;
    let instructions_ref = InstructionsRef(values::to_u32(reference));
    titled(
        stack,
        memory,
        moved(registers, next, height),
        next_id,
        state,
        instructions_ref,
    )
}
