// T_GET_FIELD and T_SET_FIELD: field 0 is the title, 1 the state, 2 the instructions.
ghost use Rattle.std.specs.Prelude.{◌≡◌};
ghost use Rattle.mechanism.specs.Registers.{on_memory};
ghost use Rattle.mechanism.specs.Fields.{owner, field_of, get_field, op_t_get_field, set_title, set_state, set_instructions, set_field, op_t_set_field};

use crate::titles::{title_length, within};
use errors::Refusal;
use mechanism::stack::{moved, push_value};
use mechanism::store::store;
use mechanism::{Change, Registers};
use pools::InstructionsRef;
use storage::task_types::new_task;
use storage::{Task, TaskId};
use values::FatPointer;

// The task's id below the field, and whether the task of its slot is living.
#[tactic(auto, unfolding(mechanism::specs::Fields::owner, mechanism::specs::Fields::if_found, mechanism::specs::Fields::owner_popped))]
fn owner(
    stack: &[u64; 1000],
    height: usize,
    task: Task,
    field: u32,
) -> Result<(u32, usize), Refusal>
    ensures { result ≡ owner stack.now height task field }
{
    let (value, below) = inlinevec::pop(stack, height)?;
    storage::ids::find(task, TaskId(values::to_u32(value)))?;
    Ok((field, below))
}

// The field on top of the stack, and the task below it.
#[tactic(auto, unfolding(mechanism::specs::Fields::field_of, mechanism::specs::Fields::field_popped))]
fn field_of(stack: &[u64; 1000], height: usize, task: Task) -> Result<(u32, usize), Refusal>
    ensures { result ≡ field_of stack.now height task }
{
    let (value, below) = inlinevec::pop(stack, height)?;
    let field = values::to_u32(value);
    if 2 < field {
        return Err(Refusal::InvalidTaskField(field));
    }
    owner(stack, below, task, field)
}

// A field's value at a height of the stack: a title is a new text.
#[tactic(auto, unfolding(mechanism::specs::Fields::get_field, machine::specs::Titles::title_bytes))]
fn get_field(
    stack: &mut [u64; 1000],
    memory: &mut [u8],
    registers: Registers,
    next: usize,
    height: usize,
    field: u32,
    task: Task,
) -> Result<Registers, Refusal>
    ensures { on_memory result stack.new memory.new ≡ get_field stack.old memory.old registers next height field task }
{
    if field == 0 {
        let title = task.title;
        let length = title_length(task);
        let bytes = slices::part(&title, 0, length);
        let size = (length % 65536) as u16;
        return store(stack, memory, bytes, registers, next, height, size, 4);
    }
    if field == 1 {
        let state = values::boxing::to_u32_val(task.state.state as u32);
        return push_value(stack, registers, next, height, state);
    }
    let calldata = values::boxing::to_calldata_val(task.instructions_ref);
    push_value(stack, registers, next, height, calldata)
}

// T_GET_FIELD: the field is on top, the id below it; the task of its slot is given.
#[tactic(auto, unfolding(mechanism::specs::Fields::op_t_get_field, mechanism::specs::Fields::get_found))]
pub fn op_t_get_field(
    stack: &mut [u64; 1000],
    memory: &mut [u8],
    registers: Registers,
    next: usize,
    task: Task,
) -> Result<Registers, Refusal>
    ensures { on_memory result stack.new memory.new ≡ op_t_get_field stack.old memory.old registers next task }
{
    let (field, height) = field_of(stack, registers.height, task)?;
    get_field(stack, memory, registers, next, height, field, task)
}

// A title, where the vector lies in the memory in use and is not too long.
#[tactic(auto, unfolding(mechanism::specs::Fields::set_title, mechanism::specs::Fields::title_within))]
fn set_title(
    memory: &[u8],
    after: Registers,
    pointer: FatPointer,
    task: Task,
) -> Result<(Registers, Change), Refusal>
    ensures { result ≡ set_title memory.now after pointer task }
{
    within(memory, pointer)?;
    if 128 < pointer.size {
        return Err(Refusal::TitleTooLong);
    }
    let title = memory::reads::get_slice_bytes(memory, pointer);
    let titled = new_task(task.id, title, task.state, task.instructions_ref);
    Ok((after, Change::Put(titled)))
}

// A state, where the task has it.
#[tactic(auto, unfolding(mechanism::specs::Fields::set_state, mechanism::specs::Fields::state_answered))]
fn set_state(after: Registers, state: u32, task: Task) -> Result<(Registers, Change), Refusal>
    ensures { result ≡ set_state after state task }
{
    let stated = storage::states::with_state(task.state, state);
    stated.answer?;
    Ok((after, Change::Restate(state)))
}

// Instructions, which are not tested.
#[tactic(auto, unfolding(mechanism::specs::Fields::set_instructions))]
fn set_instructions(
    after: Registers,
    instructions_ref: InstructionsRef,
    task: Task,
) -> Result<(Registers, Change), Refusal>
    ensures { result ≡ set_instructions after instructions_ref task }
{
    let mut changed = task;
    changed.instructions_ref = instructions_ref;
    Ok((after, Change::Put(changed)))
}

// A field's new value.
#[tactic(auto, unfolding(mechanism::specs::Fields::set_field, mechanism::specs::Fields::title_vector))]
fn set_field(
    memory: &[u8],
    after: Registers,
    field: u32,
    value: u64,
    task: Task,
) -> Result<(Registers, Change), Refusal>
    ensures { result ≡ set_field memory.now after field value task }
{
    if field == 0 {
        let pointer = values::to_fat_pointer(value)?;
        return set_title(memory, after, pointer, task);
    }
    if field == 1 {
        return set_state(after, values::to_u32(value), task);
    }
    set_instructions(after, InstructionsRef(values::to_u32(value)), task)
}

// T_SET_FIELD: the field is on top, the id below it, then the value; the task of its slot is given.
#[tactic(auto, unfolding(mechanism::specs::Fields::op_t_set_field, mechanism::specs::Fields::set_found, mechanism::specs::Fields::set_popped))]
pub fn op_t_set_field(
    stack: &[u64; 1000],
    memory: &[u8],
    registers: Registers,
    next: usize,
    task: Task,
) -> Result<(Registers, Change), Refusal>
    ensures { result ≡ op_t_set_field stack.now memory.now registers next task }
{
    let (field, height) = field_of(stack, registers.height, task)?;
    let (value, below) = inlinevec::pop(stack, height)?;
    let used = slices::part(memory, 0, registers.memory);
    set_field(used, moved(registers, next, below), field, value, task)
}
