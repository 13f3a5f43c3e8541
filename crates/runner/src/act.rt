// One instruction that needs a task, a frame or the pool, on the record of the slot it names.
ghost use Rattle.std.specs.Prelude.{◌≡◌, ◌<◌, ◌≤◌, length, slice_index};
ghost use Rattle.pools.specs.Pool.{pooled, start_of};
ghost use Rattle.mechanism.specs.Frames.{intern_calldata, with_entry, on_pool, push_calldata};
ghost use Rattle.bytecode.specs.Operands.{extent};
ghost use Rattle.mechanism.specs.Act.{keeping, settled_by, created, tasked_by, created_by, bare, on_all, on_frames, on_task, cut, act};

use bytecode::extents::extent;
use bytecode::opcodes::{
    CALL, END_CALL, PUSH_CALLDATA, T_CREATE, T_DELETE, T_GET_FIELD, T_SET_FIELD,
};
use bytecode::operands::prepare_u16_from_be_checked;
use errors::Refusal;
use machine::Machine;
use mechanism::machines::{code_of, current, registers_of, settled};
use mechanism::stack::moved;
use mechanism::{Change, Registers};
use pools::InstructionsRef;
use slices::get_or;
use stepper::entering::{op_call, op_end_call};
use storage::{Task, TaskId};
use task_opcodes::t_create::op_t_create;
use task_opcodes::t_delete::op_t_delete;
use task_opcodes::t_fields::{op_t_get_field, op_t_set_field};

// Where an entry starts in the pool.
#[tactic(auto, unfolding(pools::specs::Pool::start_of, pools::specs::Pool::end_of), using(pools::proofs::Ends::start_after))]
fn start_of(ends: &[u32], entry: InstructionsRef) -> u32
    ensures { result ≡ start_of ends.now entry.0 }
{
    if entry.0 == 0 {
        return 0;
    }
    let before = (entry.0 - 1) as usize;
    get_or(ends, before, 0)
}

// PUSH_CALLDATA's data as one more entry of the pool.
#[tactic(auto, unfolding(mechanism::specs::Frames::intern_calldata, mechanism::specs::Frames::intern_sized))]
fn intern_calldata(
    pool: &mut [u8],
    ends: &mut [u32; 1024],
    machine: Machine,
    place: usize,
) -> Result<(InstructionsRef, usize), Refusal>
    requires { place ≤ 9223372036854775808 }
    ensures { pooled result pool.new ends.new ≡ intern_calldata pool.old ends.old machine place }
{
    let frame = current(machine.frames);
    let start = start_of(ends, frame.entry) as usize;
    let code = code_of(pool, ends, machine);
    let size = prepare_u16_from_be_checked(code, place + 1)?;
    pools::interning::intern_part(
        pool,
        ends,
        machine.pool,
        machine.entries,
        start + place + 3,
        size as usize,
    )
}

// The machine with one more entry, its reference on top of the stack.
#[tactic(auto, unfolding(mechanism::specs::Frames::with_entry))]
fn with_entry(machine: Machine, next: usize, entry: InstructionsRef, bytes: usize) -> Machine
    requires { machine.height < 1000 }
    ensures { result ≡ with_entry machine next entry bytes }
{
    let registers = registers_of(machine);
    let mut after = settled(machine, moved(registers, next, machine.height + 1));
    after.pool = bytes;
    after.entries = entry.0 as usize + 1;
    after
}

// PUSH_CALLDATA.
#[tactic(auto, unfolding(mechanism::specs::Frames::push_calldata, mechanism::specs::Frames::calldata_pushed))]
fn push_calldata(
    stack: &mut [u64; 1000],
    pool: &mut [u8],
    ends: &mut [u32; 1024],
    machine: Machine,
    place: usize,
    next: usize,
) -> Result<Machine, Refusal>
    requires { place ≤ 9223372036854775808 }
    ensures { on_pool result stack.new pool.new ends.new ≡ push_calldata stack.old pool.old ends.old machine place next }
{
    let height = machine.height;
    if 1000 <= height {
        return Err(Refusal::StackOverflow);
    }
    let (entry, bytes) = intern_calldata(pool, ends, machine, place)?;
    stack[height] = values::boxing::to_calldata_val(entry);
    Ok(with_entry(machine, next, entry, bytes))
}

// The machine after an instruction's registers.
#[tactic(auto, unfolding(mechanism::specs::Act::settled_by))]
fn settled_by(machine: Machine, res: Result<Registers, Refusal>) -> Result<Machine, Refusal>
    ensures { result ≡ settled_by machine res }
{
    let registers = res?;
    Ok(settled(machine, registers))
}

// An answer that changes no slot.
#[tactic(auto, unfolding(mechanism::specs::Act::keeping))]
fn keeping(res: Result<Machine, Refusal>) -> Result<(Machine, Change), Refusal>
    ensures { result ≡ keeping res }
{
    let machine = res?;
    Ok((machine, Change::Keep))
}

// After T_CREATE there is one more id.
#[tactic(auto, unfolding(mechanism::specs::Act::created))]
fn created(machine: Machine, registers: Registers) -> Machine
    ensures { result ≡ created machine registers }
{
    let mut after = settled(machine, registers);
    after.next_id = TaskId(machine.next_id.0.wrapping_add(1));
    after.count = storage::ids::len_after(machine.count, machine.next_id);
    after
}

// The machine after an instruction on a task.
#[tactic(auto, unfolding(mechanism::specs::Act::tasked_by))]
fn tasked_by(
    machine: Machine,
    tasked: Result<(Registers, Change), Refusal>,
) -> Result<(Machine, Change), Refusal>
    ensures { result ≡ tasked_by machine tasked }
{
    let (registers, change) = tasked?;
    Ok((settled(machine, registers), change))
}

// After T_CREATE.
#[tactic(auto, unfolding(mechanism::specs::Act::created_by))]
fn created_by(
    machine: Machine,
    tasked: Result<(Registers, Change), Refusal>,
) -> Result<(Machine, Change), Refusal>
    ensures { result ≡ created_by machine tasked }
{
    let (registers, change) = tasked?;
    Ok((created(machine, registers), change))
}

// The opcodes that change a slot; any other does nothing.
#[tactic(auto, unfolding(mechanism::specs::Act::on_task))]
fn on_task(
    stack: &[u64; 1000],
    memory: &[u8],
    machine: Machine,
    task: Task,
    op: u8,
    next: usize,
) -> Result<(Machine, Change), Refusal>
    ensures { result ≡ on_task stack.now memory.now machine task op next }
{
    let registers = registers_of(machine);
    match op {
        T_CREATE => created_by(
            machine,
            op_t_create(stack, memory, registers, next, machine.next_id),
        ),
        T_SET_FIELD => tasked_by(
            machine,
            op_t_set_field(stack, memory, registers, next, task),
        ),
        T_DELETE => tasked_by(machine, op_t_delete(stack, registers, next, task)),
        _ => Ok((
            settled(machine, moved(registers, next, machine.height)),
            Change::Keep,
        )),
    }
}

// The opcodes that leave the table.
#[tactic(auto, unfolding(mechanism::specs::Act::on_frames))]
fn on_frames(
    stack: &mut [u64; 1000],
    memory: &mut [u8],
    pool: &mut [u8],
    ends: &mut [u32; 1024],
    machine: Machine,
    task: Task,
    op: u8,
    place: usize,
    next: usize,
) -> Result<(Machine, Change), Refusal>
    requires { place ≤ 9223372036854775808 }
    ensures { on_all result stack.new memory.new pool.new ends.new ≡ on_frames stack.old memory.old pool.old ends.old machine task op place next }
{
    match op {
        PUSH_CALLDATA => keeping(push_calldata(stack, pool, ends, machine, place, next)),
        T_GET_FIELD => {
            let result = op_t_get_field(stack, memory, registers_of(machine), next, task);
            keeping(settled_by(machine, result))
        }
        CALL => keeping(op_call(stack, ends, machine, next, task)),
        END_CALL => keeping(op_end_call(machine, next)),
        _ => on_task(stack, memory, machine, task, op, next),
    }
}

// Whether an opcode of this file has no operands.
#[tactic(auto, unfolding(mechanism::specs::Act::bare))]
fn bare(op: u8) -> bool
    ensures { result ≡ bare op }
{
    matches!(
        op,
        T_CREATE | T_GET_FIELD | T_SET_FIELD | T_DELETE | CALL | END_CALL
    )
}

// How far the instruction at a place reaches: most have no operands.
#[tactic(auto, using(crate::proofs::Extents::bare_extent))]
fn reach(code: &[u8], place: usize, op: u8) -> Option<usize>
    requires { (place < length code.now) × (op ≡ slice_index code.now place) }
    ensures { result ≡ extent code.now place }
{
    if bare(op) {
        return Some(place + 1);
    }
    extent(code, place)
}

// An instruction that the code's end cuts.
fn cut() -> Result<(Machine, Change), Refusal>
    ensures { result ≡ cut }
{
    Err(Refusal::UnexpectedEOB)
}

// The instruction at hand, which cannot save.
#[tactic(auto, unfolding(mechanism::specs::Act::act, mechanism::specs::Act::act_at, mechanism::specs::Act::act_by))]
pub(crate) fn act(
    stack: &mut [u64; 1000],
    memory: &mut [u8],
    pool: &mut [u8],
    ends: &mut [u32; 1024],
    machine: Machine,
    task: Task,
) -> Result<(Machine, Change), Refusal>
    ensures { on_all result stack.new memory.new pool.new ends.new ≡ act stack.old memory.old pool.old ends.old machine task }
{
    let place = current(machine.frames).place;
    let code = code_of(pool, ends, machine);
    if code.len() <= place {
        return cut();
    }
    let op = get_or(code, place, 0);
    let Some(next) = reach(code, place, op) else {
        return cut();
    };
    on_frames(stack, memory, pool, ends, machine, task, op, place, next)
}
