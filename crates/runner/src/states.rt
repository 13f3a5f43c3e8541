// T_GET_FIELD and T_SET_FIELD of a state, where nothing is refused: they need no title. Whatever else is left to those that have the whole record.
ghost use Rattle.std.specs.Prelude.{◌≡◌, ◌≤◌};
ghost use Rattle.storage.specs.Tasks.{after};
ghost use Rattle.runner.specs.States.{names_state, behind, got, gets, set_third, sets, stated};

use crate::progress::next_of;
use bytecode::opcodes::{T_GET_FIELD, T_SET_FIELD};
use machine::Machine;
use mechanism::Change;
use mechanism::machines::{registers_of, settled};
use mechanism::stack::moved;
use storage::Task;

// Whether the field on top of the stack is that of a state, with a value below it, and the task is there.
#[tactic(auto, unfolding(crate::specs::States::names_state))]
fn names_state(stack: &[u64; 1000], height: usize, task: Task) -> bool
    ensures { result ≡ names_state stack.now height task }
{
    2 <= height && height <= 1000 && task.living && values::to_u32(stack[height - 1]) == 1
}

// The machine behind the instruction, with another height.
fn behind(machine: Machine, height: usize) -> Machine
    ensures { result ≡ behind machine height }
{
    settled(
        machine,
        moved(registers_of(machine), next_of(machine), height),
    )
}

// The state is read.
#[tactic(auto, unfolding(crate::specs::States::got))]
fn got(stack: &mut [u64; 1000], machine: Machine, task: Task) -> Option<(Machine, Change)>
    requires { (2 ≤ machine.height) × (machine.height ≤ 1000) }
    ensures { after result stack.new ≡ got stack.old machine task }
{
    let height = machine.height;
    stack[height - 2] = values::boxing::to_u32_val(task.state.state as u32);
    Some((behind(machine, height - 1), Change::Keep))
}

// The state is read, if one is named.
#[tactic(auto, unfolding(crate::specs::States::gets), using(crate::proofs::Stating::named_low, crate::proofs::Stating::named_high))]
fn gets(stack: &mut [u64; 1000], machine: Machine, task: Task) -> Option<(Machine, Change)>
    ensures { after result stack.new ≡ gets stack.old machine task }
{
    if names_state(stack, machine.height, task) {
        return got(stack, machine, task);
    }
    None
}

// The state is set, if the task has it.
#[tactic(auto, unfolding(crate::specs::States::set_third, crate::specs::States::sets_to))]
fn set(stack: &[u64; 1000], machine: Machine, task: Task) -> Option<(Machine, Change)>
    requires { machine.height ≤ 1000 }
    ensures { result ≡ set_third stack.now machine task }
{
    let height = machine.height;
    if height < 3 {
        return None;
    }
    let state = values::to_u32(stack[height - 3]);
    if u32::from(task.state.len) <= state || 255 <= state {
        return None;
    }
    Some((behind(machine, height - 3), Change::Restate(state)))
}

// The state is set, if one is named.
#[tactic(auto, unfolding(crate::specs::States::sets), using(crate::proofs::Stating::named_high))]
fn sets(stack: &[u64; 1000], machine: Machine, task: Task) -> Option<(Machine, Change)>
    ensures { result ≡ sets stack.now machine task }
{
    if names_state(stack, machine.height, task) {
        return set(stack, machine, task);
    }
    None
}

// An instruction on the task of the slot that it names.
#[tactic(auto, unfolding(crate::specs::States::stated))]
pub(crate) fn stated(
    stack: &mut [u64; 1000],
    machine: Machine,
    op: u8,
    task: Task,
) -> Option<(Machine, Change)>
    ensures { after result stack.new ≡ stated stack.old machine op task }
{
    match op {
        T_GET_FIELD => gets(stack, machine, task),
        T_SET_FIELD => sets(stack, machine, task),
        _ => None,
    }
}
