// The slot of the table that an instruction names.
ghost use Rattle.std.specs.Prelude.{◌≡◌};
ghost use Rattle.mechanism.specs.Advance.{named, wanted};

use bytecode::opcodes::{T_CREATE, T_GET_FIELD, T_SET_FIELD};
use machine::Machine;
use storage::TaskId;
use storage::ids::slot_of;

// The slot that a value names, with so many values on the stack below it; past the last slot where there is none.
#[tactic(auto, unfolding(mechanism::specs::Advance::named, mechanism::specs::Advance::named_by, storage::specs::Storage::slot_of))]
pub(crate) fn named(stack: &[u64; 1000], height: usize) -> usize
    ensures { result ≡ named stack.now height }
{
    match inlinevec::pop(stack, height) {
        Err(_) => 256,
        Ok((value, _)) => slot_of(TaskId(values::to_u32(value))),
    }
}

// The slot that an instruction names: the next one, that of the value below the field, that of the value on top.
#[tactic(auto, unfolding(mechanism::specs::Advance::wanted, storage::specs::Storage::slot_of))]
pub(crate) fn wanted(stack: &[u64; 1000], machine: Machine, op: u8) -> usize
    ensures { result ≡ wanted stack.now machine op }
{
    if op == T_CREATE {
        return slot_of(machine.next_id);
    }
    let height = machine.height;
    if height == 0 {
        return 256;
    }
    if op == T_GET_FIELD || op == T_SET_FIELD {
        return named(stack, height - 1);
    }
    named(stack, height)
}
