// Opcodes that push a number, or the value on top once more: pushes, DUP.
ghost use Rattle.std.specs.Prelude.{◌≡◌};
ghost use Rattle.mechanism.specs.Registers.{on_stack};
ghost use Rattle.mechanism.specs.Stack.{op_push, op_dup};

use errors::Refusal;
use mechanism::Registers;
use mechanism::stack::push_value;

// PUSH_U32, PUSH_STATE, PUSH_MAX_STATES, PUSH_TASK_FIELD, S_LEN: a number.
#[tactic(auto, unfolding(mechanism::specs::Stack::op_push))]
pub(crate) fn op_push(
    stack: &mut [u64; 1000],
    registers: Registers,
    next: usize,
    number: u32,
) -> Result<Registers, Refusal>
    ensures { on_stack result stack.new ≡ op_push stack.old registers next number }
{
    push_value(
        stack,
        registers,
        next,
        registers.height,
        values::boxing::to_u32_val(number),
    )
}

// DUP.
#[tactic(auto, unfolding(mechanism::specs::Stack::op_dup, mechanism::specs::Stack::dup_last))]
pub(crate) fn op_dup(
    stack: &mut [u64; 1000],
    registers: Registers,
    next: usize,
) -> Result<Registers, Refusal>
    ensures { on_stack result stack.new ≡ op_dup stack.old registers next }
{
    let value = inlinevec::last(stack, registers.height)?;
    push_value(stack, registers, next, registers.height, value)
}
