// Opcodes over the stack alone that push nothing: SWAP, DROP.
ghost use Rattle.std.specs.Prelude.{◌≡◌};
ghost use Rattle.mechanism.specs.Registers.{on_stack};
ghost use Rattle.mechanism.specs.Stack.{op_swap, op_drop};

use errors::Refusal;
use mechanism::Registers;
use mechanism::stack::{moved, pop_two};

// SWAP.
#[tactic(auto, unfolding(mechanism::specs::Stack::op_swap, mechanism::specs::Stack::swapped), using(mechanism::proofs::Pops::popped_two))]
pub(crate) fn op_swap(
    stack: &mut [u64; 1000],
    registers: Registers,
    next: usize,
) -> Result<Registers, Refusal>
    ensures { on_stack result stack.new ≡ op_swap stack.old registers next }
{
    let (top, below, height) = pop_two(stack, registers.height)?;
    stack[height] = top;
    stack[height + 1] = below;
    Ok(moved(registers, next, registers.height))
}

// DROP.
#[tactic(auto, unfolding(mechanism::specs::Stack::op_drop, mechanism::specs::Stack::dropped))]
pub(crate) fn op_drop(
    stack: &[u64; 1000],
    registers: Registers,
    next: usize,
) -> Result<Registers, Refusal>
    ensures { result ≡ op_drop stack.now registers next }
{
    let (_, height) = inlinevec::pop(stack, registers.height)?;
    Ok(moved(registers, next, height))
}
