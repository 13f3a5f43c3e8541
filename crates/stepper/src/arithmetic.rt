// Opcodes that multiply numbers: MUL, MULI.
ghost use Rattle.std.specs.Prelude.{◌≡◌};
ghost use Rattle.mechanism.specs.Registers.{on_stack};
ghost use Rattle.mechanism.specs.Stack.{op_mul, op_muli};

use errors::Refusal;
use mechanism::Registers;
use mechanism::stack::{finish, pop_two};

// MUL.
#[tactic(auto, unfolding(mechanism::specs::Stack::op_mul, mechanism::specs::Stack::on_two))]
pub(crate) fn op_mul(
    stack: &mut [u64; 1000],
    registers: Registers,
    next: usize,
) -> Result<Registers, Refusal>
    ensures { on_stack result stack.new ≡ op_mul stack.old registers next }
{
    let (first, second, height) = pop_two(stack, registers.height)?;
    finish(
        stack,
        registers,
        next,
        height,
        values::calculations::mul_checked(first, second),
    )
}

// MULI.
#[tactic(auto, unfolding(mechanism::specs::Stack::op_muli, mechanism::specs::Stack::on_one))]
pub(crate) fn op_muli(
    stack: &mut [u64; 1000],
    registers: Registers,
    next: usize,
    number: u32,
) -> Result<Registers, Refusal>
    ensures { on_stack result stack.new ≡ op_muli stack.old registers next number }
{
    let (value, height) = inlinevec::pop(stack, registers.height)?;
    finish(
        stack,
        registers,
        next,
        height,
        values::calculations::mul_checked_i(value, number),
    )
}
