// Opcodes that say which of two numbers is less: LT, GT.
ghost use Rattle.std.specs.Prelude.{◌≡◌};
ghost use Rattle.mechanism.specs.Registers.{on_stack};
ghost use Rattle.mechanism.specs.Stack.{op_compare};

use errors::Refusal;
use mechanism::Registers;
use mechanism::stack::{finish, pop_two};

// LT, and GT where is_lt is false: the right value is on top.
#[tactic(auto, unfolding(mechanism::specs::Stack::op_compare, mechanism::specs::Stack::on_two))]
pub(crate) fn op_compare(
    stack: &mut [u64; 1000],
    registers: Registers,
    next: usize,
    is_lt: bool,
) -> Result<Registers, Refusal>
    ensures { on_stack result stack.new ≡ op_compare stack.old registers next is_lt }
{
    let (right, left, height) = pop_two(stack, registers.height)?;
    finish(
        stack,
        registers,
        next,
        height,
        values::comparison::value_cmp(left, right, is_lt),
    )
}
