// The opcode that goes on at another place if FALSE is on top: JUMP_IF_FALSE.
ghost use Rattle.std.specs.Prelude.{◌≡◌};
ghost use Rattle.mechanism.specs.Control.{op_jump_if_false};

use errors::Refusal;
use mechanism::Registers;
use mechanism::stack::moved;

// JUMP_IF_FALSE, its operand being there.
#[tactic(auto, unfolding(mechanism::specs::Control::op_jump_if_false, mechanism::specs::Control::jumped))]
pub(crate) fn op_jump_if_false(
    stack: &[u64; 1000],
    registers: Registers,
    next: usize,
    target: u32,
) -> Result<Registers, Refusal>
    ensures { result ≡ op_jump_if_false stack.now registers next target }
{
    let (value, height) = inlinevec::pop(stack, registers.height)?;
    if value == values::boxing::to_bool_val(false) {
        return Ok(moved(registers, target as usize, height));
    }
    Ok(moved(registers, next, height))
}
