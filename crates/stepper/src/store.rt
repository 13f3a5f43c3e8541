// M_ST: a new vector whose size is on the stack.
ghost use Rattle.std.specs.Prelude.{◌≡◌};
ghost use Rattle.mechanism.specs.Registers.{on_memory};
ghost use Rattle.mechanism.specs.Store.{op_m_st};

use errors::Refusal;
use mechanism::Registers;
use mechanism::store::store;

// M_ST, its operand being there: the size is on top.
#[tactic(auto, unfolding(mechanism::specs::Store::op_m_st, mechanism::specs::Store::sized))]
pub(crate) fn op_m_st(
    stack: &mut [u64; 1000],
    memory: &mut [u8],
    none: &[u8],
    registers: Registers,
    next: usize,
    tag: u8,
) -> Result<Registers, Refusal>
    ensures { on_memory result stack.new memory.new ≡ op_m_st stack.old memory.old none.now registers next tag }
{
    let (value, height) = inlinevec::pop(stack, registers.height)?;
    let size = values::to_u32(value);
    if 65535 < size {
        return Err(Refusal::MSliceParamOverflow);
    }
    store(
        stack,
        memory,
        none,
        registers,
        next,
        height,
        size as u16,
        tag,
    )
}
