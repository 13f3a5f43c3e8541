// A new vector and its value on the stack, as M_STI, M_ST and the title that T_GET_FIELD reads need it.
ghost use Rattle.std.specs.Prelude.{◌≡◌};
ghost use Rattle.mechanism.specs.Registers.{on_memory};
ghost use Rattle.mechanism.specs.Store.{full, store};

use crate::Registers;
use errors::Refusal;

// What an allocation on a full stack is refused with.
#[tactic(auto, unfolding(crate::specs::Store::full, crate::specs::Store::full_by))]
fn full(used: usize, size: u16, tag: u8) -> Refusal
    ensures { result ≡ full used size tag }
{
    match memory::allocation::vector(used, size, tag) {
        Err(refusal) => refusal,
        Ok(_) => Refusal::StackOverflow,
    }
}

// A new vector, and its value at a height of the stack.
#[tactic(auto, unfolding(crate::specs::Store::store, crate::specs::Store::placed))]
pub fn store(
    stack: &mut [u64; 1000],
    memory: &mut [u8],
    payload: &[u8],
    registers: Registers,
    next: usize,
    height: usize,
    size: u16,
    tag: u8,
) -> Result<Registers, Refusal>
    ensures { on_memory result stack.new memory.new ≡ store stack.old memory.old payload.now registers next height size tag }
{
    if 1000 <= height {
        return Err(full(registers.memory, size, tag));
    }
    let (value, used) = memory::allocation::alloc(memory, payload, registers.memory, size, tag)?;
    stack[height] = value;
    Ok(Registers {
        memory: used,
        place: next,
        height: height + 1,
        loops: registers.loops,
    })
}
