// The opcode that changes an element of a vector: M_MUTA.
ghost use Rattle.std.specs.Prelude.{◌≡◌};
ghost use Rattle.mechanism.specs.Store.{changed_in, mut_in_use, changed_to, mutate, op_m_muta};

use errors::Refusal;
use mechanism::Registers;
use mechanism::stack::{moved, pop_two};
use memory::ElementIndex;
use values::FatPointer;

// An element of a vector changed in the memory in use.
#[tactic(auto, unfolding(mechanism::specs::Store::mut_in_use))]
fn mut_in_use(
    memory: &mut [u8],
    used: usize,
    pointer: FatPointer,
    index: ElementIndex,
    payload: u32,
    tag: u64,
) -> Result<(), Refusal>
    ensures { changed_in result memory.new ≡ mut_in_use memory.old used pointer index payload tag }
{
    let length = memory.len();
    if length <= used {
        return memory::change::mut_vec(memory, pointer, index, payload, tag);
    }
    memory::change::mut_vec(&mut memory[..used], pointer, index, payload, tag)
}

// M_MUTA on a vector: the value on top, the element's index below it, the vector stays.
#[tactic(auto, unfolding(mechanism::specs::Store::mutate, mechanism::specs::Store::mutate_at, mechanism::specs::Store::mutated))]
fn mutate(
    memory: &mut [u8],
    registers: Registers,
    next: usize,
    height: usize,
    vector: u64,
    index: ElementIndex,
    payload: u32,
) -> Result<Registers, Refusal>
    ensures { changed_to result memory.new ≡ mutate memory.old registers next height vector index payload }
{
    let pointer = values::to_fat_pointer(vector)?;
    mut_in_use(
        memory,
        registers.memory,
        pointer,
        index,
        payload,
        values::raw_tag(vector),
    )?;
    Ok(moved(registers, next, height))
}

// M_MUTA.
#[tactic(auto, unfolding(mechanism::specs::Store::op_m_muta, mechanism::specs::Store::mutate_two, mechanism::specs::Store::mutate_last))]
pub(crate) fn op_m_muta(
    stack: &[u64; 1000],
    memory: &mut [u8],
    registers: Registers,
    next: usize,
) -> Result<Registers, Refusal>
    ensures { changed_to result memory.new ≡ op_m_muta stack.now memory.old registers next }
{
    let (payload, index, height) = pop_two(stack, registers.height)?;
    let vector = inlinevec::last(stack, height)?;
    let element = ElementIndex(values::to_u32(index));
    mutate(
        memory,
        registers,
        next,
        height,
        vector,
        element,
        values::to_u32(payload),
    )
}
