// Allocation: where a vector starts, and its bytes written behind the length in use.
ghost use Rattle.std.specs.Prelude.{◌≡◌, ◌<◌, ◌≤◌, length};
ghost use Rattle.std.proofs.lemmas.List.Edits.{sets};
ghost use Rattle.memory.specs.Allocation.{offset_aligned, is_element_tag, vector, filling, alloc, after_allocation};

use errors::Refusal;

// Where a vector of this tag starts.
#[tactic(auto, unfolding(crate::specs::Allocation::offset_aligned))]
fn offset_aligned(used: usize, tag: u8) -> usize
    requires { used < 33554432 }
    ensures { result ≡ offset_aligned used tag }
{
    if tag == 6 {
        return (used + 3) / 4 * 4;
    }
    used
}

// Whether vectors have this tag: 4 for a text, 6 for numbers.
#[tactic(auto, unfolding(crate::specs::Allocation::is_element_tag))]
fn is_element_tag(tag: u8) -> bool
    ensures { result ≡ is_element_tag tag }
{
    matches!(tag, 4 | 6)
}

// The box of the vector that an allocation makes: a tag other than 4 and 6 is refused, else an offset from 2^25 on.
#[tactic(auto, unfolding(crate::specs::Allocation::vector), using(crate::proofs::Placed::placed_past))]
pub fn vector(used: usize, size: u16, tag: u8) -> Result<u64, Refusal>
    ensures { result ≡ vector used size tag }
{
    if !is_element_tag(tag) {
        return Err(Refusal::InvalidType);
    }
    if 0x2000000 <= used {
        return Err(Refusal::MSliceParamOverflow);
    }
    values::boxing::to_vec_val(offset_aligned(used, tag), size, tag as u64)
}

// The payload at the head of a part, and zeros behind it up to the size.
#[tactic(auto, using(crate::proofs::Filling::filled_in_two))]
fn fill(part: &mut [u8], payload: &[u8], size: usize)
    requires { size ≤ length part.old }
    ensures { part.new ≡ sets part.old 0 (filling size payload.now) }
{
    let count = payload.len().min(size);
    slices::writes::write(part, &payload[..count], 0);
    slices::writes::clear(&mut part[count..size]);
}

// A new vector behind the length in use: padding, and then the tail of the memory is handed on to be filled.
#[tactic(auto, unfolding(crate::specs::Allocation::alloc, crate::specs::Allocation::vector_stored), using(crate::proofs::Placed::aligned_above, crate::proofs::Placed::placed_below, crate::proofs::Filling::stored_bytes))]
pub fn alloc(
    memory: &mut [u8],
    payload: &[u8],
    used: usize,
    size: u16,
    tag: u8,
) -> Result<(u64, usize), Refusal>
    ensures { after_allocation result memory.new ≡ alloc memory.old payload.now used size tag }
{
    let value = vector(used, size, tag)?;
    let offset = offset_aligned(used, tag);
    let end = offset + size as usize;
    if memory.len() < end {
        return Err(Refusal::MemoryTooShort);
    }
    slices::writes::clear(&mut memory[used..offset]);
    fill(&mut memory[offset..], payload, size as usize);
    Ok((value, end))
}
