// Reads of vectors that are tested first: whether two are equal, and whether one can be read as a text or as numbers.
ghost use Rattle.std.specs.Prelude.{◌≡◌};
ghost use Rattle.memory.specs.Reads.{outside, is_m_slice_eq, get_slice_as_str, get_slice_as_u32};

use crate::reads::{get_slice_bytes, lies_in};
use errors::Refusal;
use values::FatPointer;

// The refusal of a vector that reaches past the memory in use.
pub(crate) fn outside(pointer: FatPointer) -> Refusal
    ensures { result ≡ outside pointer }
{
    Refusal::MSliceOutOfBounds {
        index: pointer.offset,
        size: pointer.size as u32,
    }
}

// EQ of two vectors.
#[tactic(auto, unfolding(crate::specs::Reads::is_m_slice_eq, crate::specs::Change::inside))]
pub fn is_m_slice_eq(memory: &[u8], left: FatPointer, right: FatPointer) -> Result<u64, Refusal>
    ensures { result ≡ is_m_slice_eq memory.now left right }
{
    if left.size != right.size {
        return Ok(values::boxing::to_bool_val(false));
    }
    if left.offset == right.offset {
        return Ok(values::boxing::to_bool_val(true));
    }
    if !lies_in(memory.len(), left) {
        return Err(outside(left));
    }
    if !lies_in(memory.len(), right) {
        return Err(outside(right));
    }
    let same = slices::same(
        get_slice_bytes(memory, left),
        get_slice_bytes(memory, right),
    );
    Ok(values::boxing::to_bool_val(same))
}

// Whether a vector can be read as a text.
#[tactic(auto, unfolding(crate::specs::Reads::get_slice_as_str, crate::specs::Change::inside))]
pub(crate) fn get_slice_as_str(memory: &[u8], pointer: FatPointer) -> Result<(), Refusal>
    ensures { result ≡ get_slice_as_str memory.now pointer }
{
    if !lies_in(memory.len(), pointer) {
        return Err(outside(pointer));
    }
    if !utf8::is_utf8(get_slice_bytes(memory, pointer)) {
        return Err(Refusal::BytesToStringConversionError);
    }
    Ok(())
}

// Whether a vector can be read as numbers.
#[tactic(auto, unfolding(crate::specs::Reads::get_slice_as_u32, crate::specs::Change::inside))]
pub(crate) fn get_slice_as_u32(memory: &[u8], pointer: FatPointer) -> Result<(), Refusal>
    ensures { result ≡ get_slice_as_u32 memory.now pointer }
{
    if !lies_in(memory.len(), pointer) {
        return Err(outside(pointer));
    }
    if pointer.size % 4 != 0 {
        return Err(Refusal::SliceSizeMismatch);
    }
    if pointer.offset % 4 != 0 {
        return Err(Refusal::AlignmentMismatch);
    }
    Ok(())
}
