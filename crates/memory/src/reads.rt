// Parts of the memory in use: whether a vector lies in it, and the part that it points at.
ghost use Rattle.std.specs.Prelude.{◌≡◌, ◌+◌, nat_le};
ghost use Rattle.memory.specs.Reads.{get_slice_bytes};

use values::FatPointer;

// Whether a vector lies in a memory of so many bytes.
pub(crate) fn lies_in(length: usize, pointer: FatPointer) -> bool
    ensures { result ≡ nat_le (pointer.offset + pointer.size) length }
{
    pointer.offset as usize + pointer.size as usize <= length
}

// The part of memory that a vector points at, as far as it lies in use.
pub fn get_slice_bytes<'a>(memory: &'a [u8], pointer: FatPointer) -> &'a [u8]
    ensures { result.now ≡ get_slice_bytes memory.now pointer }
{
    slices::part(memory, pointer.offset as usize, pointer.size as usize)
}
