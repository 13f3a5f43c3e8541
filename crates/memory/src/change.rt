// Change of one element of a vector in the memory in use: M_MUTA.
ghost use Rattle.std.specs.Prelude.{◌≡◌, ◌+◌, ◌≤◌, ◌⊎◌, length, Ok};
ghost use Rattle.std.proofs.lemmas.List.Edits.{sets};
ghost use Rattle.slices.specs.Numbers.{little_endian};
ghost use Rattle.memory.specs.Change.{element_size_bytes, scaled, changed, mut_vec, after_change};

use crate::ElementIndex;
use crate::reads::lies_in;
use crate::tested_reads::outside;
use errors::Refusal;
use values::{FatPointer, TAG_STRING, TAG_U32};

// How many bytes an element has.
#[tactic(auto, unfolding(crate::specs::Change::element_size_bytes))]
fn element_size_bytes(tag: u64) -> Result<u32, Refusal>
    ensures { result ≡ element_size_bytes tag }
{
    match tag {
        TAG_STRING => Ok(1),
        TAG_U32 => Ok(4),
        _ => Err(Refusal::InvalidType),
    }
}

// Index times element size by wrapping additions of the index.
#[tactic(auto, using(crate::proofs::Scaled::none, crate::proofs::Scaled::more))]
fn scaled(index: ElementIndex, width: u32) -> u32
    ensures { result ≡ scaled index.0 width }
{
    let mut sum: u32 = 0;
    for _ in 0..width {
        sum = sum.wrapping_add(index.0);
    }
    sum
}

// The four bytes of a number, the lowest first.
#[tactic(auto, using(crate::proofs::Elements::four_bytes))]
fn put_u32(memory: &mut [u8], at: usize, number: u32)
    requires { at + 4 ≤ length memory.old }
    ensures { memory.new ≡ sets memory.old at (little_endian 4 number) }
{
    memory[at..at + 4].copy_from_slice(&number.to_le_bytes());
}

// The low byte of a number.
#[tactic(auto, unfolding(slices::specs::Numbers::little_endian))]
fn put_u8(memory: &mut [u8], at: usize, number: u32)
    requires { at + 1 ≤ length memory.old }
    ensures { memory.new ≡ sets memory.old at (little_endian 1 number) }
{
    memory[at] = (number % 256) as u8;
}

// The element of this width at an index, where the vector has it and lies in memory.
#[tactic(auto, unfolding(crate::specs::Change::changed, crate::specs::Change::inside), using(crate::proofs::Elements::element_inside))]
fn change_element(
    memory: &mut [u8],
    pointer: FatPointer,
    index: ElementIndex,
    payload: u32,
    width: u32,
) -> Result<(), Refusal>
    requires { (width ≡ 1) ⊎ (width ≡ 4) }
    ensures { after_change result memory.new ≡ changed memory.old pointer index.0 payload (Ok width) }
{
    let size = pointer.size as u32;
    if size / width <= index.0 {
        return Err(Refusal::MSliceOutOfBounds {
            index: scaled(index, width),
            size,
        });
    }
    if !lies_in(memory.len(), pointer) {
        return Err(outside(pointer));
    }
    let at = pointer.offset as usize + index.0 as usize * width as usize;
    if width == 1 {
        put_u8(memory, at, payload);
    } else {
        put_u32(memory, at, payload);
    }
    Ok(())
}

// M_MUTA on the memory in use.
#[tactic(auto, unfolding(crate::specs::Change::mut_vec, crate::specs::Change::changed), using(crate::proofs::Elements::one_or_four))]
pub fn mut_vec(
    memory: &mut [u8],
    pointer: FatPointer,
    index: ElementIndex,
    payload: u32,
    tag: u64,
) -> Result<(), Refusal>
    ensures { after_change result memory.new ≡ mut_vec memory.old pointer index.0 payload tag }
{
    let width = element_size_bytes(tag)?;
    change_element(memory, pointer, index, payload, width)
}
