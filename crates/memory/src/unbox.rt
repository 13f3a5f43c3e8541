// Reads of a value: its kind, and beside it the part of memory or of the pool that it stands for, never a copy.
ghost use Rattle.std.specs.Prelude.{◌≡◌};
ghost use Rattle.memory.specs.Unbox.{unbox_text, unbox_numbers, unbox_calldata, unbox_value, part_of};

use crate::reads::get_slice_bytes;
use crate::tested_reads::{get_slice_as_str, get_slice_as_u32};
use errors::Refusal;
use pools::InstructionsRef;
use values::{FatPointer, ValueType};

// What a value is read as; a kind that has a part says where it lies.
#[derive(Clone, Copy)]
pub enum Return {
    U32(u32),
    Boolean(bool),
    String(FatPointer),
    CallData(InstructionsRef),
    VecU32(FatPointer),
    Null,
}

// A text, if it can be read.
#[tactic(auto, unfolding(crate::specs::Unbox::text_at, crate::specs::Unbox::where_readable))]
fn unbox_text(memory: &[u8], value: u64) -> Result<Return, Refusal>
    ensures { result ≡ unbox_text memory.now value }
{
    let pointer = values::to_fat_pointer(value)?;
    get_slice_as_str(memory, pointer)?;
    Ok(Return::String(pointer))
}

// Numbers, if they can be read.
#[tactic(auto, unfolding(crate::specs::Unbox::numbers_at, crate::specs::Unbox::where_readable))]
fn unbox_numbers(memory: &[u8], value: u64) -> Result<Return, Refusal>
    ensures { result ≡ unbox_numbers memory.now value }
{
    let pointer = values::to_fat_pointer(value)?;
    get_slice_as_u32(memory, pointer)?;
    Ok(Return::VecU32(pointer))
}

// Calldata, if the pool has its entry.
#[tactic(auto, unfolding(crate::specs::Unbox::where_bounded))]
fn unbox_calldata(ends: &[u32; 1024], entries: usize, value: u64) -> Result<Return, Refusal>
    ensures { result ≡ unbox_calldata ends.now entries value }
{
    let entry = InstructionsRef(values::to_u32(value));
    pools::bounds(ends, entries, entry)?;
    Ok(Return::CallData(entry))
}

// What a value is read as, by its type, over the memory in use and the pool.
#[tactic(auto, unfolding(crate::specs::Unbox::unbox_value, crate::specs::Unbox::by_type))]
pub fn unbox_value(
    memory: &[u8],
    ends: &[u32; 1024],
    entries: usize,
    value: u64,
) -> Result<Return, Refusal>
    ensures { result ≡ unbox_value memory.now ends.now entries value }
{
    match values::kinds::get_value_type(value) {
        Some(ValueType::U32) => Ok(Return::U32(values::to_u32(value))),
        Some(ValueType::String) => unbox_text(memory, value),
        Some(ValueType::CallData) => unbox_calldata(ends, entries, value),
        Some(ValueType::Boolean) => Ok(Return::Boolean(value == values::boxing::to_bool_val(true))),
        Some(ValueType::VecU32) => unbox_numbers(memory, value),
        Some(ValueType::Null) => Ok(Return::Null),
        None => Err(Refusal::InvalidType),
    }
}

// The part of memory or of the pool beside a kind; nothing beside a kind that has none.
#[tactic(auto, unfolding(crate::specs::Unbox::part_of))]
pub fn part_of<'a>(
    memory: &'a [u8],
    pool: &'a [u8],
    ends: &[u32; 1024],
    kind: Result<Return, Refusal>,
) -> &'a [u8]
    ensures { result.now ≡ part_of memory.now pool.now ends.now kind }
{
    match kind {
        Ok(Return::String(pointer) | Return::VecU32(pointer)) => get_slice_bytes(memory, pointer),
        Ok(Return::CallData(entry)) => pools::get(pool, ends, entry),
        Ok(Return::U32(_) | Return::Boolean(_) | Return::Null) | Err(_) => &[],
    }
}
