// What makes a box: of a vector, of a number, of a reference to an entry of the pool, of a bool.
ghost use Rattle.std.specs.Prelude.{◌≡◌};
ghost use Rattle.values.specs.Values.{to_vec_val, to_u32_val, to_calldata_val, to_bool_val};

use crate::{
    OFFSET_WIDTH, TAG_CALLDATA, TAG_FALSE, TAG_TRUE, TAG_U32, make_scalar_tagged, make_vec_tagged,
};
use errors::Refusal;
use pools::InstructionsRef;

// The box of a vector, whose offset must fit its field.
#[tactic(auto, unfolding(crate::specs::Values::to_vec_val))]
pub fn to_vec_val(offset: usize, size: u16, tag: u64) -> Result<u64, Refusal>
    ensures { result ≡ to_vec_val offset size tag }
{
    if (offset as u64) < OFFSET_WIDTH {
        return Ok(make_vec_tagged(offset as u32, size, tag));
    }
    Err(Refusal::MSliceParamOverflow)
}

// The box of a number.
pub fn to_u32_val(number: u32) -> u64
    ensures { result ≡ to_u32_val number }
{
    make_scalar_tagged(TAG_U32, number)
}

// The box of a reference to an entry of the pool.
pub fn to_calldata_val(reference: InstructionsRef) -> u64
    ensures { result ≡ to_calldata_val reference.0 }
{
    make_scalar_tagged(TAG_CALLDATA, reference.0)
}

// TRUE or FALSE.
#[tactic(auto, unfolding(crate::specs::Values::to_bool_val))]
pub fn to_bool_val(b: bool) -> u64
    ensures { result ≡ to_bool_val b }
{
    make_scalar_tagged(if b { TAG_TRUE } else { TAG_FALSE }, 0)
}
