// Boxed values: a scalar or a vector in one word of 64 bits, made and read field by field as they are drawn.
//
//    bit   63   62         50 49                            18 17              3 2      0
//         +----+-------------+--------------------------------+-----------------+--------+
//         |sign| QNAN        | payload                        | unused          | tag    |
//         | 0  | 13 ones     | 32 bits                        | 15 zeros        | 3 bits |   a scalar
//         +----+-------------+--------------------------------+-----------------+--------+
//
//    bit   63   62         50 49                     25 24             9 8       3 2      0
//         +----+-------------+-------------------------+----------------+---------+--------+
//         |sign| QNAN        | offset                  | size           | unused  | tag    |
//         | 1  | 13 ones     | 25 bits                 | 16 bits        | 6 zeros | 3 bits |   a vector
//         +----+-------------+-------------------------+----------------+---------+--------+
//
// A field begins at 2^k if its lowest bit has number k, and is 2^w wide if it has w bits. A box is the sum of its fields, each multiplied by where it
// begins. A field is read by dividing the word by where the field begins, and taking of that the remainder by the field's width.
#![tactic(auto)]

pub mod boxing;
pub mod calculations;
pub mod comparison;
pub mod kinds;

ghost use Rattle.std.specs.Prelude.{◌≡◌};
ghost use Rattle.values.specs.Values.{make_scalar_tagged, make_vec_tagged, is_qnan, is_scalar, is_vec, raw_tag, tag_of, is_u32_val, to_u32, fat_pointer, to_fat_pointer};

use errors::Refusal;

// Where each field begins, and how wide it is.
const SIGN_BEGIN: u64 = 1 << 63;

const QNAN_BEGIN: u64 = 1 << 50;

const QNAN_WIDTH: u64 = 1 << 13;

const PAYLOAD_BEGIN: u64 = 1 << 18;

const PAYLOAD_WIDTH: u64 = 1 << 32;

const OFFSET_BEGIN: u64 = 1 << 25;

const OFFSET_WIDTH: u64 = 1 << 25;

const SIZE_BEGIN: u64 = 1 << 9;

const SIZE_WIDTH: u64 = 1 << 16;

const TAG_BEGIN: u64 = 1 << 0;

const TAG_WIDTH: u64 = 1 << 3;

// The QNAN bits, all ones.
const QNAN: u64 = QNAN_WIDTH - 1;

// What the tag of a value can be.
pub const TAG_NULL: u64 = 1;

pub const TAG_FALSE: u64 = 2;

pub const TAG_TRUE: u64 = 3;

pub const TAG_STRING: u64 = 4;

pub const TAG_CALLDATA: u64 = 5;

pub const TAG_U32: u64 = 6;

// Where a vector lies in memory: its first byte, and its size in bytes.
#[derive(Clone, Copy)]
pub struct FatPointer {
    pub offset: u32,
    pub size: u16,
}

// The type of a value, by its box.
#[derive(Clone, Copy)]
pub enum ValueType {
    U32,
    String,
    CallData,
    Boolean,
    VecU32,
    Null,
}

// A scalar: sign 0, QNAN, payload, tag.
#[tactic(auto, unfolding(crate::specs::Values::make_scalar_tagged))]
pub(crate) fn make_scalar_tagged(tag: u64, payload: u32) -> u64
    ensures { result ≡ make_scalar_tagged tag payload }
{
    0 * SIGN_BEGIN
        + QNAN * QNAN_BEGIN
        + (payload as u64) * PAYLOAD_BEGIN
        + tag % TAG_WIDTH * TAG_BEGIN
}

// A vector: sign 1, QNAN, offset, size, tag.
#[tactic(auto, unfolding(crate::specs::Values::make_vec_tagged))]
pub(crate) fn make_vec_tagged(offset: u32, size: u16, tag: u64) -> u64
    ensures { result ≡ make_vec_tagged offset size tag }
{
    1 * SIGN_BEGIN
        + QNAN * QNAN_BEGIN
        + (offset as u64) % OFFSET_WIDTH * OFFSET_BEGIN
        + (size as u64) * SIZE_BEGIN
        + tag % TAG_WIDTH * TAG_BEGIN
}

// Whether a word is a boxed value: its QNAN bits are ones.
#[tactic(auto, unfolding(crate::specs::Values::is_qnan))]
pub(crate) fn is_qnan(v: u64) -> bool
    ensures { result ≡ is_qnan v }
{
    v / QNAN_BEGIN % QNAN_WIDTH == QNAN
}

// Whether a word is a boxed scalar: sign 0, and behind it QNAN.
#[tactic(auto, unfolding(crate::specs::Values::is_scalar))]
pub(crate) fn is_scalar(v: u64) -> bool
    ensures { result ≡ is_scalar v }
{
    v / QNAN_BEGIN == 0 * QNAN_WIDTH + QNAN
}

// Whether a word is a boxed vector: sign 1, and behind it QNAN.
#[tactic(auto, unfolding(crate::specs::Values::is_vec))]
pub fn is_vec(v: u64) -> bool
    ensures { result ≡ is_vec v }
{
    v / QNAN_BEGIN == 1 * QNAN_WIDTH + QNAN
}

// The tag in any word.
#[tactic(auto, unfolding(crate::specs::Values::raw_tag))]
pub fn raw_tag(v: u64) -> u64
    ensures { result ≡ raw_tag v }
{
    v / TAG_BEGIN % TAG_WIDTH
}

// The tag of a boxed value.
#[tactic(auto, unfolding(crate::specs::Values::tag_of))]
pub fn tag_of(v: u64) -> Result<u64, Refusal>
    ensures { result ≡ tag_of v }
{
    if is_qnan(v) {
        return Ok(raw_tag(v));
    }
    Err(Refusal::InvalidType)
}

// Whether a word is a boxed number.
#[tactic(auto, unfolding(crate::specs::Values::is_u32_val))]
pub(crate) fn is_u32_val(v: u64) -> bool
    ensures { result ≡ is_u32_val v }
{
    is_scalar(v) && raw_tag(v) == TAG_U32
}

// Any word read as a number: its payload.
#[tactic(auto, unfolding(crate::specs::Values::to_u32))]
pub fn to_u32(v: u64) -> u32
    ensures { result ≡ to_u32 v }
{
    (v / PAYLOAD_BEGIN % PAYLOAD_WIDTH) as u32
}

// The offset and the size in a word.
#[tactic(auto, unfolding(crate::specs::Values::fat_pointer))]
pub fn fat_pointer(v: u64) -> FatPointer
    ensures { result ≡ fat_pointer v }
{
    FatPointer {
        offset: (v / OFFSET_BEGIN % OFFSET_WIDTH) as u32,
        size: (v / SIZE_BEGIN % SIZE_WIDTH) as u16,
    }
}

// Where a vector lies; a scalar points nowhere.
#[tactic(auto, unfolding(crate::specs::Values::to_fat_pointer))]
pub fn to_fat_pointer(v: u64) -> Result<FatPointer, Refusal>
    ensures { result ≡ to_fat_pointer v }
{
    if is_vec(v) {
        return Ok(fat_pointer(v));
    }
    Err(Refusal::InvalidType)
}
