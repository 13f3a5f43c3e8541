// Comparisons of boxed values: EQ, NEQ, LT and GT.
ghost use Rattle.std.specs.Prelude.{◌≡◌};
ghost use Rattle.values.specs.Values.{is_bool, one_vector, of_one_kind, alike, value_eq, value_neq, value_cmp};

use crate::boxing::to_bool_val;
use crate::calculations::bool_not;
use crate::{
    TAG_CALLDATA, TAG_FALSE, TAG_TRUE, TAG_U32, is_qnan, is_scalar, is_u32_val, is_vec, raw_tag,
    to_u32,
};
use errors::Refusal;

// TRUE or FALSE, by its box.
#[tactic(auto, unfolding(crate::specs::Values::is_bool))]
fn is_bool(v: u64) -> bool
    ensures { result ≡ is_bool v }
{
    is_scalar(v) && matches!(raw_tag(v), TAG_TRUE | TAG_FALSE)
}

// Exactly one side is a vector.
#[tactic(auto, unfolding(crate::specs::Values::one_vector))]
fn one_vector(left: u64, right: u64) -> bool
    ensures { result ≡ one_vector left right }
{
    is_vec(left) != is_vec(right)
}

// Two values of one tag, or two bools.
#[tactic(auto, unfolding(crate::specs::Values::of_one_kind))]
fn of_one_kind(left: u64, right: u64) -> bool
    ensures { result ≡ of_one_kind left right }
{
    raw_tag(left) == raw_tag(right) || (is_bool(left) && is_bool(right))
}

// Two values of one kind compared, by the left one's tag.
#[tactic(auto, unfolding(crate::specs::Values::alike))]
fn alike(tag: u64, left: u64, right: u64) -> Result<u64, Refusal>
    ensures { result ≡ alike tag left right }
{
    match tag {
        TAG_U32 | TAG_CALLDATA => Ok(to_bool_val(to_u32(left) == to_u32(right))),
        TAG_TRUE | TAG_FALSE => Ok(to_bool_val(left == right)),
        _ => Err(Refusal::InvalidType),
    }
}

// EQ of two values that are not both vectors.
#[tactic(auto, unfolding(crate::specs::Values::value_eq))]
pub fn value_eq(left: u64, right: u64) -> Result<u64, Refusal>
    ensures { result ≡ value_eq left right }
{
    if !is_qnan(left) || !is_qnan(right) {
        return Err(Refusal::InvalidType);
    }
    if one_vector(left, right) || !of_one_kind(left, right) {
        return Err(Refusal::TypeMismatch);
    }
    alike(raw_tag(left), left, right)
}

// NEQ of two values that are not both vectors.
#[tactic(auto, unfolding(crate::specs::Values::value_neq, crate::specs::Values::turned))]
pub fn value_neq(left: u64, right: u64) -> Result<u64, Refusal>
    ensures { result ≡ value_neq left right }
{
    value_eq(left, right).map(bool_not)
}

// LT of two numbers, or GT where is_lt is false.
#[tactic(auto, unfolding(crate::specs::Values::value_cmp))]
pub fn value_cmp(left: u64, right: u64, is_lt: bool) -> Result<u64, Refusal>
    ensures { result ≡ value_cmp left right is_lt }
{
    if !is_u32_val(left) || !is_u32_val(right) {
        return Err(Refusal::InvalidType);
    }
    let (left, right) = (to_u32(left), to_u32(right));
    Ok(to_bool_val(if is_lt { left < right } else { right < left }))
}
