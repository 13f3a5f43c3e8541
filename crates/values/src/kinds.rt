// The kind of a value, by its box.
ghost use Rattle.std.specs.Prelude.{◌≡◌};
ghost use Rattle.values.specs.Values.{vec_type, scalar_type, get_value_type};

use crate::{
    TAG_CALLDATA, TAG_FALSE, TAG_NULL, TAG_STRING, TAG_TRUE, TAG_U32, ValueType, is_scalar, is_vec,
    raw_tag,
};

// The type of a vector.
#[tactic(auto, unfolding(crate::specs::Values::vec_type))]
fn vec_type(tag: u64) -> Option<ValueType>
    ensures { result ≡ vec_type tag }
{
    match tag {
        TAG_U32 => Some(ValueType::VecU32),
        TAG_STRING => Some(ValueType::String),
        _ => None,
    }
}

// The type of a scalar.
#[tactic(auto, unfolding(crate::specs::Values::scalar_type))]
fn scalar_type(tag: u64) -> Option<ValueType>
    ensures { result ≡ scalar_type tag }
{
    match tag {
        TAG_U32 => Some(ValueType::U32),
        TAG_CALLDATA => Some(ValueType::CallData),
        TAG_STRING => Some(ValueType::String),
        TAG_TRUE | TAG_FALSE => Some(ValueType::Boolean),
        TAG_NULL => Some(ValueType::Null),
        _ => None,
    }
}

// The type of a value, if it has one.
#[tactic(auto, unfolding(crate::specs::Values::get_value_type))]
pub fn get_value_type(v: u64) -> Option<ValueType>
    ensures { result ≡ get_value_type v }
{
    if is_vec(v) {
        return vec_type(raw_tag(v));
    }
    if is_scalar(v) {
        return scalar_type(raw_tag(v));
    }
    None
}
