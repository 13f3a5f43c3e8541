// Calculations on boxed values: products, and the answer turned round.
ghost use Rattle.std.specs.Prelude.{◌≡◌};
ghost use Rattle.values.specs.Values.{bool_not, product, mul_checked, mul_checked_i};

use crate::boxing::to_u32_val;
use crate::{is_u32_val, to_u32};
use errors::Refusal;

// TRUE for FALSE, and FALSE for TRUE.
#[tactic(auto, unfolding(crate::specs::Values::bool_not))]
pub fn bool_not(v: u64) -> u64
    ensures { result ≡ bool_not v }
{
    if v % 2 == 0 { v + 1 } else { v - 1 }
}

// The box of a product of two numbers, where it is a number.
#[tactic(auto, unfolding(crate::specs::Values::product))]
fn product(left: u32, right: u32) -> Result<u64, Refusal>
    ensures { result ≡ product left right }
{
    match u32::try_from(left as u64 * right as u64) {
        Ok(whole) => Ok(to_u32_val(whole)),
        Err(_) => Err(Refusal::MultiplicationOverflowed),
    }
}

// MUL of two values.
#[tactic(auto, unfolding(crate::specs::Values::mul_checked))]
pub fn mul_checked(lhs: u64, rhs: u64) -> Result<u64, Refusal>
    ensures { result ≡ mul_checked lhs rhs }
{
    if is_u32_val(lhs) && is_u32_val(rhs) {
        return product(to_u32(lhs), to_u32(rhs));
    }
    Err(Refusal::InvalidType)
}

// MUL of a value and a number.
#[tactic(auto, unfolding(crate::specs::Values::mul_checked_i))]
pub fn mul_checked_i(lhs: u64, rhs: u32) -> Result<u64, Refusal>
    ensures { result ≡ mul_checked_i lhs rhs }
{
    if is_u32_val(lhs) {
        return product(to_u32(lhs), rhs);
    }
    Err(Refusal::InvalidType)
}
