// EQ and NEQ: scalars by their words, vectors by the bytes of memory in use.
ghost use Rattle.std.specs.Prelude.{◌&&◌, ◌≡◌};
ghost use Rattle.values.specs.Values.{is_vec};
ghost use Rattle.mechanism.specs.Registers.{on_stack};
ghost use Rattle.mechanism.specs.Equality.{eq_vectors, eq_values, turned_if, op_eq};

use errors::Refusal;
use mechanism::Registers;
use mechanism::stack::{finish, pop_two};

// Two vectors.
#[tactic(auto, unfolding(mechanism::specs::Equality::eq_vectors))]
fn eq_vectors(memory: &[u8], left: u64, right: u64) -> Result<u64, Refusal>
    ensures { result ≡ eq_vectors memory.now left right }
{
    if values::raw_tag(left) == values::raw_tag(right) {
        let left_vector = values::fat_pointer(left);
        let right_vector = values::fat_pointer(right);
        return memory::tested_reads::is_m_slice_eq(memory, left_vector, right_vector);
    }
    Err(Refusal::TypeMismatch)
}

// Whether both are vectors.
fn both_vectors(left: u64, right: u64) -> bool
    ensures { result ≡ (is_vec left && is_vec right) }
{
    values::is_vec(left) && values::is_vec(right)
}

// Two values, over the memory in use.
#[tactic(auto, unfolding(mechanism::specs::Equality::eq_values))]
fn eq_values(memory: &[u8], left: u64, right: u64) -> Result<u64, Refusal>
    ensures { result ≡ eq_values memory.now left right }
{
    if both_vectors(left, right) {
        return eq_vectors(memory, left, right);
    }
    values::comparison::value_eq(left, right)
}

// An answer, turned round for NEQ.
#[tactic(auto, unfolding(mechanism::specs::Equality::turned_if, values::specs::Values::turned))]
fn turned_if(is_eq: bool, res: Result<u64, Refusal>) -> Result<u64, Refusal>
    ensures { result ≡ turned_if is_eq res }
{
    if is_eq {
        return res;
    }
    let value = res?;
    Ok(values::calculations::bool_not(value))
}

// EQ, and NEQ where is_eq is false: the right value is on top.
#[tactic(auto, unfolding(mechanism::specs::Equality::op_eq, mechanism::specs::Stack::on_two))]
pub(crate) fn op_eq(
    stack: &mut [u64; 1000],
    memory: &[u8],
    registers: Registers,
    next: usize,
    is_eq: bool,
) -> Result<Registers, Refusal>
    ensures { on_stack result stack.new ≡ op_eq stack.old memory.now registers next is_eq }
{
    let (right, left, height) = pop_two(stack, registers.height)?;
    let result = eq_values(slices::part(memory, 0, registers.memory), left, right);
    finish(stack, registers, next, height, turned_if(is_eq, result))
}
