// An instruction that the code's end cuts: those that pop first still pop, and JUMP_IF_FALSE needs its operand on FALSE only.
ghost use Rattle.std.specs.Prelude.{◌≡◌, ◌≤◌};
ghost use Rattle.mechanism.specs.Cut.{cut_muli, cut_m_st, cut_jump, cut};
ghost use Rattle.stepper.specs.Kinds.{cut_stored};

use bytecode::opcodes::{JUMP_IF_FALSE, M_ST, MULI};
use errors::Refusal;
use mechanism::Registers;
use mechanism::stack::moved;

// MULI.
#[tactic(auto, unfolding(mechanism::specs::Cut::cut_muli, mechanism::specs::Cut::cut_value))]
fn cut_muli(stack: &[u64; 1000], registers: Registers) -> Result<Registers, Refusal>
    ensures { result ≡ cut_muli stack.now registers }
{
    inlinevec::pop(stack, registers.height)?;
    Err(Refusal::UnexpectedEOB)
}

// M_ST.
#[tactic(auto, unfolding(mechanism::specs::Cut::cut_m_st, mechanism::specs::Cut::cut_size))]
fn cut_m_st(stack: &[u64; 1000], registers: Registers) -> Result<Registers, Refusal>
    ensures { result ≡ cut_m_st stack.now registers }
{
    let (value, _) = inlinevec::pop(stack, registers.height)?;
    if 65535 < values::to_u32(value) {
        return Err(Refusal::MSliceParamOverflow);
    }
    Err(Refusal::UnexpectedEOB)
}

// JUMP_IF_FALSE: any other value skips the operand, even past the end.
#[tactic(auto, unfolding(mechanism::specs::Cut::cut_jump, mechanism::specs::Cut::cut_skip))]
fn cut_jump(stack: &[u64; 1000], registers: Registers) -> Result<Registers, Refusal>
    requires { registers.place ≤ 9223372036854775808 }
    ensures { result ≡ cut_jump stack.now registers }
{
    let (value, height) = inlinevec::pop(stack, registers.height)?;
    if value == values::boxing::to_bool_val(false) {
        return Err(Refusal::UnexpectedEOB);
    }
    Ok(moved(registers, registers.place + 5, height))
}

// The instruction of this opcode.
#[tactic(auto, unfolding(mechanism::specs::Cut::cut))]
pub(crate) fn cut(stack: &[u64; 1000], registers: Registers, op: u8) -> Result<Registers, Refusal>
    requires { registers.place ≤ 9223372036854775808 }
    ensures { result ≡ cut stack.now registers op }
{
    match op {
        MULI => cut_muli(stack, registers),
        M_ST => cut_m_st(stack, registers),
        JUMP_IF_FALSE => cut_jump(stack, registers),
        _ => Err(Refusal::UnexpectedEOB),
    }
}

// One that stands by the table of operand sizes.
#[tactic(auto, unfolding(crate::specs::Kinds::cut_stored))]
pub(crate) fn cut_stored(
    stack: &[u64; 1000],
    registers: Registers,
    op: u8,
) -> Result<Registers, Refusal>
    ensures { result ≡ cut_stored stack.now registers op }
{
    if op == M_ST {
        return cut_m_st(stack, registers);
    }
    Err(Refusal::UnexpectedEOB)
}
