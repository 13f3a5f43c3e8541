// Opcodes with other operands than a number of four bytes: each reads its operands, which stand behind the opcode, and goes on as the function of its name.
ghost use Rattle.std.specs.Prelude.{◌≡◌, ◌≤◌};
ghost use Rattle.mechanism.specs.Registers.{on_stack, on_memory};
ghost use Rattle.mechanism.specs.Operated.{push_u8, m_st, payload_of, m_sti};

use crate::pushes::op_push;
use crate::store::op_m_st;
use bytecode::operands::{prepare_u8, prepare_u16_from_be_checked};
use errors::Refusal;
use mechanism::Registers;
use mechanism::store::store;

// PUSH_STATE, PUSH_MAX_STATES, PUSH_TASK_FIELD.
#[tactic(auto, unfolding(mechanism::specs::Operated::push_u8, mechanism::specs::Operated::with_operand))]
pub(crate) fn push_u8(
    stack: &mut [u64; 1000],
    code: &[u8],
    registers: Registers,
    next: usize,
) -> Result<Registers, Refusal>
    requires { registers.place ≤ 9223372036854775808 }
    ensures { on_stack result stack.new ≡ push_u8 stack.old code.now registers next }
{
    let number = prepare_u8(code, registers.place + 1)?;
    op_push(stack, registers, next, number)
}

// M_ST.
#[tactic(auto, unfolding(mechanism::specs::Operated::m_st, mechanism::specs::Operated::with_operand))]
pub(crate) fn m_st(
    stack: &mut [u64; 1000],
    memory: &mut [u8],
    code: &[u8],
    registers: Registers,
    next: usize,
) -> Result<Registers, Refusal>
    requires { registers.place ≤ 9223372036854775808 }
    ensures { on_memory result stack.new memory.new ≡ m_st stack.old memory.old code.now registers next }
{
    let tag = prepare_u8(code, registers.place + 1)?;
    op_m_st(stack, memory, &[], registers, next, (tag % 256) as u8)
}

// The payload of M_STI: it stands behind the operands if the signal is 1.
#[tactic(auto, unfolding(mechanism::specs::Operated::payload_of))]
fn payload_of(code: &[u8], place: usize, size: u32, signal: u32) -> &[u8]
    requires { place ≤ 9223372036854775808 }
    ensures { result.now ≡ payload_of code.now place size signal }
{
    if signal == 1 {
        slices::part(code, place + 5, size as usize)
    } else {
        &[]
    }
}

// M_STI.
#[tactic(auto, unfolding(mechanism::specs::Operated::m_sti, mechanism::specs::Operated::m_sti_of, mechanism::specs::Operated::with_operand))]
pub(crate) fn m_sti(
    stack: &mut [u64; 1000],
    memory: &mut [u8],
    code: &[u8],
    registers: Registers,
    next: usize,
) -> Result<Registers, Refusal>
    requires { registers.place ≤ 9223372036854775808 }
    ensures { on_memory result stack.new memory.new ≡ m_sti stack.old memory.old code.now registers next }
{
    let size = prepare_u16_from_be_checked(code, registers.place + 1)?;
    let tag = prepare_u8(code, registers.place + 3)?;
    let signal = prepare_u8(code, registers.place + 4)?;
    let payload = payload_of(code, registers.place, size, signal);
    store(
        stack,
        memory,
        payload,
        registers,
        next,
        registers.height,
        (size % 65536) as u16,
        (tag % 256) as u8,
    )
}
