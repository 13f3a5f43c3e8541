// One instruction that needs no task, frame or pool: the byte at the place picks it, by what stands behind its opcode.
ghost use Rattle.std.specs.Prelude.{◌≡◌, false, ◌≤◌, ◌<◌, length, get_or};
ghost use Rattle.mechanism.specs.Registers.{on_stack, on_memory};
ghost use Rattle.mechanism.specs.Execute.{plain, is_equality, instruct};
ghost use Rattle.mechanism.specs.Steps.{is_outer};
ghost use Rattle.stepper.specs.Kinds.{is_plain, has_number, pushes_byte, with_number, numbered, stored, whole_or_cut};

use crate::arithmetic::{op_mul, op_muli};
use crate::control::{op_do, op_loop, op_loop_index};
use crate::cut::{cut, cut_stored};
use crate::equality::op_eq;
use crate::jumps::op_jump_if_false;
use crate::mutation::op_m_muta;
use crate::operated::{m_st, m_sti, push_u8};
use crate::ordering::op_compare;
use crate::pushes::{op_dup, op_push};
use crate::stack::{op_drop, op_swap};
use bytecode::extents::extent;
use bytecode::opcodes::*;
use bytecode::operands::prepare_u32_from_be_checked;
use errors::Refusal;
use mechanism::Registers;
use mechanism::stack::moved;

// Over the stack alone. Bytes without an opcode, and S_LOAD, do nothing. A chain of tests: by a `match` a run
// took up to 1.6 times as long (measured).
#[tactic(auto, unfolding(mechanism::specs::Execute::plain))]
pub(crate) fn plain(
    stack: &mut [u64; 1000],
    registers: Registers,
    next: usize,
    op: u8,
    count: u32,
) -> Result<Registers, Refusal>
    ensures { on_stack result stack.new ≡ plain stack.old registers next op count }
{
    if op == MUL {
        return op_mul(stack, registers, next);
    }
    if op == LT {
        return op_compare(stack, registers, next, true);
    }
    if op == GT {
        return op_compare(stack, registers, next, false);
    }
    if op == DUP {
        return op_dup(stack, registers, next);
    }
    if op == SWAP {
        return op_swap(stack, registers, next);
    }
    if op == DROP {
        return op_drop(stack, registers, next);
    }
    if op == DO {
        return op_do(stack, registers, next);
    }
    if op == LOOP {
        return op_loop(registers, next);
    }
    if op == LOOP_INDEX {
        return op_loop_index(stack, registers, next);
    }
    if op == S_LEN {
        return op_push(stack, registers, next, count);
    }
    Ok(moved(registers, next, registers.height))
}

// Nothing behind the opcode, and over the stack alone: S_LEN, DO, LOOP, LOOP_INDEX, DROP, DUP, SWAP, LT, GT, MUL. An arm for each opcode:
// by `A | B`, and so by `matches!`, a run took up to 1.8 times as long (measured).
#[tactic(auto, unfolding(crate::specs::Kinds::is_plain))]
pub(crate) fn is_plain(op: u8) -> bool
    ensures { result ≡ is_plain op }
{
    match op {
        S_LEN => true,
        DO => true,
        LOOP => true,
        LOOP_INDEX => true,
        DROP => true,
        DUP => true,
        SWAP => true,
        LT => true,
        GT => true,
        MUL => true,
        _ => false,
    }
}

// EQ and NEQ.
#[tactic(auto, unfolding(mechanism::specs::Execute::is_equality))]
fn is_equality(op: u8) -> bool
    ensures { result ≡ is_equality op }
{
    matches!(op, EQ | NEQ)
}

// A number of four bytes behind the opcode: PUSH_U32, JUMP_IF_FALSE, MULI.
#[tactic(auto, unfolding(crate::specs::Kinds::has_number))]
fn has_number(op: u8) -> bool
    ensures { result ≡ has_number op }
{
    matches!(op, PUSH_U32 | JUMP_IF_FALSE | MULI)
}

// A byte behind it, which it pushes: those opcodes stand between PUSH_U32 and T_CREATE, with PUSH_CALLDATA, which needs the pool and does not come here. A
// range, so that the compiler makes one test of it.
#[tactic(auto, unfolding(crate::specs::Kinds::pushes_byte))]
fn pushes_byte(op: u8) -> bool
    ensures { result ≡ pushes_byte op }
{
    0x02 < op && op < 0x07
}

// An opcode with its number: PUSH_U32, MULI, JUMP_IF_FALSE.
#[tactic(auto, unfolding(crate::specs::Kinds::with_number))]
fn with_number(
    stack: &mut [u64; 1000],
    registers: Registers,
    next: usize,
    op: u8,
    number: u32,
) -> Result<Registers, Refusal>
    ensures { on_stack result stack.new ≡ with_number stack.old registers next op number }
{
    match op {
        PUSH_U32 => op_push(stack, registers, next, number),
        MULI => op_muli(stack, registers, next, number),
        _ => op_jump_if_false(stack, registers, next, number),
    }
}

// The same, with the number that stands behind the opcode: it is read in one place, so that its four bytes are loaded as one word.
#[tactic(auto, unfolding(crate::specs::Kinds::numbered, mechanism::specs::Operated::with_operand))]
fn numbered(
    stack: &mut [u64; 1000],
    code: &[u8],
    registers: Registers,
    next: usize,
    op: u8,
) -> Result<Registers, Refusal>
    requires { registers.place ≤ 9223372036854775808 }
    ensures { on_stack result stack.new ≡ numbered stack.old code.now registers next op }
{
    let number = prepare_u32_from_be_checked(code, registers.place + 1)?;
    with_number(stack, registers, next, op, number)
}

// Any other: M_STI, M_ST and M_MUTA over memory; S_LOAD, and bytes without an opcode, do nothing. A chain of tests, as in `plain`.
#[tactic(auto, unfolding(crate::specs::Kinds::stored))]
fn stored(
    stack: &mut [u64; 1000],
    memory: &mut [u8],
    code: &[u8],
    registers: Registers,
    next: usize,
    op: u8,
) -> Result<Registers, Refusal>
    requires { registers.place ≤ 9223372036854775808 }
    ensures { on_memory result stack.new memory.new ≡ stored stack.old memory.old code.now registers next op }
{
    if op == M_STI {
        return m_sti(stack, memory, code, registers, next);
    }
    if op == M_ST {
        return m_st(stack, memory, code, registers, next);
    }
    if op == M_MUTA {
        return op_m_muta(stack, memory, registers, next);
    }
    Ok(moved(registers, next, registers.height))
}

// The same at its place, whole or cut by the code's end.
#[tactic(auto, unfolding(crate::specs::Kinds::whole_or_cut, crate::specs::Kinds::stored_by))]
fn whole_or_cut(
    stack: &mut [u64; 1000],
    memory: &mut [u8],
    code: &[u8],
    registers: Registers,
    op: u8,
) -> Result<Registers, Refusal>
    requires { registers.place < length code.now }
    ensures { on_memory result stack.new memory.new ≡ whole_or_cut stack.old memory.old code.now registers op }
{
    match extent(code, registers.place) {
        Some(next) => stored(stack, memory, code, registers, next, op),
        None => cut_stored(stack, registers, op),
    }
}

// The instruction at the place, which lies in the code, is none of the plain ones and needs no task, frame or pool. For most opcodes the next place is a
// constant further, so that a run does not wait for it; each function here is called at one place, so that the compiler makes one loop of them. Numbers come
// first, because they are the most. The count is read by S_LEN alone, which is plain: any will do.
#[tactic(auto, using(crate::proofs::Reach::instruct_cut, crate::proofs::Reach::instruct_number, crate::proofs::Reach::instruct_byte, crate::proofs::Reach::instruct_equality, crate::proofs::Reach::instruct_other))]
pub(crate) fn instruct(
    stack: &mut [u64; 1000],
    memory: &mut [u8],
    code: &[u8],
    registers: Registers,
) -> Result<Registers, Refusal>
    requires { (registers.place < length code.now) × (is_plain (get_or code.now registers.place 0) ≡ false) × (is_outer (get_or code.now registers.place 0) ≡ false) }
    ensures { on_memory result stack.new memory.new ≡ instruct stack.old memory.old code.now registers 0 }
{
    let place = registers.place;
    let op = code[place];
    if has_number(op) {
        if code.len() - place < 5 {
            return cut(stack, registers, op);
        }
        return numbered(stack, code, registers, place + 5, op);
    }
    if pushes_byte(op) {
        return push_u8(stack, code, registers, place + 2);
    }
    if is_equality(op) {
        return op_eq(stack, memory, registers, place + 1, op == EQ);
    }
    whole_or_cut(stack, memory, code, registers, op)
}
