// What opcodes share: two values off the stack, a value or a result pushed, the registers at another place.
ghost use Rattle.std.specs.Prelude.{◌≡◌};
ghost use Rattle.mechanism.specs.Registers.{on_stack, moved};
ghost use Rattle.mechanism.specs.Stack.{pop_two, push_value, finish};

use crate::Registers;
use errors::Refusal;

// The registers at another place and another height.
pub fn moved(registers: Registers, place: usize, height: usize) -> Registers
    ensures { result ≡ moved registers place height }
{
    Registers {
        memory: registers.memory,
        place,
        height,
        loops: registers.loops,
    }
}

// Two values off the stack.
#[tactic(auto, unfolding(crate::specs::Stack::pop_two, crate::specs::Stack::pop_first, crate::specs::Stack::pop_second))]
pub fn pop_two(stack: &[u64; 1000], height: usize) -> Result<(u64, u64, usize), Refusal>
    ensures { result ≡ pop_two stack.now height }
{
    let (first, one) = inlinevec::pop(stack, height)?;
    let (second, two) = inlinevec::pop(stack, one)?;
    Ok((first, second, two))
}

// A value pushed at a height, and on at a place.
#[tactic(auto, unfolding(crate::specs::Stack::push_value, crate::specs::Stack::pushed_to))]
pub fn push_value(
    stack: &mut [u64; 1000],
    registers: Registers,
    place: usize,
    height: usize,
    value: u64,
) -> Result<Registers, Refusal>
    ensures { on_stack result stack.new ≡ push_value stack.old registers place height value }
{
    let new = inlinevec::push(stack, height, value)?;
    Ok(moved(registers, place, new))
}

// The result of a calculation pushed at a height, and on at a place.
#[tactic(auto, unfolding(crate::specs::Stack::finish))]
pub fn finish(
    stack: &mut [u64; 1000],
    registers: Registers,
    place: usize,
    height: usize,
    calculated: Result<u64, Refusal>,
) -> Result<Registers, Refusal>
    ensures { on_stack result stack.new ≡ finish stack.old registers place height calculated }
{
    push_value(stack, registers, place, height, calculated?)
}
