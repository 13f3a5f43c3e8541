// The opcodes of loops: DO, LOOP, LOOP_INDEX.
ghost use Rattle.std.specs.Prelude.{◌≡◌, ◌+◌, ◌<◌, ltb};
ghost use Rattle.inlinevec.specs.Stacks.{pop_two};
ghost use Rattle.mechanism.specs.Registers.{on_stack};
ghost use Rattle.mechanism.specs.Control.{looping, op_do, op_loop, op_loop_index};
ghost use Rattle.machine.specs.Words.{next_round};

use errors::Refusal;
use inlinevec::{Loop, Loops};
use mechanism::Registers;
use mechanism::stack::{pop_two, push_value};

// The registers at another place and another height, with other open loops.
fn looping(registers: Registers, place: usize, height: usize, loops: Loops) -> Registers
    ensures { result ≡ looping registers place height loops }
{
    Registers {
        place,
        height,
        loops,
        ..registers
    }
}

// DO: the index is on top, the limit below it.
#[tactic(auto, unfolding(mechanism::specs::Control::op_do, mechanism::specs::Control::do_two, mechanism::specs::Control::opened_to))]
pub(crate) fn op_do(
    stack: &[u64; 1000],
    registers: Registers,
    next: usize,
) -> Result<Registers, Refusal>
    ensures { result ≡ op_do stack.now registers next }
{
    let (index, limit, height) = pop_two(stack, registers.height)?;
    let opened = Loop {
        place: next,
        index: values::to_u32(index),
        limit: values::to_u32(limit),
    };
    let loops = registers.loops.push(opened)?;
    Ok(looping(registers, next, height, loops))
}

// The loops without the innermost one, which stays at its place.
#[tactic(auto, unfolding(inlinevec::specs::Stacks::pop_two))]
fn without_innermost(loops: Loops) -> Loops
    requires { 0 < loops.count }
    ensures { result ≡ pop_two loops }
{
    Loops {
        count: loops.count - 1,
        ..loops
    }
}

// Whether a loop goes round once more.
fn goes_round(last: Loop) -> bool
    ensures { result ≡ ltb (last.index + 1) last.limit }
{
    last.index as u64 + 1 < last.limit as u64
}

// A loop one round on.
fn next_round(last: Loop) -> Loop
    requires { last.index + 1 < last.limit }
    ensures { result ≡ next_round last }
{
    Loop {
        index: last.index + 1,
        ..last
    }
}

// LOOP: back exactly if index + 1 is below the limit. The inner loop and the outer one have a way each: where they came together, both were loaded and stored.
// By a `match` on the count a run took up to a fifth longer (measured).
#[tactic(auto, unfolding(mechanism::specs::Control::op_loop, mechanism::specs::Control::looped, mechanism::specs::Control::opened_to, inlinevec::specs::Stacks::pop_off, inlinevec::specs::Stacks::push_onto, inlinevec::specs::Stacks::if_some, inlinevec::specs::Stacks::if_room, inlinevec::specs::Stacks::last_two, inlinevec::specs::Stacks::pop_two, inlinevec::specs::Stacks::push_two))]
pub(crate) fn op_loop(registers: Registers, next: usize) -> Result<Registers, Refusal>
    ensures { result ≡ op_loop registers next }
{
    let open = registers.loops;
    if open.count == 2 {
        if goes_round(open.second) {
            let loops = Loops {
                second: next_round(open.second),
                ..open
            };
            return Ok(looping(registers, open.second.place, registers.height, loops));
        }
        return Ok(looping(registers, next, registers.height, without_innermost(open)));
    }
    if open.count == 1 {
        if goes_round(open.first) {
            let loops = Loops {
                first: next_round(open.first),
                ..open
            };
            return Ok(looping(registers, open.first.place, registers.height, loops));
        }
        return Ok(looping(registers, next, registers.height, without_innermost(open)));
    }
    if open.count == 0 {
        return Err(Refusal::StackUnderflow);
    }
    Err(Refusal::WrongPhaseOrUnsound)
}

// LOOP_INDEX. By `loops.last()?` a run took up to 1.5 times as long (measured).
#[tactic(auto, unfolding(mechanism::specs::Control::op_loop_index, mechanism::specs::Control::index_of, inlinevec::specs::Stacks::last_on, inlinevec::specs::Stacks::if_some))]
pub(crate) fn op_loop_index(
    stack: &mut [u64; 1000],
    registers: Registers,
    next: usize,
) -> Result<Registers, Refusal>
    ensures { on_stack result stack.new ≡ op_loop_index stack.old registers next }
{
    let open = registers.loops;
    if open.count == 0 {
        return Err(Refusal::StackUnderflow);
    }
    if 2 < open.count {
        return Err(Refusal::WrongPhaseOrUnsound);
    }
    let last = open.top();
    push_value(
        stack,
        registers,
        next,
        registers.height,
        values::boxing::to_u32_val(last.index),
    )
}
