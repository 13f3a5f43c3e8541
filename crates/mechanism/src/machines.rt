// The machine's record: its current frame, its code, its registers.
ghost use Rattle.std.specs.Prelude.{◌≡◌};
ghost use Rattle.machine.specs.Machines.{current, with_current, code_of};
ghost use Rattle.mechanism.specs.Registers.{registers_of, settled};

use crate::Registers;
use inlinevec::{Frame, Frames};
use machine::Machine;

// The frame that runs.
#[tactic(auto, unfolding(machine::specs::Machines::current))]
pub fn current(frames: Frames) -> Frame
    ensures { result ≡ current frames }
{
    frames.top()
}

// The frames with another one that runs.
#[tactic(auto, unfolding(machine::specs::Machines::with_current, inlinevec::specs::Stacks::change_two))]
fn with_current(frames: Frames, frame: Frame) -> Frames
    ensures { result ≡ with_current frames frame }
{
    let mut changed = frames;
    if frames.count == 1 {
        changed.first = frame;
    } else {
        changed.second = frame;
    }
    changed
}

// The code that runs.
#[tactic(auto, unfolding(machine::specs::Machines::code_of))]
pub fn code_of<'a>(pool: &'a [u8], ends: &[u32; 1024], machine: Machine) -> &'a [u8]
    ensures { result.now ≡ code_of pool.now ends.now machine }
{
    pools::get(pool, ends, current(machine.frames).entry)
}

// What most opcodes change, taken out of the machine.
#[tactic(auto, unfolding(crate::specs::Registers::registers_of))]
pub fn registers_of(machine: Machine) -> Registers
    ensures { result ≡ registers_of machine }
{
    Registers {
        memory: machine.memory,
        place: current(machine.frames).place,
        height: machine.height,
        loops: machine.loops,
    }
}

// And put back.
#[tactic(auto, unfolding(crate::specs::Registers::settled))]
pub fn settled(machine: Machine, registers: Registers) -> Machine
    ensures { result ≡ settled machine registers }
{
    let placed = Frame {
        entry: current(machine.frames).entry,
        place: registers.place,
    };
    let mut after = machine;
    after.height = registers.height;
    after.loops = registers.loops;
    after.frames = with_current(machine.frames, placed);
    after.memory = registers.memory;
    after
}
