// Machines at the start of their program: one that has not run, and one that starts again.
ghost use Rattle.std.specs.Prelude.{◌≡◌};
ghost use Rattle.machine.specs.Machines.{no_loops, at_main};
ghost use Rattle.machine.specs.Calls.{phased};
ghost use Rattle.machine.specs.Creation.{new_machine, machine_of};

use crate::{Machine, Phase};
use errors::Refusal;
use inlinevec::{Frame, Loop, Loops, Two};
use pools::InstructionsRef;
use storage::TaskId;

// No loop is open.
fn no_loops() -> Loops
    ensures { result ≡ no_loops }
{
    let none = Loop {
        place: 0,
        index: 0,
        limit: 0,
    };
    Two {
        count: 0,
        first: none,
        second: none,
    }
}

// A machine at its program's start, in a phase, with so many bytes and entries in its pool.
fn at_its_start(phase: Phase, bytes: usize, entries: usize, next_id: TaskId, count: u32) -> Machine
    ensures { result ≡ phased (new_machine bytes entries next_id.0 count) phase }
{
    let main = Frame {
        entry: InstructionsRef(0),
        place: 0,
    };
    let frames = Two {
        count: 1,
        first: main,
        second: main,
    };
    Machine {
        phase,
        height: 0,
        loops: no_loops(),
        frames,
        memory: 0,
        pool: bytes,
        entries,
        next_id,
        count,
        saved: 0,
    }
}

// A machine that has not run.
pub fn new_machine(bytes: usize, entries: usize, next_id: TaskId, count: u32) -> Machine
    ensures { result ≡ new_machine bytes entries next_id.0 count }
{
    at_its_start(Phase::New, bytes, entries, next_id, count)
}

// The machine that was created; one that does not start, if none was.
#[tactic(auto, unfolding(crate::specs::Creation::machine_of))]
pub fn machine_of(creation: Result<Machine, Refusal>) -> Machine
    ensures { result ≡ machine_of creation }
{
    match creation {
        Ok(machine) => machine,
        Err(_) => at_its_start(Phase::Stopped, 0, 0, TaskId(0), 0),
    }
}

// A machine at main, place 0, with an empty control stack.
pub fn at_main(machine: Machine) -> Machine
    ensures { result ≡ at_main machine }
{
    let mut started = machine;
    started.loops = no_loops();
    started.frames.count = 1;
    started.frames.first.place = 0;
    started
}
