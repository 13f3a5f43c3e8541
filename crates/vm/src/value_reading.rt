// The read of a value by the host.
ghost use Rattle.std.specs.Prelude.{◌≡◌, get_or};
ghost use Rattle.machine.specs.Reads.{is_done, readable, value_on, value_at, read_to, value_read};
ghost use Rattle.machine.specs.World.{world};

use crate::sound::sound;
use errors::Refusal;
use machine::{Machine, Phase};
use memory::unbox::Return;
use slices::get_or;
use storage::Task;

// Whether a run is done.
#[tactic(auto, unfolding(machine::specs::Reads::is_done))]
fn is_done(phase: Phase) -> bool
    ensures { result ≡ is_done phase }
{
    matches!(phase, Phase::Done)
}

// Whether a value can be read at a position.
#[tactic(auto, unfolding(machine::specs::Reads::readable))]
fn readable(machine: Machine, sound: bool, position: usize) -> bool
    ensures { result ≡ readable machine sound position }
{
    sound && is_done(machine.phase) && position < machine.height
}

// The value at a position, bottom first.
#[tactic(auto, unfolding(machine::specs::Reads::value_at))]
fn value_at(
    stack: &mut [u64; 1000],
    memory: &mut [u8],
    ends: &mut [u32; 1024],
    machine: Machine,
    sound: bool,
    position: usize,
) -> Result<Return, Refusal>
    ensures { value_on result stack.new memory.new ends.new ≡ value_on (value_at stack.old memory.old ends.old machine sound position) stack.old memory.old ends.old }
{
    if !readable(machine, sound, position) {
        return Err(Refusal::WrongPhaseOrUnsound);
    }
    let word = get_or(stack, position, 0);
    let used = slices::part(memory, 0, machine.memory);
    memory::unbox::unbox_value(used, ends, machine.entries, word)
}

// Reads the value at a position of a done run, bottom first: its kind, whose part `memory::unbox::part_of` gives.
pub fn read_value(
    table: &mut [Task],
    stack: &mut [u64; 1000],
    memory: &mut [u8],
    pool: &mut [u8],
    ends: &mut [u32; 1024],
    save: &mut [u8],
    machine: Machine,
    position: usize,
) -> Result<Return, Refusal>
    ensures { read_to result (world machine table.new stack.new memory.new pool.new ends.new save.new) ≡ value_read position (world machine table.old stack.old memory.old pool.old ends.old save.old) }
{
    let good = sound(table, memory, pool, ends, save, machine);
    value_at(stack, memory, ends, machine, good, position)
}
