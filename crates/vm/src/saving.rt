// The save by the host, as S_SAVE does.
ghost use Rattle.std.specs.Prelude.{◌≡◌};
ghost use Rattle.machine.specs.Reads.{host_saved, not_saved, saved_to, host_save};
ghost use Rattle.machine.specs.World.{world};

use crate::sound::sound;
use errors::Refusal;
use machine::{Machine, SaveReport};
use storage::Task;

// After a save by the host: the length of the image is kept.
#[tactic(auto, unfolding(machine::specs::Reads::host_saved))]
fn host_saved(machine: Machine, res: Result<usize, Refusal>) -> SaveReport
    ensures { result ≡ host_saved machine res }
{
    let mut after = machine;
    if let Ok(length) = res {
        after.saved = length;
    }
    SaveReport {
        machine: after,
        result: res,
    }
}

// A save of an unsound record.
fn not_saved(machine: Machine) -> SaveReport
    ensures { result ≡ not_saved machine }
{
    SaveReport {
        machine,
        result: Err(Refusal::WrongPhaseOrUnsound),
    }
}

// Saves the tasks into the save buffer, as S_SAVE does.
pub fn save(
    table: &mut [Task],
    stack: &mut [u64; 1000],
    memory: &mut [u8],
    pool: &mut [u8],
    ends: &mut [u32; 1024],
    save: &mut [u8],
    machine: Machine,
) -> SaveReport
    ensures { saved_to result table.new stack.new memory.new pool.new ends.new save.new ≡ host_save (world machine table.old stack.old memory.old pool.old ends.old save.old) }
{
    if !sound(table, memory, pool, ends, save, machine) {
        return not_saved(machine);
    }
    let result = table_image::save_table(table, pool, ends, save, machine.entries, machine.next_id);
    host_saved(machine, result)
}
