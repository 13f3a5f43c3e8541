// The read of a task by the host.
ghost use Rattle.std.specs.Prelude.{◌≡◌};
ghost use Rattle.image.specs.Writing.{stepped};
ghost use Rattle.machine.specs.Reads.{task_result, task_answer, read_to, task_read};
ghost use Rattle.machine.specs.World.{world};

use crate::sound::sound;
use errors::Refusal;
use machine::{Machine, TaskRead};
use storage::ids::slot_of;
use storage::{Task, TaskId};

// Whether the task of an id's slot can be read: its record, its instructions, its title.
#[tactic(auto, unfolding(machine::specs::Reads::task_result, machine::specs::Reads::if_found))]
fn task_result(
    pool: &mut [u8],
    ends: &mut [u32; 1024],
    machine: Machine,
    sound: bool,
    id: TaskId,
    task: Task,
) -> Result<(), Refusal>
    ensures { stepped result pool.new ends.new ≡ stepped (task_result ends.old machine sound id task) pool.old ends.old }
{
    if !sound {
        return Err(Refusal::WrongPhaseOrUnsound);
    }
    storage::ids::find(task, id)?;
    image::sizes::measure_slot(pool, ends, task, machine.entries, 0, 0)?;
    Ok(())
}

// The same, with its record.
fn task_at(
    pool: &mut [u8],
    ends: &mut [u32; 1024],
    machine: Machine,
    sound: bool,
    id: TaskId,
    task: Task,
) -> TaskRead
    ensures { stepped result pool.new ends.new ≡ stepped (task_answer ends.old machine sound id task) pool.old ends.old }
{
    TaskRead {
        result: task_result(pool, ends, machine, sound, id, task),
        task,
    }
}

// Reads the task of an id.
pub fn read_task(
    table: &mut [Task],
    stack: &mut [u64; 1000],
    memory: &mut [u8],
    pool: &mut [u8],
    ends: &mut [u32; 1024],
    save: &mut [u8],
    machine: Machine,
    id: TaskId,
) -> TaskRead
    ensures { read_to result (world machine table.new stack.new memory.new pool.new ends.new save.new) ≡ task_read id (world machine table.old stack.old memory.old pool.old ends.old save.old) }
{
    let good = sound(table, memory, pool, ends, save, machine);
    let task = table::get(table, slot_of(id));
    task_at(pool, ends, machine, good, id, task)
}
