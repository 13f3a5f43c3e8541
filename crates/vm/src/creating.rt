// Creation: its tests, the program as the pool's first entry, the image's tasks.
ghost use Rattle.std.specs.Prelude.{◌≡◌, Ok};
ghost use Rattle.machine.specs.Creation.{made, create};
ghost use Rattle.mechanism.specs.Creating.{prepared, prepare, created_with};

use errors::Refusal;
use machine::new_machines::new_machine;
use machine::{Machine, Preparation};
use storage::{Task, TaskId};
use table_image::InUse;
use table_image::creation::{Fit, creation_tests};

// The tests, and then the program as the pool's first entry.
#[tactic(auto, unfolding(mechanism::specs::Creating::prepare, mechanism::specs::Creating::prepare_fit, mechanism::specs::Creating::with_program))]
fn prepare(
    pool: &mut [u8],
    ends: &mut [u32; 1024],
    image: &[u8],
    program: &[u8],
    slots: usize,
) -> Result<Preparation, Refusal>
    ensures { prepared result pool.new ends.new ≡ prepare pool.old ends.old image.now program.now slots }
{
    let fit = creation_tests(slots, pool.len(), program, image)?;
    let (_, bytes) = pools::interning::intern_instructions(pool, ends, 0, 0, program)?;
    Ok(Preparation {
        machine: new_machine(bytes, 1, fit.next_id, fit.s_len),
        count: fit.count,
    })
}

// The machine, once its tasks are loaded.
fn created(machine: Machine, used: InUse) -> Machine
    ensures { Ok result ≡ created_with machine used }
{
    Machine {
        pool: used.bytes,
        entries: used.entries,
        ..machine
    }
}

// Creates a machine for a program over the tasks of an image.
pub fn create(
    table: &mut [Task],
    pool: &mut [u8],
    ends: &mut [u32; 1024],
    image: &[u8],
    program: &[u8],
) -> Result<Machine, Refusal>
    ensures { made result table.new pool.new ends.new ≡ create table.old pool.old ends.old image.now program.now }
{
    let ready = prepare(pool, ends, image, program, table.len())?;
    let used = table_image::loading::load_table(
        table,
        pool,
        ends,
        image,
        ready.machine.pool,
        ready.machine.entries,
        ready.count,
    );
    Ok(created(ready.machine, used))
}
