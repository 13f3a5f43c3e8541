// The owner of a table of tasks, and what it performs over it.
ghost use Rattle.std.specs.Prelude.{◌≡◌};
ghost use Rattle.host.specs.Hosting.{performed_in, perform, owned, own};

use crate::hosting::RunSummary;
use crate::listings::list_run;
use crate::outcomes::{performed, to_save};
use machine::Verb;
use machine::new_machines::machine_of;
use storage::Task;

// Creates a machine over an image's tasks, starts it, saves it where the run was not refused, and lists it.
fn perform(
    table: &mut [Task],
    stack: &mut [u64; 1000],
    memory: &mut [u8],
    pool: &mut [u8],
    ends: &mut [u32; 1024],
    save: &mut [u8],
    image: &[u8],
    program: &[u8],
    listing: &mut [u8],
    fuel: u64,
) -> RunSummary
    ensures { performed_in result table.new stack.new memory.new pool.new ends.new save.new listing.new ≡ perform fuel table.old stack.old memory.old pool.old ends.old save.old image.now program.now listing.old }
{
    let creation = vm::creating::create(table, pool, ends, image, program);
    let begun = machine_of(creation);
    let report = runner::calling::call(
        table,
        stack,
        memory,
        pool,
        ends,
        save,
        begun,
        Verb::Start,
        fuel,
    );
    let saved = vm::saving::save(table, stack, memory, pool, ends, save, to_save(report));
    let listed = list_run(table, stack, memory, pool, ends, listing, creation, report);
    performed(creation, report, saved, listed)
}

// Performs a program over a table of 256 blank slots.
pub fn own(
    stack: &mut [u64; 1000],
    memory: &mut [u8],
    pool: &mut [u8],
    ends: &mut [u32; 1024],
    save: &mut [u8],
    image: &[u8],
    program: &[u8],
    listing: &mut [u8],
    fuel: u64,
) -> RunSummary
    ensures { owned result stack.new memory.new pool.new ends.new save.new listing.new ≡ own fuel stack.old memory.old pool.old ends.old save.old image.now program.now listing.old }
{
    let blank = storage::task_types::blank();
    let mut table = [blank; 256];
    perform(
        &mut table, stack, memory, pool, ends, save, image, program, listing, fuel,
    )
}
