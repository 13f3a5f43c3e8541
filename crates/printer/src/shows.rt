// The calls of a host on a machine over a blank table, one after the other, and their lines on standard output. What is printed is no part of a contract.
ghost use Rattle.std.specs.Prelude.{◌≡◌};
ghost use Rattle.storage.specs.Tasks.{after};
ghost use Rattle.machine.specs.World.{world};
ghost use Rattle.printer.specs.Shows.{acted, performed, after_call, after_calls, lent, own};

use crate::CallOutcome;
use crate::asked::{count_of, fuel_at, ran, saved, verb_at, verb_of};
use crate::listing_lines::{show_creation, show_line, values_listed};
use crate::machine_lines::{show_call, show_machine};
use listing::lines::{line_count, slot_shown};
use machine::Machine;
use machine::new_machines::machine_of;
use std::rt::Stdout;
use storage::Task;

// The listing of a call: its lines, one after the other.
fn show_listing(
    out: Stdout,
    table: &mut [Task],
    stack: &mut [u64; 1000],
    memory: &mut [u8],
    pool: &mut [u8],
    ends: &mut [u32; 1024],
    answered: CallOutcome,
)
    ensures { (table.new ≡ table.old) × (stack.new ≡ stack.old) × (memory.new ≡ memory.old) × (pool.new ≡ pool.old) × (ends.new ≡ ends.old) }
{
    let living = table::slots::living(table);
    let values = values_listed(answered);
    for number in 0..line_count(values, table.len()) {
        let slot = slot_shown(values, number);
        let task = table::get(table, slot);
        show_line(
            out, stack, memory, pool, ends, answered, living, task, number,
        );
    }
}

// One call, by its verb: 2 saves, any other is a run.
#[tactic(auto, unfolding(crate::specs::Shows::performed))]
fn act(
    table: &mut [Task],
    stack: &mut [u64; 1000],
    memory: &mut [u8],
    pool: &mut [u8],
    ends: &mut [u32; 1024],
    save: &mut [u8],
    machine: Machine,
    verb: u8,
    fuel: u64,
) -> CallOutcome
    ensures { acted result table.new stack.new memory.new pool.new ends.new save.new ≡ performed verb fuel (world machine table.old stack.old memory.old pool.old ends.old save.old) }
{
    if verb == 2 {
        let kept = vm::saving::save(table, stack, memory, pool, ends, save, machine);
        return saved(kept);
    }
    let asked = verb_of(verb);
    let report = runner::calling::call(
        table, stack, memory, pool, ends, save, machine, asked, fuel,
    );
    ran(report)
}

// The call of a number, and its lines: the listing, and where everything is shown the call before it and the machine behind it.
#[tactic(auto, unfolding(crate::specs::Shows::after_call))]
fn turn(
    out: Stdout,
    table: &mut [Task],
    stack: &mut [u64; 1000],
    memory: &mut [u8],
    pool: &mut [u8],
    ends: &mut [u32; 1024],
    save: &mut [u8],
    calls: &mut [u8],
    machine: Machine,
    from: usize,
    number: usize,
    everything: bool,
) -> Machine
    ensures { after (world result table.new stack.new memory.new pool.new ends.new save.new) calls.new ≡ after (after_call calls.old from number (world machine table.old stack.old memory.old pool.old ends.old save.old)) calls.old }
{
    let verb = verb_at(calls, from, number);
    let fuel = fuel_at(calls, from, number);
    let answered = act(table, stack, memory, pool, ends, save, machine, verb, fuel);
    show_call(out, verb, fuel, everything);
    show_listing(out, table, stack, memory, pool, ends, answered);
    show_machine(out, memory, save, answered, everything);
    answered.machine
}

// The first so many calls, one after the other, and the machine after them.
#[tactic(auto, using(crate::proofs::Performing::none_yet))]
fn play(
    out: Stdout,
    table: &mut [Task],
    stack: &mut [u64; 1000],
    memory: &mut [u8],
    pool: &mut [u8],
    ends: &mut [u32; 1024],
    save: &mut [u8],
    calls: &mut [u8],
    begun: Machine,
    from: usize,
    count: usize,
    everything: bool,
) -> Machine
    ensures { after (world result table.new stack.new memory.new pool.new ends.new save.new) calls.new ≡ after (after_calls calls.old from count (world begun table.old stack.old memory.old pool.old ends.old save.old)) calls.old }
{
    let mut machine = begun;
    for number in 0..count {
        machine = turn(
            out, table, stack, memory, pool, ends, save, calls, machine, from, number, everything,
        );
    }
    machine
}

// Creates a machine over a blank table, and performs the calls that stand from a place on.
pub fn own(
    out: Stdout,
    stack: &mut [u64; 1000],
    memory: &mut [u8],
    pool: &mut [u8],
    ends: &mut [u32; 1024],
    save: &mut [u8],
    image: &[u8],
    program: &[u8],
    calls: &mut [u8],
    from: usize,
    count: usize,
    everything: bool,
)
    ensures { lent stack.new memory.new pool.new ends.new save.new calls.new ≡ own from count stack.old memory.old pool.old ends.old save.old image.now program.now calls.old }
{
    let blank = storage::task_types::blank();
    let mut table = [blank; 256];
    let creation = vm::creating::create(&mut table, pool, ends, image, program);
    show_creation(out, creation);
    let begun = machine_of(creation);
    let allowed = count_of(creation, count);
    play(
        out, &mut table, stack, memory, pool, ends, save, calls, begun, from, allowed, everything,
    );
}
