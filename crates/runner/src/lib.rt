// A machine that runs: start and continue, and the run itself, whose functions carry the lent table of tasks from instruction to instruction.
#![tactic(auto)]

mod act;
pub mod calling;
mod progress;
mod states;
mod wanted;

ghost use Rattle.std.specs.Prelude.{◌≡◌};
ghost use Rattle.mechanism.specs.Changes.{applied};
ghost use Rattle.machine.specs.World.{world};
ghost use Rattle.runner.specs.Going.{going, acting, task_turn, act_turn, entering, call_turn, saving, save_turn, turn};
ghost use Rattle.machine.specs.Run.{ran_to, run};

use crate::act::act;
use crate::progress::{called, going_on, returned, saved, turned};
use crate::states::stated;
use crate::wanted::{named, wanted};
use bytecode::opcodes::{CALL, END_CALL, S_SAVE};
use machine::{Machine, RunEnd};
use mechanism::{Change, Progress, Standing};
use stepper::advance::advance;
use storage::Task;

// What an instruction changes in the slot that it names.
#[tactic(auto, unfolding(mechanism::specs::Changes::applied))]
fn apply(table: &mut [Task], slot: usize, change: Change)
    ensures { table.new ≡ applied table.old slot change }
{
    match change {
        Change::Keep => {}
        Change::Put(task) => table::put(table, slot, task),
        Change::Restate(state) => {
            let _answer = table::set_state_at(table, slot, state);
        }
    }
}

// The instruction at hand, on the record of the slot it names.
#[tactic(auto, unfolding(crate::specs::Going::task_turn, crate::specs::Going::acted))]
fn task_turn(
    table: &mut [Task],
    stack: &mut [u64; 1000],
    memory: &mut [u8],
    pool: &mut [u8],
    ends: &mut [u32; 1024],
    machine: Machine,
    left: u64,
    op: u8,
) -> Progress
    ensures { acting result table.new stack.new memory.new pool.new ends.new ≡ task_turn table.old stack.old memory.old pool.old ends.old machine left op }
{
    let slot = wanted(stack, machine, op);
    let task = table::get(table, slot);
    match act(stack, memory, pool, ends, machine, task) {
        Ok((after, change)) => {
            apply(table, slot, change);
            turned(machine, left, Ok(after))
        }
        Err(refusal) => turned(machine, left, Err(refusal)),
    }
}

// CALL, at hand.
#[tactic(auto, unfolding(crate::specs::Going::call_turn))]
fn call_turn(
    table: &mut [Task],
    stack: &mut [u64; 1000],
    ends: &mut [u32; 1024],
    machine: Machine,
    left: u64,
) -> Progress
    ensures { entering result table.new stack.new ends.new ≡ call_turn table.old stack.old ends.old machine left }
{
    let slot = named(stack, machine.height);
    let task = table::get(table, slot);
    called(stack, ends, machine, left, task)
}

// The instruction at hand. CALL, END_CALL and those on a state have their own way: where all came together, each carried the whole record of a slot.
#[tactic(auto, unfolding(crate::specs::Going::act_turn, crate::specs::Going::state_turned))]
fn act_turn(
    table: &mut [Task],
    stack: &mut [u64; 1000],
    memory: &mut [u8],
    pool: &mut [u8],
    ends: &mut [u32; 1024],
    machine: Machine,
    left: u64,
    op: u8,
) -> Progress
    ensures { acting result table.new stack.new memory.new pool.new ends.new ≡ act_turn table.old stack.old memory.old pool.old ends.old machine left op }
{
    if op == END_CALL {
        return returned(machine, left);
    }
    if op == CALL {
        return call_turn(table, stack, ends, machine, left);
    }
    let slot = wanted(stack, machine, op);
    let task = table::get(table, slot);
    match stated(stack, machine, op, task) {
        None => task_turn(table, stack, memory, pool, ends, machine, left, op),
        Some((after, change)) => {
            apply(table, slot, change);
            turned(machine, left, Ok(after))
        }
    }
}

// S_SAVE, at hand.
#[tactic(auto, unfolding(crate::specs::Going::save_turn))]
fn save_turn(
    table: &mut [Task],
    pool: &mut [u8],
    ends: &mut [u32; 1024],
    save: &mut [u8],
    machine: Machine,
    left: u64,
) -> Progress
    ensures { saving result table.new pool.new ends.new save.new ≡ save_turn table.old pool.old ends.old save.old machine left }
{
    let result = table_image::save_table(table, pool, ends, save, machine.entries, machine.next_id);
    saved(machine, left, result)
}

// The instruction at hand; where none is, all stays as it is.
#[tactic(auto, unfolding(crate::specs::Going::turn_by))]
fn turn(
    table: &mut [Task],
    stack: &mut [u64; 1000],
    memory: &mut [u8],
    pool: &mut [u8],
    ends: &mut [u32; 1024],
    save: &mut [u8],
    progress: Progress,
) -> Progress
    ensures { going result table.new stack.new memory.new pool.new ends.new save.new ≡ turn (going progress table.old stack.old memory.old pool.old ends.old save.old) }
{
    match progress.standing {
        Standing::AtHand(S_SAVE) => {
            save_turn(table, pool, ends, save, progress.machine, progress.left)
        }
        Standing::AtHand(op) => act_turn(
            table,
            stack,
            memory,
            pool,
            ends,
            progress.machine,
            progress.left,
            op,
        ),
        Standing::Going | Standing::Ended(_) => progress,
    }
}

// The run: at most so many instructions.
pub fn run(
    table: &mut [Task],
    stack: &mut [u64; 1000],
    memory: &mut [u8],
    pool: &mut [u8],
    ends: &mut [u32; 1024],
    save: &mut [u8],
    machine: Machine,
    fuel: u64,
) -> RunEnd
    ensures { ran_to result table.new stack.new memory.new pool.new ends.new save.new ≡ run fuel (world machine table.old stack.old memory.old pool.old ends.old save.old) }
{
    let mut progress = going_on(machine, fuel);
    loop {
        if let Standing::Ended(outcome) = progress.standing {
            return RunEnd {
                machine: progress.machine,
                left: progress.left,
                outcome,
            };
        }
        progress = advance(stack, memory, pool, ends, progress.machine, progress.left);
        progress = turn(table, stack, memory, pool, ends, save, progress);
    }
}
