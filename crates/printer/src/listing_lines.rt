// A line of the listing on standard output. What is printed is no part of a contract.
ghost use Rattle.std.specs.Prelude.{◌≡◌};
ghost use Rattle.text.specs.Lines.{lined, put_line};
ghost use Rattle.printer.specs.Listed.{values_listed, call_line};

use crate::{CallOutcome, emit};
use errors::Refusal;
use listing::Head;
use listing::lines::{height_of, line_at, line_count, words_of};
use machine::Machine;
use std::rt::Stdout;
use storage::Task;

// How many values are listed: no more than a stack has.
#[tactic(auto, unfolding(crate::specs::Listed::values_listed))]
pub(crate) fn values_listed(answered: CallOutcome) -> usize
    ensures { result ≡ values_listed answered }
{
    height_of(answered.head, answered.machine.height).min(1000)
}

// A line of the listing of a call, by its number, into a room.
fn call_line<'a>(
    room: &mut [u8],
    stack: &[u64],
    memory: &'a [u8],
    pool: &'a [u8],
    ends: &[u32; 1024],
    answered: CallOutcome,
    living: usize,
    task: Task,
    number: usize,
) -> Result<usize, Refusal>
    ensures { lined result room.new ≡ put_line room.old (call_line answered stack.now memory.now pool.now ends.now living task number) }
{
    let words = words_of(stack, values_listed(answered));
    let used = slices::part(memory, 0, answered.machine.memory);
    line_at(
        room,
        words,
        used,
        pool,
        ends,
        answered.head,
        answered.machine.entries,
        living,
        task,
        number,
    )
}

// A line of the listing of a call, by its number, with the count of living tasks and the task in the line's slot.
pub(crate) fn show_line(
    out: Stdout,
    stack: &mut [u64; 1000],
    memory: &mut [u8],
    pool: &mut [u8],
    ends: &mut [u32; 1024],
    answered: CallOutcome,
    living: usize,
    task: Task,
    number: usize,
)
    ensures { (stack.new ≡ stack.old) × (memory.new ≡ memory.old) × (pool.new ≡ pool.old) × (ends.new ≡ ends.old) }
{
    let mut room = [0u8; 4096];
    let line = call_line(
        &mut room, stack, memory, pool, ends, answered, living, task, number,
    );
    if line.is_ok() {
        emit(out, &room, line);
    } else {
        // Any value's line: a text of 65,535 bytes, each escaped, 16,383 numbers, or 65,536 bytes in hex.
        let mut large = [0u8; 196611];
        let long = call_line(
            &mut large, stack, memory, pool, ends, answered, living, task, number,
        );
        emit(out, &large, long);
    }
}

// The listing of a refusal with no values and no tasks.
fn show_refusal(out: Stdout, refusal: Refusal) {
    let ends = [0u32; 1024];
    let blank = storage::task_types::blank();
    let mut room = [0u8; 4096];
    for number in 0..line_count(0, 0) {
        let line = line_at(
            &mut room,
            &[],
            &[],
            &[],
            &ends,
            Head::Refused(refusal),
            0,
            0,
            blank,
            number,
        );
        emit(out, &room, line);
    }
}

// A creation that was refused.
pub(crate) fn show_creation(out: Stdout, creation: Result<Machine, Refusal>)
    ensures { result ≡ tt }
{
    if let Err(refusal) = creation {
        show_refusal(out, refusal);
    }
}
