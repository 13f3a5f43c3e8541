// Starts and reruns machines whose record, table or pool was forged, one to each condition of refusal 26, and prints what each answers; the first is honest.
#![tactic(auto)]

use inlinevec::Frame;
use machine::new_machines::machine_of;
use machine::{Machine, Outcome, Report, Verb};
use pools::InstructionsRef;
use std::rt::Stdout;
use storage::{Task, TaskId};

// Image I1 (docs/REFERENCE.md, 'The task image'): one task, "Ab", without instructions.
fn one_task() -> [u8; 30] {
    [
        8, 0, 0, 0, 1, 0, 1, 0, 0, 0, 1, 0, 0, 0, 10, 0, 0, 0, 2, 0, 0, 0, 0, 0, 3, 0, 2, 0, b'A',
        b'b',
    ]
}

// The record of a forgery.
fn forged_machine(honest: Machine, number: usize) -> Machine {
    let mut machine = honest;
    let nowhere = Frame {
        entry: InstructionsRef(2),
        place: 0,
    };
    match number {
        // Lengths above their capacity or their buffer: values, loops, memory, the pool, its entries, the saved image.
        1 => machine.height = 1001,
        2 => machine.loops.count = 3,
        3 => machine.memory = 65537,
        4 => machine.pool = 65537,
        5 => machine.entries = 1025,
        6 => machine.saved = 4097,
        // A next id and an S_LEN count above 256, and a count above the next id.
        7 => machine.next_id = TaskId(257),
        8 => {
            machine.next_id = TaskId(257);
            machine.count = 257;
        }
        9 => machine.count = 2,
        // No frame, more frames than two, and frames that name no entry.
        10 => machine.frames.count = 0,
        11 => machine.frames.count = 3,
        12 => machine.frames.first = nowhere,
        13 => {
            machine.frames.count = 2;
            machine.frames.second = nowhere;
        }
        // More bytes in the pool than its last entry ends at.
        14 => machine.pool = 2,
        _ => {}
    }
    machine
}

// The slot that is forged: one past the count, for a living task that no count allows.
fn forged_slot(number: usize) -> usize {
    if number == 17 { 1 } else { 0 }
}

// A living slot whose id is not its place, is not below the count, or whose title or state breaks its limits.
fn forged_task(held: Task, number: usize) -> Task {
    let mut task = held;
    match number {
        16 => task.id = TaskId(1),
        17 => {
            task.living = true;
            task.id = TaskId(1);
            task.state.len = 1;
        }
        18 => task.title_len = 129,
        19 => task.state.state = 3,
        _ => {}
    }
    task
}

// An end that falls.
fn forge_end(ends: &mut [u32; 1024], number: usize) {
    if number == 15 {
        ends[0] = 2;
    }
}

// The name of a call.
fn name_of(verb: Verb) -> &'static str {
    match verb {
        Verb::Start => "start",
        Verb::Rerun => "rerun",
        Verb::Continue => "continue",
    }
}

// What a call answers.
fn show(out: Stdout, number: usize, verb: Verb, report: Report) {
    let name = name_of(verb);
    let finished = report.finished;
    let _ = match report.outcome {
        Outcome::Done => println!(out; "forged {number}, {name}: done {finished}"),
        Outcome::Paused => println!(out; "forged {number}, {name}: paused {finished}"),
        Outcome::Refused(refusal) => {
            let refused = errors::number_of(refusal);
            println!(out; "forged {number}, {name}: refused {refused}")
        }
    };
}

// Creates a machine over one task, forges it, and starts or reruns it.
fn attempt(
    out: Stdout,
    table: &mut [Task],
    stack: &mut [u64; 1000],
    memory: &mut [u8],
    pool: &mut [u8],
    ends: &mut [u32; 1024],
    save: &mut [u8],
    number: usize,
    verb: Verb,
) {
    let honest = machine_of(vm::creating::create(table, pool, ends, &one_task(), &[13]));
    let forged = forged_machine(honest, number);
    let slot = forged_slot(number);
    let task = forged_task(table::get(table, slot), number);
    table::put(table, slot, task);
    forge_end(ends, number);
    let report = runner::calling::call(table, stack, memory, pool, ends, save, forged, verb, 9);
    show(out, number, verb, report);
}

// One forgery, over a blank table and buffers of its own.
fn forge(out: Stdout, number: usize, verb: Verb) {
    let mut table = [storage::task_types::blank(); 256];
    let mut stack = [0u64; 1000];
    let mut memory = [0u8; 65536];
    let mut pool = [0u8; 65536];
    let mut ends = [0u32; 1024];
    let mut save = [0u8; 4096];
    attempt(
        out,
        &mut table,
        &mut stack,
        &mut memory,
        &mut pool,
        &mut ends,
        &mut save,
        number,
        verb,
    );
}

fn main(rt: HostRuntime) {
    for number in 0..20 {
        for verb in [Verb::Start, Verb::Rerun] {
            forge(rt.stdout(), number, verb);
        }
    }
}
