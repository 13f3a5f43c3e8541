// Start, rerun and continue: what they begin with, the run, and what they make of its end.
ghost use Rattle.std.specs.Prelude.{◌≡◌};
ghost use Rattle.machine.specs.Machines.{rewound};
ghost use Rattle.machine.specs.Calls.{may_start, may_continue, allows, fresh, begun, allowed, phased, ended, spent, report, not_allowed, reported, call};
ghost use Rattle.machine.specs.World.{world};

use crate::run;
use errors::Refusal;
use machine::new_machines::at_main;
use machine::{Machine, Outcome, Phase, Report, RunEnd, Verb};
use mechanism::machines::{registers_of, settled};
use mechanism::stack::moved;
use storage::Task;
use vm::sound::sound;

// Whether a run may start, from main or again: on a new machine, or after one that is done.
#[tactic(auto, unfolding(machine::specs::Calls::may_start))]
fn may_start(phase: Phase) -> bool
    ensures { result ≡ may_start phase }
{
    matches!(phase, Phase::New | Phase::Done)
}

// Whether a run may go on.
#[tactic(auto, unfolding(machine::specs::Calls::may_continue))]
fn may_continue(phase: Phase) -> bool
    ensures { result ≡ may_continue phase }
{
    matches!(phase, Phase::Paused)
}

// Whether a phase allows a call.
fn allows(verb: Verb, phase: Phase) -> bool
    ensures { result ≡ allows verb phase }
{
    match verb {
        Verb::Start | Verb::Rerun => may_start(phase),
        Verb::Continue => may_continue(phase),
    }
}

// Whether a call is allowed: where the record is sound, by its phase.
#[tactic(auto, unfolding(machine::specs::Calls::allowed))]
fn allowed(machine: Machine, sound: bool, verb: Verb) -> bool
    ensures { result ≡ (allowed machine sound verb).allowed }
{
    sound && allows(verb, machine.phase)
}

// A start or a rerun: no memory in use, no values.
fn fresh(machine: Machine) -> Machine
    ensures { result ≡ fresh machine }
{
    Machine {
        height: 0,
        memory: 0,
        ..machine
    }
}

// What a call begins with: a start at main, with no loop open; a rerun with frames and loops as the run before left them.
fn begun(machine: Machine, verb: Verb) -> Machine
    ensures { result ≡ begun verb machine }
{
    match verb {
        Verb::Start => fresh(at_main(machine)),
        Verb::Rerun => fresh(machine),
        Verb::Continue => machine,
    }
}

// The machine at its code's start.
#[tactic(auto, unfolding(machine::specs::Machines::rewound, machine::specs::Machines::placed, mechanism::specs::Registers::settled, mechanism::specs::Registers::registers_of))]
fn rewound(machine: Machine) -> Machine
    ensures { result ≡ rewound machine }
{
    let registers = registers_of(machine);
    settled(machine, moved(registers, 0, machine.height))
}

// The machine in a phase.
fn phased(machine: Machine, phase: Phase) -> Machine
    ensures { result ≡ phased machine phase }
{
    Machine { phase, ..machine }
}

// The machine at the end of a run.
#[tactic(auto, unfolding(machine::specs::Calls::ended))]
fn ended(machine: Machine, outcome: Outcome) -> Machine
    ensures { result ≡ ended machine outcome }
{
    match outcome {
        Outcome::Done => phased(rewound(machine), Phase::Done),
        Outcome::Paused => phased(machine, Phase::Paused),
        Outcome::Refused(_) => phased(machine, Phase::Stopped),
    }
}

// The instructions that a run has finished: one to a unit of fuel.
fn spent(fuel: u64, left: u64) -> u64
    ensures { result ≡ spent fuel left }
{
    fuel.saturating_sub(left)
}

// What a run reports.
#[tactic(auto, unfolding(machine::specs::Calls::report))]
fn report(fuel: u64, ran: RunEnd) -> Report
    ensures { result ≡ report fuel ran }
{
    Report {
        machine: ended(ran.machine, ran.outcome),
        finished: spent(fuel, ran.left),
        outcome: ran.outcome,
    }
}

// What a call reports that is not allowed: the machine as it was.
fn not_allowed(machine: Machine) -> Report
    ensures { result ≡ not_allowed machine }
{
    Report {
        machine,
        finished: 0,
        outcome: Outcome::Refused(Refusal::WrongPhaseOrUnsound),
    }
}

// A run that starts at main, starts again from where the last one ended, or goes on where it paused, if that is allowed.
#[tactic(auto, unfolding(machine::specs::Calls::call, machine::specs::Calls::call_with, machine::specs::Calls::allowed))]
pub fn call(
    table: &mut [Task],
    stack: &mut [u64; 1000],
    memory: &mut [u8],
    pool: &mut [u8],
    ends: &mut [u32; 1024],
    save: &mut [u8],
    machine: Machine,
    verb: Verb,
    fuel: u64,
) -> Report
    ensures { reported result table.new stack.new memory.new pool.new ends.new save.new ≡ call verb fuel (world machine table.old stack.old memory.old pool.old ends.old save.old) }
{
    let good = sound(table, memory, pool, ends, save, machine);
    if !allowed(machine, good, verb) {
        return not_allowed(machine);
    }
    let begins = begun(machine, verb);
    let ran = run(table, stack, memory, pool, ends, save, begins, fuel);
    report(fuel, ran)
}
