// What a host asks of a machine as nine bytes: a verb, 0 to start, 1 to continue, 2 to save, 3 to rerun, and its fuel, little-endian; and what came of it.
ghost use Rattle.std.specs.Prelude.{◌≡◌};
ghost use Rattle.storage.specs.Tasks.{after};
ghost use Rattle.printer.specs.Asked.{call_at, verb_at, fuel_at, verb_of, ended, ran, kept, saved, count_of};

use crate::CallOutcome;
use errors::Refusal;
use listing::Head;
use machine::{Machine, Outcome, Report, SaveReport, Verb};
use slices::get_or;

// The bytes of a call, which stand from a place on; none past the last one.
#[tactic(auto, using(crate::proofs::Bytes::no_call, crate::proofs::Bytes::a_call))]
fn call_at<'a>(calls: &'a [u8], from: usize, number: usize) -> &'a [u8]
    ensures { result.now ≡ call_at calls.now from number }
{
    let rest = slices::part(calls, from, calls.len());
    if rest.len() / 9 <= number {
        return &[];
    }
    &rest[number * 9..number * 9 + 9]
}

// The verb of a call; a save past the last one.
#[tactic(auto, unfolding(crate::specs::Asked::verb_at))]
pub(crate) fn verb_at(calls: &mut [u8], from: usize, number: usize) -> u8
    ensures { after result calls.new ≡ after (verb_at calls.old from number) calls.old }
{
    get_or(call_at(calls, from, number), 0, 2)
}

// The fuel of a call.
#[tactic(auto, unfolding(crate::specs::Asked::fuel_at), using(crate::proofs::Bytes::eight_read))]
pub(crate) fn fuel_at(calls: &mut [u8], from: usize, number: usize) -> u64
    ensures { after result calls.new ≡ after (fuel_at calls.old from number) calls.old }
{
    let call = call_at(calls, from, number);
    u64::from_le_bytes([
        get_or(call, 1, 0),
        get_or(call, 2, 0),
        get_or(call, 3, 0),
        get_or(call, 4, 0),
        get_or(call, 5, 0),
        get_or(call, 6, 0),
        get_or(call, 7, 0),
        get_or(call, 8, 0),
    ])
}

// What a call asks of a run: 0 to start, 3 to rerun, any other to continue.
#[tactic(auto, unfolding(crate::specs::Asked::verb_of))]
pub(crate) fn verb_of(number: u8) -> Verb
    ensures { result ≡ verb_of number }
{
    match number {
        0 => Verb::Start,
        3 => Verb::Rerun,
        _ => Verb::Continue,
    }
}

// How a run ended.
#[tactic(auto, unfolding(crate::specs::Asked::ended))]
fn ended(finished: u64, outcome: Outcome) -> Head
    ensures { result ≡ ended finished outcome }
{
    match outcome {
        Outcome::Done => Head::Done(finished),
        Outcome::Paused => Head::Paused(finished),
        Outcome::Refused(refusal) => Head::Refused(refusal),
    }
}

// What came of a run.
#[tactic(auto, unfolding(crate::specs::Asked::ran))]
pub(crate) fn ran(report: Report) -> CallOutcome
    ensures { result ≡ ran report }
{
    CallOutcome {
        machine: report.machine,
        head: ended(report.finished, report.outcome),
    }
}

// How a save ended.
#[tactic(auto, unfolding(crate::specs::Asked::kept))]
fn kept(res: Result<usize, Refusal>) -> Head
    ensures { result ≡ kept res }
{
    match res {
        Ok(length) => Head::Saved(length),
        Err(refusal) => Head::Refused(refusal),
    }
}

// What came of a save.
#[tactic(auto, unfolding(crate::specs::Asked::saved))]
pub(crate) fn saved(report: SaveReport) -> CallOutcome
    ensures { result ≡ saved report }
{
    CallOutcome {
        machine: report.machine,
        head: kept(report.result),
    }
}

// How many calls are performed: none without a machine.
#[tactic(auto, unfolding(crate::specs::Asked::count_of))]
pub(crate) fn count_of(creation: Result<Machine, Refusal>, count: usize) -> usize
    ensures { result ≡ count_of creation count }
{
    if creation.is_ok() { count } else { 0 }
}
