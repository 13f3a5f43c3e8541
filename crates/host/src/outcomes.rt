// What a creation, a run and a save come to, between the calls of the machine.
ghost use Rattle.std.specs.Prelude.{◌≡◌};
ghost use Rattle.host.specs.Hosting.{unsavable, to_save, performed};
ghost use Rattle.host.specs.Listings.{head_of};

use crate::answering::ListingLengths;
use crate::hosting::RunSummary;
use errors::Refusal;
use listing::Head;
use machine::{Machine, Outcome, Report, SaveReport};
use storage::TaskId;

// A machine that no save takes: its next id is above 256.
fn unsavable(machine: Machine) -> Machine
    ensures { result ≡ unsavable machine }
{
    Machine {
        next_id: TaskId(257),
        ..machine
    }
}

// The machine that is saved: one that no save takes, if the run was refused.
#[tactic(auto, unfolding(crate::specs::Hosting::machine_to_save))]
pub(crate) fn to_save(report: Report) -> Machine
    ensures { result ≡ to_save report }
{
    match report.outcome {
        Outcome::Done | Outcome::Paused => report.machine,
        Outcome::Refused(_) => unsavable(report.machine),
    }
}

// How a run ended.
#[tactic(auto, unfolding(crate::specs::Listings::head_of, crate::specs::Listings::run_head))]
pub(crate) fn head_of(creation: Result<Machine, Refusal>, report: Report) -> Head
    ensures { result ≡ head_of creation report }
{
    if let Err(refusal) = creation {
        return Head::Refused(refusal);
    }
    match report.outcome {
        Outcome::Done => Head::Done(report.finished),
        Outcome::Paused => Head::Paused(report.finished),
        Outcome::Refused(refusal) => Head::Refused(refusal),
    }
}

// What came of it all.
#[tactic(auto, unfolding(crate::specs::Hosting::performed))]
pub(crate) fn performed(
    creation: Result<Machine, Refusal>,
    report: Report,
    saved: SaveReport,
    listing: ListingLengths,
) -> RunSummary
    ensures { result ≡ performed creation report saved listing }
{
    RunSummary {
        head: head_of(creation, report),
        finished: report.finished,
        save: saved.result,
        saved: saved.machine.saved,
        listing,
    }
}
