// Lines on standard output: one that stands in a buffer, and one beside the listing. What is printed is no part of a contract: `std` says nothing about standard output.
#![tactic(auto)]

mod asked;
mod listing_lines;
mod machine_lines;
pub mod shows;

ghost use Rattle.std.specs.Prelude.{◌≡◌};

use errors::Refusal;
use listing::Head;
use machine::Machine;
use report::Report;
use std::rt::Stdout;

// What came of a call: the machine after it, and how it ended.
#[derive(Clone, Copy)]
pub struct CallOutcome {
    pub machine: Machine,
    pub head: Head,
}

// Writes a line.
pub(crate) fn emit(out: Stdout, room: &[u8], line: Result<usize, Refusal>)
    ensures { result ≡ tt }
{
    if let Ok(length) = line {
        streams::write(out, slices::part(room, 0, length));
    }
}

// A line beside the listing.
pub(crate) fn show_report(out: Stdout, report: Report)
    ensures { result ≡ tt }
{
    let mut room = [0u8; 4096];
    let line = report::report_line(&mut room, report);
    emit(out, &room, line);
}
