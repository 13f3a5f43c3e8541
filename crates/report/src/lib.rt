// What `replay` prints beside the listing, a line at a time into a lent buffer.
#![tactic(auto)]

pub mod report_words;

ghost use Rattle.std.specs.Prelude.{◌≡◌};
ghost use Rattle.text.specs.Lines.{said, lined, put_line};
ghost use Rattle.report.specs.Reports.{line_of_report};

use errors::Refusal;
use inlinevec::{Frame, Loop};
use machine::Machine;
use text::Form;
use text::lines::put_line;

// A line: a case, a call, the machine after it with its open loops and its frames, or the place of a batch that breaks its form.
#[derive(Drop)]
pub enum Report {
    Case(usize),
    Start(u64),
    Rerun(u64),
    Continue(u64),
    Save,
    After(Machine),
    Open(Loop),
    Called(Frame),
    BadBatch(usize),
}

// The words around bytes in hex, which `report_words` puts there.
#[derive(Drop)]
pub enum Word {
    Memory,
    Image,
    LineEnd,
}

// A line of a template and its numbers.
#[tactic(auto, unfolding(text::specs::Lines::said))]
fn say(out: &mut [u8], template: &[u8], numbers: &[u64]) -> Result<usize, Refusal>
    ensures { lined result out.new ≡ put_line out.old (said template.now numbers.now) }
{
    put_line(out, template, numbers, Form::Plain, b"")
}

// The line of a machine.
#[tactic(auto, unfolding(crate::specs::Reports::line_of_report, text::specs::Ascii::ascii))]
fn machine_line(out: &mut [u8], machine: Machine) -> Result<usize, Refusal>
    ensures { lined result out.new ≡ put_line out.old (line_of_report (Report.After machine)) }
{
    let numbers = [
        machine.height as u64,
        machine.memory as u64,
        machine.pool as u64,
        machine.entries as u64,
        machine.next_id.0 as u64,
        machine.count as u64,
        machine.saved as u64,
    ];
    say(
        out,
        b"machine height # memory # pool # entries # next # count # saved #",
        &numbers,
    )
}

// A line of a report.
#[tactic(auto, unfolding(crate::specs::Reports::line_of_report, text::specs::Ascii::ascii))]
pub fn report_line(out: &mut [u8], report: Report) -> Result<usize, Refusal>
    ensures { lined result out.new ≡ put_line out.old (line_of_report report) }
{
    match report {
        Report::Case(index) => say(out, b"case #", &[index as u64]),
        Report::Start(fuel) => say(out, b"start #", &[fuel]),
        Report::Rerun(fuel) => say(out, b"rerun #", &[fuel]),
        Report::Continue(fuel) => say(out, b"continue #", &[fuel]),
        Report::Save => say(out, b"save", &[]),
        Report::After(machine) => machine_line(out, machine),
        Report::Open(open) => say(
            out,
            b"loop # # #",
            &[open.place as u64, open.index as u64, open.limit as u64],
        ),
        Report::Called(frame) => {
            say(
                out,
                b"frame # #",
                &[frame.entry.0 as u64, frame.place as u64],
            )
        }
        Report::BadBatch(at) => say(out, b"bad batch at #", &[at as u64]),
    }
}
