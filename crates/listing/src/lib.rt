// The listing (docs/REFERENCE.md, 'The listing'): what its first line tells, and its counts, a line at a time, put into a lent buffer or only measured.
#![tactic(auto)]

pub mod head_line;
pub mod lines;
pub mod task_line;
pub mod value_line;

ghost use Rattle.std.specs.Prelude.{◌≡◌, [], ◌∷◌};
ghost use Rattle.text.specs.Lines.{said, lined, tell_line};
ghost use Rattle.listing.specs.Listing.{line_of_count};

use errors::Refusal;
use text::Form;
use text::lines::tell_line;

// How a call ended: a run, with its finished instructions, or a host save, with its length.
#[derive(Clone, Copy)]
pub enum Head {
    Done(u64),
    Paused(u64),
    Refused(Refusal),
    Saved(usize),
}

// What is counted.
#[derive(Drop)]
pub enum Counted {
    Values,
    Tasks,
}

// A line of a template and one number.
#[tactic(auto, unfolding(text::specs::Lines::said))]
pub(crate) fn say(
    out: &mut [u8],
    writes: bool,
    template: &[u8],
    number: u64,
) -> Result<usize, Refusal>
    ensures { lined result out.new ≡ tell_line writes out.old (said template.now (number ∷ [])) }
{
    tell_line(out, writes, template, &[number], Form::Plain, b"")
}

// How many values, or tasks, follow.
#[tactic(auto, unfolding(crate::specs::Listing::line_of_count, text::specs::Ascii::ascii))]
pub fn count_line(
    out: &mut [u8],
    writes: bool,
    counted: Counted,
    count: usize,
) -> Result<usize, Refusal>
    ensures { lined result out.new ≡ tell_line writes out.old (line_of_count counted count) }
{
    match counted {
        Counted::Values => say(out, writes, b"values #", count as u64),
        Counted::Tasks => say(out, writes, b"tasks #", count as u64),
    }
}
