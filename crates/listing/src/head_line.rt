// The first line of a listing.
ghost use Rattle.std.specs.Prelude.{◌≡◌};
ghost use Rattle.errors.specs.Refusals.{number_of, details_of};
ghost use Rattle.text.specs.Lines.{lined, tell_line};
ghost use Rattle.listing.specs.Listing.{line_of_refusal, line_of_head};

use crate::{Head, say};
use errors::{Details, Refusal};
use text::Form;
use text::lines::tell_line;

// The first line of a refused call.
fn refusal_line(out: &mut [u8], writes: bool, refusal: Refusal) -> Result<usize, Refusal>
    ensures { lined result out.new ≡ tell_line writes out.old (line_of_refusal (number_of refusal) (details_of refusal)) }
{
    let number = errors::number_of(refusal) as u64;
    match errors::details_of(refusal) {
        Details::Nothing => say(out, writes, b"refused #", number),
        Details::One(detail) => {
            let numbers = [number, detail as u64];
            tell_line(out, writes, b"refused # #", &numbers, Form::Plain, b"")
        }
        Details::Two(detail, second) => {
            let numbers = [number, detail as u64, second as u64];
            tell_line(out, writes, b"refused # # #", &numbers, Form::Plain, b"")
        }
    }
}

// The first line.
#[tactic(auto, unfolding(crate::specs::Listing::line_of_head, text::specs::Ascii::ascii))]
pub fn head_line(out: &mut [u8], writes: bool, head: Head) -> Result<usize, Refusal>
    ensures { lined result out.new ≡ tell_line writes out.old (line_of_head head) }
{
    match head {
        Head::Done(count) => say(out, writes, b"done #", count),
        Head::Paused(count) => say(out, writes, b"paused #", count),
        Head::Refused(refusal) => refusal_line(out, writes, refusal),
        Head::Saved(length) => say(out, writes, b"saved #", length as u64),
    }
}
