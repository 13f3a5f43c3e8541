// The line that tells whether a program is admitted: the kinds at its end, or the refusal.
#![tactic(auto)]

ghost use Rattle.std.specs.Prelude.{◌≡◌};
ghost use Rattle.labels.specs.Check.{admission};
ghost use Rattle.text.specs.Lines.{lined, put_line};
ghost use Rattle.verdict.specs.Verdicts.{line_of_kinds, line_of_verdict};

use errors::Refusal;
use listing::Head;
use listing::head_line::head_line;
use text::Form;
use text::lines::put_line;

// The line of an admitted program with these kinds at its end.
#[tactic(auto, unfolding(crate::specs::Verdicts::line_of_kinds, text::specs::Lines::said, text::specs::Ascii::ascii))]
fn kinds_line(out: &mut [u8], kinds: &[u8]) -> Result<usize, Refusal>
    ensures { lined result out.new ≡ put_line out.old (line_of_kinds kinds.now) }
{
    if kinds.is_empty() {
        put_line(out, b"admitted", &[], Form::Plain, b"")
    } else {
        put_line(out, b"admitted ", &[], Form::Plain, kinds)
    }
}

// The line on a program, put into a lent buffer.
pub fn verdict_line(out: &mut [u8], program: &[u8]) -> Result<usize, Refusal>
    ensures { lined result out.new ≡ put_line out.old (line_of_verdict (admission program.now)) }
{
    let mut kinds = [0u8; 1000];
    match admission::admit(program, &mut kinds) {
        Ok(count) => kinds_line(out, slices::part(&kinds, 0, count)),
        Err(refusal) => head_line(out, true, Head::Refused(refusal)),
    }
}
