// The line of a task.
ghost use Rattle.std.specs.Prelude.{◌≡◌};
ghost use Rattle.text.specs.Lines.{lined, tell_line};
ghost use Rattle.listing.specs.Listing.{title_form, line_of_task};

use errors::Refusal;
use storage::Task;
use text::Form;
use text::lines::tell_line;

// How a title is shown.
#[tactic(auto, unfolding(crate::specs::Listing::title_form))]
fn title_form(title: &[u8]) -> Form
    ensures { result ≡ title_form title.now }
{
    if utf8::is_utf8(title) {
        Form::Escaped
    } else {
        Form::Ascii
    }
}

// A task; nothing for a slot that is not living.
#[tactic(auto, unfolding(crate::specs::Listing::line_of_task, text::specs::Ascii::ascii), using(crate::proofs::Forms::no_line))]
pub fn task_line(out: &mut [u8], writes: bool, task: Task) -> Result<usize, Refusal>
    ensures { lined result out.new ≡ tell_line writes out.old (line_of_task task) }
{
    if !task.living {
        return Ok(0);
    }
    // a copy of the title alone: where the task's own is read, the whole task is copied (measured)
    let held = task.title;
    let title = slices::part(&held, 0, task.title_len);
    let numbers = [task.id.0 as u64, task.state.state as u64];
    tell_line(
        out,
        writes,
        b"task # # ",
        &numbers,
        title_form(title),
        title,
    )
}
