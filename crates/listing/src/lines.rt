// The lines of a listing by their numbers, counted from 0: the words that are listed, how many lines there are, the slot that each shows, and each of them into a lent buffer.
ghost use Rattle.std.specs.Prelude.{◌≡◌, ◌%◌, ◌^◌, take};
ghost use Rattle.text.specs.Lines.{lined, put_line};
ghost use Rattle.listing.specs.Listing.{height_of, values_read, line_by, line_count, slot_shown};

use crate::head_line::head_line;
use crate::task_line::task_line;
use crate::value_line::value_line;
use crate::{Counted, Head, count_line};
use errors::Refusal;
use storage::Task;

// How high the stack is that is listed: that of a run that is done.
#[tactic(auto, unfolding(crate::specs::Listing::height_of))]
pub fn height_of(head: Head, height: usize) -> usize
    ensures { result ≡ height_of head height }
{
    match head {
        Head::Done(_) => height,
        Head::Paused(_) | Head::Refused(_) | Head::Saved(_) => 0,
    }
}

// The words of a stack that are listed: the first so many.
pub fn words_of(stack: &[u64], height: usize) -> &[u64]
    ensures { result.now ≡ take height stack.now }
{
    &stack[..height.min(stack.len())]
}

// How many lines there are to so many values and slots, as 64 bits hold it.
#[tactic(auto, unfolding(crate::specs::Listing::line_count))]
pub fn line_count(values: usize, slots: usize) -> usize
    ensures { result ≡ line_count values slots % 2 ^ 64 }
{
    values.wrapping_add(3).wrapping_add(slots)
}

// The slot that a line shows, where so many values are listed; the first one for a line before the tasks.
#[tactic(auto, unfolding(crate::specs::Listing::slot_shown))]
pub fn slot_shown(values: usize, number: usize) -> usize
    ensures { result ≡ slot_shown values number }
{
    number.saturating_sub(3).saturating_sub(values)
}

// A line by its number, with the words that are listed, the count of living tasks and the task in the line's slot.
pub fn line_at(
    out: &mut [u8],
    words: &[u64],
    memory: &[u8],
    pool: &[u8],
    ends: &[u32; 1024],
    head: Head,
    entries: usize,
    living: usize,
    task: Task,
    number: usize,
) -> Result<usize, Refusal>
    ensures { lined result out.new ≡ put_line out.old (line_by head (values_read memory.now pool.now ends.now entries words.now) living task number) }
{
    if number == 0 {
        return head_line(out, true, head);
    }
    if number == 1 {
        return count_line(out, true, Counted::Values, words.len());
    }
    let position = number - 2;
    if position < words.len() {
        let kind = memory::unbox::unbox_value(memory, ends, entries, words[position]);
        return value_line(out, memory, pool, ends, true, kind);
    }
    if position == words.len() {
        return count_line(out, true, Counted::Tasks, living);
    }
    task_line(out, true, task)
}
