// Lines behind one another: put into a lent buffer, or only measured.
ghost use Rattle.std.specs.Prelude.{◌≡◌, Ok};
ghost use Rattle.storage.specs.Tasks.{after};
ghost use Rattle.text.specs.Lines.{lined};
ghost use Rattle.listing.specs.Listing.{read_of, values_read, line_of_count, line_of_value};
ghost use Rattle.host.specs.Lines.{line_start, counted, behind, next_task, tell_values, tell_tasks};

use errors::Refusal;
use listing::Counted;
use storage::Task;

// Where a line goes: behind those so far, where it is put.
fn line_start(writes: bool, at: usize) -> usize
    ensures { result ≡ line_start writes at }
{
    if writes { at } else { 0 }
}

// The length of the lines so far and of one more, where 64 bits hold it.
#[tactic(auto, unfolding(crate::specs::Lines::counted))]
fn counted(at: usize, line: Result<usize, Refusal>) -> Result<usize, Refusal>
    ensures { result ≡ counted at line }
{
    let length = line?;
    at.checked_add(length).ok_or(Refusal::SaveBufferTooShort)
}

// How many values, or tasks, follow, behind the lines so far.
pub(crate) fn tell_count(
    out: &mut [u8],
    at: usize,
    writes: bool,
    what: Counted,
    count: usize,
) -> Result<usize, Refusal>
    ensures { lined result out.new ≡ behind writes at out.old (line_of_count what count) }
{
    let start = line_start(writes, at);
    if out.len() < start {
        return Err(Refusal::SaveBufferTooShort);
    }
    counted(
        at,
        listing::count_line(&mut out[start..], writes, what, count),
    )
}

// A value, behind the lines so far.
fn tell_value(
    out: &mut [u8],
    memory: &[u8],
    pool: &[u8],
    ends: &[u32; 1024],
    at: usize,
    writes: bool,
    entries: usize,
    word: u64,
) -> Result<usize, Refusal>
    ensures { lined result out.new ≡ behind writes at out.old (line_of_value (read_of memory.now pool.now ends.now entries word).answer (read_of memory.now pool.now ends.now entries word).part) }
{
    let start = line_start(writes, at);
    if out.len() < start {
        return Err(Refusal::SaveBufferTooShort);
    }
    let kind = memory::unbox::unbox_value(memory, ends, entries, word);
    let tail = &mut out[start..];
    counted(
        at,
        listing::value_line::value_line(tail, memory, pool, ends, writes, kind),
    )
}

// A task, behind the lines so far; a slot that is not living leaves them.
fn tell_task(out: &mut [u8], at: usize, writes: bool, task: Task) -> Result<usize, Refusal>
    ensures { lined result out.new ≡ next_task writes (lined (Ok at) out.old) task }
{
    if !task.living {
        return Ok(at);
    }
    let start = line_start(writes, at);
    if out.len() < start {
        return Err(Refusal::SaveBufferTooShort);
    }
    counted(
        at,
        listing::task_line::task_line(&mut out[start..], writes, task),
    )
}

// The values, bottom first, behind the lines so far.
pub(crate) fn tell_values(
    out: &mut [u8],
    words: &[u64],
    memory: &[u8],
    pool: &[u8],
    ends: &[u32; 1024],
    begin: usize,
    writes: bool,
    entries: usize,
) -> Result<usize, Refusal>
    ensures { lined result out.new ≡ tell_values writes (lined (Ok begin) out.old) (values_read memory.now pool.now ends.now entries words.now) }
{
    let mut at = begin;
    for &word in words {
        at = tell_value(out, memory, pool, ends, at, writes, entries, word)?;
    }
    Ok(at)
}

// How many tasks there are, and each of them by id, behind the lines so far.
pub(crate) fn tell_tasks(
    table: &mut [Task],
    out: &mut [u8],
    begin: usize,
    writes: bool,
) -> Result<usize, Refusal>
    ensures { after (lined result out.new) table.new ≡ after (tell_tasks writes (lined (Ok begin) out.old) table.old) table.old }
{
    let count = table::slots::living(table);
    let mut at = tell_count(out, begin, writes, Counted::Tasks, count)?;
    for &task in table.iter() {
        at = tell_task(out, at, writes, task)?;
    }
    Ok(at)
}
