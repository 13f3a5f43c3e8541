// The listing of a run: its lines are measured one after the other, and then put into a lent buffer whole, or not at all.
ghost use Rattle.std.specs.Prelude.{◌≡◌};
ghost use Rattle.storage.specs.Tasks.{after};
ghost use Rattle.text.specs.Lines.{lined};
ghost use Rattle.host.specs.Lines.{tell_run, tell_tasks};
ghost use Rattle.host.specs.Listings.{head_of, values_of, listed_in, list_run};

use crate::answering::ListingLengths;
use crate::lines::{tell_count, tell_tasks, tell_values};
use crate::outcomes::head_of;
use errors::Refusal;
use listing::Counted;
use machine::{Machine, Report};
use storage::Task;

// How the run ended, how many values there are, and each of them, over what the values are read from.
fn tell_run(
    listing: &mut [u8],
    stack: &[u64],
    memory: &[u8],
    pool: &[u8],
    ends: &[u32; 1024],
    creation: Result<Machine, Refusal>,
    report: Report,
    writes: bool,
) -> Result<usize, Refusal>
    ensures { lined result listing.new ≡ tell_run writes listing.old (head_of creation report) (values_of creation report stack.now memory.now pool.now ends.now) }
{
    let head = head_of(creation, report);
    let height = listing::lines::height_of(head, report.machine.height);
    let words = listing::lines::words_of(stack, height);
    let used = slices::part(memory, 0, report.machine.memory);
    let first = listing::head_line::head_line(listing, writes, head)?;
    let second = tell_count(listing, first, writes, Counted::Values, words.len())?;
    tell_values(
        listing,
        words,
        used,
        pool,
        ends,
        second,
        writes,
        report.machine.entries,
    )
}

// All lines of a listing, put or only measured.
fn tell_all(
    table: &mut [Task],
    listing: &mut [u8],
    stack: &[u64],
    memory: &[u8],
    pool: &[u8],
    ends: &[u32; 1024],
    creation: Result<Machine, Refusal>,
    report: Report,
    writes: bool,
) -> Result<usize, Refusal>
    ensures { after (lined result listing.new) table.new ≡ after (tell_tasks writes (tell_run writes listing.old (head_of creation report) (values_of creation report stack.now memory.now pool.now ends.now)) table.old) table.old }
{
    let at = tell_run(listing, stack, memory, pool, ends, creation, report, writes)?;
    tell_tasks(table, listing, at, writes)
}

// The listing of a run, whole or not at all.
pub(crate) fn list_run(
    table: &mut [Task],
    stack: &mut [u64; 1000],
    memory: &mut [u8],
    pool: &mut [u8],
    ends: &mut [u32; 1024],
    listing: &mut [u8],
    creation: Result<Machine, Refusal>,
    report: Report,
) -> ListingLengths
    ensures { listed_in result table.new stack.new memory.new pool.new ends.new listing.new ≡ list_run creation report table.old stack.old memory.old pool.old ends.old listing.old }
{
    let Ok(needed) = tell_all(
        table, listing, stack, memory, pool, ends, creation, report, false,
    ) else {
        return ListingLengths {
            written: 0,
            needed: 0,
        };
    };
    if listing.len() < needed {
        return ListingLengths { written: 0, needed };
    }
    let told = tell_all(
        table, listing, stack, memory, pool, ends, creation, report, true,
    );
    ListingLengths {
        written: told.unwrap_or(0),
        needed,
    }
}
