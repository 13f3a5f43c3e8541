// One more entry joined at the pool's end: from a lent slice, or from a part of the pool itself.
ghost use Rattle.std.specs.Prelude.{◌≡◌, ◌<◌, ◌≤◌, set};
ghost use Rattle.pools.specs.Pool.{new_entry, pooled, interned, part_in_use};

use crate::InstructionsRef;
use crate::capacity::has_room;
use errors::Refusal;

// Writes the end of a new entry.
fn new_entry(
    ends: &mut [u32; 1024],
    entries: usize,
    end: usize,
) -> Result<(InstructionsRef, usize), Refusal>
    requires { (entries < 1024) × (end ≤ 65536) }
    ensures { (result ≡ new_entry entries end) × (ends.new ≡ set ends.old entries end) }
{
    ends[entries] = end as u32;
    Ok((InstructionsRef(entries as u32), end))
}

// Joins an entry at the pool's end.
#[tactic(auto, unfolding(crate::specs::Pool::interned), using(crate::proofs::Interns::room_of))]
pub fn intern_instructions(
    pool: &mut [u8],
    ends: &mut [u32; 1024],
    bytes: usize,
    entries: usize,
    calldata: &[u8],
) -> Result<(InstructionsRef, usize), Refusal>
    ensures { pooled result pool.new ends.new ≡ interned pool.old ends.old bytes entries calldata.now }
{
    let size = calldata.len();
    if has_room(pool.len(), bytes, entries, size) {
        slices::writes::write(pool, calldata, bytes);
        return new_entry(ends, entries, bytes + size);
    }
    Err(Refusal::PoolFull)
}

// Joins an entry whose data stands in the pool itself, within the bytes in use.
#[tactic(auto, using(crate::proofs::Interns::room_of))]
pub fn intern_part(
    pool: &mut [u8],
    ends: &mut [u32; 1024],
    bytes: usize,
    entries: usize,
    start: usize,
    size: usize,
) -> Result<(InstructionsRef, usize), Refusal>
    ensures { pooled result pool.new ends.new ≡ interned pool.old ends.old bytes entries (part_in_use pool.old bytes start size) }
{
    let used = bytes.min(pool.len());
    let from = start.min(used);
    let count = size.min(used - from);
    if has_room(pool.len(), bytes, entries, count) {
        pool.copy_within(from..from + count, bytes);
        return new_entry(ends, entries, bytes + count);
    }
    Err(Refusal::PoolFull)
}
