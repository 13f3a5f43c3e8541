// The pool of instructions: entries end to end in lent bytes, told apart by their ends.
#![tactic(auto)]

pub mod capacity;
pub mod interning;

ghost use Rattle.std.specs.Prelude.{◌≡◌};
ghost use Rattle.pools.specs.Pool.{start_of, end_of, bounds, entry_of, never_fall, end_to_end};

use errors::Refusal;
use slices::get_or;

// The entries that a pool holds at most.
pub const POOL_ENTRIES: usize = 1024;

// Which entry of the pool.
#[derive(Clone, Copy)]
pub struct InstructionsRef(pub u32);

// The end of an entry, 0 past the last.
#[tactic(auto, unfolding(crate::specs::Pool::end_of))]
fn end_of(ends: &[u32], index: usize) -> usize
    ensures { result ≡ end_of ends.now index }
{
    get_or(ends, index, 0) as usize
}

// The start of an entry: the end before it.
#[tactic(auto, unfolding(crate::specs::Pool::start_of), using(crate::proofs::Ends::start_after))]
fn start_of(ends: &[u32], index: usize) -> usize
    ensures { result ≡ start_of ends.now index }
{
    if index == 0 {
        return 0;
    }
    end_of(ends, index - 1)
}

// Where an entry stands in the pool, where there is one.
#[tactic(auto, unfolding(crate::specs::Pool::bounds))]
pub fn bounds(
    ends: &[u32; 1024],
    entries: usize,
    entry: InstructionsRef,
) -> Result<(usize, usize), Refusal>
    ensures { result ≡ bounds ends.now entries entry }
{
    let index = entry.0 as usize;
    if index < entries.min(POOL_ENTRIES) {
        return Ok((start_of(ends, index), end_of(ends, index)));
    }
    Err(Refusal::InvalidInstructionsIndex(entry.0))
}

// The bytes of an entry: a part of the pool.
#[tactic(auto, unfolding(crate::specs::Pool::entry_of), using(crate::proofs::Copies::clipped))]
pub fn get<'a>(pool: &'a [u8], ends: &[u32; 1024], entry: InstructionsRef) -> &'a [u8]
    ensures { result.now ≡ entry_of pool.now ends.now entry.0 }
{
    let index = entry.0 as usize;
    let end = end_of(ends, index).min(pool.len());
    let start = start_of(ends, index).min(end);
    &pool[start..end]
}

// Whether no end is below the one before it.
#[tactic(auto, unfolding(crate::specs::Pool::never_fall), using(crate::proofs::Ends::falls, crate::proofs::Ends::more))]
fn never_fall(ends: &[u32], entries: usize) -> bool
    ensures { result ≡ never_fall ends.now entries }
{
    for i in 0..entries {
        if end_of(ends, i) < start_of(ends, i) {
            return false;
        }
    }
    true
}

// Whether the entries stand end to end in the bytes in use.
#[tactic(auto, unfolding(crate::specs::Pool::end_to_end))]
pub fn end_to_end(ends: &[u32; 1024], bytes: usize, entries: usize) -> bool
    ensures { result ≡ end_to_end ends.now bytes entries }
{
    entries <= POOL_ENTRIES && never_fall(ends, entries) && start_of(ends, entries) == bytes
}
