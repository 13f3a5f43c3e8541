// What a pool holds at most: whether it takes one more entry.
ghost use Rattle.std.specs.Prelude.{◌≡◌};
ghost use Rattle.pools.specs.Pool.{has_room};

use crate::POOL_ENTRIES;

// The bytes that a pool holds at most.
const POOL_BYTES: usize = 65536;

// Whether a pool of the lent length takes one more entry of a size.
#[tactic(auto, unfolding(crate::specs::Pool::has_room))]
pub fn has_room(lent: usize, bytes: usize, entries: usize, size: usize) -> bool
    ensures { result ≡ has_room lent bytes entries size }
{
    entries < POOL_ENTRIES && bytes.saturating_add(size) <= POOL_BYTES.min(lent)
}
