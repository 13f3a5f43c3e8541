// Slices: an element, a part and equality, each total; the laws of lists that they and the writes stand on are in proofs/.
#![tactic(auto)]

pub mod places;
pub mod writes;

ghost use Rattle.std.specs.Prelude.{◌≡◌, get_or, take, drop};
ghost use Rattle.slices.specs.Same.{same};

// The element at a place, and another one past the end.
pub fn get_or<T: Copy>(items: &[T], place: usize, otherwise: T) -> T
    ensures { result ≡ get_or items.now place otherwise }
{
    items.get(place).copied().unwrap_or(otherwise)
}

// So many bytes from a place on, as far as there are.
pub fn part<'a>(bytes: &'a [u8], start: usize, size: usize) -> &'a [u8]
    ensures { result.now ≡ take size (drop start bytes.now) }
{
    let from = start.min(bytes.len());
    let count = size.min(bytes.len() - from);
    &bytes[from..from + count]
}

// Whether two slices hold the same bytes.
#[tactic(auto, using(crate::proofs::Equality::same_pointwise))]
pub fn same(left: &[u8], right: &[u8]) -> bool
    ensures { result ≡ same left.now right.now }
{
    left == right
}
