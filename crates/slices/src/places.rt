// Places in bytes: a place so many bytes on, as far as there are.
ghost use Rattle.std.specs.Prelude.{◌≡◌, ◌+◌, min};

// A place so many bytes on, as far as there are.
pub fn on(length: usize, place: usize, count: usize) -> usize
    ensures { result ≡ min (place + count) length }
{
    place.saturating_add(count).min(length)
}
