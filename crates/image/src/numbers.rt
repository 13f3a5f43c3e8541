// Little-endian numbers in bytes, with zeros past the end.
ghost use Rattle.std.specs.Prelude.{◌≡◌, ◌<◌};
ghost use Rattle.slices.specs.Numbers.{number_at};

use slices::get_or;

// The number in the two bytes from a place on.
#[tactic(auto, using(crate::proofs::Endian::two_read))]
pub(crate) fn u16_at(bytes: &[u8], place: usize) -> usize
    requires { place < 16 }
    ensures { (result ≡ number_at 2 bytes.now place) × (result < 65536) }
{
    let number = u16::from_le_bytes([get_or(bytes, place, 0), get_or(bytes, place + 1, 0)]);
    usize::from(number)
}

// The number in the four bytes from a place on.
#[tactic(auto, using(crate::proofs::Endian::four_read))]
pub(crate) fn u32_at(bytes: &[u8], place: usize) -> u32
    requires { place < 14 }
    ensures { (result ≡ number_at 4 bytes.now place) × (result < 4294967296) }
{
    u32::from_le_bytes([
        get_or(bytes, place, 0),
        get_or(bytes, place + 1, 0),
        get_or(bytes, place + 2, 0),
        get_or(bytes, place + 3, 0),
    ])
}
