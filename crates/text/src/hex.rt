// Bytes in hex: put into a buffer that holds them, and as many of them as a buffer holds.
ghost use Rattle.std.specs.Prelude.{◌≡◌, ◌+◌, ◌-◌, ◌*◌, ◌/◌, ◌≤◌, ◌<◌, min, length};
ghost use Rattle.std.proofs.lemmas.List.Edits.{sets};
ghost use Rattle.text.specs.Numbers.{hex};
ghost use Rattle.text.specs.Lines.{parted, hex_part};

use crate::HexPart;
use crate::pieces::digit;

// Puts bytes in hex at a place of a buffer that holds them.
#[tactic(auto, using(crate::proofs::Hexes::ended))]
pub(crate) fn put_hex(out: &mut [u8], at: usize, bytes: &[u8])
    requires { at + 2 * length bytes.now ≤ length out.old }
    ensures { out.new ≡ sets out.old at (hex bytes.now) }
{
    for (i, &byte) in bytes.iter().enumerate() {
        out[at + 2 * i] = digit(byte / 16);
        out[at + 2 * i + 1] = digit(byte % 16);
    }
}

// How many bytes from a place on have room in hex.
fn hex_count(room: usize, length: usize, from: usize) -> usize
    ensures { result ≡ min (room / 2) (length - from) }
{
    (room / 2).min(length.saturating_sub(from))
}

// Puts as many bytes from a place on as a buffer holds in hex.
#[tactic(auto, unfolding(crate::specs::Lines::hex_count), using(crate::proofs::Joined::hex_parted))]
pub fn hex_part(out: &mut [u8], bytes: &[u8], from: usize) -> HexPart
    ensures { parted result out.new ≡ hex_part out.old bytes.now from }
{
    let count = hex_count(out.len(), bytes.len(), from);
    put_hex(out, 0, slices::part(bytes, from, count));
    HexPart {
        length: 2 * count,
        next: from + count,
    }
}
