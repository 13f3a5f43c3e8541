// Bytes that are escaped: which ones, and how one is put into a buffer.
ghost use Rattle.std.specs.Prelude.{◌≡◌, true, false, ℕ, ◌+◌, ◌≤◌, ◌<◌, length, get_or};
ghost use Rattle.std.proofs.lemmas.List.Edits.{sets};
ghost use Rattle.text.specs.Escapes.{capital, is_escaped, escape, shown};
ghost use Rattle.text.specs.Pieces.{text_of};

use crate::Piece;

// The character of a hex digit, capitals.
#[tactic(auto, unfolding(crate::specs::Escapes::capital))]
fn capital(n: u8) -> u8
    requires { n < 16 }
    ensures { result ≡ capital n }
{
    if n < 10 { b'0' + n } else { b'A' - 10 + n }
}

// Whether a byte is escaped; among bytes that are not UTF-8, each from 128 up is.
#[tactic(auto, unfolding(crate::specs::Escapes::is_escaped))]
fn is_escaped(high: bool, byte: u8) -> bool
    ensures { result ≡ is_escaped high byte }
{
    byte < 32 || byte == 127 || byte == b'\\' || (high && 128 <= byte)
}

// A byte, escaped or as it is.
#[tactic(auto, unfolding(crate::specs::Escapes::shown, crate::specs::Pieces::text_of))]
pub(crate) fn shown(high: bool, byte: u8) -> Piece
    ensures { text_of result ≡ shown high byte }
{
    if is_escaped(high, byte) {
        Piece::Escape(byte)
    } else {
        Piece::Byte(byte)
    }
}

// Puts an escaped byte at a place of a buffer that holds it, and answers the place behind it.
pub(crate) fn put_escape(out: &mut [u8], at: usize, byte: u8) -> usize
    requires { at + 3 ≤ length out.old }
    ensures { (result ≡ at + 3) × (out.new ≡ sets out.old at (escape byte)) }
{
    out[at] = b'\\';
    out[at + 1] = capital(byte / 16);
    out[at + 2] = capital(byte % 16);
    at + 3
}

// Where it is true, no byte is escaped: each is from 32 to 126 and no backslash. The common text is such a one, and this sees it fast:
// a loop that does not end early looks at 16 bytes at a time.
#[tactic(auto, using(crate::proofs::Escaping::plain_byte))]
fn is_plain_ascii(bytes: &[u8]) -> bool
    ensures { result ≡ true → (k : ℕ) → k < length bytes.now → is_escaped false (get_or bytes.now k 0) ≡ false }
{
    let mut lowest: u8 = 255;
    let mut highest: u8 = 0;
    let mut slash = false;
    for &byte in bytes {
        lowest = lowest.min(byte);
        highest = highest.max(byte);
        slash |= byte == b'\\';
    }
    32 <= lowest && highest <= 126 && !slash
}

// Whether any byte of UTF-8 is escaped; it does not end early either.
fn any_escaped(bytes: &[u8]) -> bool
    ensures { result ≡ false → (k : ℕ) → k < length bytes.now → is_escaped false (get_or bytes.now k 0) ≡ false }
{
    let mut any = false;
    for &byte in bytes {
        any |= is_escaped(false, byte);
    }
    any
}

// Where it is true, no byte of UTF-8 is escaped.
pub(crate) fn is_plain(bytes: &[u8]) -> bool
    ensures { result ≡ true → (k : ℕ) → k < length bytes.now → is_escaped false (get_or bytes.now k 0) ≡ false }
{
    is_plain_ascii(bytes) || !any_escaped(bytes)
}
