// Pieces of a text: a byte, or a number in decimal; measured one after the other, and put one after the other.
ghost use Rattle.std.specs.Prelude.{◌≡◌, ◌+◌, ◌*◌, ◌≤◌, ◌<◌, length, get_or, drop};
ghost use Rattle.std.proofs.lemmas.List.Edits.{sets};
ghost use Rattle.text.specs.Numbers.{digit, decimal};
ghost use Rattle.text.specs.declared.Cut.TheVariants.{Filled};
ghost use Rattle.text.specs.Pieces.{pieces, width, text_of, Front, room_after};

use crate::escapes::{put_escape, shown};
use crate::{Cut, Piece, Turn};
use slices::get_or;

// The character of a digit.
#[tactic(auto, unfolding(crate::specs::Numbers::digit))]
pub(crate) fn digit(n: u8) -> u8
    requires { n < 16 }
    ensures { result ≡ digit n }
{
    if n < 10 { b'0' + n } else { b'a' - 10 + n }
}

// How many digits a number has.
#[tactic(auto, using(crate::proofs::Decimals::some_digit, crate::proofs::Decimals::twenty_digits))]
fn digit_count(number: u64) -> usize
    ensures { (result ≡ length (decimal number)) × (result ≤ 20) }
{
    let mut count = 1;
    let mut rest = number;
    while 10 <= rest {
        rest /= 10;
        count += 1;
    }
    count
}

// Puts a number in decimal at a place of a buffer that holds it, and answers the place behind it.
#[tactic(auto, using(crate::proofs::Decimals::some_digit, crate::proofs::Decimals::putting_begun, crate::proofs::Decimals::putting_ended))]
fn put_decimal(out: &mut [u8], at: usize, number: u64) -> usize
    requires { at + length (decimal number) ≤ length out.old }
    ensures { (result ≡ at + length (decimal number)) × (out.new ≡ sets out.old at (decimal number)) }
{
    let behind = at + digit_count(number);
    let mut last = behind - 1;
    let mut rest = number;
    while 10 <= rest {
        out[last] = digit((rest % 10) as u8);
        rest /= 10;
        last -= 1;
    }
    out[last] = digit(rest as u8);
    behind
}

// The number in the four bytes from a place on.
fn number_at(bytes: &[u8], place: usize) -> u64
    requires { place + 4 ≤ length bytes.now }
    ensures { result ≡ get_or bytes.now place 0 + 256 * get_or bytes.now (place + 1) 0 + 65536 * get_or bytes.now (place + 2) 0 + 16777216 * get_or bytes.now (place + 3) 0 }
{
    u64::from(bytes[place])
        + 256 * u64::from(bytes[place + 1])
        + 65536 * u64::from(bytes[place + 2])
        + 16777216 * u64::from(bytes[place + 3])
}

// The place behind a number, as far as there are numbers.
fn behind(numbers: &[u64], used: usize) -> usize
    ensures { drop result numbers.now ≡ drop (used + 1) numbers.now }
{
    if used < numbers.len() { used + 1 } else { used }
}

// The piece at the front of a template, from a place on and with so many numbers used.
#[tactic(auto, using(crate::proofs::Fronts::marked_front, crate::proofs::Fronts::byte_front))]
fn filled_turn(bytes: &[u8], numbers: &[u64], place: usize, used: usize) -> Turn
    requires { place < length bytes.now }
    ensures { Front Filled bytes.now numbers.now place used result }
{
    let byte = bytes[place];
    if byte == b'#' {
        Turn {
            piece: Piece::Number(get_or(numbers, used, 0)),
            place: place + 1,
            used: behind(numbers, used),
        }
    } else {
        Turn {
            piece: Piece::Byte(byte),
            place: place + 1,
            used,
        }
    }
}

// The piece at the front of a text, from a place on and with so many numbers used.
#[tactic(auto, unfolding(crate::specs::Pieces::width), using(crate::proofs::Fronts::number_front, crate::proofs::Fronts::escaped_front, crate::proofs::Fronts::ascii_front))]
fn turn(cut: Cut, bytes: &[u8], numbers: &[u64], place: usize, used: usize) -> Turn
    requires { place + width cut ≤ length bytes.now }
    ensures { Front cut bytes.now numbers.now place used result }
{
    match cut {
        Cut::Spaced => Turn {
            piece: Piece::Spaced(number_at(bytes, place)),
            place: place + 4,
            used,
        },
        Cut::Filled => filled_turn(bytes, numbers, place, used),
        Cut::Escaped => Turn {
            piece: shown(false, bytes[place]),
            place: place + 1,
            used,
        },
        Cut::Ascii => Turn {
            piece: shown(true, bytes[place]),
            place: place + 1,
            used,
        },
    }
}

// How many bytes a piece takes.
#[tactic(auto, unfolding(crate::specs::Pieces::width))]
fn width(cut: Cut) -> usize
    ensures { result ≡ width cut }
{
    match cut {
        Cut::Spaced => 4,
        Cut::Filled | Cut::Escaped | Cut::Ascii => 1,
    }
}

// How long a piece is.
#[tactic(auto, unfolding(crate::specs::Pieces::text_of))]
fn size_of(piece: Piece) -> usize
    ensures { result ≡ length (text_of piece) }
{
    match piece {
        Piece::Byte(_) => 1,
        Piece::Escape(_) => 3,
        Piece::Number(number) => digit_count(number),
        Piece::Spaced(number) => 1 + digit_count(number),
    }
}

// The room behind so many bytes.
#[tactic(auto, unfolding(crate::specs::Pieces::room_after))]
pub(crate) fn room_after(room: usize, size: usize) -> Option<usize>
    ensures { result ≡ room_after room size }
{
    room.checked_sub(size)
}

// The room behind a text in pieces.
#[tactic(auto, using(crate::proofs::Loops::measured_ended))]
pub(crate) fn measure_pieces(room: usize, cut: Cut, bytes: &[u8], numbers: &[u64]) -> Option<usize>
    ensures { result ≡ room_after room (length (pieces cut bytes.now numbers.now)) }
{
    let step = width(cut);
    let mut left = room;
    let mut place = 0;
    let mut used = 0;
    while step <= bytes.len() - place {
        let front = turn(cut, bytes, numbers, place, used);
        // an `if`: with `room_after(..)?` a text of control bytes takes a third longer to measure (measured)
        let size = size_of(front.piece);
        if left < size {
            return None;
        }
        left -= size;
        place = front.place;
        used = front.used;
    }
    Some(left)
}

// Puts a piece at a place of a buffer that holds it, and answers the place behind it.
#[tactic(auto, unfolding(crate::specs::Pieces::text_of))]
fn put_piece(out: &mut [u8], at: usize, piece: Piece) -> usize
    requires { at + length (text_of piece) ≤ length out.old }
    ensures { (result ≡ at + length (text_of piece)) × (out.new ≡ sets out.old at (text_of piece)) }
{
    match piece {
        Piece::Byte(byte) => {
            out[at] = byte;
            at + 1
        }
        Piece::Escape(byte) => put_escape(out, at, byte),
        Piece::Number(number) => put_decimal(out, at, number),
        Piece::Spaced(number) => {
            out[at] = b' ';
            put_decimal(out, at + 1, number)
        }
    }
}

// Puts a text in pieces at a place of a buffer that holds it, and answers the place behind it.
#[tactic(auto, using(crate::proofs::Loops::putting_ended))]
pub(crate) fn put_pieces(
    out: &mut [u8],
    at: usize,
    cut: Cut,
    bytes: &[u8],
    numbers: &[u64],
) -> usize
    requires { at + length (pieces cut bytes.now numbers.now) ≤ length out.old }
    ensures { (result ≡ at + length (pieces cut bytes.now numbers.now)) × (out.new ≡ sets out.old at (pieces cut bytes.now numbers.now)) }
{
    let step = width(cut);
    let mut behind = at;
    let mut place = 0;
    let mut used = 0;
    while step <= bytes.len() - place {
        let front = turn(cut, bytes, numbers, place, used);
        behind = put_piece(out, behind, front.piece);
        place = front.place;
        used = front.used;
    }
    behind
}
