// A line put into a lent buffer, where the buffer holds it.
ghost use Rattle.std.specs.Prelude.{◌≡◌, ℕ, ◌+◌, ◌≤◌, length, List};
ghost use Rattle.std.proofs.lemmas.List.Edits.{sets};
ghost use Rattle.text.specs.Pieces.{room_after};
ghost use Rattle.text.specs.Lines.{formed, line, lined, put_line, measure_line, tell_line};

use crate::escapes::is_plain;
use crate::hex::put_hex;
use crate::pieces::{measure_pieces, put_pieces, room_after};
use crate::{Cut, Form};
use errors::Refusal;

// The room behind bytes in a form.
#[tactic(auto, unfolding(crate::specs::Lines::formed, crate::specs::Pieces::pieces), using(crate::proofs::Hexes::hex_twice, crate::proofs::Rooms::room_then, crate::proofs::Rooms::short_then))]
fn measure(room: usize, form: Form, bytes: &[u8], numbers: &[u64]) -> Option<usize>
    ensures { result ≡ room_after room (length (formed form bytes.now numbers.now)) }
{
    match form {
        Form::Plain => room_after(room, bytes.len()),
        Form::Hex => {
            let left = room_after(room, bytes.len())?;
            room_after(left, bytes.len())
        }
        Form::Spaced => measure_pieces(room, Cut::Spaced, bytes, numbers),
        Form::Filled => measure_pieces(room, Cut::Filled, bytes, numbers),
        Form::Escaped => measure_pieces(room, Cut::Escaped, bytes, numbers),
        Form::Ascii => measure_pieces(room, Cut::Ascii, bytes, numbers),
    }
}

// Puts bytes in a form at a place of a buffer that holds them, and answers the place behind them.
#[tactic(auto, unfolding(crate::specs::Lines::formed, crate::specs::Pieces::pieces), using(crate::proofs::Hexes::hex_length))]
fn put(out: &mut [u8], at: usize, form: Form, bytes: &[u8], numbers: &[u64]) -> usize
    requires { at + length (formed form bytes.now numbers.now) ≤ length out.old }
    ensures { (result ≡ at + length (formed form bytes.now numbers.now)) × (out.new ≡ sets out.old at (formed form bytes.now numbers.now)) }
{
    match form {
        Form::Plain => {
            slices::writes::write(out, bytes, at);
            at + bytes.len()
        }
        Form::Hex => {
            put_hex(out, at, bytes);
            at + 2 * bytes.len()
        }
        Form::Spaced => put_pieces(out, at, Cut::Spaced, bytes, numbers),
        Form::Filled => put_pieces(out, at, Cut::Filled, bytes, numbers),
        Form::Escaped => put_pieces(out, at, Cut::Escaped, bytes, numbers),
        Form::Ascii => put_pieces(out, at, Cut::Ascii, bytes, numbers),
    }
}

// The room behind a line.
#[tactic(auto, unfolding(crate::specs::Lines::formed), using(crate::proofs::Rooms::no_template, crate::proofs::Rooms::no_bytes, crate::proofs::Rooms::both))]
fn room_behind(
    room: usize,
    template: &[u8],
    numbers: &[u64],
    form: Form,
    bytes: &[u8],
) -> Option<usize>
    ensures { result ≡ room_after room (length (line template.now numbers.now form bytes.now)) }
{
    let left = measure(room, Form::Filled, template, numbers)?;
    let last = measure(left, form, bytes, numbers)?;
    room_after(last, 1)
}

// A form in which the bytes look the same: as they are, where none of them is escaped.
#[tactic(auto, unfolding(crate::specs::Lines::formed), using(crate::proofs::Escaping::as_they_are))]
fn plainest(form: Form, bytes: &[u8]) -> Form
    ensures { (numbers : List ℕ) → formed result bytes.now numbers ≡ formed form bytes.now numbers }
{
    match form {
        Form::Escaped if is_plain(bytes) => Form::Plain,
        _ => form,
    }
}

// A line at the buffer's start; where the buffer is too short, 24, and the buffer as it was.
#[tactic(auto, using(crate::proofs::Joined::not_put, crate::proofs::Joined::same_line))]
pub fn put_line(
    out: &mut [u8],
    template: &[u8],
    numbers: &[u64],
    form: Form,
    bytes: &[u8],
) -> Result<usize, Refusal>
    ensures { lined result out.new ≡ put_line out.old (line template.now numbers.now form bytes.now) }
{
    let shown = plainest(form, bytes);
    room_behind(out.len(), template, numbers, shown, bytes).ok_or(Refusal::SaveBufferTooShort)?;
    let behind = put(out, 0, Form::Filled, template, numbers);
    let last = put(out, behind, shown, bytes, numbers);
    out[last] = b'\n';
    Ok(last + 1)
}

// How long a line is; where 64 bits do not hold it, 24.
#[tactic(auto, using(crate::proofs::Joined::measured, crate::proofs::Joined::not_measured, crate::proofs::Joined::same_line))]
fn measure_line(
    template: &[u8],
    numbers: &[u64],
    form: Form,
    bytes: &[u8],
) -> Result<usize, Refusal>
    ensures { result ≡ measure_line (line template.now numbers.now form bytes.now) }
{
    let shown = plainest(form, bytes);
    let left = room_behind(usize::MAX, template, numbers, shown, bytes);
    Ok(usize::MAX - left.ok_or(Refusal::SaveBufferTooShort)?)
}

// A line at the buffer's start, or only its length.
#[tactic(auto, unfolding(crate::specs::Lines::tell_line))]
pub fn tell_line(
    out: &mut [u8],
    writes: bool,
    template: &[u8],
    numbers: &[u64],
    form: Form,
    bytes: &[u8],
) -> Result<usize, Refusal>
    ensures { lined result out.new ≡ tell_line writes out.old (line template.now numbers.now form bytes.now) }
{
    if writes {
        put_line(out, template, numbers, form, bytes)
    } else {
        measure_line(template, numbers, form, bytes)
    }
}
