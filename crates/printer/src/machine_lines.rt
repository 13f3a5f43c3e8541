// What is shown beside the listing, on standard output: the call before it, and behind it the machine, its loops, its frames, its memory and the image. What is printed is no part of a contract.
ghost use Rattle.std.specs.Prelude.{◌≡◌};

use crate::{CallOutcome, emit, show_report};
use inlinevec::{Frames, Loops};
use report::{Report, Word};
use std::rt::Stdout;

// The call that was asked for.
fn call_of(verb: u8, fuel: u64) -> Report {
    match verb {
        0 => Report::Start(fuel),
        2 => Report::Save,
        3 => Report::Rerun(fuel),
        _ => Report::Continue(fuel),
    }
}

// Where everything is shown: the call.
pub(crate) fn show_call(out: Stdout, verb: u8, fuel: u64, everything: bool)
    ensures { result ≡ tt }
{
    if everything {
        show_report(out, call_of(verb, fuel));
    }
}

// A word around bytes in hex.
fn show_word(out: Stdout, word: Word) {
    let mut room = [0u8; 4096];
    let line = report::report_words::put_word(&mut room, word);
    emit(out, &room, line);
}

// The open loops, the outer one first.
fn show_loops(out: Stdout, loops: Loops) {
    if 0 < loops.count {
        show_report(out, Report::Open(loops.first));
    }
    if 1 < loops.count {
        show_report(out, Report::Open(loops.second));
    }
}

// The frames, main first.
fn show_frames(out: Stdout, frames: Frames) {
    show_report(out, Report::Called(frames.first));
    if 1 < frames.count {
        show_report(out, Report::Called(frames.second));
    }
}

// Bytes in hex, as many at a time as a line's room holds.
fn show_hex(out: Stdout, bytes: &[u8]) {
    let mut room = [0u8; 4096];
    for part in bytes.chunks(2048) {
        let put = text::hex::hex_part(&mut room, part, 0);
        streams::write(out, slices::part(&room, 0, put.length));
    }
}

// A word, and bytes in hex behind it.
fn show_bytes(out: Stdout, word: Word, bytes: &[u8]) {
    show_word(out, word);
    show_hex(out, bytes);
    show_word(out, Word::LineEnd);
}

// The image that was saved last, if there is one.
fn show_image(out: Stdout, image: &[u8]) {
    if !image.is_empty() {
        show_bytes(out, Word::Image, image);
    }
}

// Where everything is shown: the machine after a call, its open loops and frames, its memory in use and the image.
pub(crate) fn show_machine(
    out: Stdout,
    memory: &mut [u8],
    save: &mut [u8],
    answered: CallOutcome,
    everything: bool,
)
    ensures { (memory.new ≡ memory.old) × (save.new ≡ save.old) }
{
    if everything {
        let after = answered.machine;
        show_report(out, Report::After(after));
        show_loops(out, after.loops);
        show_frames(out, after.frames);
        show_bytes(out, Word::Memory, slices::part(memory, 0, after.memory));
        show_image(out, slices::part(save, 0, after.saved));
    }
}
