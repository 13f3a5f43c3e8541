// Reads programs from standard input, each behind its length, and prints for each whether it is admitted.
#![tactic(auto)]

use std::io;
use std::rt::Stdout;

// Room for the programs. In a function of its own: where `main` itself makes it, the check runs out of stack.
fn room() -> [u8; 524288] {
    [0u8; 524288]
}

// The line on a program, printed.
fn say(out: Stdout, program: &[u8]) {
    let mut line = [0u8; 1024];
    if let Ok(length) = verdict::verdict_line(&mut line, program) {
        streams::write(out, slices::part(&line, 0, length));
    }
}

// The programs follow each other to the end, each behind the four bytes of its length, the lowest first.
fn run(out: Stdout, input: &[u8]) {
    let mut rest = input;
    while let Some((size, behind)) = rest.split_first_chunk::<4>() {
        let size = u32::from_le_bytes(*size) as usize;
        let Some((program, next)) = behind.split_at_checked(size) else {
            return;
        };
        say(out, program);
        rest = next;
    }
}

fn main(rt: HostRuntime) -> io::Result<()> {
    let mut input = room();
    let n = streams::read(rt.stdin(), &mut input)?;
    run(rt.stdout(), &input[..n]);
    Ok(())
}
