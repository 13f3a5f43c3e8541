// Runs the leaves on vectors from outside and prints what they answer, a line to a case.
#![tactic(auto)]

mod cases;

use std::io;
use std::rt::Stdout;

// A case is one byte that counts the bytes behind it; cases follow each other to the end.
fn run(out: Stdout, input: &[u8]) {
    let mut rest = input;
    while let Some((&size, behind)) = rest.split_first() {
        let (case, next) = behind.split_at(behind.len().min(usize::from(size)));
        cases::case(out, case);
        rest = next;
    }
}

fn main(rt: HostRuntime) -> io::Result<()> {
    let mut input = [0u8; 65536];
    let n = streams::read(rt.stdin(), &mut input)?;
    run(rt.stdout(), &input[..n]);
    Ok(())
}
