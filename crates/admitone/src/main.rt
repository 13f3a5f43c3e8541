// Reads a program from standard input and prints whether it is admitted.
#![tactic(auto)]

use std::io;

fn main(rt: HostRuntime) -> io::Result<()> {
    let mut input = [0u8; 65536];
    let n = streams::read(rt.stdin(), &mut input)?;
    let mut line = [0u8; 1024];
    if let Ok(length) = verdict::verdict_line(&mut line, &input[..n]) {
        streams::write(rt.stdout(), slices::part(&line, 0, length));
    }
    Ok(())
}
