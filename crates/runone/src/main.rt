// Reads a program from standard input, runs it fresh, and prints the listing.
#![tactic(auto)]

use std::io;

// Room for one save. In a function of its own: where `main` itself makes it, the check runs out of stack.
fn save_room() -> [u8; 1048576] {
    [0u8; 1048576]
}

// The one call: a start (0) with 1,000,000 units of fuel.
fn only_call() -> [u8; 9] {
    let mut call = [0u8; 9];
    call[1..].copy_from_slice(&1_000_000u64.to_le_bytes());
    call
}

fn main(rt: HostRuntime) -> io::Result<()> {
    let mut program = [0u8; 65536];
    let length = streams::read(rt.stdin(), &mut program)?;
    let mut stack = [0u64; 1000];
    let mut memory = [0u8; 65536];
    let mut pool = [0u8; 65536];
    let mut ends = [0u32; 1024];
    let mut save = save_room();
    let mut calls = only_call();
    printer::shows::own(
        rt.stdout(),
        &mut stack,
        &mut memory,
        &mut pool,
        &mut ends,
        &mut save,
        &[],
        &program[..length],
        &mut calls,
        0,
        1,
        false,
    );
    Ok(())
}
