// Standard input and standard output as bytes. What they give and take is no part of a contract.
#![tactic(auto)]

ghost use Rattle.std.specs.Prelude.{◌≤◌, length, IfOk};

use std::io;
use std::io::{Read, Write};
use std::rt::{Stdin, Stdout};

// Reads until the room is full or the input ends, and says how many bytes stand at the room's start.
pub fn read(mut from: Stdin, room: &mut [u8]) -> io::Result<usize>
    ensures { IfOk result (λ count. count ≤ length room.new) }
{
    let mut count = 0;
    while count < room.len() {
        let more = from.read(&mut room[count..])?;
        if more == 0 {
            return Ok(count);
        }
        count += more;
    }
    Ok(count)
}

// Writes bytes, as far as standard output takes them.
pub fn write(mut to: Stdout, bytes: &[u8]) {
    let _ = to.write_all(bytes);
}
