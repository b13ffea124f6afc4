// Reading a program's input into memory that it lends.
#![tactic(auto)]

ghost use Rattle.std.specs.Prelude.{◌≤◌, ◌<◌, length, take, OnOk};
ghost use Rattle.std.specs.Io.KnownBytes.{Consumes, IsAtEnd};

use std::io::{Read, Result};

// Reads until the buffer is full, the input ends or a read fails, and gives how many bytes were read before that. A read that a signal interrupts has
// failed: the library's `read_to_end` and `read_exact` would read again. The loop goes on by what a read brings.
pub fn read_full<R: Read>(input: &mut R, buf: &mut [u8]) -> (usize, Result<()>)
    ensures within { result.0 ≤ length buf.new }
    ensures bytes { OnOk result.1 (Consumes (R.remaining input.old) (R.remaining input.new) (take result.0 buf.new)) }
    ensures end { OnOk result.1 (result.0 < length buf.new → IsAtEnd (R.remaining input.new)) }
{
    let mut filled = 0;
    while filled < buf.len() {
        match input.read(&mut buf[filled..]) {
            Ok(0) => return (filled, Ok(())),
            Ok(more) => filled += more,
            Err(error) => return (filled, Err(error)),
        }
    }
    (filled, Ok(()))
}
