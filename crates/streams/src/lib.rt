// Bytes read from a file or a stream.
#![tactic(auto)]

ghost use Rattle.std.specs.Prelude.{IfOk, length, ◌≤◌};

use std::io;
use std::io::Read;

// Reads until the buffer is full or the input ends, and answers how many bytes were read.
// Stays: std's `read_exact` does not say how many bytes a shorter input had, and `read_to_end` needs the heap.
pub fn read_full<R: Read>(input: &mut R, buffer: &mut [u8]) -> io::Result<usize>
    ensures { IfOk result (λ n. n ≤ length buffer.new) }
{
    let mut done: usize = 0;
    while done < buffer.len() {
        let n = input.read(&mut buffer[done..])?;
        if n == 0 {
            return Ok(done);
        }
        done += n;
    }
    Ok(done)
}
