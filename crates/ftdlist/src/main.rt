// Lists the packets of standard input (01, Lister). The text of a line is the crate listing's: here is only reading and
// writing.
#![tactic(auto)]

use listing::Line;
use std::io;
use std::io::Read;
use streams::read_full;

// The input has a byte more.
fn goes_on<R: Read>(input: &mut R) -> io::Result<bool> {
    let mut one = [0u8; 1];
    let n = read_full(input, &mut one)?;
    Ok(n == 1)
}

// Prints the lines of a capture; `more` says that the input goes on behind it.
fn print_lines(output: &impl Print, capture: &[u8], more: bool) -> io::Result<()> {
    let mut out = [0u8; 64];
    let mut at: usize = 0;
    loop {
        match listing::write_line(capture, more, at, &mut out) {
            Line::TooSmall => {
                return Ok(());
            }
            Line::Last(len) => {
                return output.write_all(&out[..len]);
            }
            Line::More { len, next } => {
                output.write_all(&out[..len])?;
                at = next;
            }
        }
    }
}

fn main(rt: HostRuntime) -> io::Result<()> {
    let mut stdin = rt.reader();
    let mut input = [0; 65536];
    let n = read_full(&mut stdin, &mut input)?;
    if n < 65536 {
        return print_lines(&rt, &input[..n], false);
    }
    let more = goes_on(&mut stdin)?;
    print_lines(&rt, &input, more)
}
