// Lines out of input that comes piece by piece.
ghost use Rattle.std.specs.Prelude.{◌≡◌, ◌+◌, ◌<◌, length};
ghost use Rattle.play.specs.Input.{LineLaws, line_taken, take_line_of};

// How far the input was taken, how many bytes of the line there are, and whether it ended. More bytes than its buffer
// has stand for a line that is too long.
#[derive(Clone, Copy)]
pub struct Taken {
    pub at: usize,
    pub have: usize,
    pub whole: bool,
}

// Takes the bytes of the input from a place on, up to the end of the line, into its buffer behind those that are there.
pub fn take_line(input: &[u8], at: usize, line: &mut [u8], have: usize) -> Taken
    ensures { (at < length input.now → at < result.at)
        × (length line.new ≡ length line.old)
        × (line_taken result.at result.have result.whole line.new
        ≡ take_line_of input.now at line.old have) }
{
    // Stays: a `for` over `at..input.len()` would have to answer `at.max(input.len())`, since a place behind the
    // input
    // is answered as it came; that is no plainer.
    let mut i = at;
    let mut n = have;
    while i < input.len() {
        let x = input[i];
        i += 1;
        if x == 10 {
            return Taken {
                at: i,
                have: n,
                whole: true,
            };
        }
        if n < line.len() {
            line[n] = x;
            n += 1;
        } else {
            n = line.len() + 1;
        }
    }
    Taken {
        at: i,
        have: n,
        whole: false,
    }
}

// Lines taken from the pieces of an input are its lines, as a promise.
pub fn keeps_line_laws()
    ensures { LineLaws }
{}
