// A frame written: the type, and the fields as one run of bytes TAG=TEXT SOH; refused as the reader would refuse it.
ghost use Rattle.std.specs.Prelude.{◌≡◌, length};
ghost use Rattle.fix.specs.Write.{write_answer, write_output};

use crate::frame::{MOST_BODY, is_name, put_frame};
use crate::kinds::kind_of;
use crate::tally::{numbers_wrong, tags_wrong, walk};
use crate::text::length_digits;
use ftd::refusal::Refusal;
use ftd::write::WriteError;

// The frame of a type and a run of fields, at the start of the output.
pub fn write(name: &[u8], run: &[u8], out: &mut [u8]) -> Result<usize, WriteError>
    ensures answer { result ≡ write_answer name.now run.now (length out.old) }
    ensures output { out.new ≡ write_output name.now run.now out.old }
{
    if !is_name(name) || MOST_BODY < name.len() || MOST_BODY < run.len() {
        return Err(WriteError::Refused(Refusal::NotOneFrame));
    }
    let size = 4 + name.len() + run.len();
    if MOST_BODY < size {
        return Err(WriteError::Refused(Refusal::NotOneFrame));
    }
    let kind = kind_of(name);
    let w = walk(run, kind);
    if !w.whole || numbers_wrong(kind, w.tally) {
        return Err(WriteError::Refused(Refusal::NotOneFrame));
    }
    let digits = length_digits(size);
    let n = 20 + digits + size;
    if out.len() < n {
        return Err(WriteError::Refused(Refusal::TooSmall));
    }
    if tags_wrong(kind, w.tally) {
        return Err(WriteError::Refused(Refusal::RequiredTag));
    }
    put_frame(out, size, digits, name, run);
    Ok(n)
}
