// The start field (DisseminationstartField, FID 0x0004): a series, and the next number wanted.
ghost use Rattle.std.specs.Prelude.{◌≡◌, ◌+◌, ◌<◌, ◌≤◌, length};
ghost use Rattle.ftd.specs.Bytes.{put};
ghost use Rattle.ftd.specs.Write.{written_answer, written_output, fine};
ghost use Rattle.ftd.specs.Resume.{resume_of, resume_bytes, ResumeLaws};

use crate::bytes::{be16, be32, put16, put32};
use crate::fields::{FieldPlace, count_field, first_field};
use crate::write::{WriteError, room};

// Its FID.
pub const FID: u32 = 0x0004;

// The start field of a content.
// Stays: four outcomes that callers tell apart in one match, as specs/Resume.antt names them; a Result round them
// would nest it.
#[derive(Clone, Copy)]
pub enum Resume {
    // It has none.
    Absent,
    // It has one: the series, and the next number wanted.
    Next { series: u16, number: u32 },
    // It has one of another width than six bytes.
    Misshapen,
    // It has more than one.
    Several,
}

// The start field of a content: none, one with its values, or more.
#[tactic(auto, unfolding(crate::specs::Resume::resume_of))]
pub fn find_resume(content: &[u8]) -> Resume
    ensures { result ≡ resume_of content.now }
{
    if 1 < count_field(content, FID) {
        return Resume::Several;
    }
    let Some(FieldPlace { start, len, .. }) = first_field(content, FID) else {
        return Resume::Absent;
    };
    if len != 6 {
        return Resume::Misshapen;
    }
    Resume::Next {
        series: be16(content, start),
        number: be32(content, start + 2),
    }
}

// Stays: a struct for series and number would be made by each caller for this one step, and be taken apart here.
// The start field for a series and a number, at a place of the output.
pub(crate) fn put_resume(out: &mut [u8], at: usize, series: u16, number: u32)
    requires { at + 12 ≤ length out.old }
    ensures { out.new ≡ put out.old at (resume_bytes series number) }
{
    put32(out, at, FID);
    put16(out, at + 4, 6);
    put16(out, at + 6, series);
    put32(out, at + 8, number);
}

// The start field for a series and a number, at the start of the output.
pub fn write_resume(series: u16, number: u32, out: &mut [u8]) -> Result<usize, WriteError>
    ensures answer { result ≡ written_answer fine (resume_bytes series number) out.old }
    ensures output { out.new ≡ written_output fine (resume_bytes series number) out.old }
{
    room(out, 12)?;
    put_resume(out, 0, series, number);
    Ok(12)
}

// The laws of the start field, as a promise.
pub fn keeps_resume_laws()
    ensures { ResumeLaws }
{}
