// The start field, as numbers.
ghost use Rattle.std.specs.Prelude.{◌≡◌};
ghost use Rattle.ftd.specs.Resume.{resume_of, resume_bytes};
ghost use Rattle.ftd.specs.Write.{written_answer, written_output, fine};
ghost use Rattle.exports.specs.Numbers.{resume_numbers, written_numbers};

use crate::written::{FtdWritten, written};
use ftd::resume::{Resume, find_resume, write_resume};

// The start field of a content: which answer it is, and its values.
#[repr(C)]
#[derive(Clone, Copy)]
pub struct FtdResume {
    pub number: u32,
    pub series: u16,
    pub answer: u8,
}

// The start field of a content.
#[unsafe(no_mangle)]
pub extern "C" fn ftd_find_resume(content: &[u8]) -> FtdResume
    ensures { result ≡ resume_numbers (resume_of content.now) }
{
    match find_resume(content) {
        Resume::Absent => FtdResume {
            number: 0,
            series: 0,
            answer: 0,
        },
        Resume::Next { series, number } => FtdResume {
            number,
            series,
            answer: 1,
        },
        Resume::Misshapen => FtdResume {
            number: 0,
            series: 0,
            answer: 2,
        },
        Resume::Several => FtdResume {
            number: 0,
            series: 0,
            answer: 3,
        },
    }
}

// The start field for a series and a number, at the start of the output.
#[unsafe(no_mangle)]
pub extern "C" fn ftd_write_resume(series: u16, number: u32, out: &mut [u8]) -> FtdWritten
    ensures answer { result ≡ written_numbers (written_answer fine (resume_bytes series number) out.old) }
    ensures output { out.new ≡ written_output fine (resume_bytes series number) out.old }
{
    written(write_resume(series, number, out))
}
