// What the writers answer, as numbers; and the answers of all calls that say no more than a refusal or how many bytes
// were written.
ghost use Rattle.std.specs.Prelude.{◌≡◌};
ghost use Rattle.exports.specs.Numbers.{refusal_of, bytes_of, written_numbers};

use ftd::refusal::{Refusal, number};
use ftd::write::WriteError;

// How many bytes were written.
#[repr(C)]
#[derive(Clone, Copy)]
pub struct FtdWritten {
    pub bytes: usize,
    pub refusal: u8,
}

// 0, or the number of the refusal.
#[tactic(auto, unfolding(crate::specs::Numbers::refusal_of))]
pub(crate) fn refusal_of<T: Copy>(a: Result<T, Refusal>) -> u8
    ensures { result ≡ refusal_of a }
{
    match a {
        Ok(_) => 0,
        Err(r) => number(r),
    }
}

// How many bytes were written, or the number of the refusal.
#[tactic(auto, unfolding(crate::specs::Numbers::bytes_of))]
pub(crate) fn bytes_of(a: Result<usize, Refusal>) -> FtdWritten
    ensures { result ≡ bytes_of a }
{
    FtdWritten {
        bytes: a.unwrap_or(0),
        refusal: refusal_of(a),
    }
}

// A writer's answer.
#[tactic(auto, unfolding(crate::specs::Numbers::written_numbers))]
pub(crate) fn written(w: Result<usize, WriteError>) -> FtdWritten
    ensures { result ≡ written_numbers w }
{
    match w {
        Ok(n) => FtdWritten {
            bytes: n,
            refusal: 0,
        },
        Err(WriteError::Refused(r)) => FtdWritten {
            bytes: 0,
            refusal: number(r),
        },
        Err(WriteError::NotPlain) => FtdWritten {
            bytes: 0,
            refusal: 255,
        },
    }
}
