// Values of Char, Word and Int, read and written.
ghost use Rattle.std.specs.Prelude.{true, [], ◌∷◌, ◌≡◌};
ghost use Rattle.ftd.specs.Bytes.{bytes16, bytes32};
ghost use Rattle.ftd.specs.Write.{written_answer, written_output, fit_verdict};
ghost use Rattle.ftd.specs.Whole.{char_fits, char_value, word_value, int_value};

use crate::bytes::{be16, be32, number16, put8, put16, put32, wide32};
use crate::kinds::{ACTION_FLAG, CHAR, ORDER_TYPE};
use crate::refusal::Refusal;
use crate::values::is_listed;
use crate::write::{WriteError, room};

// A byte is a value of a Char, by kind.
#[tactic(auto, unfolding(crate::specs::Whole::char_fits))]
pub fn char_fits(kind: u8, b: u8) -> bool
    ensures { result ≡ char_fits kind b }
{
    kind == CHAR || (matches!(kind, ACTION_FLAG..=ORDER_TYPE) && is_listed(kind, b))
}

// The bytes as a Char of that kind.
#[tactic(auto, unfolding(crate::specs::Whole::char_value))]
pub fn read_char(kind: u8, s: &[u8]) -> Option<u32>
    ensures { result ≡ char_value kind s.now }
{
    if s.len() == 1 && char_fits(kind, s[0]) {
        return Some(wide32(s[0]));
    }
    None
}

// The bytes as a Word.
pub fn read_word(s: &[u8]) -> Option<u32>
    ensures { result ≡ word_value s.now }
{
    if s.len() == 2 {
        return Some(number16(be16(s, 0)));
    }
    None
}

// The bytes as an Int.
pub fn read_int(s: &[u8]) -> Option<u32>
    ensures { result ≡ int_value s.now }
{
    if s.len() == 4 {
        return Some(be32(s, 0));
    }
    None
}

// A byte as a Char of that kind.
pub fn write_char(out: &mut [u8], kind: u8, b: u8) -> Result<usize, WriteError>
    ensures answer { result ≡ written_answer (fit_verdict (char_fits kind b)) (b ∷ []) out.old }
    ensures output { out.new ≡ written_output (fit_verdict (char_fits kind b)) (b ∷ []) out.old }
{
    if !char_fits(kind, b) {
        return Err(WriteError::Refused(Refusal::Item));
    }
    room(out, 1)?;
    put8(out, 0, b);
    Ok(1)
}

// A number as a Word.
pub fn write_word(out: &mut [u8], x: u16) -> Result<usize, WriteError>
    ensures answer { result ≡ written_answer (fit_verdict true) (bytes16 x) out.old }
    ensures output { out.new ≡ written_output (fit_verdict true) (bytes16 x) out.old }
{
    room(out, 2)?;
    put16(out, 0, x);
    Ok(2)
}

// A number as an Int.
pub fn write_int(out: &mut [u8], x: u32) -> Result<usize, WriteError>
    ensures answer { result ≡ written_answer (fit_verdict true) (bytes32 x) out.old }
    ensures output { out.new ≡ written_output (fit_verdict true) (bytes32 x) out.old }
{
    room(out, 4)?;
    put32(out, 0, x);
    Ok(4)
}
