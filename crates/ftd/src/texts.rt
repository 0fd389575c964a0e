// Values of String, read and written.
ghost use Rattle.std.specs.Prelude.{◌≡◌, ◌-◌, ◌≤◌, length, replicate};
ghost use Rattle.ftd.specs.Bytes.{put};
ghost use Rattle.ftd.specs.Write.{written_answer, written_output, fit_verdict};
ghost use Rattle.ftd.specs.Texts.{trimmed, text_value, text_bytes, text_fits};

use crate::bytes::copy_at;
use crate::refusal::Refusal;
use crate::values::{Class, all_in};
use crate::write::{WriteError, room};

// How many bytes there are, trailing spaces aside.
fn text_size(s: &[u8]) -> usize
    ensures { (result ≡ length (trimmed s.now)) × (result ≤ length s.now) }
{
    match s.iter().rposition(|b| *b != b' ') {
        Some(last) => last + 1,
        None => 0,
    }
}

// The bytes as a String.
pub fn read_text(s: &[u8]) -> Option<usize>
    ensures { result ≡ text_value s.now }
{
    if all_in(Class::Text, s, 0, s.len()) {
        return Some(text_size(s));
    }
    None
}

// A value fits a String of a width.
fn text_fits(width: usize, value: &[u8]) -> bool
    ensures { result ≡ text_fits width value.now }
{
    value.len() <= width
        && all_in(Class::Text, value, 0, value.len())
        && text_size(value) == value.len()
}

// Spaces from a place on, up to another.
pub(crate) fn put_spaces(out: &mut [u8], from: usize, to: usize)
    requires { (from ≤ to) × (to ≤ length out.old) }
    ensures { out.new ≡ put out.old from (replicate (to - from) 0x20) }
{
    out[from..to].fill(b' ');
}

// The bytes of a String.
fn put_text(out: &mut [u8], width: usize, value: &[u8])
    requires { (length value.now ≤ width) × (width ≤ length out.old) }
    ensures { out.new ≡ put out.old 0 (text_bytes width value.now) }
{
    copy_at(out, 0, value);
    put_spaces(out, value.len(), width);
}

// A value as a String of a width.
pub fn write_text(out: &mut [u8], width: usize, value: &[u8]) -> Result<usize, WriteError>
    ensures answer { result ≡ written_answer (fit_verdict (text_fits width value.now))
        (text_bytes width value.now) out.old }
    ensures output { out.new ≡ written_output (fit_verdict (text_fits width value.now))
        (text_bytes width value.now) out.old }
{
    if !text_fits(width, value) {
        return Err(WriteError::Refused(Refusal::Item));
    }
    room(out, width)?;
    put_text(out, width, value);
    Ok(width)
}
