// A login packet and its answer: TID 0x0016, S, series and number 0, a trade date, if any, as the only tag.
ghost use Rattle.std.specs.Prelude.{◌++◌, ◌≡◌, ◌+◌, ◌<◌, ◌≤◌, length};
ghost use Rattle.ftd.specs.Bytes.{put};
ghost use Rattle.ftd.specs.Fields.{fields_of, packet_content};
ghost use Rattle.ftd.specs.Write.{written_answer, written_output};
ghost use Rattle.ftd.specs.Tags.{tags_for, extension_bytes};
ghost use Rattle.ftd.specs.Login.{login_bytes, ending_bytes, login_verdict, LoginLaws};

use crate::bytes::copy_at;
use crate::chain::next_piece;
use crate::fields::PACKET_CONTENT;
use crate::packet::{Chain, Header};
use crate::refusal::Refusal;
use crate::resume::put_resume;
use crate::tags::{put_tags, tags_len};
use crate::write::{WriteError, put_head, room};

// What stands behind the content of a login packet that is written.
#[derive(Clone, Copy)]
pub struct Ending {
    pub series: u16,
    pub number: u32,
}

// The bytes that it takes.
fn ending_len(ending: Option<Ending>) -> usize
    ensures { (result ≡ length (ending_bytes ending)) × (result ≤ 12) }
{
    if ending.is_some() { 12 } else { 0 }
}

// How many fields it is.
fn ending_fields(ending: Option<Ending>) -> usize
    ensures { (result ≡ length (fields_of (ending_bytes ending))) × (result ≤ 1) }
{
    if ending.is_some() { 1 } else { 0 }
}

// It is put at a place of the output.
fn put_ending(out: &mut [u8], to: usize, ending: Option<Ending>)
    requires { to + length (ending_bytes ending) ≤ length out.old }
    ensures { out.new ≡ put out.old to (ending_bytes ending) }
{
    if let Some(Ending { series, number }) = ending {
        put_resume(out, to, series, number);
    }
}

// A login packet of so many fields at the start of the output.
fn put_login(
    out: &mut [u8],
    date: Option<u32>,
    content: &[u8],
    ending: Option<Ending>,
    fields: usize,
)
    requires { (4 + length
        (extension_bytes (tags_for date)) + (16 + (length content.now + length (ending_bytes ending))) ≤ length
        out.old) × (length content.now + length (ending_bytes ending) ≤ packet_content)
        × (fields ≡ length (fields_of (content.now ++ ending_bytes ending))) × (fields < 65536) }
    ensures { out.new ≡ put out.old 0
        (login_bytes date (content.now ++ ending_bytes ending)) }
{
    let n = tags_len(date);
    let size = content.len() + ending_len(ending);
    let h = Header {
        tid: 0x0016,
        chain: Chain::Single,
        series: 0,
        number: 0,
        fields: (fields % 65536) as u16,
    };
    put_head(out, 0, n, h, size);
    put_tags(out, 4, date);
    copy_at(out, 4 + n + 16, content);
    put_ending(out, 4 + n + 16 + content.len(), ending);
}

// A login packet or its answer; refused with 7 where the content is not whole fields, or more than one packet holds
// with what stands behind it. One walk: the first piece is all of the content, or something is wrong with it.
pub fn write_login(
    date: Option<u32>,
    content: &[u8],
    ending: Option<Ending>,
    out: &mut [u8],
) -> Result<usize, WriteError>
    ensures answer { result ≡ written_answer (login_verdict content.now ending)
        (login_bytes date (content.now ++ ending_bytes ending)) out.old }
    ensures output { out.new ≡ written_output (login_verdict content.now ending)
        (login_bytes date (content.now ++ ending_bytes ending)) out.old }
{
    let tail = ending_len(ending);
    if PACKET_CONTENT - tail < content.len() {
        return Err(WriteError::Refused(Refusal::FieldRun));
    }
    let c = next_piece(content, 0);
    if c.end < content.len() {
        return Err(WriteError::Refused(Refusal::FieldRun));
    }
    let n = 4 + tags_len(date) + (16 + (content.len() + tail));
    room(out, n)?;
    put_login(out, date, content, ending, c.count + ending_fields(ending));
    Ok(n)
}

// The laws of a login packet, as a promise.
pub fn keeps_login_laws()
    ensures { LoginLaws }
{}
