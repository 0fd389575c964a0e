// Packets written into a lent output: the values as the reader gives them, refused as the reader would refuse the
// result.
ghost use Rattle.std.specs.Prelude.{◌||◌, ◌≡◌, ◌+◌, ◌<◌, ◌≤◌, length, cond, ltb, Ok, Err};
ghost use Rattle.ftd.specs.declared.refusal.Refusal.TheVariants.{TooSmall};
ghost use Rattle.ftd.specs.declared.write.WriteError.TheVariants.{Refused};
ghost use Rattle.ftd.specs.Bytes.{put};
ghost use Rattle.ftd.specs.Packet.{is_skipped};
ghost use Rattle.ftd.specs.Tags.{good_tags};
ghost use Rattle.ftd.specs.Write.Laws.{WriteLaws};
ghost use Rattle.ftd.specs.Write.{frame_head, packet_bytes, header_bytes, message_bytes, is_plain, plain_verdict};
ghost use Rattle.ftd.specs.Write.{message_verdict, written_answer, written_output};
ghost use Rattle.ftd.specs.Fields.{packet_content};

use crate::bytes::{copy_at, put8, put16, put32};
use crate::fields::{PACKET_CONTENT, exact_run};
use crate::packet::{Header, MOST_EXTENSION, is_skipped, letter, wrong_body};
use crate::refusal::Refusal;
use crate::tags::good_tags;

// Why a writer writes nothing; otherwise it answers how many bytes stand at the start of the output.
#[derive(Clone, Copy)]
pub enum WriteError {
    Refused(Refusal),
    // The values are neither a link packet nor a skipped one; the refusal table has no number for it.
    NotPlain,
}

impl From<Refusal> for WriteError {
    ghost from_gives = { λ r e. e ≡ Refused r };

    fn from(r: Refusal) -> WriteError {
        WriteError::Refused(r)
    }
}

// Refusal 18: the output has no room for so many bytes.
pub(crate) fn room(out: &[u8], n: usize) -> Result<(), Refusal>
    ensures { result ≡ cond (ltb (length out.now) n) (Err TooSmall) (Ok tt) }
{
    if out.len() < n {
        return Err(Refusal::TooSmall);
    }
    Ok(())
}

// The first four bytes of a packet.
fn put_frame(out: &mut [u8], to: usize, kind: u8, ext: usize, body: usize)
    requires { (to + 4 ≤ length out.old) × (ext < 256) × (body < 65536) }
    ensures { out.new ≡ put out.old to (frame_head kind ext body) }
{
    put8(out, to, kind);
    put8(out, to + 1, (ext % 256) as u8);
    put16(out, to + 2, (body % 65536) as u16);
}

// The header of a message.
fn put_header(out: &mut [u8], to: usize, h: Header, size: usize)
    requires { (to + 16 ≤ length out.old) × (size < 65536) }
    ensures { out.new ≡ put out.old to (header_bytes h size) }
{
    put8(out, to, 1);
    put32(out, to + 1, h.tid);
    put8(out, to + 5, letter(h.chain));
    put16(out, to + 6, h.series);
    put32(out, to + 8, h.number);
    put16(out, to + 12, h.fields);
    put16(out, to + 14, (size % 65536) as u16);
}

// The first four bytes of a message packet and its header, with room for an extension of so many bytes between them.
// Every message packet is laid out by it; whoever calls it puts extension and content.
pub(crate) fn put_head(out: &mut [u8], to: usize, ext: usize, h: Header, size: usize)
    requires { (to + (4 + ext + 16) ≤ length out.old) × (ext < 256) × (size ≤ packet_content) }
    ensures { out.new ≡ put (put out.old to (frame_head 0x01 ext (16 + size))) (to + 4 + ext)
        (header_bytes h size) }
{
    put_frame(out, to, 0x01, ext, 16 + size);
    put_header(out, to + 4 + ext, h, size);
}

// The values are a link packet or a skipped one.
#[tactic(auto, unfolding(crate::specs::Write::is_plain))]
fn is_plain(kind: u8, body: usize) -> bool
    ensures { result ≡ is_plain kind body }
{
    body <= 65535 && (kind != 0x01 || body == 0)
}

// A packet at a place of the output.
fn put_packet(out: &mut [u8], to: usize, kind: u8, extension: &[u8], body: &[u8])
    requires { (to + (4 + length extension.now + length body.now) ≤ length out.old)
        × (length extension.now < 256) × (length body.now < 65536) }
    ensures { out.new ≡ put out.old to
        (packet_bytes kind extension.now body.now) }
{
    put_frame(out, to, kind, extension.len(), body.len());
    copy_at(out, to + 4, extension);
    copy_at(out, to + 4 + extension.len(), body);
}

// A message packet at a place of the output.
fn put_message(out: &mut [u8], to: usize, h: Header, extension: &[u8], content: &[u8])
    requires { (to + (4 + length extension.now + (16 + length content.now)) ≤ length out.old)
        × (length extension.now < 256) × (length content.now ≤ packet_content) }
    ensures { out.new ≡ put out.old to
        (message_bytes h extension.now content.now) }
{
    put_head(out, to, extension.len(), h, content.len());
    copy_at(out, to + 4, extension);
    copy_at(out, to + 4 + extension.len() + 16, content);
}

// A link packet (type 0x00 or 0x01, no body) or a skipped one (type 0x00 with a body, any other type).
pub fn write_plain(
    kind: u8,
    extension: &[u8],
    body: &[u8],
    out: &mut [u8],
) -> Result<usize, WriteError>
    ensures answer { result ≡ written_answer (plain_verdict kind extension.now body.now)
        (packet_bytes kind extension.now body.now) out.old }
    ensures output { out.new ≡ written_output (plain_verdict kind extension.now body.now)
        (packet_bytes kind extension.now body.now) out.old }
{
    if MOST_EXTENSION < extension.len() {
        return Err(WriteError::Refused(Refusal::LongExtension));
    }
    if !is_plain(kind, body.len()) {
        if wrong_body(kind, body.len()) {
            return Err(WriteError::Refused(Refusal::BodyLength));
        }
        return Err(WriteError::NotPlain);
    }
    if !plain_tags(kind, extension, body.len()) {
        return Err(WriteError::Refused(Refusal::BrokenTag));
    }
    let n = 4 + extension.len() + body.len();
    room(out, n)?;
    put_packet(out, 0, kind, extension, body);
    Ok(n)
}

// The tags of a link packet are right; those of a skipped one are not looked at.
fn plain_tags(kind: u8, extension: &[u8], body: usize) -> bool
    ensures { result ≡ (is_skipped kind body || good_tags extension.now) }
{
    is_skipped(kind, body) || good_tags(extension)
}

// A message packet.
pub fn write_message(
    h: Header,
    extension: &[u8],
    content: &[u8],
    out: &mut [u8],
) -> Result<usize, WriteError>
    ensures answer { result ≡ written_answer (message_verdict h extension.now content.now)
        (message_bytes h extension.now content.now) out.old }
    ensures output { out.new ≡ written_output (message_verdict h extension.now content.now)
        (message_bytes h extension.now content.now) out.old }
{
    if MOST_EXTENSION < extension.len() {
        return Err(WriteError::Refused(Refusal::LongExtension));
    }
    if PACKET_CONTENT < content.len() {
        return Err(WriteError::Refused(Refusal::BodyLength));
    }
    if !good_tags(extension) {
        return Err(WriteError::Refused(Refusal::BrokenTag));
    }
    if !exact_run(content, h.fields) {
        return Err(WriteError::Refused(Refusal::FieldRun));
    }
    let n = 4 + extension.len() + (16 + content.len());
    room(out, n)?;
    put_message(out, 0, h, extension, content);
    Ok(n)
}

// The laws of writing, as a promise: both round trips, and refusals as the reader's.
pub fn keeps_write_laws()
    ensures { WriteLaws }
{}
