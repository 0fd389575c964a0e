// The content of a message: a run of data fields, each FID 4 bytes, length 2, and that many bytes (4.2), read and
// written.
ghost use Rattle.std.specs.Prelude.{◌≡◌, ◌+◌, ◌-◌, ◌<◌, ◌≤◌, length, drop};
ghost use Rattle.ftd.specs.Bytes.{put};
ghost use Rattle.ftd.specs.Runs.{front};
ghost use Rattle.ftd.specs.Fields.{field, exact_run, field_place_of, FieldInside, field_with, shaped, count_of};
ghost use Rattle.ftd.specs.Fields.{first_of};
ghost use Rattle.ftd.specs.Fields.Helpers.{fields_from};
ghost use Rattle.std.specs.Iterator.{YieldsFirst, item_count};
ghost use Rattle.ftd.specs.Fields.Laws.{FieldLaws};
ghost use Rattle.ftd.specs.Write.{field_verdict, written_answer, written_output};

use crate::bytes::{be16, be32, copy_at, put16, put32, size16};
use crate::refusal::Refusal;
use crate::write::{WriteError, room};

// The content of a packet: a body of at most 4,096 bytes less its header's 16.
pub const PACKET_CONTENT: usize = 4080;
// The bytes of a field that a packet holds, without FID and length.
pub const FIELD_CONTENT: usize = 4074;
// The content of a message.
pub const MOST_CONTENT: usize = 32768;

// A field of a content: its FID, and where its bytes lie, without FID and length.
#[derive(Clone, Copy)]
pub struct FieldPlace {
    pub fid: u32,
    pub start: usize,
    pub len: usize,
}

// How many bytes the field at a place takes, its FID and length among them; 0 where none stands there whole.
pub fn field_size(content: &[u8], at: usize) -> usize
    ensures { (result ≡ front field (drop at content.now)) × (result ≤ length content.now - at) }
{
    if content.len() < at {
        return 0;
    }
    let left = content.len() - at;
    if left < 6 {
        return 0;
    }
    let n = 6 + size16(be16(content, at + 4));
    if left < n {
        return 0;
    }
    n
}

// The fields of a content, in order, up to the first place where none stands whole.
#[derive(Drop)]
pub(crate) struct Fields<'a> {
    content: &'a [u8],
    at: usize,
}

impl<'a> Iterator for Fields<'a> {
    type Item = FieldPlace;

    ghost next_gives = { YieldsFirst (λ s. fields_from s.content.now s.at) };

    ghost remaining = { item_count (λ s. fields_from s.content.now s.at) };

    fn next(&mut self) -> Option<FieldPlace> {
        let n = field_size(self.content, self.at);
        if n == 0 {
            return None;
        }
        let found = FieldPlace {
            fid: be32(self.content, self.at),
            start: self.at + 6,
            len: n - 6,
        };
        self.at += n;
        Some(found)
    }
}

// Those of the whole content.
pub(crate) fn walk(content: &[u8]) -> Fields<'_>
    ensures { (result.content.now ≡ content.now) × (result.at ≡ 0) }
{
    Fields { content, at: 0 }
}

// Stays: it asks where the fields end too, which `Fields` does not yield; so does the next.
// The content is exactly that many whole fields.
pub fn exact_run(content: &[u8], count: u16) -> bool
    ensures { result ≡ exact_run content.now count }
{
    let most = size16(count);
    let mut at: usize = 0;
    let mut seen: usize = 0;
    loop {
        let n = field_size(content, at);
        if n == 0 {
            if at < content.len() {
                return false;
            }
            return seen == most;
        }
        at += n;
        seen += 1;
    }
}

// Whole fields of at most 4,074 bytes each, at most `limit` in all (refusal 7 for content that is given).
pub fn is_shaped(content: &[u8], limit: usize) -> bool
    ensures { result ≡ shaped content.now limit }
{
    if limit < content.len() {
        return false;
    }
    let mut at: usize = 0;
    loop {
        let n = field_size(content, at);
        if n == 0 {
            return content.len() <= at;
        }
        if PACKET_CONTENT < n {
            return false;
        }
        at += n;
    }
}

// Field i of a content, counted from 0.
pub fn field_place(content: &[u8], i: usize) -> Option<FieldPlace>
    ensures { (result ≡ field_place_of content.now i) × FieldInside content.now result }
{
    walk(content).nth(i)
}

// How often a field occurs in a content.
pub fn count_field(content: &[u8], fid: u32) -> usize
    ensures { result ≡ count_of fid content.now }
{
    walk(content).filter(|f| f.fid == fid).count()
}

// The first field of a content with a FID.
pub fn first_field(content: &[u8], fid: u32) -> Option<FieldPlace>
    ensures { (result ≡ first_of content.now fid) × FieldInside content.now result }
{
    walk(content).find(|f| f.fid == fid)
}

// A field at a place of the output.
fn put_field(out: &mut [u8], to: usize, fid: u32, bytes: &[u8])
    requires { (to + (6 + length bytes.now) ≤ length out.old) × (length bytes.now < 65536) }
    ensures { out.new ≡ put out.old to (field_with fid bytes.now) }
{
    put32(out, to, fid);
    put16(out, to + 4, (bytes.len() % 65536) as u16);
    copy_at(out, to + 6, bytes);
}

// A field with a FID and bytes, at the start of the output.
pub fn write_field(fid: u32, bytes: &[u8], out: &mut [u8]) -> Result<usize, WriteError>
    ensures answer { result ≡ written_answer (field_verdict bytes.now) (field_with fid bytes.now)
        out.old }
    ensures output { out.new ≡ written_output (field_verdict bytes.now)
        (field_with fid bytes.now) out.old }
{
    if FIELD_CONTENT < bytes.len() {
        return Err(WriteError::Refused(Refusal::FieldRun));
    }
    let n = 6 + bytes.len();
    room(out, n)?;
    put_field(out, 0, fid, bytes);
    Ok(n)
}

// The laws of fields written, as a promise: both round trips, and row 7.
pub fn keeps_field_laws()
    ensures { FieldLaws }
{}
