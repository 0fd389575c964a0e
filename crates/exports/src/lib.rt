// The library for C and Rust: functions on numbers, byte slices, and the two ends, the box, the trading calendar and
// the book of a contract by value. Each calls `ftd`, `flow`, `relay`, `calendar`, `book` or `fix` and gives its answer
// as numbers; include/ftd.h says what they mean. Here: packets, fields and messages.
#![tactic(auto)]

ghost use Rattle.std.specs.Prelude.{true, ◌≡◌, ◌+◌, ◌≤◌, length};
ghost use Rattle.ftd.specs.Bytes.{joined};
ghost use Rattle.ftd.specs.Fields.{field_with};
ghost use Rattle.ftd.specs.Packet.{read_of, accepted_of, verdict_of, parts_of, dated_of, field_of, said_in};
ghost use Rattle.ftd.specs.Packet.{is_letter, letter_of};
ghost use Rattle.ftd.specs.Packet.Helpers.{SaysLengths};
ghost use Rattle.ftd.specs.Content.{content_check};
ghost use Rattle.ftd.specs.Write.{written_answer, written_output, packet_bytes, plain_verdict, field_verdict};
ghost use Rattle.ftd.specs.Chain.{packets_of, size_answer, chain_verdict};
ghost use Rattle.exports.specs.Laws.{EndLaws, BoxLaws};
ghost use Rattle.exports.specs.Meaning.Calls.{AnswerLaws};
ghost use Rattle.exports.specs.Meaning.Values.{ValueLaws};
ghost use Rattle.exports.specs.Meaning.Absent.{AbsentLaws};
ghost use Rattle.exports.specs.Driver.{DriverLaws};
ghost use Rattle.exports.specs.BoxDriver.{BoxDriverLaws};
ghost use Rattle.exports.specs.Refusals.{RefusalsLeave};
ghost use Rattle.exports.specs.Numbers.{plain_numbers, link_numbers, skipped_numbers, packet_numbers};
ghost use Rattle.exports.specs.Numbers.{dated_numbers, field_numbers, step_of, direction_for, verdict_number};
ghost use Rattle.exports.specs.Numbers.{span_numbers, message_for, size_numbers, written_numbers};

use crate::tags::{date, date_for, dated, place, placed};
use crate::written::{FtdWritten, refusal_of, written};
use ftd::bytes::{be16, be32, size8, size16};
use ftd::chain::{Message, chain_size, write_chain};
use ftd::composition::Direction;
use ftd::content::check_content;
use ftd::fields::{FieldPlace, field_size, write_field};
use ftd::packet::{Span, Verdict, find_field, judge, missing, said_length};
use ftd::refusal::number;
use ftd::write::write_plain;

pub mod tags; // what the tags of an extension say
pub mod written; // what the writers answer
pub mod items; // items of fields, and modes
pub mod resume; // the start field
pub mod serving; // the serving end
pub mod receiving; // the receiving end
pub mod keeping; // named places of the receiving end to come back to
pub mod several; // a bufferful of packets or records in one call of an end
pub mod boxes; // the box
pub mod orders; // the order of two serving ends
pub mod trading; // the trading calendar
pub mod quotes; // the book of a contract
pub mod frames; // frames of JR/T 0087

// A part of lent bytes.
#[repr(C)]
#[derive(Clone, Copy)]
pub struct FtdSpan {
    pub start: usize,
    pub len: usize,
}

// What some bytes are: the packet's length, places of its parts, header values, the trade date, its place in its message,
// which answer it is, and the number of the refusal.
// Stays: `dated`, `placed` as numbers; the C interface (include/ftd.h).
#[repr(C)]
#[derive(Clone, Copy)]
pub struct FtdPacket {
    pub size: usize,
    pub missing: usize,
    pub extension: FtdSpan,
    pub content: FtdSpan,
    pub tid: u32,
    pub number: u32,
    pub date: u32,
    pub series: u16,
    pub fields: u16,
    pub place: u16,
    pub answer: u8,
    pub refusal: u8,
    pub kind: u8,
    pub chain: u8,
    pub dated: u8,
    pub placed: u8,
}

// A field: where its bytes lie, and its FID.
// Stays: `found` as a number; the C interface (include/ftd.h).
#[repr(C)]
#[derive(Clone, Copy)]
pub struct FtdField {
    pub start: usize,
    pub len: usize,
    pub fid: u32,
    pub found: u8,
}

// A field at a known place, small enough for two registers: its bytes lie behind the six of FID and length.
// Stays: `found` as a number; the C interface (include/ftd.h).
#[repr(C)]
#[derive(Clone, Copy)]
pub struct FtdStep {
    pub len: usize,
    pub fid: u32,
    pub found: u8,
}

// What all packets of a message bear.
// Stays: `dated` as a number; the C interface (include/ftd.h).
#[repr(C)]
#[derive(Clone, Copy)]
pub struct FtdMessage {
    pub tid: u32,
    pub number: u32,
    pub date: u32,
    pub series: u16,
    pub dated: u8,
}

// How many packets and bytes a message takes.
#[repr(C)]
#[derive(Clone, Copy)]
pub struct FtdSize {
    pub packets: usize,
    pub bytes: usize,
    pub refusal: u8,
}

// A part as numbers.
impl From<Span> for FtdSpan {
    ghost from_gives = { λ s r. r ≡ span_numbers s };

    fn from(s: Span) -> FtdSpan {
        FtdSpan {
            start: s.start,
            len: s.len,
        }
    }
}

// An answer with no packet: short and how many bytes are missing, or refused.
fn plain(answer: u8, missing: usize, refusal: u8) -> FtdPacket
    ensures { result ≡ plain_numbers answer missing refusal }
{
    FtdPacket {
        size: 0,
        missing,
        extension: FtdSpan { start: 0, len: 0 },
        content: FtdSpan { start: 0, len: 0 },
        tid: 0,
        number: 0,
        date: 0,
        series: 0,
        fields: 0,
        place: 0,
        answer,
        refusal,
        kind: 0,
        chain: 0,
        dated: 0,
        placed: 0,
    }
}

// A link packet of n bytes.
fn link(n: usize, kind: u8, e: Span, d: Option<u32>, j: Option<u16>) -> FtdPacket
    ensures { result ≡ link_numbers n kind e d j }
{
    FtdPacket {
        size: n,
        missing: 0,
        extension: e.into(),
        content: FtdSpan { start: 0, len: 0 },
        tid: 0,
        number: 0,
        date: date(d),
        series: 0,
        fields: 0,
        place: place(j),
        answer: 1,
        refusal: 0,
        kind,
        chain: 0,
        dated: dated(d),
        placed: placed(j),
    }
}

// A skipped packet of n bytes.
fn skipped(n: usize, kind: u8, e: Span, body: Span) -> FtdPacket
    ensures { result ≡ skipped_numbers n kind e body }
{
    FtdPacket {
        size: n,
        missing: 0,
        extension: e.into(),
        content: body.into(),
        tid: 0,
        number: 0,
        date: 0,
        series: 0,
        fields: 0,
        place: 0,
        answer: 2,
        refusal: 0,
        kind,
        chain: 0,
        dated: 0,
        placed: 0,
    }
}

// A message packet with nothing wrong, from its bytes.
fn message(p: &[u8], ext: usize, body: usize, d: Option<u32>, j: Option<u16>) -> FtdPacket
    requires { SaysLengths p.now ext body × (4 + ext + body ≤ length p.now) × (16 ≤ body)
        × (is_letter (letter_of p.now) ≡ true) }
    ensures { result ≡ packet_numbers (said_in p.now) (accepted_of p.now) d j }
{
    let at = 4 + ext;
    FtdPacket {
        size: said_length(p),
        missing: 0,
        extension: FtdSpan { start: 4, len: ext },
        content: FtdSpan {
            start: at + 16,
            len: body - 16,
        },
        tid: be32(p, at + 1),
        number: be32(p, at + 8),
        date: date(d),
        series: be16(p, at + 6),
        fields: be16(p, at + 12),
        place: place(j),
        answer: 3,
        refusal: 0,
        kind: 1,
        chain: p[at + 5],
        dated: dated(d),
        placed: placed(j),
    }
}

// What the verdict says the bytes are, as numbers, which are taken from the bytes.
fn numbers(p: &[u8], verdict: Verdict, d: Option<u32>, j: Option<u16>) -> FtdPacket
    requires { verdict ≡ verdict_of (read_of p.now) }
    ensures { result ≡ packet_numbers (said_in p.now) (parts_of p.now verdict) d j }
{
    match verdict {
        Verdict::TooFew => plain(0, missing(p), 0),
        Verdict::LinkPacket => {
            let e = Span {
                start: 4,
                len: size8(p[1]),
            };
            link(said_length(p), p[0], e, d, j)
        }
        Verdict::SkippedPacket => {
            let ext = size8(p[1]);
            let e = Span { start: 4, len: ext };
            let body = Span {
                start: 4 + ext,
                len: size16(be16(p, 2)),
            };
            skipped(said_length(p), p[0], e, body)
        }
        Verdict::MessagePacket => message(p, size8(p[1]), size16(be16(p, 2)), d, j),
        Verdict::Against(r) => plain(4, 0, number(r)),
    }
}

// What the bytes from the front on are.
#[unsafe(no_mangle)]
pub extern "C" fn ftd_read(p: &[u8]) -> FtdPacket
    ensures { result ≡ dated_numbers (said_in p.now) (dated_of p.now) }
{
    let found = judge(p);
    numbers(p, found.verdict, found.date, found.place)
}

// As many bytes as the first four say; 0 where they are not there.
#[unsafe(no_mangle)]
pub extern "C" fn ftd_said_length(p: &[u8]) -> usize
    ensures { result ≡ said_in p.now }
{
    said_length(p)
}

// Field i of a message packet, counted from 0.
#[unsafe(no_mangle)]
pub extern "C" fn ftd_find_field(p: &[u8], i: usize) -> FtdField
    ensures { result ≡ field_numbers (field_of p.now i) }
{
    match find_field(p, i) {
        None => FtdField {
            start: 0,
            len: 0,
            fid: 0,
            found: 0,
        },
        Some(FieldPlace { fid, start, len }) => FtdField {
            start,
            len,
            fid,
            found: 1,
        },
    }
}

// The field at a place of a content: for whoever walks from field to field.
#[unsafe(no_mangle)]
pub extern "C" fn ftd_field_at(content: &[u8], at: usize) -> FtdStep
    ensures { result ≡ step_of content.now at }
{
    let n = field_size(content, at);
    if n == 0 {
        return FtdStep {
            len: 0,
            fid: 0,
            found: 0,
        };
    }
    FtdStep {
        len: n - 6,
        fid: be32(content, at),
        found: 1,
    }
}

// A field with a FID and bytes, at the start of the output.
#[unsafe(no_mangle)]
pub extern "C" fn ftd_write_field(fid: u32, bytes: &[u8], out: &mut [u8]) -> FtdWritten
    ensures answer { result ≡ written_numbers
        (written_answer (field_verdict bytes.now) (field_with fid bytes.now) out.old) }
    ensures output { out.new ≡ written_output (field_verdict bytes.now)
        (field_with fid bytes.now) out.old }
{
    written(write_field(fid, bytes, out))
}

// 0 is up, any other number down.
fn direction_for(d: u8) -> Direction
    ensures { result ≡ direction_for d }
{
    if d == 0 {
        return Direction::Up;
    }
    Direction::Down
}

// The content check: 0, or the number of the first refusal.
#[unsafe(no_mangle)]
pub extern "C" fn ftd_check(tid: u32, direction: u8, content: &[u8], limit: usize) -> u8
    ensures { result ≡ verdict_number (content_check tid (direction_for direction) content.now limit) }
{
    refusal_of(check_content(tid, direction_for(direction), content, limit))
}

// What a message's packets bear.
impl From<FtdMessage> for Message {
    ghost from_gives = { λ m r. r ≡ message_for m };

    #[tactic(auto, unfolding(crate::specs::Numbers::message_for))]
    fn from(m: FtdMessage) -> Message {
        Message {
            date: date_for(m.dated, m.date),
            tid: m.tid,
            series: m.series,
            number: m.number,
            counted: false,
        }
    }
}

// How many packets and bytes a message takes.
#[unsafe(no_mangle)]
pub extern "C" fn ftd_message_size(m: FtdMessage, content: &[u8]) -> FtdSize
    ensures { result ≡ size_numbers (size_answer (message_for m) content.now) }
{
    match chain_size(m.into(), content) {
        Ok(s) => FtdSize {
            packets: s.packets,
            bytes: s.bytes,
            refusal: 0,
        },
        Err(r) => FtdSize {
            packets: 0,
            bytes: 0,
            refusal: number(r),
        },
    }
}

// All packets of a message, one behind the other; refused, the output is as it was.
#[unsafe(no_mangle)]
pub extern "C" fn ftd_write_message(m: FtdMessage, content: &[u8], out: &mut [u8]) -> FtdWritten
    ensures answer { result ≡ written_numbers
        (written_answer (chain_verdict content.now)
        (joined (packets_of (message_for m) content.now)) out.old) }
    ensures output { out.new ≡ written_output (chain_verdict content.now)
        (joined (packets_of (message_for m) content.now)) out.old }
{
    written(write_chain(m.into(), content, out))
}

// A link packet or a skipped one; refused, the output is as it was.
#[unsafe(no_mangle)]
pub extern "C" fn ftd_write_plain(
    kind: u8,
    extension: &[u8],
    body: &[u8],
    out: &mut [u8],
) -> FtdWritten
    ensures answer { result ≡ written_numbers
        (written_answer (plain_verdict kind extension.now body.now)
        (packet_bytes kind extension.now body.now) out.old) }
    ensures output { out.new ≡ written_output
        (plain_verdict kind extension.now body.now)
        (packet_bytes kind extension.now body.now) out.old }
{
    written(write_plain(kind, extension, body, out))
}

// The ends as numbers and back, as a promise.
pub fn keeps_end_laws()
    ensures { EndLaws }
{}

// The box as numbers and back, as a promise.
pub fn keeps_box_laws()
    ensures { BoxLaws }
{}

// The numbers of every call's answer mean that answer, as a promise: of the ends, of named places and of the box;
pub fn keeps_answer_laws()
    ensures { AnswerLaws }
{}

// and of all that is read, checked, written and asked beside them.
pub fn keeps_value_laws()
    ensures { ValueLaws }
{}

// What an answer does not have is 0, as a promise.
pub fn keeps_absent_laws()
    ensures { AbsentLaws }
{}

// What a driver of both ends is told by the numbers along every list of calls, as a promise: demand 3 holds of it.
pub fn keeps_driver_laws()
    ensures { DriverLaws }
{}

// The same of a driver of the box with the exchange and an end at each seat: the box's agreement holds of it.
pub fn keeps_box_driver_laws()
    ensures { BoxDriverLaws }
{}

// A refusal leaves all as before, as a promise: of every call of every state there is, and of every writer.
pub fn keeps_refusals()
    ensures { RefusalsLeave }
{}
