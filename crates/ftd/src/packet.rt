// Packets (4.1) and message packets (4.2): what some bytes are, by their first four and then by the rest.
ghost use Rattle.std.specs.Prelude.{false, ◌≡◌, ◌+◌, ◌<◌, ◌≤◌, length, get_or};
ghost use Rattle.ftd.specs.Bench.{Bench};
ghost use Rattle.ftd.specs.Fields.{FieldInside};
ghost use Rattle.ftd.specs.Packet.Laws.{ReadLaws};
ghost use Rattle.ftd.specs.Tags.{trade_date_of, packet_place_of};
ghost use Rattle.ftd.specs.Packet.{said_in, kind_of, extension_length, body_length, not_one_packet, no_message_packet};
ghost use Rattle.ftd.specs.Packet.{wrong_body, is_skipped, is_letter, chain_of, chain_letter, header_of, accepted_of};
ghost use Rattle.ftd.specs.Packet.{message_of, whole_of, read_of, extension_of, with_tags, dated_of};
ghost use Rattle.ftd.specs.Packet.{verdict_of, judgement, judged_of, parts_of};
ghost use Rattle.ftd.specs.Packet.{missing_of, moved_by, field_of, field_bytes};
ghost use Rattle.ftd.specs.Packet.Helpers.{SaysLengths, FitsIn, bare};

use crate::bytes::{be16, be32, size8, size16};
use crate::fields::{FieldPlace, exact_run, field_place};
use crate::refusal::Refusal;
use crate::tags::{TagRun, read_tags};

// The longest extension (4.1), and the body of a message packet: its header, and at most a packet's content.
pub const MOST_EXTENSION: usize = 127;

pub const LEAST_BODY: usize = 16;

pub const MOST_BODY: usize = 4096;

// A part of a packet: where it starts, and how many bytes it has.
#[derive(Clone, Copy)]
pub struct Span {
    pub start: usize,
    pub len: usize,
}

// The place of a packet in the chain of a message, each with its letter.
#[derive(Clone, Copy)]
pub enum Chain {
    Single = b'S' as isize,
    First = b'F' as isize,
    Middle = b'C' as isize,
    Last = b'L' as isize,
}

// The values of a message packet's header; its version is 1.
#[derive(Clone, Copy)]
pub struct Header {
    pub tid: u32,
    pub chain: Chain,
    pub series: u16,
    pub number: u32,
    pub fields: u16,
}

// What the bytes from the front of a slice are.
// Stays: five outcomes that callers tell apart in one match, as specs/Packet.antt names them; a Result round them
// would nest it.
#[derive(Clone, Copy)]
pub enum Packet {
    // Bytes are missing: so many for certain.
    Short(usize),
    Link {
        kind: u8,
        extension: Span,
    },
    Skipped {
        kind: u8,
        extension: Span,
        body: Span,
    },
    Message {
        header: Header,
        extension: Span,
        content: Span,
    },
    Refused(Refusal),
}

// What the bytes are, and the trade date and the place in a message that it bears.
#[derive(Clone, Copy)]
pub struct Dated {
    pub packet: Packet,
    pub date: Option<u32>,
    pub place: Option<u16>,
}

// What they are, without values and places.
// Stays: five outcomes that callers tell apart in one match, as specs/Packet.antt names them; a Result round them
// would nest it.
#[derive(Clone, Copy)]
pub enum Verdict {
    TooFew,
    LinkPacket,
    SkippedPacket,
    MessagePacket,
    Against(Refusal),
}

// A verdict, and the trade date and the place in a message that the bytes bear.
#[derive(Clone, Copy)]
pub struct Judged {
    pub verdict: Verdict,
    pub date: Option<u32>,
    pub place: Option<u16>,
}

// As many bytes as the first four say; 0 where they are not there.
pub fn said_length(p: &[u8]) -> usize
    ensures { result ≡ said_in p.now }
{
    if 4 <= p.len() {
        return 4 + size8(p[1]) + size16(be16(p, 2));
    }
    0
}

// How many bytes are certainly missing: up to the fourth, and with the four up to the packet's end; 0 where none is.
pub fn missing(p: &[u8]) -> usize
    ensures { result ≡ missing_of p.now }
{
    if 4 <= p.len() {
        let said = said_length(p);
        if p.len() < said {
            return said - p.len();
        }
        return 0;
    }
    4 - p.len()
}

// A byte at a place; 0 where it is not there.
fn byte_in(p: &[u8], at: usize) -> u8
    ensures { result ≡ get_or p.now at 0 }
{
    if at < p.len() {
        return p[at];
    }
    0
}

// The length of the body, as the bytes 2 and 3 say.
fn body_in(p: &[u8]) -> usize
    ensures { result ≡ body_length p.now }
{
    size8(byte_in(p, 2)) * 256 + size8(byte_in(p, 3))
}

// Refusal 12: fewer than four bytes, or not as many as the first four say.
pub fn not_one_packet(p: &[u8]) -> bool
    ensures { result ≡ not_one_packet p.now }
{
    p.len() < 4 || p.len() != said_length(p)
}

// Refusal 12, of Login and Answer also: no message packet, by the first four bytes. Bytes that are not there count as
// 0.
#[tactic(auto, unfolding(crate::specs::Packet::no_message_packet))]
pub fn no_message_packet(p: &[u8]) -> bool
    ensures { result ≡ no_message_packet p.now }
{
    let body = body_in(p);
    byte_in(p, 0) != 0x01 || body < LEAST_BODY || MOST_BODY < body
}

// Refusal 3: type 0x01 with a body of 1 to 15 or above 4,096.
#[tactic(auto, unfolding(crate::specs::Packet::wrong_body))]
pub(crate) fn wrong_body(kind: u8, body: usize) -> bool
    ensures { result ≡ wrong_body kind body }
{
    kind == 0x01 && body != 0 && (body < LEAST_BODY || MOST_BODY < body)
}

// Any type but 0x00 and 0x01, and type 0x00 with a body.
#[tactic(auto, unfolding(crate::specs::Packet::is_skipped))]
pub(crate) fn is_skipped(kind: u8, body: usize) -> bool
    ensures { result ≡ is_skipped kind body }
{
    1 < kind || (kind == 0 && 0 < body)
}

// A letter of the chain: S, F, C or L.
#[tactic(auto, unfolding(crate::specs::Packet::is_letter))]
fn is_letter(x: u8) -> bool
    ensures { result ≡ is_letter x }
{
    matches!(x, b'S' | b'F' | b'C' | b'L')
}

// The chain's place that a letter stands for.
#[tactic(auto, unfolding(crate::specs::Packet::chain_of))]
fn chain_of(letter: u8) -> Chain
    ensures { result ≡ chain_of letter }
{
    match letter {
        b'S' => Chain::Single,
        b'F' => Chain::First,
        b'C' => Chain::Middle,
        _ => Chain::Last,
    }
}

// The letter of a chain's place.
pub fn letter(c: Chain) -> u8
    ensures { result ≡ chain_letter c }
{
    c as u8
}

// The values of the header in a body that starts behind an extension of `ext` bytes.
fn header_of(p: &[u8], ext: usize) -> Header
    requires { (ext ≡ extension_length p.now) × (4 + ext + 16 ≤ length p.now) }
    ensures { result ≡ header_of p.now }
{
    let at = 4 + ext;
    Header {
        tid: be32(p, at + 1),
        chain: chain_of(p[at + 5]),
        series: be16(p, at + 6),
        number: be32(p, at + 8),
        fields: be16(p, at + 12),
    }
}

// What bears neither trade date nor place.
fn bare(verdict: Verdict) -> Judged
    ensures { result ≡ bare verdict }
{
    Judged {
        verdict,
        date: None,
        place: None,
    }
}

// A message packet that is there whole: refusals 4 to 7, or nothing wrong, with what its extension bears.
fn judge_message(p: &[u8], ext: usize, body: usize, date: Option<u32>, place: Option<u16>) -> Judged
    requires { SaysLengths p.now ext body × (4 + ext + body ≤ length p.now) × (16 ≤ body) }
    ensures { result ≡ judgement (with_tags (message_of p.now) date place) }
{
    let at = 4 + ext;
    if p[at] != 1 {
        return bare(Verdict::Against(Refusal::Version));
    }
    if is_letter(p[at + 5]) {
        if size16(be16(p, at + 14)) + 16 != body {
            return bare(Verdict::Against(Refusal::ContentLength));
        }
        if exact_run(&p[at + 16..at + body], be16(p, at + 12)) {
            return Judged {
                verdict: Verdict::MessagePacket,
                date,
                place,
            };
        }
        return bare(Verdict::Against(Refusal::FieldRun));
    }
    bare(Verdict::Against(Refusal::ChainLetter))
}

// A packet that is there whole: skipped, refused with 2, a link packet or a message packet.
fn judge_whole(p: &[u8], kind: u8, ext: usize, body: usize) -> Judged
    requires { SaysLengths p.now ext body × (kind ≡ kind_of p.now) × (4 + ext + body ≤ length p.now)
        × (wrong_body kind body ≡ false) }
    ensures { result ≡ judgement (with_tags (whole_of p.now) (trade_date_of (extension_of p.now))
        (packet_place_of (extension_of p.now))) }
{
    if is_skipped(kind, body) {
        return bare(Verdict::SkippedPacket);
    }
    let Some(TagRun { date, place }) = read_tags(&p[4..4 + ext]) else {
        return bare(Verdict::Against(Refusal::BrokenTag));
    };
    if body == 0 {
        return Judged {
            verdict: Verdict::LinkPacket,
            date,
            place,
        };
    }
    judge_message(p, ext, body, date, place)
}

// What the bytes from the front on are, with trade date and place of a link packet or a message packet: all that is
// read goes by this one walk, and the tags are walked once. Its answer is small, so that little goes through memory.
pub fn judge(p: &[u8]) -> Judged
    ensures { result ≡ judged_of p.now }
{
    if p.len() < 4 {
        return bare(Verdict::TooFew);
    }
    let kind = p[0];
    let ext = size8(p[1]);
    let body = size16(be16(p, 2));
    if MOST_EXTENSION < ext {
        return bare(Verdict::Against(Refusal::LongExtension));
    }
    if wrong_body(kind, body) {
        return bare(Verdict::Against(Refusal::BodyLength));
    }
    if p.len() < 4 + ext + body {
        return bare(Verdict::TooFew);
    }
    judge_whole(p, kind, ext, body)
}

// A message packet with nothing wrong: its values and places.
fn accept(p: &[u8], ext: usize, body: usize) -> Packet
    requires { SaysLengths p.now ext body × (4 + ext + body ≤ length p.now) × (16 ≤ body) }
    ensures { result ≡ accepted_of p.now }
{
    Packet::Message {
        header: header_of(p, ext),
        extension: Span { start: 4, len: ext },
        content: Span {
            start: 4 + ext + 16,
            len: body - 16,
        },
    }
}

// The parts of what the verdict says the bytes are. Here alone short is made, with its number.
fn parts(p: &[u8], verdict: Verdict) -> Packet
    requires { verdict ≡ verdict_of (read_of p.now) }
    ensures { result ≡ parts_of p.now verdict }
{
    match verdict {
        Verdict::TooFew => Packet::Short(missing(p)),
        Verdict::LinkPacket => Packet::Link {
            kind: p[0],
            extension: Span {
                start: 4,
                len: size8(p[1]),
            },
        },
        Verdict::SkippedPacket => {
            let ext = size8(p[1]);
            Packet::Skipped {
                kind: p[0],
                extension: Span { start: 4, len: ext },
                body: Span {
                    start: 4 + ext,
                    len: size16(be16(p, 2)),
                },
            }
        }
        Verdict::MessagePacket => accept(p, size8(p[1]), size16(be16(p, 2))),
        Verdict::Against(r) => Packet::Refused(r),
    }
}

// What the bytes from the front on are, with trade date and place of a link packet or a message packet.
pub fn read_dated(p: &[u8]) -> Dated
    ensures { result ≡ dated_of p.now }
{
    let j = judge(p);
    Dated {
        packet: parts(p, j.verdict),
        date: j.date,
        place: j.place,
    }
}

// What the bytes from the front on are. Bytes behind the packet are not looked at.
pub fn read(p: &[u8]) -> Packet
    ensures { result ≡ read_of p.now }
{
    parts(p, judge(p).verdict)
}

// A place in a part that starts at `base`, as a place in the whole.
#[tactic(auto, unfolding(crate::specs::Packet::moved_by))]
fn moved(base: usize, f: Option<FieldPlace>, room: usize) -> Option<FieldPlace>
    requires { FitsIn room f × (base + room ≤ 18446744073709551615) }
    ensures { result ≡ moved_by base f }
{
    let found = f?;
    Some(FieldPlace {
        start: base + found.start,
        ..found
    })
}

// Field i of a message packet, counted from 0: FID, place and length; no field from the field count on,
// and of bytes that are no message packet.
pub fn find_field(p: &[u8], i: usize) -> Option<FieldPlace>
    ensures { (result ≡ field_of p.now i) × FieldInside p.now result }
{
    let Verdict::MessagePacket = judge(p).verdict else {
        return None;
    };
    let at = 4 + size8(p[1]) + 16;
    let n = size16(be16(p, 2)) - 16;
    moved(at, field_place(&p[at..at + n], i), n)
}

// The bytes of field i, a part of the lent packet without FID and length; no bytes where there is no such field.
#[tactic(auto, unfolding(crate::specs::Packet::field_bytes))]
pub fn field(p: &[u8], i: usize) -> &[u8]
    ensures { result.now ≡ field_bytes p.now i }
{
    let Some(FieldPlace { start, len, .. }) = find_field(p, i) else {
        return &p[..0];
    };
    &p[start..start + len]
}

// The laws of reading, as a promise.
pub fn keeps_read_laws()
    ensures { ReadLaws }
{}

// The bench examples, as a promise: the definitions answer what the paper says.
pub fn keeps_bench()
    ensures { Bench }
{}
