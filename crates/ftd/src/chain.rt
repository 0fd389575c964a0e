// A message cut into packets of whole fields, and written straight into the output.
ghost use Rattle.std.specs.Prelude.{true, ◌≡◌, ◌+◌, ◌-◌, ◌*◌, ◌<◌, ◌≤◌, length, eqb};
ghost use Rattle.ftd.specs.Bytes.{put, joined};
ghost use Rattle.ftd.specs.Runs.{run_of};
ghost use Rattle.ftd.specs.Fields.{field, shapely, most_content, packet_content};
ghost use Rattle.ftd.specs.Write.{message_bytes, written_answer, written_output};
ghost use Rattle.ftd.specs.Chain.Laws.{ChainLaws};
ghost use Rattle.ftd.specs.Chain.{chain_at, packet_for, packets_of, size_answer, chain_verdict};
ghost use Rattle.ftd.specs.Chain.{tags_at, packet_answer, packet_output};
ghost use Rattle.ftd.specs.Chain.Helpers.{NextPiece, FoundPiece, piece_at, PutRest, measure_of};
ghost use Rattle.ftd.specs.Tags.{extension_bytes};

use crate::bytes::copy_at;
use crate::fields::{MOST_CONTENT, PACKET_CONTENT, field_size, is_shaped};
use crate::packet::{Chain, Header};
use crate::refusal::Refusal;
use crate::tags::{put_place, put_tags, tags_len};
use crate::write::{WriteError, put_head, room};

// A packet's bytes besides its content, with a trade date and its place: the first four, tags 0x05 and 0x70 with their
// data, the message's header.
pub const OVERHEAD: usize = 4 + 10 + 16;
// At most so many packets a message.
pub const MOST_PACKETS: usize = 17;

// What all packets of a message bear: the trade date, if any, TID, series and number; and whether each bears its place
// (02, No. 10).
#[derive(Clone, Copy)]
pub struct Message {
    pub date: Option<u32>,
    pub tid: u32,
    pub series: u16,
    pub number: u32,
    pub counted: bool,
}

// How many packets a message takes, and how many bytes.
#[derive(Clone, Copy)]
pub struct Size {
    pub packets: usize,
    pub bytes: usize,
}

// What is answered for one packet of a message.
#[derive(Clone, Copy)]
pub struct PacketWritten {
    pub len: usize,
    pub last: bool,
}

// A piece of a content by its place among the pieces: where it starts, and its cut.
#[derive(Clone, Copy)]
pub struct PiecePlace {
    pub at: usize,
    pub cut: Cut,
}

// Where a piece of a content ends, and how many fields it has.
#[derive(Clone, Copy)]
pub struct Cut {
    pub end: usize,
    pub count: usize,
}

// The bytes that the tags of each packet of a message take.
fn message_tags(m: Message) -> usize
    ensures { (result ≡ length (extension_bytes (tags_at m 0))) × (result ≤ 10) }
{
    let n = tags_len(m.date);
    if m.counted {
        return n + 4;
    }
    n
}

// The tags of packet j of a message: the trade date, if any, and behind it, where the packets are counted, its place.
fn put_message_tags(out: &mut [u8], to: usize, m: Message, j: u16)
    requires { to + length (extension_bytes (tags_at m j)) ≤ length out.old }
    ensures { out.new ≡ put out.old to (extension_bytes (tags_at m j)) }
{
    put_tags(out, to, m.date);
    if m.counted {
        put_place(out, to + tags_len(m.date), j);
    }
}

// Packet j of a message, with its header and content, at a place of the output.
fn put_tagged(out: &mut [u8], to: usize, m: Message, j: u16, h: Header, content: &[u8])
    requires { (to + (4 + length (extension_bytes (tags_at m j)) + (16 + length content.now)) ≤ length out.old)
        × (length content.now ≤ packet_content) }
    ensures { out.new ≡ put out.old to
        (message_bytes h (extension_bytes (tags_at m j)) content.now) }
{
    let n = message_tags(m);
    put_head(out, to, n, h, content.len());
    put_message_tags(out, to + 4, m, j);
    copy_at(out, to + 4 + n + 16, content);
}

// The chain's place of a packet: S alone, or F, C .., L.
fn chain_at(first: bool, last: bool) -> Chain
    ensures { result ≡ chain_at first last }
{
    match (first, last) {
        (true, true) => Chain::Single,
        (true, false) => Chain::First,
        (false, false) => Chain::Middle,
        (false, true) => Chain::Last,
    }
}

// The next piece from a place in the content: as many whole fields as 4,080 bytes hold.
pub(crate) fn next_piece(content: &[u8], at: usize) -> Cut
    requires { at ≤ length content.now }
    ensures { NextPiece content.now at result }
{
    let mut end = at;
    let mut count: usize = 0;
    loop {
        let n = field_size(content, end);
        if n == 0 {
            return Cut { end, count };
        }
        if PACKET_CONTENT < end + n - at {
            return Cut { end, count };
        }
        end += n;
        count += 1;
    }
}

// A piece of the content as packet j, at a place of the output.
fn put_piece(
    out: &mut [u8],
    to: usize,
    m: Message,
    j: usize,
    last: bool,
    content: &[u8],
    at: usize,
    c: Cut,
)
    requires { NextPiece content.now at c × (j < 65536)
        × (to + (4 + length (extension_bytes (tags_at m j)) + (16 + (c.end - at))) ≤ length out.old) }
    ensures { out.new ≡ put out.old to
        (packet_for m j (chain_at (eqb j 0) last) (piece_at content.now at c)) }
{
    let h = Header {
        tid: m.tid,
        chain: chain_at(j == 0, last),
        series: m.series,
        number: m.number,
        fields: (c.count % 65536) as u16,
    };
    put_tagged(out, to, m, (j % 65536) as u16, h, &content[at..c.end]);
}

// How many packets a message takes, and how many bytes in all, with tags of so many bytes; refused where its content is
// not whole fields. One walk: where no field is taken though bytes are left, one is broken or too long.
fn measure(content: &[u8], tags: usize) -> Result<Size, Refusal>
    requires { (length content.now ≤ most_content) × (tags ≤ 10) }
    ensures { result ≡ measure_of tags content.now }
{
    let mut at: usize = 0;
    let mut packets: usize = 0;
    let mut bytes: usize = 0;
    loop {
        let c = next_piece(content, at);
        packets += 1;
        bytes += 4 + tags + (16 + (c.end - at));
        if c.end == content.len() {
            return Ok(Size { packets, bytes });
        }
        if c.end == at {
            return Err(Refusal::FieldRun);
        }
        at = c.end;
    }
}

// The packets from a place in the content on, packet j first, at a place of the output: how far they reach, or 0 where
// the content is not whole fields. One walk finds the pieces down to the last, at most 17 (ChainLaws, `few`); only then,
// if all fit, they are put, the last one first.
fn put_rest(
    out: &mut [u8],
    to: usize,
    m: Message,
    j: usize,
    content: &[u8],
    at: usize,
    tags: usize,
) -> usize
    requires { (length content.now ≤ most_content) × (at ≤ length content.now) × (to ≤ 31 * at) × (j ≤ at)
        × (tags ≡ length (extension_bytes (tags_at m 0))) × (tags ≤ 10) }
    ensures { PutRest m j content.now at to out.old out.new result }
{
    let c = next_piece(content, at);
    let next = to + (4 + tags + (16 + (c.end - at)));
    if c.end == content.len() {
        if out.len() < next {
            return next;
        }
        put_piece(out, to, m, j, true, content, at, c);
        return next;
    }
    if c.end == at {
        return 0;
    }
    let reach = put_rest(out, next, m, j + 1, content, c.end, tags);
    if reach == 0 {
        return 0;
    }
    if out.len() < reach {
        return reach;
    }
    put_piece(out, to, m, j, false, content, at, c);
    reach
}

// What a whole message takes; refused with 7 where its content is not whole fields that fit.
pub fn chain_size(m: Message, content: &[u8]) -> Result<Size, Refusal>
    ensures { result ≡ size_answer m content.now }
{
    if MOST_CONTENT < content.len() {
        return Err(Refusal::FieldRun);
    }
    measure(content, message_tags(m))
}

// All packets of a message, one behind the other.
pub fn write_chain(m: Message, content: &[u8], out: &mut [u8]) -> Result<usize, WriteError>
    ensures answer { result ≡ written_answer (chain_verdict content.now)
        (joined (packets_of m content.now)) out.old }
    ensures output { out.new ≡ written_output (chain_verdict content.now)
        (joined (packets_of m content.now)) out.old }
{
    if MOST_CONTENT < content.len() {
        return Err(WriteError::Refused(Refusal::FieldRun));
    }
    let n = put_rest(out, 0, m, 0, content, 0, message_tags(m));
    if n == 0 {
        return Err(WriteError::Refused(Refusal::FieldRun));
    }
    room(out, n)?;
    Ok(n)
}

// Piece i of a content, counted from 0.
fn find_piece(content: &[u8], i: usize) -> Option<PiecePlace>
    requires { shapely (run_of field content.now) ≡ true }
    ensures { FoundPiece content.now i result }
{
    let mut at: usize = 0;
    let mut left = i;
    loop {
        let c = next_piece(content, at);
        if left == 0 {
            return Some(PiecePlace { at, cut: c });
        }
        if c.end == content.len() {
            return None;
        }
        at = c.end;
        left -= 1;
    }
}

// Packet i of a message, counted from 0.
pub fn write_packet(
    m: Message,
    content: &[u8],
    i: usize,
    out: &mut [u8],
) -> Result<Option<PacketWritten>, Refusal>
    ensures answer { result ≡ packet_answer m content.now i out.old }
    ensures output { out.new ≡ packet_output m content.now i out.old }
{
    if !is_shaped(content, MOST_CONTENT) {
        return Err(Refusal::FieldRun);
    }
    let Some(PiecePlace { at, cut }) = find_piece(content, i) else {
        return Ok(None);
    };
    let len = 4 + message_tags(m) + (16 + (cut.end - at));
    room(out, len)?;
    let last = cut.end == content.len();
    put_piece(out, 0, m, i, last, content, at, cut);
    Ok(Some(PacketWritten { len, last }))
}

// The laws of a message's packets, as a promise.
pub fn keeps_chain_laws()
    ensures { ChainLaws }
{}
