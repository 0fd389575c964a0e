// The line that an answer is printed as.
ghost use Rattle.std.specs.Prelude.{◌≡◌, ◌+◌, ◌*◌, ◌<◌, ◌≤◌, length, take};
ghost use Rattle.listing.specs.Text.{WroteText};
ghost use Rattle.flow.specs.Answers.{content_in};
ghost use Rattle.ftd.specs.Bytes.{part};
ghost use Rattle.play.specs.Lines.{hex_bytes, content_text, numbered, word_line, bytes_line, refused_line, outcome_line};
ghost use Rattle.play.specs.Lines.{published_line, login_answer_line, sent_line, packet_line, sent_packet_line, requested_line};
ghost use Rattle.play.specs.Lines.{confirmed_line, message_start, message_line, received_line, Passing, time_line, date_line};

use flow::receiver::{Origin, Received};
use flow::sender::{Sent, SentPacket};
use ftd::bytes::{size8, size32, wide32};
use ftd::packet::Span;
use ftd::refusal::{Refusal, number};
use listing::{put_byte, put_decimal, put_hex, put_word};

// Bytes as pairs of hexadecimal digits.
pub(crate) fn put_pairs(out: &mut [u8], at: usize, bytes: &[u8]) -> usize
    requires { at + 2 * length bytes.now ≤ length out.old }
    ensures { WroteText out.old at (hex_bytes bytes.now) out.new result
        × (result ≡ at + 2 * length bytes.now) }
{
    let mut to = at;
    for x in bytes {
        to = put_hex(out, to, wide32(*x), 2);
    }
    to
}

// A line of a word.
pub(crate) fn word_line(out: &mut [u8], word: &[u8]) -> usize
    requires { (64 ≤ length out.old) × (length word.now ≤ 16) }
    ensures { WroteText out.old 0 (word_line word.now) out.new result
        × (result ≤ length out.new) × (result ≤ 28) }
{
    let n = put_word(out, 0, word);
    put_byte(out, n, 10)
}

// The same, or `-` where there is none.
fn put_content(out: &mut [u8], at: usize, bytes: &[u8]) -> usize
    requires { at + 1 + 2 * length bytes.now ≤ length out.old }
    ensures { WroteText out.old at (content_text bytes.now) out.new result
        × (result ≤ at + 1 + 2 * length bytes.now) }
{
    if bytes.is_empty() {
        return put_byte(out, at, b'-');
    }
    put_pairs(out, at, bytes)
}

// A word, a space and a number.
pub(crate) fn put_numbered(out: &mut [u8], at: usize, word: &[u8], x: usize) -> usize
    requires { (at + 40 ≤ length out.old) × (length word.now ≤ 16) }
    ensures { WroteText out.old at (numbered word.now x) out.new result
        × (result ≤ at + 40) }
{
    let n = put_word(out, at, word);
    let n = put_byte(out, n, 32);
    put_decimal(out, n, x)
}

// A line of a word and a number.
pub(crate) fn number_line(out: &mut [u8], word: &[u8], x: usize) -> usize
    requires { (64 ≤ length out.old) × (length word.now ≤ 16) }
    ensures { WroteText out.old 0 (word_line (numbered word.now x)) out.new result
        × (result ≤ length out.new) }
{
    let n = put_numbered(out, 0, word, x);
    put_byte(out, n, 10)
}

// A line of a word, the number of bytes, what stands between, and the bytes.
fn bytes_line(out: &mut [u8], word: &[u8], between: &[u8], bytes: &[u8]) -> usize
    requires { (64 + 2 * length bytes.now ≤ length out.old) × (length word.now ≤ 16)
        × (length between.now ≤ 16) }
    ensures { WroteText out.old 0 (bytes_line word.now between.now
        bytes.now) out.new result × (result ≤ length out.new) }
{
    let n = put_numbered(out, 0, word, bytes.len());
    let n = put_word(out, n, between);
    let n = put_content(out, n, bytes);
    put_byte(out, n, 10)
}

// The first n bytes of an output, or all of it where there are no more.
fn front_line(out: &mut [u8], word: &[u8], between: &[u8], bytes: &[u8], n: usize) -> usize
    requires { (64 + 2 * length bytes.now ≤ length out.old) × (length word.now ≤ 16)
        × (length between.now ≤ 16) }
    ensures { WroteText out.old 0 (bytes_line word.now between.now
        (take n bytes.now)) out.new result × (result ≤ length out.new) }
{
    if n < bytes.len() {
        return bytes_line(out, word, between, &bytes[..n]);
    }
    bytes_line(out, word, between, bytes)
}

// `refused` and the paper's number.
pub(crate) fn refused_line(out: &mut [u8], r: Refusal) -> usize
    requires { 64 ≤ length out.old }
    ensures { WroteText out.old 0 (refused_line r) out.new result × (result ≤ length out.new)
        × (result ≤ 28) }
{
    number_line(out, b"refused", size8(number(r)))
}

// The line of an answer that says no more than a refusal: the word meant where nothing was refused.
pub(crate) fn outcome_line(out: &mut [u8], word: &[u8], answer: Result<(), Refusal>) -> usize
    requires { (64 ≤ length out.old) × (length word.now ≤ 16) }
    ensures { WroteText out.old 0 (outcome_line word.now answer) out.new result
        × (result ≤ length out.new) }
{
    match answer {
        Ok(()) => word_line(out, word),
        Err(r) => refused_line(out, r),
    }
}

// The line of Publish's answer.
pub(crate) fn published_line(out: &mut [u8], answer: Result<u32, Refusal>) -> usize
    requires { 64 ≤ length out.old }
    ensures { WroteText out.old 0 (published_line answer) out.new result
        × (result ≤ length out.new) × (result ≤ 28) }
{
    match answer {
        Ok(k) => number_line(out, b"published", size32(k)),
        Err(r) => refused_line(out, r),
    }
}

// The line of Login's answer, with the bytes that it wrote to an output.
pub(crate) fn login_line(out: &mut [u8], answer: Result<usize, Refusal>, bytes: &[u8]) -> usize
    requires { 64 + 2 * length bytes.now ≤ length out.old }
    ensures { WroteText out.old 0 (login_answer_line bytes.now answer) out.new result
        × (result ≤ length out.new) }
{
    match answer {
        Ok(n) => front_line(out, b"login", b" ", bytes, n),
        Err(r) => refused_line(out, r),
    }
}

// The line of Send's answer, with the bytes that it wrote to an output.
pub(crate) fn sent_line(
    out: &mut [u8],
    answer: Result<Option<Sent>, Refusal>,
    bytes: &[u8],
) -> usize
    requires { 64 + 2 * length bytes.now ≤ length out.old }
    ensures { WroteText out.old 0 (sent_line bytes.now answer) out.new result
        × (result ≤ length out.new) }
{
    match answer {
        Ok(None) => word_line(out, b"none"),
        Ok(Some(Sent { len, .. })) => front_line(out, b"sent", b" ", bytes, len),
        Err(r) => refused_line(out, r),
    }
}

// The line of a packet that Send wrote to an output: whether it is its message's last.
fn packet_line(out: &mut [u8], last: bool, bytes: &[u8], n: usize) -> usize
    requires { 64 + 2 * length bytes.now ≤ length out.old }
    ensures { WroteText out.old 0 (packet_line last (take n bytes.now)) out.new result
        × (result ≤ length out.new) }
{
    if last {
        return front_line(out, b"packet", b" last ", bytes, n);
    }
    front_line(out, b"packet", b" more ", bytes, n)
}

// The line of Send's answer for one packet, with the bytes that it wrote to an output.
pub(crate) fn sent_packet_line(
    out: &mut [u8],
    answer: Result<Option<SentPacket>, Refusal>,
    bytes: &[u8],
) -> usize
    requires { 64 + 2 * length bytes.now ≤ length out.old }
    ensures { WroteText out.old 0 (sent_packet_line bytes.now answer) out.new result
        × (result ≤ length out.new) }
{
    match answer {
        Ok(None) => word_line(out, b"none"),
        Ok(Some(SentPacket { len, last, .. })) => packet_line(out, last, bytes, len),
        Err(r) => refused_line(out, r),
    }
}

// The line of Ask's answer, with the bytes that it wrote to an output.
pub(crate) fn requested_line(out: &mut [u8], answer: Result<usize, Refusal>, bytes: &[u8]) -> usize
    requires { 64 + 2 * length bytes.now ≤ length out.old }
    ensures { WroteText out.old 0 (requested_line bytes.now answer) out.new result
        × (result ≤ length out.new) }
{
    match answer {
        Ok(n) => front_line(out, b"asked", b" ", bytes, n),
        Err(r) => refused_line(out, r),
    }
}

// The line of Answer's answer.
pub(crate) fn confirmed_line(out: &mut [u8], answer: Result<u32, Refusal>) -> usize
    requires { 64 ≤ length out.old }
    ensures { WroteText out.old 0 (confirmed_line answer) out.new result
        × (result ≤ length out.new) }
{
    match answer {
        Ok(k) => number_line(out, b"answered", size32(k)),
        Err(r) => refused_line(out, r),
    }
}

// `message`, its number and its TID.
fn put_message(out: &mut [u8], last: u32, tid: u32) -> usize
    requires { 64 ≤ length out.old }
    ensures { WroteText out.old 0 (message_start last tid) out.new result × (result ≤ 50) }
{
    let n = put_numbered(out, 0, b"message", size32(last));
    let n = put_byte(out, n, 32);
    let n = put_hex(out, n, tid, 8);
    put_byte(out, n, 32)
}

// The line of a message that is handed on.
fn message_line(out: &mut [u8], last: u32, tid: u32, content: &[u8]) -> usize
    requires { 64 + 2 * length content.now ≤ length out.old }
    ensures { WroteText out.old 0 (message_line last tid content.now) out.new result
        × (result ≤ length out.new) }
{
    let n = put_message(out, last, tid);
    let n = put_content(out, n, content);
    put_byte(out, n, 10)
}

// So many bytes from a place on, or those that there are.
fn part_of(bytes: &[u8], start: usize, len: usize) -> &[u8]
    ensures { result.now ≡ part bytes.now start len }
{
    if bytes.len() < start {
        return &bytes[..0];
    }
    if bytes.len() - start < len {
        return &bytes[start..];
    }
    &bytes[start..start + len]
}

// The line of a message whose content lies in the packet or in the buffer.
fn complete_line(
    out: &mut [u8],
    last: u32,
    tid: u32,
    origin: Origin,
    content: Span,
    packet: &[u8],
    buffer: &[u8],
) -> usize
    requires { (64 + 2 * length packet.now ≤ length out.old) × (64 + 2 * length buffer.now ≤ length out.old) }
    ensures { WroteText out.old 0 (message_line last tid (content_in packet.now
        buffer.now origin content)) out.new result × (result ≤ length out.new) }
{
    match origin {
        Origin::Packet => message_line(out, last, tid, part_of(packet, content.start, content.len)),
        Origin::Buffer => message_line(out, last, tid, part_of(buffer, content.start, content.len)),
    }
}

// The line of Receive's answer, to a packet, with the buffer as the call left it.
pub(crate) fn received_line(out: &mut [u8], answer: Received, packet: &[u8], buffer: &[u8]) -> usize
    requires { (64 + 2 * length packet.now ≤ length out.old) × (64 + 2 * length buffer.now ≤ length out.old) }
    ensures { WroteText out.old 0 (received_line packet.now buffer.now answer)
        out.new result × (result ≤ length out.new) × Passing answer 0 result }
{
    match answer {
        Received::Idle => word_line(out, b"idle"),
        Received::Duplicate(k) => number_line(out, b"again", size32(k)),
        Received::Partial(k) => number_line(out, b"held", size32(k)),
        Received::Complete {
            last,
            tid,
            origin,
            content,
        } => complete_line(out, last, tid, origin, content, packet, buffer),
        Received::Refused(r) => refused_line(out, r),
    }
}

// The line of a time's answer.
pub(crate) fn time_line(out: &mut [u8], answer: Option<u32>) -> usize
    requires { 64 ≤ length out.old }
    ensures { WroteText out.old 0 (time_line answer) out.new result
        × (result ≤ length out.new) }
{
    match answer {
        None => word_line(out, b"outside"),
        Some(d) => number_line(out, b"inside", size32(d)),
    }
}

// The line of a date.
pub(crate) fn date_line(out: &mut [u8], d: u32) -> usize
    requires { 64 ≤ length out.old }
    ensures { WroteText out.old 0 (date_line d) out.new result
        × (result ≤ length out.new) }
{
    number_line(out, b"date", size32(d))
}
