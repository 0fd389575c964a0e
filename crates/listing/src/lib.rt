// The lister's text: a line for each packet of a capture (01, Lister).
#![tactic(auto)]

ghost use Rattle.std.specs.Prelude.{false, ◌≡◌, [], ◌∷◌, ◌++◌, ◌+◌, ◌<◌, ◌≤◌, length};
ghost use Rattle.ftd.specs.Packet.Laws.{Inside};
ghost use Rattle.listing.specs.Text.{WroteText, decimal_of, hex_digit, hex_of, tab, tabbed};
ghost use Rattle.listing.specs.Lines.{refused_text, start_text, message_text, is_heart, link_text, packet_text};
ghost use Rattle.listing.specs.Lines.{line_with, goes_on, answer_of, out_of};
ghost use Rattle.listing.specs.Laws.{Listed};
ghost use Rattle.listing.specs.Examples.{Examples};

use ftd::bytes::{copy_at, put8};
use ftd::packet::{Packet, letter, read, said_length};
use ftd::refusal::number;
use ftd::tags::keep_alive;

// Stays: three outcomes that callers tell apart, with other values each, as `answer_of` of specs/Lines.antt names
// them.
// What became of a line: too little room for it, the last one with its length, or its length and where the next packet
// starts.
#[derive(Clone, Copy)]
pub enum Line {
    TooSmall,
    Last(usize),
    More { len: usize, next: usize },
}

// A byte; answers the place behind it, as each of the next does.
pub fn put_byte(out: &mut [u8], at: usize, x: u8) -> usize
    requires { at < length out.old }
    ensures { WroteText out.old at (x ∷ []) out.new result }
{
    put8(out, at, x);
    at + 1
}

// The bytes of a word.
pub fn put_word(out: &mut [u8], at: usize, word: &[u8]) -> usize
    requires { at + length word.now ≤ length out.old }
    ensures { WroteText out.old at word.now out.new result }
{
    copy_at(out, at, word);
    at + word.len()
}

// A number in decimal.
pub fn put_decimal(out: &mut [u8], at: usize, x: usize) -> usize
    requires { at + length (decimal_of x) ≤ length out.old }
    ensures { WroteText out.old at (decimal_of x) out.new result }
{
    if x < 10 {
        return put_byte(out, at, b'0' + x as u8);
    }
    let last = put_decimal(out, at, x / 10);
    put_byte(out, last, b'0' + (x % 10) as u8)
}

// A hexadecimal digit.
fn hex_digit(d: u8) -> u8
    requires { d < 16 }
    ensures { result ≡ hex_digit d }
{
    if d < 10 { b'0' + d } else { b'A' + (d - 10) }
}

// The last `digits` digits of a number in hexadecimal.
pub fn put_hex(out: &mut [u8], at: usize, x: u32, digits: usize) -> usize
    requires { at + digits ≤ length out.old }
    ensures { WroteText out.old at (hex_of digits x) out.new result × (result ≡ at + digits) }
{
    if digits == 0 {
        return at;
    }
    let last = put_hex(out, at, x / 16, digits - 1);
    put_byte(out, last, hex_digit((x % 16) as u8))
}

// A tab and a number in decimal.
fn put_tabbed(out: &mut [u8], at: usize, x: usize) -> usize
    requires { at + 1 + length (decimal_of x) ≤ length out.old }
    ensures { WroteText out.old at (tabbed x) out.new result }
{
    let n = put_byte(out, at, b'\t');
    put_decimal(out, n, x)
}

// The fields of a refusal.
fn put_refused(out: &mut [u8], at: usize, refusal: u8) -> usize
    requires { at + 11 ≤ length out.old }
    ensures { WroteText out.old at (refused_text refusal) out.new result × (result ≤ at + 11) }
{
    let n = put_word(out, at, b"refused");
    put_tabbed(out, n, refusal as usize)
}

// `msg`, TID and chain letter.
fn put_start(out: &mut [u8], at: usize, tid: u32, letter: u8) -> usize
    requires { at + 14 ≤ length out.old }
    ensures { WroteText out.old at (start_text tid letter) out.new result × (result ≡ at + 14) }
{
    let n = put_word(out, at, b"msg\t");
    let n = put_hex(out, n, tid, 8);
    let n = put_byte(out, n, b'\t');
    put_byte(out, n, letter)
}

// The fields of a message packet.
fn put_message(
    out: &mut [u8],
    at: usize,
    tid: u32,
    letter: u8,
    series: u16,
    number: u32,
    fields: u16,
) -> usize
    requires { at + 37 ≤ length out.old }
    ensures { WroteText out.old at (message_text tid letter series number fields) out.new result
        × (result ≤ at + 37) }
{
    let n = put_start(out, at, tid, letter);
    let n = put_tabbed(out, n, series as usize);
    let n = put_tabbed(out, n, number as usize);
    put_tabbed(out, n, fields as usize)
}

// A link packet is a heart: type 0x00, and tag 0x04 in its extension.
fn is_heart(p: &[u8], kind: u8, start: usize, len: usize) -> bool
    requires { start + len ≤ length p.now }
    ensures { result ≡ is_heart p.now kind start len }
{
    kind == 0 && keep_alive(&p[start..start + len])
}

// The field of a link packet.
fn put_link(out: &mut [u8], at: usize, p: &[u8], kind: u8, start: usize, len: usize) -> usize
    requires { (at + 5 ≤ length out.old) × (start + len ≤ length p.now) }
    ensures { WroteText out.old at (link_text p.now kind start len) out.new result
        × (result ≤ at + 5) }
{
    if is_heart(p, kind, start, len) {
        put_word(out, at, b"heart")
    } else {
        put_word(out, at, b"link")
    }
}

// The fields behind the offset, for what was read of the bytes p.
fn put_packet(out: &mut [u8], at: usize, p: &[u8], found: Packet) -> usize
    requires { (at + 37 ≤ length out.old) × Inside p.now found }
    ensures { WroteText out.old at (packet_text p.now found) out.new result
        × (result ≤ at + 37) }
{
    match found {
        Packet::Short(_) => put_word(out, at, b"short"),
        Packet::Link { kind, extension } => put_link(
            out,
            at,
            p,
            kind,
            extension.start,
            extension.len,
        ),
        Packet::Skipped { .. } => put_word(out, at, b"skip"),
        Packet::Message { header: h, .. } => put_message(
            out,
            at,
            h.tid,
            letter(h.chain),
            h.series,
            h.number,
            h.fields,
        ),
        Packet::Refused(r) => put_refused(out, at, number(r)),
    }
}

// The offset and a tab.
fn begin_line(out: &mut [u8], offset: usize) -> usize
    requires { 64 ≤ length out.old }
    ensures { WroteText out.old 0 (decimal_of offset ++ tab) out.new result × (result ≤ 21) }
{
    let n = put_decimal(out, 0, offset);
    put_byte(out, n, b'\t')
}

// A line of an offset and a word.
fn word_line(out: &mut [u8], offset: usize, word: &[u8]) -> usize
    requires { (64 ≤ length out.old) × (length word.now ≤ 37) }
    ensures { WroteText out.old 0 (line_with offset word.now) out.new result }
{
    let n = begin_line(out, offset);
    let n = put_word(out, n, word);
    put_byte(out, n, b'\n')
}

// The line of a packet.
fn packet_line(out: &mut [u8], offset: usize, p: &[u8], found: Packet) -> usize
    requires { (64 ≤ length out.old) × Inside p.now found }
    ensures { WroteText out.old 0 (line_with offset (packet_text p.now found))
        out.new result }
{
    let n = begin_line(out, offset);
    let n = put_packet(out, n, p, found);
    put_byte(out, n, b'\n')
}

// Another line follows: the packet is there whole.
fn goes_on(found: Packet) -> bool
    ensures { result ≡ goes_on found }
{
    !matches!(found, Packet::Short(_) | Packet::Refused(_))
}

// The line at a place inside the capture.
fn line_inside(capture: &[u8], at: usize, out: &mut [u8]) -> Line
    requires { (at < length capture.now) × (64 ≤ length out.old) }
    ensures answer { result ≡ answer_of capture.now false at out.old }
    ensures output { out.new ≡ out_of capture.now false at out.old }
{
    let p = &capture[at..];
    let found = read(p);
    let len = packet_line(out, at, p, found);
    if goes_on(found) {
        Line::More {
            len,
            next: at + said_length(p),
        }
    } else {
        Line::Last(len)
    }
}

// Writes the line at a place of a capture to the start of a buffer. `more` says that the input goes on behind the
// capture: then the line is `long`.
pub fn write_line(capture: &[u8], more: bool, at: usize, out: &mut [u8]) -> Line
    ensures answer { result ≡ answer_of capture.now more at out.old }
    ensures output { out.new ≡ out_of capture.now more at out.old }
{
    if out.len() < 64 {
        return Line::TooSmall;
    }
    if more {
        return Line::Last(word_line(out, 0, b"long"));
    }
    if capture.len() <= at {
        return Line::Last(word_line(out, at, b"end"));
    }
    line_inside(capture, at, out)
}

// The laws and the examples of the listing, as a promise: whoever writes line after line writes it.
pub fn keeps_listing()
    ensures { Listed × Examples }
{}
