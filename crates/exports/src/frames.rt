// Frames of JR/T 0087 (02, No. 12) for C and Rust: read with the expected number, written, and their fields.
ghost use Rattle.std.specs.Prelude.{◌≡◌, length};
ghost use Rattle.fix.specs.Text.{number_in};
ghost use Rattle.fix.specs.Fields.{place_of, first_of};
ghost use Rattle.fix.specs.Read.{read_of};
ghost use Rattle.fix.specs.Write.{write_answer, write_output};
ghost use Rattle.exports.specs.Numbers.{written_numbers};
ghost use Rattle.exports.specs.Frames.{kind_number, refused_numbers, said_numbers, judged_numbers, reading_numbers};
ghost use Rattle.exports.specs.Frames.{front_numbers, text_numbers};
ghost use Rattle.exports.specs.Frames.Laws.{FrameNumberLaws};

use crate::FtdSpan;
use crate::tags::flag_of;
use crate::written::{FtdWritten, written};
use fix::fields::{Front, find_field, first_field};
use fix::kinds::Kind;
use fix::read::{Judged, Message, read};
use fix::text::number_in;
use fix::write::write;
use ftd::refusal::number;

// How a frame is judged, the number expected then, and what the frame says: places, numbers, which type it is of.
// Stays: `fill` as a number; the C interface (include/ftd.h).
#[repr(C)]
#[derive(Clone, Copy)]
pub struct FtdReading {
    pub name: FtdSpan,
    pub fields: FtdSpan,
    pub text: FtdSpan,
    pub expected: u32,
    pub number: u32,
    pub first: u32,
    pub second: u32,
    pub answer: u8,
    pub refusal: u8,
    pub kind: u8,
    pub fill: u8,
}

// A field of a frame: where its text lies, and its tag.
// Stays: `found` as a number; the C interface (include/ftd.h).
#[repr(C)]
#[derive(Clone, Copy)]
pub struct FtdTagged {
    pub start: usize,
    pub len: usize,
    pub tag: u32,
    pub found: u8,
}

// A text as a number.
// Stays: `found` as a number; the C interface (include/ftd.h).
#[repr(C)]
#[derive(Clone, Copy)]
pub struct FtdNumber {
    pub number: u32,
    pub found: u8,
}

// The type of a message.
fn kind_number(kind: Kind) -> u8
    ensures { result ≡ kind_number kind }
{
    match kind {
        Kind::Heartbeat => 1,
        Kind::TestRequest => 2,
        Kind::ResendRequest => 3,
        Kind::SequenceReset => 4,
        Kind::Logout => 5,
        Kind::Logon => 6,
        Kind::Other => 0,
    }
}

// A refusal: no values.
fn refused(expected: u32, refusal: u8) -> FtdReading
    ensures { result ≡ refused_numbers expected refusal }
{
    FtdReading {
        name: FtdSpan { start: 0, len: 0 },
        fields: FtdSpan { start: 0, len: 0 },
        text: FtdSpan { start: 0, len: 0 },
        expected,
        number: 0,
        first: 0,
        second: 0,
        answer: 0,
        refusal,
        kind: 0,
        fill: 0,
    }
}

// Any other answer, with what the frame says.
fn said(expected: u32, answer: u8, m: Message) -> FtdReading
    ensures { result ≡ said_numbers expected answer m }
{
    FtdReading {
        name: m.name.into(),
        fields: m.fields.into(),
        text: m.text.into(),
        expected,
        number: m.number,
        first: m.first,
        second: m.second,
        answer,
        refusal: 0,
        kind: kind_number(m.kind),
        fill: flag_of(m.fill),
    }
}

// A judgement.
fn judged(expected: u32, a: Judged) -> FtdReading
    ensures { result ≡ judged_numbers expected a }
{
    match a {
        Judged::Refused(r) => refused(expected, number(r)),
        Judged::Next(m) => said(expected, 1, m),
        Judged::Again(m) => said(expected, 2, m),
        Judged::Gap(m) => said(expected, 3, m),
        Judged::Reset(m) => said(expected, 4, m),
    }
}

// One frame, read with the expected number.
#[unsafe(no_mangle)]
pub extern "C" fn ftd_frame_read(bytes: &[u8], expected: u32) -> FtdReading
    ensures { result ≡ reading_numbers (read_of bytes.now expected) }
{
    let found = read(bytes, expected);
    judged(found.expected, found.answer)
}

// The frame of a type and a run of fields, at the start of the output.
#[unsafe(no_mangle)]
pub extern "C" fn ftd_frame_write(name: &[u8], fields: &[u8], out: &mut [u8]) -> FtdWritten
    ensures answer { result ≡ written_numbers
        (write_answer name.now fields.now (length out.old)) }
    ensures output { out.new ≡ write_output name.now fields.now out.old }
{
    written(write(name, fields, out))
}

// A field, or none.
fn front(f: Option<Front>) -> FtdTagged
    ensures { result ≡ front_numbers f }
{
    match f {
        None => FtdTagged {
            start: 0,
            len: 0,
            tag: 0,
            found: 0,
        },
        Some(Front { tag, start, len }) => FtdTagged {
            start,
            len,
            tag,
            found: 1,
        },
    }
}

// Field i of a run, counted from 0.
#[unsafe(no_mangle)]
pub extern "C" fn ftd_frame_field(fields: &[u8], i: usize) -> FtdTagged
    ensures { result ≡ front_numbers (place_of fields.now i) }
{
    front(find_field(fields, i))
}

// The first field of a run with a tag.
#[unsafe(no_mangle)]
pub extern "C" fn ftd_frame_first(fields: &[u8], tag: u32) -> FtdTagged
    ensures { result ≡ front_numbers (first_of fields.now tag) }
{
    front(first_field(fields, tag))
}

// A text as a number.
#[unsafe(no_mangle)]
pub extern "C" fn ftd_frame_number(text: &[u8]) -> FtdNumber
    ensures { result ≡ text_numbers (number_in text.now) }
{
    match number_in(text) {
        None => FtdNumber {
            number: 0,
            found: 0,
        },
        Some(n) => FtdNumber {
            number: n,
            found: 1,
        },
    }
}

// Frames as numbers, as a promise.
pub fn keeps_reading_numbers()
    ensures { FrameNumberLaws }
{}
