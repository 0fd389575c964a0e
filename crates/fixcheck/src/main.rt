// Frames of JR/T 0087 (request No. 12): makes the calls of standard input, and prints a line for each, the call and
// behind `->` what it answers, with every value. A call is a letter, a length of four bytes and that many bytes, of
// which the first four are a number: `r`, an expected number and bytes to read; `w`, the length of an output, a digit,
// a type of so many bytes and a run of fields to write; `i`, an index and a run; `t`, a tag and a run.
#![tactic(auto)]

ghost use Rattle.std.specs.Prelude.{IfSome, ◌<◌, ◌≤◌, length};

use fix::fields::{Front, field_text, find_field, first_field, number_at};
use fix::kinds::Kind;
use fix::read::{Judged, Message, read};
use fix::write::write;
use ftd::bytes::{be32, size8, size32};
use ftd::refusal::{Refusal, number};
use ftd::write::WriteError;
use std::io;
use streams::read_full;

fn print(rt: &impl Print, text: &[u8]) -> io::Result<()> {
    rt.write_all(text)
}

// A number behind a byte.
fn print_number(rt: &impl Print, before: u8, n: usize) -> io::Result<()> {
    rt.write_all(&[before])?;
    rt.print(n as u64)
}

// A byte of a text: `|` for the separator, its number behind a `\` for what can't be printed.
fn print_byte(rt: &impl Print, b: u8) -> io::Result<()> {
    match b {
        1 => print(rt, b"|"),
        b' '..=b'~' => print(rt, &[b]),
        _ => print_number(rt, b'\\', size8(b)),
    }
}

fn print_text(rt: &impl Print, text: &[u8]) -> io::Result<()> {
    for &b in text {
        print_byte(rt, b)?;
    }
    Ok(())
}

// A part of some bytes by its place; nothing where they don't have it.
fn part(bytes: &[u8], start: usize, len: usize) -> &[u8] {
    let Some(rest) = bytes.get(start..) else {
        return &bytes[..0];
    };
    rest.get(..len).unwrap_or(&bytes[..0])
}

// A place behind a byte, and the text that stands there.
fn print_part(
    rt: &impl Print,
    before: u8,
    bytes: &[u8],
    start: usize,
    len: usize,
) -> io::Result<()> {
    print_number(rt, before, start)?;
    print_number(rt, b'+', len)?;
    print_byte(rt, b'=')?;
    print_text(rt, part(bytes, start, len))
}

// A field of a run: its tag, and place and bytes of its text.
fn print_field(rt: &impl Print, run: &[u8], found: Option<Front>) -> io::Result<()> {
    let Some(Front { tag, start, len }) = found else {
        return print(rt, b" none");
    };
    print_number(rt, b' ', size32(tag))?;
    print_part(rt, b'@', run, start, len)
}

// The letter of one of the six types: heartbeat, test request, resend request, sequence reset, logout, logon.
fn letter(kind: Kind) -> u8 {
    match kind {
        Kind::Heartbeat => b'0',
        Kind::TestRequest => b'1',
        Kind::ResendRequest => b'2',
        Kind::SequenceReset => b'4',
        Kind::Logout => b'5',
        Kind::Logon => b'A',
        Kind::Other => b'-',
    }
}

// How a frame is judged, and what it says: which type, and its place; the number, the type's own values, and gap fill
// or not; the text of the first value, and the fields.
fn print_message(rt: &impl Print, judged: &[u8], bytes: &[u8], m: Message) -> io::Result<()> {
    print(rt, judged)?;
    print_byte(rt, letter(m.kind))?;
    print_part(rt, b'@', bytes, m.name.start, m.name.len)?;
    print_number(rt, b' ', size32(m.number))?;
    print_number(rt, b'/', size32(m.first))?;
    print_number(rt, b'/', size32(m.second))?;
    print_number(rt, b'/', usize::from(m.fill))?;
    print_part(rt, b' ', bytes, m.text.start, m.text.len)?;
    print_part(rt, b' ', bytes, m.fields.start, m.fields.len)
}

fn print_refusal(rt: &impl Print, r: Refusal) -> io::Result<()> {
    print(rt, b" refused")?;
    print_number(rt, b' ', size8(number(r)))
}

fn print_judged(rt: &impl Print, bytes: &[u8], answer: Judged) -> io::Result<()> {
    match answer {
        Judged::Refused(r) => print_refusal(rt, r),
        Judged::Next(m) => print_message(rt, b" next ", bytes, m),
        Judged::Again(m) => print_message(rt, b" again ", bytes, m),
        Judged::Gap(m) => print_message(rt, b" gap ", bytes, m),
        Judged::Reset(m) => print_message(rt, b" reset ", bytes, m),
    }
}

// The expected number then, and the answer.
fn print_read(rt: &impl Print, expected: u32, bytes: &[u8]) -> io::Result<()> {
    let reading = read(bytes, expected);
    print_number(rt, b' ', size32(reading.expected))?;
    print_judged(rt, bytes, reading.answer)
}

fn print_written(rt: &impl Print, answer: Result<usize, WriteError>) -> io::Result<()> {
    match answer {
        Ok(n) => {
            print(rt, b" written")?;
            print_number(rt, b' ', n)
        }
        Err(WriteError::Refused(r)) => print_refusal(rt, r),
        _ => Ok(()),
    }
}

// The whole output, and the answer.
fn print_output(rt: &impl Print, name: &[u8], run: &[u8], out: &mut [u8]) -> io::Result<()> {
    let answer = write(name, run, out);
    print_byte(rt, b' ')?;
    print_text(rt, out)?;
    print_written(rt, answer)
}

// Into the first bytes of a buffer.
fn write_in(
    rt: &impl Print,
    room: usize,
    name: &[u8],
    run: &[u8],
    buffer: &mut [u8],
) -> io::Result<()> {
    if buffer.len() < room {
        return Ok(());
    }
    print_output(rt, name, run, &mut buffer[..room])
}

// A type and a run behind the type's length, into an output of so many zeros, at most 65,536.
fn print_write(rt: &impl Print, room: u32, bytes: &[u8]) -> io::Result<()> {
    if bytes.is_empty() || bytes[0] < b'0' {
        return Ok(());
    }
    let past = 1 + size8(bytes[0] - b'0');
    if bytes.len() < past {
        return Ok(());
    }
    let mut buffer = [0u8; 65536];
    write_in(
        rt,
        size32(room),
        &bytes[1..past],
        &bytes[past..],
        &mut buffer,
    )
}

// Field i of a run, and its text, which has no bytes where there is none.
fn print_index(rt: &impl Print, i: u32, run: &[u8]) -> io::Result<()> {
    print_field(rt, run, find_field(run, size32(i)))?;
    print_byte(rt, b' ')?;
    print_text(rt, field_text(run, size32(i)))
}

// The first field of a run with a tag, and its number.
fn print_first(rt: &impl Print, tag: u32, run: &[u8]) -> io::Result<()> {
    print_field(rt, run, first_field(run, tag))?;
    print_number(rt, b' ', size32(number_at(run, tag)))
}

fn print_call(rt: &impl Print, kind: u8, n: u32, bytes: &[u8]) -> io::Result<()> {
    print_number(rt, kind, size32(n))?;
    print_byte(rt, b' ')?;
    print_text(rt, bytes)?;
    print(rt, b" ->")
}

fn answer(rt: &impl Print, kind: u8, n: u32, bytes: &[u8]) -> io::Result<()> {
    match kind {
        b'r' => print_read(rt, n, bytes),
        b'w' => print_write(rt, n, bytes),
        b'i' => print_index(rt, n, bytes),
        _ => print_first(rt, n, bytes),
    }
}

// A call: its letter, its length, its number and what is behind it.
fn call(rt: &impl Print, bytes: &[u8]) -> io::Result<()> {
    if bytes.len() < 9 {
        return Ok(());
    }
    let n = be32(bytes, 5);
    print_call(rt, bytes[0], n, &bytes[9..])?;
    answer(rt, bytes[0], n, &bytes[9..])?;
    print(rt, b"\n")
}

// How many bytes the call at the front has; none where no whole call stands there.
fn call_size(input: &[u8]) -> Option<usize>
    ensures { IfSome result (λ n. (0 < n) × (n ≤ length input.now)) }
{
    if input.len() < 5 {
        return None;
    }
    let n = size32(be32(input, 1));
    if input.len() - 5 < n {
        return None;
    }
    Some(5 + n)
}

// All calls of some bytes.
fn calls(rt: &impl Print, input: &[u8]) -> io::Result<()> {
    let mut rest = input;
    while let Some(n) = call_size(rest) {
        call(rt, &rest[..n])?;
        rest = &rest[n..];
    }
    Ok(())
}

fn main(rt: HostRuntime) -> io::Result<()> {
    let mut stdin = rt.reader();
    let mut input = [0u8; 65536];
    let n = read_full(&mut stdin, &mut input)?;
    calls(&rt, &input[..n])
}
