// The worked examples of the box (02, No. 3), and two of its reserves (No. 11): makes their calls, and prints for each
// what it was and what it answered. A(s,m) is Answer for series s with mark m, R(s,k,m) Receive of a packet S with
// number k and mark m, F and L the same of these letters; f4 is one field of FID 0x7000 with 4 bytes.
#![tactic(auto)]

use flow::receiver::Received;
use flow::sender::Sent;
use ftd::bytes::{copy_at, size8, wide16};
use ftd::refusal::{Refusal, number};
use relay::relay::Relay;
use std::io;

fn print(rt: &impl Print, text: &[u8]) -> io::Result<()> {
    rt.write_all(text)
}

fn print_number(rt: &impl Print, x: u64) -> io::Result<()> {
    rt.print(x)
}

fn print_byte(rt: &impl Print, x: u8) -> io::Result<()> {
    print_number(rt, x as u64)
}

fn print_refusal(rt: &impl Print, r: Refusal) -> io::Result<()> {
    print(rt, b"refused ")?;
    print_byte(rt, number(r))
}

// The mark of the day below.
fn print_day(rt: &impl Print, end: Relay) -> io::Result<()> {
    print(rt, b", day ")?;
    match end.day.date {
        None => print(rt, b"none")?,
        Some(d) => print_number(rt, d as u64)?,
    }
    print(rt, b"\n")
}

// ─── What is written into packets ───

// One field of FID 0x7000 with 4 bytes.
const F4: [u8; 10] = [0, 0, 0x70, 0, 0, 4, 1, 2, 3, 4];

// The start field's FID with 3 bytes.
const NARROW: [u8; 9] = [0, 0, 0, 4, 0, 3, 0, 1, 2];

// A login packet's field (FID 0x0023): flag 0, spaces, and TimeOut 000.
fn login_field() -> [u8; 126] {
    let mut field = [b' '; 126];
    field[0] = 0;
    field[1] = 0;
    field[2] = 0;
    field[3] = 0x23;
    field[4] = 0;
    field[5] = 120;
    field[6] = 0;
    field[103] = b'0';
    field[104] = b'0';
    field[105] = b'0';
    field
}

// The same with TimeOut -00, which is no value of a Number.
fn minus_field() -> [u8; 126] {
    let mut field = login_field();
    field[103] = b'-';
    field
}

// An answer's field (FID 0x0027): flag 0, spaces, and TimeSpan 000.
fn answer_field() -> [u8; 137] {
    let mut field = [b' '; 137];
    field[0] = 0;
    field[1] = 0;
    field[2] = 0;
    field[3] = 0x27;
    field[4] = 0;
    field[5] = 131;
    field[6] = 0;
    field[90] = b'0';
    field[91] = b'0';
    field[92] = b'0';
    field
}

// The field that TID 0x2003 lists (FID 0x0001, 822 bytes): spaces, and NewsUrgency 0.
fn bulletin_field() -> [u8; 828] {
    let mut field = [b' '; 828];
    field[0] = 0;
    field[1] = 0;
    field[2] = 0;
    field[3] = 1;
    field[4] = 0x03;
    field[5] = 0x36;
    field[9] = 0;
    field
}

// A login packet without tags and start field.
fn login_packet() -> [u8; 146] {
    let mut packet = [0u8; 146];
    packet[0] = 1;
    packet[3] = 142;
    packet[4] = 1;
    packet[8] = 0x16;
    packet[9] = b'S';
    packet[17] = 1;
    packet[19] = 126;
    copy_at(&mut packet, 20, &login_field());
    packet
}

// The two bytes of a TID.
#[derive(Clone, Copy)]
struct Tid {
    high: u8,
    low: u8,
}

// What stands before the content of a packet with its mark: of so many fields, and so many bytes, at most 900.
fn head(letter: u8, series: u8, number: u8, mark: u8, tid: Tid, fields: u8, n: usize) -> [u8; 26] {
    let mut out = [0u8; 26];
    if 900 < n {
        return out;
    }
    out[0] = 1;
    out[1] = 6;
    out[2] = ((n + 16) / 256) as u8;
    out[3] = ((n + 16) % 256) as u8;
    out[4] = 0x05;
    out[5] = 4;
    out[9] = mark;
    out[10] = 1;
    out[13] = tid.high;
    out[14] = tid.low;
    out[15] = letter;
    out[17] = series;
    out[21] = number;
    out[23] = fields;
    out[24] = (n / 256) as u8;
    out[25] = (n % 256) as u8;
    out
}

// The TIDs: of the examples, MarketBulletin, and of logins.
fn note() -> Tid {
    Tid {
        high: 0x77,
        low: 0x77,
    }
}

fn bulletin() -> Tid {
    Tid {
        high: 0x20,
        low: 0x03,
    }
}

fn login_tid() -> Tid {
    Tid { high: 0, low: 0x16 }
}

// The login field with a start field.
fn start_content(series: u8, start: u8) -> [u8; 138] {
    let mut content = [0u8; 138];
    copy_at(&mut content, 0, &login_field());
    content[129] = 4;
    content[131] = 6;
    content[133] = series;
    content[137] = start;
    content
}

// A login packet of mark 5 with a start.
fn start_packet(series: u8, start: u8) -> [u8; 164] {
    let mut packet = [0u8; 164];
    let before = head(b'S', 0, 0, 5, login_tid(), 2, 138);
    copy_at(&mut packet, 0, &before);
    copy_at(&mut packet, 26, &start_content(series, start));
    packet
}

// An answer.
fn answer_packet(number: u8, mark: u8) -> [u8; 163] {
    let mut packet = [0u8; 163];
    let before = head(b'S', 0, number, mark, login_tid(), 1, 137);
    copy_at(&mut packet, 0, &before);
    copy_at(&mut packet, 26, &answer_field());
    packet
}

// A packet with f4.
fn f4_packet(letter: u8, series: u8, number: u8, mark: u8, tid: Tid) -> [u8; 36] {
    let mut packet = [0u8; 36];
    let before = head(letter, series, number, mark, tid, 1, 10);
    copy_at(&mut packet, 0, &before);
    copy_at(&mut packet, 26, &F4);
    packet
}

// Number 1 of series 1 with the other contents.
fn narrow_packet(letter: u8) -> [u8; 35] {
    let mut packet = [0u8; 35];
    let before = head(letter, 1, 1, 5, note(), 1, 9);
    copy_at(&mut packet, 0, &before);
    copy_at(&mut packet, 26, &NARROW);
    packet
}

fn minus_packet() -> [u8; 152] {
    let mut packet = [0u8; 152];
    let before = head(b'S', 1, 1, 5, note(), 1, 126);
    copy_at(&mut packet, 0, &before);
    copy_at(&mut packet, 26, &minus_field());
    packet
}

fn bulletin_packet() -> [u8; 854] {
    let mut packet = [0u8; 854];
    let before = head(b'F', 1, 1, 5, bulletin(), 1, 828);
    copy_at(&mut packet, 0, &before);
    copy_at(&mut packet, 26, &bulletin_field());
    packet
}

// ─── The calls ───

// A box opened with series 1 and 2 and their reserves.
fn opened(rt: &impl Print, first: usize, second: usize) -> io::Result<Relay> {
    let step = Relay::fresh().open(&[1, 2], &[first, second]);
    if let Err(r) = step.answer {
        print_refusal(rt, r)?;
    }
    Ok(step.end)
}

// Answer with a header number.
fn answer_numbered(
    rt: &impl Print,
    end: Relay,
    series: u8,
    mark: u8,
    number: u8,
    log: &[u8],
    places: &mut [u64; 384],
) -> io::Result<Relay> {
    let packet = answer_packet(number, mark);
    let step = end.confirm_login(wide16(series), &packet, log, places);
    match step.answer {
        Ok(last) => {
            print(rt, b"last ")?;
            print_number(rt, last as u64)?;
        }
        Err(r) => print_refusal(rt, r)?,
    }
    print_day(rt, step.end)?;
    Ok(step.end)
}

fn print_answer(rt: &impl Print, series: u8, mark: u8) -> io::Result<()> {
    print(rt, b"A(")?;
    print_byte(rt, series)?;
    print(rt, b",")?;
    print_byte(rt, mark)?;
    print(rt, b")")
}

// A(s,m).
fn answer(
    rt: &impl Print,
    end: Relay,
    series: u8,
    mark: u8,
    log: &[u8],
    places: &mut [u64; 384],
) -> io::Result<Relay> {
    print_answer(rt, series, mark)?;
    print(rt, b": ")?;
    answer_numbered(rt, end, series, mark, 0, log, places)
}

// A(s,m) with header number 1.
fn answer_one(
    rt: &impl Print,
    end: Relay,
    series: u8,
    mark: u8,
    log: &[u8],
    places: &mut [u64; 384],
) -> io::Result<Relay> {
    print_answer(rt, series, mark)?;
    print(rt, b" number 1: ")?;
    answer_numbered(rt, end, series, mark, 1, log, places)
}

fn print_received(rt: &impl Print, answer: Received) -> io::Result<()> {
    match answer {
        Received::Idle => print(rt, b"idle")?,
        Received::Duplicate(last) => {
            print(rt, b"again ")?;
            print_number(rt, last as u64)?;
        }
        Received::Partial(last) => {
            print(rt, b"held, last ")?;
            print_number(rt, last as u64)?;
        }
        Received::Complete { last, .. } => {
            print(rt, b"message ")?;
            print_number(rt, last as u64)?;
        }
        Received::Refused(r) => print_refusal(rt, r)?,
    }
    print(rt, b"\n")
}

// What is received: its letter, R for S, series, number and mark, and what else is said of it.
fn print_packet(
    rt: &impl Print,
    letter: u8,
    series: u8,
    number: u8,
    mark: u8,
    what: &[u8],
) -> io::Result<()> {
    print(rt, &[letter])?;
    print(rt, b"(")?;
    print_byte(rt, series)?;
    print(rt, b",")?;
    print_byte(rt, number)?;
    print(rt, b",")?;
    print_byte(rt, mark)?;
    print(rt, b")")?;
    print(rt, what)?;
    print(rt, b": ")
}

// Receive of a packet, and its answer.
fn receive_packet(
    rt: &impl Print,
    end: Relay,
    packet: &[u8],
    log: &mut [u8],
    buffer: &mut [u8],
) -> io::Result<Relay> {
    let step = end.receive(packet, log, buffer);
    print_received(rt, step.answer)?;
    Ok(step.end)
}

// R(s,k,m), without and with f4.
fn receive(
    rt: &impl Print,
    end: Relay,
    series: u8,
    number: u8,
    mark: u8,
    log: &mut [u8],
    buffer: &mut [u8],
) -> io::Result<Relay> {
    let packet = head(b'S', series, number, mark, note(), 0, 0);
    print_packet(rt, b'R', series, number, mark, b"")?;
    receive_packet(rt, end, &packet, log, buffer)
}

fn receive_f4(
    rt: &impl Print,
    end: Relay,
    series: u8,
    number: u8,
    mark: u8,
    log: &mut [u8],
    buffer: &mut [u8],
) -> io::Result<Relay> {
    let packet = f4_packet(b'S', series, number, mark, note());
    print_packet(rt, b'R', series, number, mark, b" f4")?;
    receive_packet(rt, end, &packet, log, buffer)
}

// The same of a letter F or L.
fn piece(
    rt: &impl Print,
    end: Relay,
    letter: u8,
    series: u8,
    number: u8,
    mark: u8,
    log: &mut [u8],
    buffer: &mut [u8],
) -> io::Result<Relay> {
    let packet = head(letter, series, number, mark, note(), 0, 0);
    print_packet(rt, letter, series, number, mark, b"")?;
    receive_packet(rt, end, &packet, log, buffer)
}

fn piece_f4(
    rt: &impl Print,
    end: Relay,
    letter: u8,
    series: u8,
    number: u8,
    mark: u8,
    log: &mut [u8],
    buffer: &mut [u8],
) -> io::Result<Relay> {
    let packet = f4_packet(letter, series, number, mark, note());
    print_packet(rt, letter, series, number, mark, b" f4")?;
    receive_packet(rt, end, &packet, log, buffer)
}

// Connect.
fn connect(rt: &impl Print, end: Relay) -> io::Result<Relay> {
    print(rt, b"Connect\n")?;
    Ok(end.connect())
}

fn print_seat(rt: &impl Print, name: &[u8], seat: u8, series: u8) -> io::Result<()> {
    print(rt, name)?;
    print(rt, b"(")?;
    print_byte(rt, seat)?;
    print(rt, b", ")?;
    print_byte(rt, series)?;
    print(rt, b")")
}

// Login of a packet, printed behind what it is.
fn login_by(
    rt: &impl Print,
    end: Relay,
    seat: u8,
    series: u8,
    packet: &[u8],
    places: &mut [u64; 384],
) -> io::Result<()> {
    let mut out = [0u8; 200];
    let answer = end.login(
        size8(seat),
        wide16(series),
        packet,
        &answer_field(),
        places,
        &mut out,
    );
    print(rt, b": ")?;
    match answer {
        Ok(_) => print(rt, b"taken")?,
        Err(r) => print_refusal(rt, r)?,
    }
    print(rt, b"\n")
}

// Login(seat, s), of a packet without mark and start field.
fn login(
    rt: &impl Print,
    end: Relay,
    seat: u8,
    series: u8,
    places: &mut [u64; 384],
) -> io::Result<()> {
    let packet = login_packet();
    print_seat(rt, b"Login", seat, series)?;
    login_by(rt, end, seat, series, &packet, places)
}

// The same of no bytes.
fn login_empty(
    rt: &impl Print,
    end: Relay,
    seat: u8,
    series: u8,
    places: &mut [u64; 384],
) -> io::Result<()> {
    print_seat(rt, b"Login", seat, series)?;
    print(rt, b" no bytes")?;
    login_by(rt, end, seat, series, b"", places)
}

// The same of mark 5 and a start in the series.
fn login_from(
    rt: &impl Print,
    end: Relay,
    seat: u8,
    series: u8,
    start: u8,
    places: &mut [u64; 384],
) -> io::Result<()> {
    let packet = start_packet(series, start);
    print_seat(rt, b"Login", seat, series)?;
    print(rt, b" start ")?;
    print_byte(rt, start)?;
    login_by(rt, end, seat, series, &packet, places)
}

// Send(seat, s).
fn send(
    rt: &impl Print,
    end: Relay,
    seat: u8,
    series: u8,
    log: &[u8],
    places: &mut [u64; 384],
) -> io::Result<()> {
    let mut out = [0u8; 100];
    let answer = end.send(size8(seat), wide16(series), places, log, &mut out);
    print_seat(rt, b"Send", seat, series)?;
    print(rt, b": ")?;
    match answer {
        Ok(None) => print(rt, b"none")?,
        Ok(Some(Sent { number, .. })) => {
            print(rt, b"sent ")?;
            print_number(rt, number as u64)?;
        }
        Err(r) => print_refusal(rt, r)?,
    }
    print(rt, b"\n")
}

// ─── What the calls left ───

// The series of the day below: how many, and the first two.
fn print_series(rt: &impl Print, end: Relay) -> io::Result<()> {
    print(rt, b"open below: ")?;
    print_number(rt, end.day.count as u64)?;
    print(rt, b" series, ")?;
    print_number(rt, end.day.series[0].series as u64)?;
    print(rt, b" and ")?;
    print_number(rt, end.day.series[1].series as u64)?;
    print(rt, b"\n")
}

// How many messages of series 1 the day below has.
fn print_published(rt: &impl Print, end: Relay) -> io::Result<()> {
    print(rt, b"published(1): ")?;
    print_number(rt, end.day.series[0].published as u64)?;
    print(rt, b"\n")
}

// How many bytes of the log are used.
fn print_used(rt: &impl Print, end: Relay) -> io::Result<()> {
    print(rt, b"used: ")?;
    print_number(rt, end.day.used as u64)?;
    print(rt, b"\n")
}

// Whether a series has an open chain.
fn print_chain(rt: &impl Print, is_open: bool) -> io::Result<()> {
    if is_open {
        print(rt, b"open\n")
    } else {
        print(rt, b"none\n")
    }
}

fn first_chain(rt: &impl Print, end: Relay) -> io::Result<()> {
    print(rt, b"chain(1): ")?;
    print_chain(rt, end.receiver.live.series[0].chain)
}

fn second_chain(rt: &impl Print, end: Relay) -> io::Result<()> {
    print(rt, b"chain(2): ")?;
    print_chain(rt, end.receiver.live.series[1].chain)
}

// The last byte of a piece of ten bytes, and the byte behind it.
fn print_behind(rt: &impl Print, buffer: &[u8; 65536]) -> io::Result<()> {
    print(rt, b"bytes 9 and 10 of the chain buffer: ")?;
    print_byte(rt, buffer[9])?;
    print(rt, b" ")?;
    print_byte(rt, buffer[10])?;
    print(rt, b"\n")
}

// ─── The examples ───

fn example_1(rt: &impl Print, log: &[u8; 1000], places: &mut [u64; 384]) -> io::Result<Relay> {
    print(rt, b"1.\n")?;
    let fresh = opened(rt, 0, 0)?;
    login(rt, fresh, 0, 1, places)?;
    let end = answer(rt, fresh, 1, 5, log, places)?;
    print_series(rt, end)?;
    login(rt, end, 0, 2, places)?;
    send(rt, end, 0, 2, log, places)?;
    Ok(end)
}

fn example_2(
    rt: &impl Print,
    end: Relay,
    log: &[u8; 1000],
    places: &mut [u64; 384],
) -> io::Result<Relay> {
    print(rt, b"2. then\n")?;
    let a = answer(rt, end, 2, 4, log, places)?;
    let b = answer(rt, a, 2, 5, log, places)?;
    send(rt, b, 0, 2, log, places)?;
    Ok(b)
}

fn example_3(
    rt: &impl Print,
    end: Relay,
    log: &mut [u8; 1000],
    buffer: &mut [u8; 65536],
) -> io::Result<Relay> {
    print(rt, b"3. then\n")?;
    let a = receive_f4(rt, end, 1, 1, 5, log, buffer)?;
    print_published(rt, a)?;
    let b = receive_f4(rt, a, 1, 1, 5, log, buffer)?;
    piece_f4(rt, b, b'F', 2, 1, 5, log, buffer)
}

// The new day of series 1, and what comes of the old one of series 2.
fn new_day(
    rt: &impl Print,
    end: Relay,
    log: &mut [u8; 1000],
    buffer: &mut [u8; 65536],
    places: &mut [u64; 384],
) -> io::Result<Relay> {
    print(rt, b"4. then\n")?;
    let a = answer(rt, end, 1, 6, log, places)?;
    send(rt, a, 0, 2, log, places)?;
    second_chain(rt, a)?;
    let b = piece_f4(rt, a, b'L', 2, 1, 5, log, buffer)?;
    second_chain(rt, b)?;
    let c = receive(rt, b, 2, 0, 5, log, buffer)?;
    let d = receive(rt, c, 2, 1, 6, log, buffer)?;
    answer(rt, d, 2, 5, log, places)
}

fn example_4(
    rt: &impl Print,
    end: Relay,
    log: &mut [u8; 1000],
    buffer: &mut [u8; 65536],
    places: &mut [u64; 384],
) -> io::Result<Relay> {
    let a = new_day(rt, end, log, buffer, places)?;
    login(rt, a, 3, 1, places)?;
    let b = answer(rt, a, 2, 6, log, places)?;
    send(rt, b, 3, 1, log, places)?;
    receive(rt, b, 2, 1, 6, log, buffer)
}

fn example_5(
    rt: &impl Print,
    end: Relay,
    log: &[u8; 1000],
    places: &mut [u64; 384],
) -> io::Result<()> {
    print(rt, b"5. then\n")?;
    let a = answer_one(rt, end, 1, 5, log, places)?;
    answer_one(rt, a, 1, 7, log, places)?;
    Ok(())
}

fn examples_1_to_5(rt: &impl Print) -> io::Result<()> {
    let mut log = [0u8; 1000];
    let mut buffer = [187u8; 65536];
    let mut places = [0u64; 384];
    let a = example_1(rt, &log, &mut places)?;
    let b = example_2(rt, a, &log, &mut places)?;
    let c = example_3(rt, b, &mut log, &mut buffer)?;
    let d = example_4(rt, c, &mut log, &mut buffer, &mut places)?;
    example_5(rt, d, &log, &mut places)
}

fn example_6(rt: &impl Print) -> io::Result<()> {
    let mut log = [0u8; 1000];
    let mut buffer = [187u8; 65536];
    let mut places = [0u64; 384];
    print(rt, b"6.\n")?;
    let a = answer(rt, opened(rt, 0, 0)?, 1, 5, &log, &mut places)?;
    let b = answer(rt, a, 2, 5, &log, &mut places)?;
    let c = receive(rt, b, 2, 1, 5, &mut log, &mut buffer)?;
    let d = answer(rt, c, 1, 6, &log, &mut places)?;
    let e = receive(rt, d, 2, 1, 5, &mut log, &mut buffer)?;
    let f = connect(rt, e)?;
    receive(rt, f, 2, 1, 5, &mut log, &mut buffer)?;
    Ok(())
}

fn example_8(rt: &impl Print) -> io::Result<()> {
    let mut log = [0u8; 25];
    let mut buffer = [187u8; 65536];
    let mut places = [0u64; 384];
    print(rt, b"8. log of 25 bytes\n")?;
    let a = answer(rt, opened(rt, 0, 0)?, 1, 5, &log, &mut places)?;
    let b = receive_f4(rt, a, 1, 1, 5, &mut log, &mut buffer)?;
    print_published(rt, b)?;
    print_used(rt, b)?;
    let c = receive_f4(rt, b, 1, 2, 5, &mut log, &mut buffer)?;
    let d = receive(rt, c, 1, 1, 5, &mut log, &mut buffer)?;
    print_used(rt, d)
}

fn example_9(rt: &impl Print) -> io::Result<()> {
    let mut log = [0u8; 35];
    let mut buffer = [187u8; 65536];
    let mut places = [0u64; 384];
    print(rt, b"9. log of 35 bytes\n")?;
    let a = answer(rt, opened(rt, 0, 0)?, 1, 5, &log, &mut places)?;
    let b = piece_f4(rt, a, b'F', 1, 1, 5, &mut log, &mut buffer)?;
    print_behind(rt, &buffer)?;
    first_chain(rt, b)?;
    let c = piece_f4(rt, b, b'L', 1, 1, 5, &mut log, &mut buffer)?;
    print_behind(rt, &buffer)?;
    first_chain(rt, c)?;
    piece_f4(rt, c, b'L', 1, 1, 5, &mut log, &mut buffer)?;
    Ok(())
}

// The contents of 10, of number 1 in series 1.
fn narrow(
    rt: &impl Print,
    end: Relay,
    letter: u8,
    name: u8,
    what: &[u8],
    log: &mut [u8],
    buffer: &mut [u8],
) -> io::Result<Relay> {
    let packet = narrow_packet(letter);
    print_packet(rt, name, 1, 1, 5, what)?;
    receive_packet(rt, end, &packet, log, buffer)
}

fn minus(rt: &impl Print, end: Relay, log: &mut [u8], buffer: &mut [u8]) -> io::Result<Relay> {
    let packet = minus_packet();
    print_packet(rt, b'R', 1, 1, 5, b" Number '-00'")?;
    receive_packet(rt, end, &packet, log, buffer)
}

fn empty_bulletin(
    rt: &impl Print,
    end: Relay,
    log: &mut [u8],
    buffer: &mut [u8],
) -> io::Result<Relay> {
    let packet = head(b'S', 1, 1, 5, bulletin(), 0, 0);
    print_packet(rt, b'R', 1, 1, 5, b" TID 0x2003 empty")?;
    receive_packet(rt, end, &packet, log, buffer)
}

fn last_without_buffer(rt: &impl Print, end: Relay, log: &mut [u8]) -> io::Result<Relay> {
    let mut none = [0u8; 0];
    let packet = head(b'L', 1, 1, 5, note(), 0, 0);
    print_packet(rt, b'L', 1, 1, 5, b" chain buffer of 0 bytes")?;
    receive_packet(rt, end, &packet, log, &mut none)
}

fn example_10(
    rt: &impl Print,
    log: &mut [u8; 1000],
    buffer: &mut [u8; 65536],
) -> io::Result<Relay> {
    let mut places = [0u64; 384];
    let mut none = [0u8; 0];
    print(rt, b"10.\n")?;
    let a = answer(rt, opened(rt, 0, 0)?, 1, 5, log, &mut places)?;
    let b = narrow(rt, a, b'S', b'R', b" FID 4 of 3 bytes", log, buffer)?;
    let c = narrow(
        rt,
        b,
        b'S',
        b'R',
        b" FID 4 of 3 bytes, log of 0 bytes",
        &mut none,
        buffer,
    )?;
    let d = minus(rt, c, log, buffer)?;
    empty_bulletin(rt, d, log, buffer)
}

// The row without a number.
fn example_without_number(
    rt: &impl Print,
    end: Relay,
    log: &mut [u8; 1000],
    buffer: &mut [u8; 65536],
) -> io::Result<()> {
    print(rt, b"Not numbered, then\n")?;
    let a = narrow(rt, end, b'F', b'F', b" FID 4 of 3 bytes", log, buffer)?;
    let b = last_without_buffer(rt, a, log)?;
    let c = narrow(rt, b, b'F', b'F', b" FID 4 of 3 bytes", log, buffer)?;
    first_chain(rt, c)?;
    let d = piece(rt, c, b'L', 1, 1, 5, log, buffer)?;
    first_chain(rt, d)
}

fn wrong_contents(rt: &impl Print) -> io::Result<()> {
    let mut log = [0u8; 1000];
    let mut buffer = [187u8; 65536];
    let end = example_10(rt, &mut log, &mut buffer)?;
    example_without_number(rt, end, &mut log, &mut buffer)
}

fn first_bulletin(
    rt: &impl Print,
    end: Relay,
    log: &mut [u8],
    buffer: &mut [u8],
) -> io::Result<Relay> {
    let packet = bulletin_packet();
    print_packet(rt, b'F', 1, 1, 5, b" TID 0x2003 listed field")?;
    receive_packet(rt, end, &packet, log, buffer)
}

fn last_bulletin(
    rt: &impl Print,
    end: Relay,
    log: &mut [u8],
    buffer: &mut [u8],
) -> io::Result<Relay> {
    let packet = f4_packet(b'L', 1, 1, 5, bulletin());
    print_packet(rt, b'L', 1, 1, 5, b" TID 0x2003 f4")?;
    receive_packet(rt, end, &packet, log, buffer)
}

fn example_11(rt: &impl Print, buffer: &mut [u8; 65536]) -> io::Result<Relay> {
    let mut log = [0u8; 1000];
    let mut places = [0u64; 384];
    print(rt, b"11.\n")?;
    let a = answer(rt, opened(rt, 0, 0)?, 1, 5, &log, &mut places)?;
    let b = first_bulletin(rt, a, &mut log, buffer)?;
    last_bulletin(rt, b, &mut log, buffer)
}

fn example_12(rt: &impl Print, end: Relay, buffer: &mut [u8; 65536]) -> io::Result<()> {
    let mut log = [0u8; 3];
    print(rt, b"12. then, log of 3 bytes\n")?;
    let a = receive(rt, end, 1, 2, 5, &mut log, buffer)?;
    let b = piece(rt, a, b'L', 1, 2, 5, &mut log, buffer)?;
    let c = receive(rt, b, 1, 1, 5, &mut log, buffer)?;
    piece(rt, c, b'F', 1, 2, 5, &mut log, buffer)?;
    Ok(())
}

fn examples_11_and_12(rt: &impl Print) -> io::Result<()> {
    let mut buffer = [187u8; 65536];
    let end = example_11(rt, &mut buffer)?;
    example_12(rt, end, &mut buffer)
}

fn example_13(rt: &impl Print) -> io::Result<()> {
    let log = [0u8; 0];
    let mut places = [0u64; 384];
    print(rt, b"13.\n")?;
    let end = opened(rt, 0, 0)?;
    login_empty(rt, end, 16, 1, &mut places)?;
    login_empty(rt, end, 15, 1, &mut places)?;
    send(rt, end, 255, 9, &log, &mut places)
}

fn three_published(
    rt: &impl Print,
    log: &mut [u8; 1000],
    buffer: &mut [u8; 65536],
    places: &mut [u64; 384],
) -> io::Result<Relay> {
    let a = answer(rt, opened(rt, 0, 0)?, 1, 5, log, places)?;
    let b = receive_f4(rt, a, 1, 1, 5, log, buffer)?;
    let c = receive_f4(rt, b, 1, 2, 5, log, buffer)?;
    receive_f4(rt, c, 1, 3, 5, log, buffer)
}

fn three_seats(
    rt: &impl Print,
    end: Relay,
    log: &[u8; 1000],
    places: &mut [u64; 384],
) -> io::Result<()> {
    login_from(rt, end, 0, 1, 1, places)?;
    login_from(rt, end, 15, 1, 3, places)?;
    login_from(rt, end, 7, 1, 5, places)?;
    send(rt, end, 15, 1, log, places)?;
    send(rt, end, 0, 1, log, places)?;
    send(rt, end, 15, 1, log, places)?;
    send(rt, end, 7, 1, log, places)?;
    send(rt, end, 0, 1, log, places)
}

// The seats go on behind Connect.
fn connected_again(
    rt: &impl Print,
    end: Relay,
    log: &mut [u8; 1000],
    buffer: &mut [u8; 65536],
    places: &mut [u64; 384],
) -> io::Result<()> {
    let b = connect(rt, end)?;
    send(rt, b, 0, 1, log, places)?;
    receive_f4(rt, b, 1, 4, 5, log, buffer)?;
    Ok(())
}

fn example_14(rt: &impl Print) -> io::Result<()> {
    let mut log = [0u8; 1000];
    let mut buffer = [187u8; 65536];
    let mut places = [0u64; 384];
    print(rt, b"14.\n")?;
    let a = three_published(rt, &mut log, &mut buffer, &mut places)?;
    three_seats(rt, a, &log, &mut places)?;
    connected_again(rt, a, &mut log, &mut buffer, &mut places)
}

// Reserves above the log's length: 11 behind 16, and only where a day would be opened.
fn reserves(rt: &impl Print) -> io::Result<()> {
    let short = [0u8; 99];
    let long = [0u8; 100];
    let mut places = [0u64; 384];
    print(rt, b"Reserves 60 and 40, log of 99 bytes\n")?;
    let a = answer(rt, opened(rt, 60, 40)?, 1, 5, &short, &mut places)?;
    let b = answer_one(rt, a, 1, 5, &short, &mut places)?;
    print(rt, b"the same, log of 100 bytes\n")?;
    let c = answer(rt, b, 1, 5, &long, &mut places)?;
    print(rt, b"the same, log of 99 bytes\n")?;
    let d = answer(rt, c, 2, 5, &short, &mut places)?;
    answer(rt, d, 2, 6, &short, &mut places)?;
    Ok(())
}

// 18 by the sum of the larger of used and reserve: 26 and 52, 52 and 52, 42 and 52, 58 and 52; then 42 and 26, 52, 68.
fn shares(rt: &impl Print) -> io::Result<()> {
    let mut log = [0u8; 100];
    let mut buffer = [187u8; 65536];
    let mut places = [0u64; 384];
    print(rt, b"Reserves 0 and 52, log of 100 bytes\n")?;
    let a = answer(rt, opened(rt, 0, 52)?, 1, 5, &log, &mut places)?;
    let b = answer(rt, a, 2, 5, &log, &mut places)?;
    let c = receive_f4(rt, b, 1, 1, 5, &mut log, &mut buffer)?;
    let d = receive_f4(rt, c, 1, 2, 5, &mut log, &mut buffer)?;
    let e = receive(rt, d, 1, 2, 5, &mut log, &mut buffer)?;
    let f = receive(rt, e, 1, 3, 5, &mut log, &mut buffer)?;
    let g = receive_f4(rt, f, 2, 1, 5, &mut log, &mut buffer)?;
    let h = receive_f4(rt, g, 2, 2, 5, &mut log, &mut buffer)?;
    receive(rt, h, 2, 3, 5, &mut log, &mut buffer)?;
    Ok(())
}

fn main(rt: HostRuntime) -> io::Result<()> {
    examples_1_to_5(&rt)?;
    example_6(&rt)?;
    example_8(&rt)?;
    example_9(&rt)?;
    wrong_contents(&rt)?;
    examples_11_and_12(&rt)?;
    example_13(&rt)?;
    example_14(&rt)?;
    reserves(&rt)?;
    shares(&rt)
}
