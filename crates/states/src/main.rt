// Calls of the serving end in states and on logs that a script of calls does not reach: a damaged log (20), a day that
// is full (21), and what comes before them. Each line prints what was wrong and the number that was answered; of a Send
// packet by packet also the bytes written, and the place then.
#![tactic(auto)]

use flow::sender::{Day, DaySeries, Place, Seat, Sender, Sent, SentPacket};
use ftd::refusal::number;
use std::io;

// A serving end on day 7 with series 1: so many published, so many bytes of the log used, a seat with a number next, of
// which so many packets were written one by one.
fn end_at(published: u32, used: usize, login: bool, next: u64, piece: usize) -> Sender {
    let mut series = [DaySeries::new(0, 0); 8];
    series[0] = DaySeries {
        published,
        used,
        ..DaySeries::new(1, 0)
    };
    let mut seat = Seat::NONE;
    seat.places[0] = Place { login, next, piece };
    Sender {
        day: Day {
            date: Some(7),
            count: 1,
            series,
            used,
        },
        seat,
    }
}

// The same with nothing unfinished.
fn end_with(published: u32, used: usize, login: bool, next: u64) -> Sender {
    end_at(published, used, login, next, 0)
}

// Two digits.
fn print_two(rt: &impl Print, x: u8) -> io::Result<()> {
    let digits = [b'0' + x / 10 % 10, b'0' + x % 10];
    rt.write_all(&digits)
}

// Two digits and the line's end.
fn print_number(rt: &impl Print, x: u8) -> io::Result<()> {
    print_two(rt, x)?;
    rt.write_all(b"\n")
}

// Send in series 1, with an output of 64 bytes, or of none: 00 for none left, 99 for a message sent, else the refusal.
fn send(rt: &impl Print, what: &[u8], e: Sender, log: &[u8], room: bool) -> io::Result<()> {
    let mut out = [0u8; 64];
    let mut none = [0u8; 0];
    let step = if room {
        e.send(1, log, &mut out)
    } else {
        e.send(1, log, &mut none)
    };
    let said = match step.answer {
        Ok(None) => 0,
        Ok(Some(_)) => 99,
        Err(r) => number(r),
    };
    rt.write_all(what)?;
    print_number(rt, said)
}

// Publish of a message without fields (TID 0x2004): 99 for a number, else the refusal.
fn publish(rt: &impl Print, what: &[u8], e: Sender, series: u16, log: &mut [u8]) -> io::Result<()> {
    let step = e.publish(series, 0x2004, b"", log);
    let said = match step.answer {
        Ok(_) => 99,
        Err(r) => number(r),
    };
    rt.write_all(what)?;
    print_number(rt, said)
}

// A log of one entry: series 1, two zero bytes, TID 0x2004, number 1, no content.
const GOOD: [u8; 16] = [0, 1, 0, 0, 0, 0, 0x20, 4, 0, 0, 0, 1, 0, 0, 0, 0];

// The same with its zero bytes not zero.
const NONZERO: [u8; 16] = [0, 1, 0, 1, 0, 0, 0x20, 4, 0, 0, 0, 1, 0, 0, 0, 0];

// The used part against the log and its entry.
fn used_parts(rt: &impl Print) -> io::Result<()> {
    send(rt, b"nothing wrong ", end_with(1, 16, true, 1), &GOOD, true)?;
    send(
        rt,
        b"the log is shorter than its used part ",
        end_with(1, 17, true, 1),
        &GOOD,
        true,
    )?;
    send(
        rt,
        b"the used part ends within the entry ",
        end_with(1, 15, true, 1),
        &GOOD,
        true,
    )?;
    send(
        rt,
        b"no entry is used ",
        end_with(1, 0, true, 1),
        &GOOD,
        true,
    )?;
    send(
        rt,
        b"the entry wanted is not there ",
        end_with(2, 16, true, 2),
        &GOOD,
        true,
    )?;
    send(rt, b"a next of 0 ", end_with(1, 16, true, 0), &GOOD, true)
}

// The entry with one place wrong.
fn entries(rt: &impl Print) -> io::Result<()> {
    let series = [0u8, 2, 0, 0, 0, 0, 0x20, 4, 0, 0, 0, 1, 0, 0, 0, 0];
    let second = [0u8, 1, 0, 0, 0, 0, 0x20, 4, 0, 0, 0, 2, 0, 0, 0, 0];
    let long = [0u8, 1, 0, 0, 0, 0, 0x20, 4, 0, 0, 0, 1, 0, 0, 0, 1];
    let shape = [0u8, 1, 0, 0, 0, 0, 0x20, 4, 0, 0, 0, 1, 0, 0, 0, 1, 0];
    send(
        rt,
        b"a series that is not open ",
        end_with(1, 16, true, 1),
        &series,
        true,
    )?;
    send(
        rt,
        b"zero bytes that are not zero ",
        end_with(1, 16, true, 1),
        &NONZERO,
        true,
    )?;
    send(
        rt,
        b"a number that is not the next ",
        end_with(2, 16, true, 2),
        &second,
        true,
    )?;
    send(
        rt,
        b"a content longer than the used part ",
        end_with(1, 16, true, 1),
        &long,
        true,
    )?;
    send(
        rt,
        b"content that is not whole fields ",
        end_with(1, 17, true, 1),
        &shape,
        true,
    )
}

// Two things wrong, of which one comes first.
fn orders(rt: &impl Print) -> io::Result<()> {
    send(
        rt,
        b"the output is too small ",
        end_with(1, 16, true, 1),
        &GOOD,
        false,
    )?;
    send(
        rt,
        b"zero bytes not zero, the output too small ",
        end_with(1, 16, true, 1),
        &NONZERO,
        false,
    )?;
    send(
        rt,
        b"zero bytes not zero, none left ",
        end_with(1, 16, true, 2),
        &NONZERO,
        true,
    )?;
    send(
        rt,
        b"zero bytes not zero, not logged in ",
        end_with(1, 16, false, 1),
        &NONZERO,
        true,
    )
}

fn publications(rt: &impl Print) -> io::Result<()> {
    let mut log = [0u8; 40];
    publish(
        rt,
        b"nothing wrong ",
        end_with(999999, 0, true, 1),
        1,
        &mut log,
    )?;
    publish(
        rt,
        b"the day is full ",
        end_with(1000000, 0, true, 1),
        1,
        &mut log,
    )?;
    publish(
        rt,
        b"the day is full, the entry does not fit ",
        end_with(1000000, 25, true, 1),
        1,
        &mut log,
    )?;
    publish(
        rt,
        b"the log is shorter than its used part ",
        end_with(0, 41, true, 1),
        1,
        &mut log,
    )?;
    publish(
        rt,
        b"the day is full, the log shorter than used ",
        end_with(1000000, 41, true, 1),
        1,
        &mut log,
    )?;
    publish(
        rt,
        b"the day is full, an unknown series ",
        end_with(1000000, 0, true, 1),
        2,
        &mut log,
    )
}

// What was wrong, the number that was answered, how many bytes were written, and the place of series 1 then: the number
// next and the packets of it that were written, each by its last two digits.
fn print_place(
    rt: &impl Print,
    what: &[u8],
    said: u8,
    bytes: usize,
    end: Sender,
) -> io::Result<()> {
    let place = end.seat.places[0];
    rt.write_all(what)?;
    print_two(rt, said)?;
    rt.write_all(b" ")?;
    print_two(rt, (bytes / 100 % 100) as u8)?;
    print_two(rt, (bytes % 100) as u8)?;
    rt.write_all(b" next ")?;
    print_two(rt, (place.next % 100) as u8)?;
    rt.write_all(b" piece ")?;
    print_number(rt, (place.piece % 100) as u8)
}

// Send of one packet in series 1: 00 for none left, 99 for a packet written, else the refusal. It gives the end that is
// left.
fn packet(
    rt: &impl Print,
    what: &[u8],
    e: Sender,
    log: &[u8],
    out: &mut [u8],
) -> io::Result<Sender> {
    let step = e.send_packet(1, log, out);
    match step.answer {
        Ok(None) => print_place(rt, what, 0, 0, step.end)?,
        Ok(Some(SentPacket { len, .. })) => print_place(rt, what, 99, len, step.end)?,
        Err(r) => print_place(rt, what, number(r), 0, step.end)?,
    }
    Ok(step.end)
}

// The same with an output of 2,071 bytes, of 2,070, and of none.
fn with_2071(rt: &impl Print, what: &[u8], e: Sender, log: &[u8; 4097]) -> io::Result<Sender> {
    let mut out = [0u8; 2071];
    packet(rt, what, e, log, &mut out)
}

fn with_2070(rt: &impl Print, what: &[u8], e: Sender, log: &[u8; 4097]) -> io::Result<Sender> {
    let mut out = [0u8; 2070];
    packet(rt, what, e, log, &mut out)
}

fn with_none(rt: &impl Print, what: &[u8], e: Sender, log: &[u8; 4097]) -> io::Result<Sender> {
    let mut out = [0u8; 0];
    packet(rt, what, e, log, &mut out)
}

// Send of the whole message in series 1, with an output of 4,141 bytes.
fn whole(rt: &impl Print, what: &[u8], e: Sender, log: &[u8; 4097]) -> io::Result<()> {
    let mut out = [0u8; 4141];
    let step = e.send(1, log, &mut out);
    match step.answer {
        Ok(None) => print_place(rt, what, 0, 0, step.end),
        Ok(Some(Sent { len, .. })) => print_place(rt, what, 99, len, step.end),
        Err(r) => print_place(rt, what, number(r), 0, step.end),
    }
}

// A log of one entry: series 1, TID 0x7777, number 1, content of 4,081 bytes: fields of FID 0x7001 with 2,034 and 2,035
// bytes. They take a packet each, of 2,070 and 2,071 bytes.
fn two_packets() -> [u8; 4097] {
    let mut log = [0u8; 4097];
    log[1] = 1;
    log[6] = 0x77;
    log[7] = 0x77;
    log[11] = 1;
    log[14] = 0x0F;
    log[15] = 0xF1;
    log[18] = 0x70;
    log[19] = 1;
    log[20] = 0x07;
    log[21] = 0xF2;
    log[2058] = 0x70;
    log[2059] = 1;
    log[2060] = 0x07;
    log[2061] = 0xF3;
    log
}

// The same with its zero bytes not zero.
fn damaged() -> [u8; 4097] {
    let mut log = two_packets();
    log[3] = 1;
    log
}

// The same with a content of the first field alone: one packet.
fn cut_off() -> [u8; 4097] {
    let mut log = two_packets();
    log[14] = 0x07;
    log[15] = 0xF8;
    log
}

// The same with another byte in a field.
fn other_bytes() -> [u8; 4097] {
    let mut log = two_packets();
    log[22] = 9;
    log
}

// The two packets of a message, one a call.
fn both_packets(rt: &impl Print, log: &[u8; 4097]) -> io::Result<Sender> {
    let e = with_2070(
        rt,
        b"the first of two packets ",
        end_at(1, 4097, true, 1, 0),
        log,
    )?;
    with_2070(rt, b"an output too small for the second ", e, log)?;
    with_2071(rt, b"the second of two packets ", e, log)?;
    whole(rt, b"the whole message instead ", e, log)?;
    Ok(e)
}

// Between them a log damaged or altered: the place stays.
fn between_packets(rt: &impl Print, e: Sender) -> io::Result<()> {
    with_2071(rt, b"the log damaged between them ", e, &damaged())?;
    with_2071(rt, b"the log without the second field ", e, &cut_off())?;
    with_2071(rt, b"other content of whole fields ", e, &other_bytes())?;
    Ok(())
}

// Packets written that no call has written.
fn strange_pieces(rt: &impl Print, log: &[u8; 4097]) -> io::Result<()> {
    let e = end_at(1, 4097, true, 1, 2);
    with_2071(rt, b"two packets written of two ", e, log)?;
    with_none(rt, b"the same, the output too small ", e, log)?;
    whole(rt, b"the whole message from there ", e, log)?;
    with_2071(
        rt,
        b"as many packets written as can be ",
        end_at(1, 4097, true, 1, usize::MAX),
        log,
    )?;
    with_2071(
        rt,
        b"the log shorter than its used part ",
        end_at(1, 4098, true, 1, 1),
        log,
    )?;
    Ok(())
}

// Two things wrong, of which one comes first.
fn packet_orders(rt: &impl Print, log: &[u8; 4097]) -> io::Result<()> {
    with_2071(
        rt,
        b"the log damaged, none left ",
        end_at(1, 4097, true, 2, 1),
        log,
    )?;
    with_2071(
        rt,
        b"the log damaged, not logged in ",
        end_at(1, 4097, false, 1, 1),
        log,
    )?;
    with_none(
        rt,
        b"the log damaged, the output too small ",
        end_at(1, 4097, true, 1, 0),
        log,
    )?;
    Ok(())
}

// One packet a call.
fn packets(rt: &impl Print) -> io::Result<()> {
    let log = two_packets();
    let e = both_packets(rt, &log)?;
    between_packets(rt, e)?;
    strange_pieces(rt, &log)?;
    packet_orders(rt, &damaged())
}

fn main(rt: HostRuntime) -> io::Result<()> {
    used_parts(&rt)?;
    entries(&rt)?;
    orders(&rt)?;
    publications(&rt)?;
    packets(&rt)
}
