// The box (02, No. 3) for C and Rust: its receiving end, the reserves of its series and its day as numbers by value,
// what its 16 seats have as numbers that are lent, and its calls. Any numbers are a state.
ghost use Rattle.std.specs.Prelude.{ℕ, List, [], ◌≡◌};
ghost use Rattle.relay.specs.State.{box_for};
ghost use Rattle.relay.specs.Box.{fresh_box, open_box_of, connect_box_of, ask_of, answer_of, answer_way, receive_box_of};
ghost use Rattle.relay.specs.Box.{login_seat_of, send_seat_of, send_packet_seat_of};
ghost use Rattle.relay.specs.Bufferful.{receive_several_box_of};
ghost use Rattle.relay.specs.Promises.{answered_numbers, login_numbers, sent_numbers, packet_numbers};
ghost use Rattle.exports.specs.Receiving.{requested_numbers};
ghost use Rattle.exports.specs.Boxes.{day_for, relay_for, day_numbers, box_numbers, box_confirmed_with, box_plain_with};
ghost use Rattle.exports.specs.Boxes.{box_complete_with, box_received_with, box_stopped_with, box_handed_with};
ghost use Rattle.exports.specs.Boxes.{box_received_several_with, seat_login_numbers, seat_sent_numbers};
ghost use Rattle.exports.specs.Boxes.{seat_packet_numbers, box_opened_numbers, box_confirmed_numbers};
ghost use Rattle.exports.specs.Boxes.{box_received_numbers, box_received_several_numbers};

use crate::FtdSpan;
use crate::receiving::{FtdReceiver, origin_number, receiver_for, receiver_numbers};
use crate::tags::{date, date_for, dated, flag_of};
use crate::written::{FtdWritten, bytes_of, refusal_of};
use flow::receiver::{Origin, Received};
use flow::sender::{Day, DaySeries, Sent, SentPacket};
use flow::several::ReceivedSeveral;
use ftd::packet::Span;
use ftd::refusal::{Refusal, number};
use relay::relay::Relay;

// A series of the day: its reserve of the log and how many bytes its entries take, and how many were published.
#[repr(C)]
#[derive(Clone, Copy)]
pub struct FtdDaySeries {
    pub reserve: usize,
    pub used: usize,
    pub published: u32,
    pub series: u16,
}

// The day below: bytes of the log in use, its series in the opening's order, how many are open, and the trade date.
// Stays: `dated` as a number; the C interface (include/ftd.h).
#[repr(C)]
#[derive(Clone, Copy)]
pub struct FtdDay {
    pub used: usize,
    pub series: [FtdDaySeries; 8],
    pub count: usize,
    pub date: u32,
    pub dated: u8,
}

// The box: the receiving end towards above, the reserves of its series, and the day below. The seats are lent.
#[repr(C)]
#[derive(Clone, Copy)]
pub struct FtdBox {
    pub receiver: FtdReceiver,
    pub reserves: [usize; 8],
    pub day: FtdDay,
}

// What a call leaves: the box, and its answer.
#[repr(C)]
#[derive(Clone, Copy)]
pub struct FtdBoxOpened {
    pub state: FtdBox,
    pub refusal: u8,
}

#[repr(C)]
#[derive(Clone, Copy)]
pub struct FtdBoxConfirmed {
    pub state: FtdBox,
    pub last: u32,
    pub refusal: u8,
}

#[repr(C)]
#[derive(Clone, Copy)]
pub struct FtdBoxReceived {
    pub state: FtdBox,
    pub content: FtdSpan,
    pub last: u32,
    pub tid: u32,
    pub answer: u8,
    pub origin: u8,
    pub refusal: u8,
}

#[repr(C)]
#[derive(Clone, Copy)]
pub struct FtdBoxReceivedSeveral {
    pub state: FtdBox,
    pub content: FtdSpan,
    pub taken: usize,
    pub missing: usize,
    pub last: u32,
    pub tid: u32,
    pub answer: u8,
    pub origin: u8,
    pub refusal: u8,
}

// What a call of a seat answers; the box stays.
#[repr(C)]
#[derive(Clone, Copy)]
pub struct FtdBoxSent {
    pub bytes: usize,
    pub number: u32,
    pub answer: u8,
    pub refusal: u8,
}

// Stays: `last` as a number; the C interface (include/ftd.h).
#[repr(C)]
#[derive(Clone, Copy)]
pub struct FtdBoxSentPacket {
    pub bytes: usize,
    pub number: u32,
    pub answer: u8,
    pub refusal: u8,
    pub last: u8,
}

// Stays: no `From` for the conversions here, as in `serving`.
// The day that the numbers say.
fn day_for(s: FtdDay) -> Day
    ensures { result ≡ day_for s }
{
    Day {
        date: date_for(s.dated, s.date),
        count: s.count,
        series: s.series.map(|one| DaySeries {
            series: one.series,
            published: one.published,
            reserve: one.reserve,
            used: one.used,
        }),
        used: s.used,
    }
}

// The box that the numbers say.
pub(crate) fn relay_for(s: FtdBox) -> Relay
    ensures { result ≡ relay_for s }
{
    let FtdBox {
        receiver,
        reserves,
        day,
    } = s;
    Relay {
        receiver: receiver_for(receiver),
        reserves,
        day: day_for(day),
    }
}

// The day as numbers.
fn day_numbers(d: Day) -> FtdDay
    ensures { result ≡ day_numbers d }
{
    FtdDay {
        used: d.used,
        series: d.series.map(|one| FtdDaySeries {
            reserve: one.reserve,
            used: one.used,
            published: one.published,
            series: one.series,
        }),
        count: d.count,
        date: date(d.date),
        dated: dated(d.date),
    }
}

// The box as numbers; the seats are not in them.
fn box_numbers(b: Relay) -> FtdBox
    ensures { result ≡ box_numbers (box_for b []) }
{
    let Relay {
        receiver,
        reserves,
        day,
    } = b;
    FtdBox {
        receiver: receiver_numbers(receiver),
        reserves,
        day: day_numbers(day),
    }
}

// A box with no series and no day; of the seats' numbers all are 0.
#[unsafe(no_mangle)]
pub extern "C" fn ftd_box_fresh() -> FtdBox
    ensures { result ≡ box_numbers fresh_box }
{
    box_numbers(Relay::fresh())
}

// Opening: the series and a reserve of the log for each, once.
#[unsafe(no_mangle)]
pub extern "C" fn ftd_box_open(state: FtdBox, series: &[u16], reserves: &[usize]) -> FtdBoxOpened
    ensures { (seats : List ℕ) → result ≡ box_opened_numbers (open_box_of (box_for (relay_for state) seats)
        series.now reserves.now) }
{
    let step = relay_for(state).open(series, reserves);
    FtdBoxOpened {
        state: box_numbers(step.end),
        refusal: refusal_of(step.answer),
    }
}

// Connect: a new line from above. The seats go on.
#[unsafe(no_mangle)]
pub extern "C" fn ftd_box_connect(state: FtdBox) -> FtdBox
    ensures { (seats : List ℕ) → result ≡ box_numbers (connect_box_of (box_for (relay_for state) seats)) }
{
    box_numbers(relay_for(state).connect())
}

// Ask: the login packet of a series is written. The box stays as it is.
#[unsafe(no_mangle)]
pub extern "C" fn ftd_box_request_login(
    state: FtdBox,
    series: u16,
    content: &[u8],
    out: &mut [u8],
) -> FtdWritten
    ensures answer { (seats : List ℕ) → result ≡ requested_numbers (ask_of (box_for (relay_for state) seats) series
        content.now out.old).answer }
    ensures output { (seats : List ℕ) → out.new ≡ (ask_of (box_for (relay_for state) seats) series
        content.now out.old).bytes }
{
    bytes_of(relay_for(state).request_login(series, content, out))
}

// What Answer answers.
#[tactic(auto, unfolding(crate::specs::Boxes::box_confirmed_with))]
fn box_confirmed(state: FtdBox, a: Result<u32, Refusal>) -> FtdBoxConfirmed
    ensures { result ≡ box_confirmed_with state a }
{
    FtdBoxConfirmed {
        state,
        last: a.unwrap_or(0),
        refusal: refusal_of(a),
    }
}

// Answer: a login answer of a series. Above the day open below it opens one there, and no seat is logged in.
#[unsafe(no_mangle)]
pub extern "C" fn ftd_box_confirm_login(
    state: FtdBox,
    series: u16,
    packet: &[u8],
    log: &[u8],
    places: &mut [u64; 384],
) -> FtdBoxConfirmed
    ensures answer { result ≡ box_confirmed_numbers (answer_of (box_for (relay_for state) places.old) series
        packet.now log.now) }
    ensures seats { places.new ≡ answered_numbers places.old
        (answer_way (box_for (relay_for state) places.old) series packet.now log.now) }
{
    let step = relay_for(state).confirm_login(series, packet, log, places);
    box_confirmed(box_numbers(step.end), step.answer)
}

// An answer of Receive that hands on no message.
fn box_plain(state: FtdBox, answer: u8, last: u32, refusal: u8) -> FtdBoxReceived
    ensures { result ≡ box_plain_with state answer last refusal }
{
    FtdBoxReceived {
        state,
        content: FtdSpan { start: 0, len: 0 },
        last,
        tid: 0,
        answer,
        origin: 0,
        refusal,
    }
}

// A message is handed on.
fn box_complete(state: FtdBox, last: u32, tid: u32, origin: Origin, content: Span) -> FtdBoxReceived
    ensures { result ≡ box_complete_with state last tid origin content }
{
    FtdBoxReceived {
        state,
        content: content.into(),
        last,
        tid,
        answer: 3,
        origin: origin_number(origin),
        refusal: 0,
    }
}

// What Receive answers.
fn box_received(state: FtdBox, a: Received) -> FtdBoxReceived
    ensures { result ≡ box_received_with state a }
{
    match a {
        Received::Idle => box_plain(state, 0, 0, 0),
        Received::Duplicate(n) => box_plain(state, 1, n, 0),
        Received::Partial(n) => box_plain(state, 2, n, 0),
        Received::Complete {
            last,
            tid,
            origin,
            content,
        } => box_complete(state, last, tid, origin, content),
        Received::Refused(r) => box_plain(state, 4, 0, number(r)),
    }
}

// Receive: one packet from above. A message that is handed on is published below, in the log.
#[unsafe(no_mangle)]
pub extern "C" fn ftd_box_receive(
    state: FtdBox,
    packet: &[u8],
    log: &mut [u8],
    buffer: &mut [u8],
) -> FtdBoxReceived
    ensures answer { (seats : List ℕ) → result ≡ box_received_numbers (receive_box_of (box_for (relay_for state) seats)
        packet.now log.old buffer.old) }
    ensures log { (seats : List ℕ) → log.new ≡ (receive_box_of (box_for (relay_for state) seats)
        packet.now log.old buffer.old).log }
    ensures buffer { (seats : List ℕ) → buffer.new ≡ (receive_box_of (box_for (relay_for state) seats)
        packet.now log.old buffer.old).buffer }
{
    let step = relay_for(state).receive(packet, log, buffer);
    box_received(box_numbers(step.end), step.answer)
}

// An answer to a bufferful that hands on no message.
fn box_stopped(
    state: FtdBox,
    taken: usize,
    answer: u8,
    missing: usize,
    refusal: u8,
) -> FtdBoxReceivedSeveral
    ensures { result ≡ box_stopped_with state taken answer missing refusal }
{
    FtdBoxReceivedSeveral {
        state,
        content: FtdSpan { start: 0, len: 0 },
        taken,
        missing,
        last: 0,
        tid: 0,
        answer,
        origin: 0,
        refusal,
    }
}

// A message is handed on.
fn box_handed(
    state: FtdBox,
    taken: usize,
    last: u32,
    tid: u32,
    origin: Origin,
    content: Span,
) -> FtdBoxReceivedSeveral
    ensures { result ≡ box_handed_with state taken last tid origin content }
{
    FtdBoxReceivedSeveral {
        state,
        content: content.into(),
        taken,
        missing: 0,
        last,
        tid,
        answer: 3,
        origin: origin_number(origin),
        refusal: 0,
    }
}

// What a bufferful of packets answers.
fn box_received_several(state: FtdBox, taken: usize, a: ReceivedSeveral) -> FtdBoxReceivedSeveral
    ensures { result ≡ box_received_several_with state taken a }
{
    match a {
        ReceivedSeveral::End => box_stopped(state, taken, 0, 0, 0),
        ReceivedSeveral::Short(n) => box_stopped(state, taken, 1, n, 0),
        ReceivedSeveral::Complete {
            last,
            tid,
            origin,
            content,
        } => box_handed(state, taken, last, tid, origin, content),
        ReceivedSeveral::Refused(r) => box_stopped(state, taken, 4, 0, number(r)),
    }
}

// Receive for packet after packet (02, No. 8), up to the first message or refusal, a short rest or the end.
#[unsafe(no_mangle)]
pub extern "C" fn ftd_box_receive_several(
    state: FtdBox,
    packets: &[u8],
    log: &mut [u8],
    buffer: &mut [u8],
) -> FtdBoxReceivedSeveral
    ensures answer { (seats : List ℕ) → result ≡ box_received_several_numbers
        (receive_several_box_of (box_for (relay_for state) seats) packets.now log.old
        buffer.old) }
    ensures log { (seats : List ℕ) → log.new ≡ (receive_several_box_of (box_for (relay_for state) seats)
        packets.now log.old buffer.old).end.log }
    ensures buffer { (seats : List ℕ) → buffer.new ≡ (receive_several_box_of
        (box_for (relay_for state) seats) packets.now log.old buffer.old).bytes }
{
    let step = relay_for(state).receive_several(packets, log, buffer);
    box_received_several(box_numbers(step.end), step.taken, step.answer)
}

// Login of a seat: a login packet and the answer's content; the answer is written.
#[unsafe(no_mangle)]
pub extern "C" fn ftd_box_login(
    state: FtdBox,
    seat: usize,
    series: u16,
    packet: &[u8],
    content: &[u8],
    places: &mut [u64; 384],
    out: &mut [u8],
) -> FtdWritten
    ensures answer { result ≡ seat_login_numbers (login_seat_of (box_for (relay_for state) places.old) seat
        series packet.now content.now out.old).answer }
    ensures seats { places.new ≡
        (let m = login_seat_of (box_for (relay_for state) places.old) seat series packet.now
        content.now out.old in
        login_numbers places.old seat series m.end m.answer) }
    ensures output { out.new ≡ (login_seat_of (box_for (relay_for state) places.old) seat series
        packet.now content.now out.old).bytes }
{
    bytes_of(relay_for(state).login(seat, series, packet, content, places, out))
}

// What Send of a seat answers.
pub(crate) fn seat_sent(a: Result<Option<Sent>, Refusal>) -> FtdBoxSent
    ensures { result ≡ seat_sent_numbers a }
{
    match a {
        Ok(None) => FtdBoxSent {
            bytes: 0,
            number: 0,
            answer: 0, // none left
            refusal: 0,
        },
        Ok(Some(Sent { number, len })) => FtdBoxSent {
            bytes: len,
            number,
            answer: 1, // a message
            refusal: 0,
        },
        Err(r) => FtdBoxSent {
            bytes: 0,
            number: 0,
            answer: 2, // refused
            refusal: number(r),
        },
    }
}

// Send of a seat: all packets of the series' next message are written.
#[unsafe(no_mangle)]
pub extern "C" fn ftd_box_send(
    state: FtdBox,
    seat: usize,
    series: u16,
    places: &mut [u64; 384],
    log: &[u8],
    out: &mut [u8],
) -> FtdBoxSent
    ensures answer { result ≡ seat_sent_numbers (send_seat_of (box_for (relay_for state) places.old) seat series
        log.now out.old).answer }
    ensures seats { places.new ≡
        (let m = send_seat_of (box_for (relay_for state) places.old) seat series log.now
        out.old in sent_numbers places.old seat series m.end m.answer) }
    ensures output { out.new ≡ (send_seat_of (box_for (relay_for state) places.old) seat series
        log.now out.old).bytes }
{
    seat_sent(relay_for(state).send(seat, series, places, log, out))
}

// What Send of a seat answers for one packet.
pub(crate) fn seat_packet(a: Result<Option<SentPacket>, Refusal>) -> FtdBoxSentPacket
    ensures { result ≡ seat_packet_numbers a }
{
    match a {
        Ok(None) => FtdBoxSentPacket {
            bytes: 0,
            number: 0,
            answer: 0, // no packet left
            refusal: 0,
            last: 0,
        },
        Ok(Some(SentPacket { number, len, last })) => FtdBoxSentPacket {
            bytes: len,
            number,
            answer: 1, // a packet
            refusal: 0,
            last: flag_of(last),
        },
        Err(r) => FtdBoxSentPacket {
            bytes: 0,
            number: 0,
            answer: 2, // no packet: refused
            refusal: number(r),
            last: 0,
        },
    }
}

// Send of one packet at a seat: the next packet of the series' next message is written.
#[unsafe(no_mangle)]
pub extern "C" fn ftd_box_send_packet(
    state: FtdBox,
    seat: usize,
    series: u16,
    places: &mut [u64; 384],
    log: &[u8],
    out: &mut [u8],
) -> FtdBoxSentPacket
    ensures answer { result ≡ seat_packet_numbers (send_packet_seat_of (box_for (relay_for state) places.old) seat
        series log.now out.old).answer }
    ensures seats { places.new ≡
        (let m = send_packet_seat_of (box_for (relay_for state) places.old) seat series log.now
        out.old in packet_numbers places.old seat series m.end m.answer) }
    ensures output { out.new ≡ (send_packet_seat_of (box_for (relay_for state) places.old) seat
        series log.now out.old).bytes }
{
    seat_packet(relay_for(state).send_packet(seat, series, places, log, out))
}
