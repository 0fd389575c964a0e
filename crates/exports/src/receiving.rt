// The receiving end for C and Rust: its state as numbers by value, and its calls. Any numbers are a state.
ghost use Rattle.std.specs.Prelude.{◌≡◌};
ghost use Rattle.flow.specs.Ends.{fresh_receiver};
ghost use Rattle.flow.specs.Receiving.{open_end_of, connect_of, request_login_of, confirm_login_of, receive_of};
ghost use Rattle.exports.specs.Receiving.{receiver_for, kept_numbers, receiver_numbers};
ghost use Rattle.exports.specs.Receiving.{origin_number, requested_numbers, confirmed_with};
ghost use Rattle.exports.specs.Receiving.{plain_with, complete_with, received_with};
ghost use Rattle.exports.specs.Receiving.{end_opened_numbers, confirmed_numbers, received_numbers};

use crate::FtdSpan;
use crate::tags::{date, date_for, dated, flag_of};
use crate::written::{FtdWritten, bytes_of, refusal_of};
use flow::receiver::{Kept, KeptSeries, Live, LiveSeries, Origin, Received, Receiver};
use ftd::packet::Span;
use ftd::refusal::{Refusal, number};

// A series: trade date and last number, which are kept; login and open chain, which a connection has.
// Stays: `dated`, `login`, `chain` as numbers; the C interface (include/ftd.h).
#[repr(C)]
#[derive(Clone, Copy)]
pub struct FtdKept {
    pub held: usize,
    pub date: u32,
    pub last: u32,
    pub tid: u32,
    pub pieces: u32,
    pub series: u16,
    pub dated: u8,
    pub login: u8,
    pub chain: u8,
}

// The receiving end: its series in the opening's order, and how many are open.
#[repr(C)]
#[derive(Clone, Copy)]
pub struct FtdReceiver {
    pub series: [FtdKept; 8],
    pub count: usize,
}

// What a call leaves: the end, and its answer.
#[repr(C)]
#[derive(Clone, Copy)]
pub struct FtdReceiverOpened {
    pub end: FtdReceiver,
    pub refusal: u8,
}

#[repr(C)]
#[derive(Clone, Copy)]
pub struct FtdConfirmed {
    pub end: FtdReceiver,
    pub last: u32,
    pub refusal: u8,
}

#[repr(C)]
#[derive(Clone, Copy)]
pub struct FtdReceived {
    pub end: FtdReceiver,
    pub content: FtdSpan,
    pub last: u32,
    pub tid: u32,
    pub answer: u8,
    pub origin: u8,
    pub refusal: u8,
}

// Stays: no `From` for the conversions here, as in `serving`: the box's Send calls `receiver_for`.
// The end that the numbers say.
pub(crate) fn receiver_for(s: FtdReceiver) -> Receiver
    ensures { result ≡ receiver_for s }
{
    Receiver {
        kept: Kept {
            count: s.count,
            series: s.series.map(|one| KeptSeries {
                series: one.series,
                date: date_for(one.dated, one.date),
                last: one.last,
            }),
        },
        live: Live {
            series: s.series.map(|one| LiveSeries {
                login: one.login != 0,
                chain: one.chain != 0,
                tid: one.tid,
                held: one.held,
                pieces: one.pieces,
            }),
        },
    }
}

// A series as numbers.
fn numbers(k: KeptSeries, l: LiveSeries) -> FtdKept
    ensures { result ≡ kept_numbers k l }
{
    FtdKept {
        held: l.held,
        date: date(k.date),
        last: k.last,
        tid: l.tid,
        pieces: l.pieces,
        series: k.series,
        dated: dated(k.date),
        login: flag_of(l.login),
        chain: flag_of(l.chain),
    }
}

// The end as numbers.
pub(crate) fn receiver_numbers(e: Receiver) -> FtdReceiver
    ensures { result ≡ receiver_numbers e }
{
    let mut all = [FtdKept {
        held: 0,
        date: 0,
        last: 0,
        tid: 0,
        pieces: 0,
        series: 0,
        dated: 0,
        login: 0,
        chain: 0,
    }; 8];
    // Stays: a loop; `array::from_fn` was tried, and of a call at a place its contract leaves open what the closure
    // holds then.
    for (i, one) in all.iter_mut().enumerate() {
        *one = numbers(e.kept.series[i], e.live.series[i]);
    }
    FtdReceiver {
        series: all,
        count: e.kept.count,
    }
}

// An end with no series.
#[unsafe(no_mangle)]
pub extern "C" fn ftd_receiver_fresh() -> FtdReceiver
    ensures { result ≡ receiver_numbers fresh_receiver }
{
    receiver_numbers(Receiver::fresh())
}

// Opening: the series, once.
#[unsafe(no_mangle)]
pub extern "C" fn ftd_receiver_open(end: FtdReceiver, series: &[u16]) -> FtdReceiverOpened
    ensures { result ≡ end_opened_numbers (open_end_of (receiver_for end) series.now) }
{
    let step = receiver_for(end).open(series);
    FtdReceiverOpened {
        end: receiver_numbers(step.end),
        refusal: refusal_of(step.answer),
    }
}

// Connect: login and chain of all series are cleared.
#[unsafe(no_mangle)]
pub extern "C" fn ftd_connect(end: FtdReceiver) -> FtdReceiver
    ensures { result ≡ receiver_numbers (connect_of (receiver_for end)) }
{
    receiver_numbers(receiver_for(end).connect())
}

// Ask: the login packet of a series is written. The end stays as it is.
#[unsafe(no_mangle)]
pub extern "C" fn ftd_request_login(
    end: FtdReceiver,
    series: u16,
    content: &[u8],
    out: &mut [u8],
) -> FtdWritten
    ensures answer { result ≡ requested_numbers (request_login_of (receiver_for end) series content.now
        out.old).answer }
    ensures output { out.new ≡ (request_login_of (receiver_for end) series content.now
        out.old).bytes }
{
    bytes_of(receiver_for(end).request_login(series, content, out))
}

// What Answer answers.
#[tactic(auto, unfolding(crate::specs::Receiving::confirmed_with))]
fn confirmed(end: FtdReceiver, a: Result<u32, Refusal>) -> FtdConfirmed
    ensures { result ≡ confirmed_with end a }
{
    FtdConfirmed {
        end,
        last: a.unwrap_or(0),
        refusal: refusal_of(a),
    }
}

// Answer: a login answer of a series.
#[unsafe(no_mangle)]
pub extern "C" fn ftd_confirm_login(end: FtdReceiver, series: u16, packet: &[u8]) -> FtdConfirmed
    ensures { result ≡ confirmed_numbers (confirm_login_of (receiver_for end) series packet.now) }
{
    let step = receiver_for(end).confirm_login(series, packet);
    confirmed(receiver_numbers(step.end), step.answer)
}

// Stays: a match, here and of `Kind` and `Mode`: the numbers are those of the C interface (include/ftd.h), not the
// enums'.
// Where the content lies: 0 in the packet, 1 in the reassembly buffer.
pub(crate) fn origin_number(o: Origin) -> u8
    ensures { result ≡ origin_number o }
{
    match o {
        Origin::Packet => 0,
        Origin::Buffer => 1,
    }
}

// An answer of Receive that hands on no message.
fn plain(end: FtdReceiver, answer: u8, last: u32, refusal: u8) -> FtdReceived
    ensures { result ≡ plain_with end answer last refusal }
{
    FtdReceived {
        end,
        content: FtdSpan { start: 0, len: 0 },
        last,
        tid: 0,
        answer,
        origin: 0,
        refusal,
    }
}

// A message is handed on.
fn complete(end: FtdReceiver, last: u32, tid: u32, origin: Origin, content: Span) -> FtdReceived
    ensures { result ≡ complete_with end last tid origin content }
{
    FtdReceived {
        end,
        content: content.into(),
        last,
        tid,
        answer: 3,
        origin: origin_number(origin),
        refusal: 0,
    }
}

// What Receive answers.
fn received(end: FtdReceiver, a: Received) -> FtdReceived
    ensures { result ≡ received_with end a }
{
    match a {
        Received::Idle => plain(end, 0, 0, 0),
        Received::Duplicate(n) => plain(end, 1, n, 0),
        Received::Partial(n) => plain(end, 2, n, 0),
        Received::Complete {
            last,
            tid,
            origin,
            content,
        } => complete(end, last, tid, origin, content),
        Received::Refused(r) => plain(end, 4, 0, number(r)),
    }
}

// Receive: one packet; a piece of a chain is copied into the series' part of the reassembly buffer.
#[unsafe(no_mangle)]
pub extern "C" fn ftd_receive(end: FtdReceiver, packet: &[u8], buffer: &mut [u8]) -> FtdReceived
    ensures answer { result ≡ received_numbers (receive_of (receiver_for end) packet.now
        buffer.old) }
    ensures buffer { buffer.new ≡ (receive_of (receiver_for end) packet.now
        buffer.old).bytes }
{
    let step = receiver_for(end).receive(packet, buffer);
    received(receiver_numbers(step.end), step.answer)
}
