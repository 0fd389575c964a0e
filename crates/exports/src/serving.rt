// The serving end for C and Rust: its state as numbers by value, and its calls. Any numbers are a state.
ghost use Rattle.std.specs.Prelude.{◌≡◌};
ghost use Rattle.flow.specs.Ends.{fresh_sender};
ghost use Rattle.flow.specs.Serving.{open_day_of, publish_of, login_of, send_of, send_packet_of};
ghost use Rattle.exports.specs.Serving.{sender_for, served_numbers, sender_numbers};
ghost use Rattle.exports.specs.Serving.{published_with, logged_in_with, sent_with, sent_packet_with};
ghost use Rattle.exports.specs.Serving.{day_opened_numbers, published_numbers, logged_in_numbers, sent_numbers};
ghost use Rattle.exports.specs.Serving.{sent_packet_numbers};

use crate::boxes::{FtdBoxSent, FtdBoxSentPacket, seat_packet, seat_sent};
use crate::tags::{date, date_for, dated, flag_of};
use crate::written::refusal_of;
use flow::sender::{Day, DaySeries, Place, Seat, Sender, Sent, SentPacket};
use ftd::refusal::Refusal;

// A series: the number that is sent next, how many packets of that message were written one by one, its reserve of the
// log and how many bytes its entries take, how many were published, and whether it is logged in.
// Stays: `login` as a number; the C interface (include/ftd.h).
#[repr(C)]
#[derive(Clone, Copy)]
pub struct FtdServed {
    pub next: u64,
    pub piece: u64,
    pub reserve: usize,
    pub used: usize,
    pub published: u32,
    pub series: u16,
    pub login: u8,
}

// The serving end: bytes of the log in use, its series in the opening's order, how many are open, and the trade date.
// Stays: `dated` as a number; the C interface (include/ftd.h).
#[repr(C)]
#[derive(Clone, Copy)]
pub struct FtdSender {
    pub used: usize,
    pub series: [FtdServed; 8],
    pub count: usize,
    pub date: u32,
    pub dated: u8,
}

// What a call leaves: the end, and its answer.
#[repr(C)]
#[derive(Clone, Copy)]
pub struct FtdSenderOpened {
    pub end: FtdSender,
    pub refusal: u8,
}

#[repr(C)]
#[derive(Clone, Copy)]
pub struct FtdPublished {
    pub end: FtdSender,
    pub number: u32,
    pub refusal: u8,
}

#[repr(C)]
#[derive(Clone, Copy)]
pub struct FtdLoggedIn {
    pub end: FtdSender,
    pub bytes: usize,
    pub refusal: u8,
}

#[repr(C)]
#[derive(Clone, Copy)]
pub struct FtdSent {
    pub end: FtdSender,
    pub bytes: usize,
    pub number: u32,
    pub answer: u8,
    pub refusal: u8,
}

// Stays: `last` as a number; the C interface (include/ftd.h).
#[repr(C)]
#[derive(Clone, Copy)]
pub struct FtdSentPacket {
    pub end: FtdSender,
    pub bytes: usize,
    pub number: u32,
    pub answer: u8,
    pub refusal: u8,
    pub last: u8,
}

// Stays: no `From` for the conversions here, as a part, a message, a calendar, a book and named places have it:
// tests/copies.py (Request No. 6) follows calls out of Send by their names, and `into` has none that it knows; the
// other direction keeps its name beside it.
// The end that the numbers say.
pub(crate) fn sender_for(s: FtdSender) -> Sender
    ensures { result ≡ sender_for s }
{
    Sender {
        day: Day {
            date: date_for(s.dated, s.date),
            count: s.count,
            series: s.series.map(|one| DaySeries {
                series: one.series,
                published: one.published,
                reserve: one.reserve,
                used: one.used,
            }),
            used: s.used,
        },
        seat: Seat {
            places: s.series.map(|one| Place {
                login: one.login != 0,
                next: one.next,
                piece: one.piece as usize,
            }),
        },
    }
}

// A series as numbers.
fn served(d: DaySeries, p: Place) -> FtdServed
    ensures { result ≡ served_numbers d p }
{
    FtdServed {
        next: p.next,
        piece: p.piece as u64,
        reserve: d.reserve,
        used: d.used,
        published: d.published,
        series: d.series,
        login: flag_of(p.login),
    }
}

// The end as numbers.
pub(crate) fn sender_numbers(e: Sender) -> FtdSender
    ensures { result ≡ sender_numbers e }
{
    let mut all = [FtdServed {
        next: 0,
        piece: 0,
        reserve: 0,
        used: 0,
        published: 0,
        series: 0,
        login: 0,
    }; 8];
    // Stays: filled by place, since it takes of two arrays at once, and tests/copies.py (Request No. 6) follows no
    // `iter_mut`
    // out of Send; of `array::from_fn`, see `receiver_numbers`.
    for i in 0..8 {
        all[i] = served(e.day.series[i], e.seat.places[i]);
    }
    FtdSender {
        used: e.day.used,
        series: all,
        count: e.day.count,
        date: date(e.day.date),
        dated: dated(e.day.date),
    }
}

// An end with no series, no day and no login.
#[unsafe(no_mangle)]
pub extern "C" fn ftd_sender_fresh() -> FtdSender
    ensures { result ≡ sender_numbers fresh_sender }
{
    sender_numbers(Sender::fresh())
}

// Opening: a trade date, the series and a reserve of the log for each; of the log only the length counts.
#[unsafe(no_mangle)]
pub extern "C" fn ftd_sender_open(
    end: FtdSender,
    date: u32,
    series: &[u16],
    reserves: &[usize],
    log: &[u8],
) -> FtdSenderOpened
    ensures { result ≡ day_opened_numbers (open_day_of (sender_for end) date series.now
        reserves.now log.now) }
{
    let step = sender_for(end).open(date, series, reserves, log);
    FtdSenderOpened {
        end: sender_numbers(step.end),
        refusal: refusal_of(step.answer),
    }
}

// What Publish answers.
#[tactic(auto, unfolding(crate::specs::Serving::published_with))]
fn published(end: FtdSender, a: Result<u32, Refusal>) -> FtdPublished
    ensures { result ≡ published_with end a }
{
    FtdPublished {
        end,
        number: a.unwrap_or(0),
        refusal: refusal_of(a),
    }
}

// Publish: the message's entry goes into the log.
#[unsafe(no_mangle)]
pub extern "C" fn ftd_publish(
    end: FtdSender,
    series: u16,
    tid: u32,
    content: &[u8],
    log: &mut [u8],
) -> FtdPublished
    ensures answer { result ≡ published_numbers (publish_of (sender_for end) series tid content.now
        log.old) }
    ensures log { log.new ≡ (publish_of (sender_for end) series tid content.now
        log.old).bytes }
{
    let step = sender_for(end).publish(series, tid, content, log);
    published(sender_numbers(step.end), step.answer)
}

// What Login answers.
#[tactic(auto, unfolding(crate::specs::Serving::logged_in_with))]
fn logged_in(end: FtdSender, a: Result<usize, Refusal>) -> FtdLoggedIn
    ensures { result ≡ logged_in_with end a }
{
    FtdLoggedIn {
        end,
        bytes: a.unwrap_or(0),
        refusal: refusal_of(a),
    }
}

// Login: a login packet and the answer's content; the answer is written.
#[unsafe(no_mangle)]
pub extern "C" fn ftd_login(
    end: FtdSender,
    series: u16,
    packet: &[u8],
    content: &[u8],
    out: &mut [u8],
) -> FtdLoggedIn
    ensures answer { result ≡ logged_in_numbers (login_of (sender_for end) series packet.now
        content.now out.old) }
    ensures output { out.new ≡ (login_of (sender_for end) series packet.now
        content.now out.old).bytes }
{
    let step = sender_for(end).login(series, packet, content, out);
    logged_in(sender_numbers(step.end), step.answer)
}

// What Send answers: what it answers at a seat, beside the end.
#[tactic(auto, unfolding(crate::specs::Serving::sent_with))]
fn sent(end: FtdSender, a: Result<Option<Sent>, Refusal>) -> FtdSent
    ensures { result ≡ sent_with end a }
{
    let FtdBoxSent {
        bytes,
        number,
        answer,
        refusal,
    } = seat_sent(a);
    FtdSent {
        end,
        bytes,
        number,
        answer,
        refusal,
    }
}

// Send: all packets of the series' next message are written.
#[unsafe(no_mangle)]
pub extern "C" fn ftd_send(end: FtdSender, series: u16, log: &[u8], out: &mut [u8]) -> FtdSent
    ensures answer { result ≡ sent_numbers (send_of (sender_for end) series log.now out.old) }
    ensures output { out.new ≡ (send_of (sender_for end) series log.now out.old
        ).bytes }
{
    let step = sender_for(end).send(series, log, out);
    sent(sender_numbers(step.end), step.answer)
}

// What Send answers for one packet: the same.
#[tactic(auto, unfolding(crate::specs::Serving::sent_packet_with))]
fn sent_packet(end: FtdSender, a: Result<Option<SentPacket>, Refusal>) -> FtdSentPacket
    ensures { result ≡ sent_packet_with end a }
{
    let FtdBoxSentPacket {
        bytes,
        number,
        answer,
        refusal,
        last,
    } = seat_packet(a);
    FtdSentPacket {
        end,
        bytes,
        number,
        answer,
        refusal,
        last,
    }
}

// Send of one packet: the next packet of the series' next message is written.
#[unsafe(no_mangle)]
pub extern "C" fn ftd_send_packet(
    end: FtdSender,
    series: u16,
    log: &[u8],
    out: &mut [u8],
) -> FtdSentPacket
    ensures answer { result ≡ sent_packet_numbers (send_packet_of (sender_for end) series log.now
        out.old) }
    ensures output { out.new ≡ (send_packet_of (sender_for end) series log.now out.old
        ).bytes }
{
    let step = sender_for(end).send_packet(series, log, out);
    sent_packet(sender_numbers(step.end), step.answer)
}
