// The serving end (01, "The serving end"): its state by value, and what its calls answer.
ghost use Rattle.std.specs.Prelude.{◌++◌, ◌≡◌, ◌≤◌, ◌<◌, ◌==◌, length, take};
ghost use Rattle.std.specs.List.{position};
ghost use Rattle.flow.specs.declared.sender.DaySeries.{DaySeries};
ghost use Rattle.std.proofs.Math.Option.{some};
ghost use Rattle.ftd.specs.Content.{content_check};
ghost use Rattle.ftd.specs.declared.composition.Direction.TheVariants.{Down};
ghost use Rattle.ftd.specs.Fields.{most_content};
ghost use Rattle.flow.specs.Ends.{fresh_sender, sender_limits, filled, new_series, no_series, opened_series};
ghost use Rattle.flow.specs.Biggest.{sender_most};
ghost use Rattle.flow.specs.Helpers.{Finds, unopened, unpublished, placed_at};
ghost use Rattle.flow.specs.SendHelpers.{Leaves, FindsNext, EntryNext, headed, stepped_at};
ghost use Rattle.flow.specs.Promises.{OpensDay, Publishes, Sends, SendsPacket, LogsIn};
ghost use Rattle.flow.specs.Serving.{send_entry, send_packet_entry};

use crate::days::is_up_to;
use crate::header::not_one_message;
use crate::limits::{Limits, Most};
use crate::log::{EntryPlace, entry_length, find_entry, put_entry};
use crate::login::log_in;
use crate::room::{over_shares, wrong_reserves};
use crate::series::wrong_series;
use ftd::bytes::be32;
use ftd::chain::{Message, PacketWritten, write_chain, write_packet};
use ftd::composition::Direction;
use ftd::content::check_content;
use ftd::packet::{Packet, read_dated};
use ftd::parts::check_parts;
use ftd::refusal::Refusal;

// A series of the day, how many messages were published in it, its reserve of the log in bytes, and how many bytes its
// entries take (02, No. 11).
#[derive(Clone, Copy)]
pub struct DaySeries {
    pub series: u16,
    pub published: u32,
    pub reserve: usize,
    pub used: usize,
}

impl DaySeries {
    // With its reserve, and no message published.
    pub fn new(series: u16, reserve: usize) -> DaySeries
        ensures { result ≡ new_series series reserve }
    {
        DaySeries {
            series,
            published: 0,
            reserve,
            used: 0,
        }
    }
}

// The day: its trade date (01: mark), how many series are open, these in the opening's order, and how many bytes of the
// log are used.
// Stays: an array with its count, no Vec: no heap (01), and the C interface hands the day over by value.
#[derive(Clone, Copy)]
pub struct Day {
    pub date: Option<u32>,
    pub count: usize,
    pub series: [DaySeries; 8],
    pub used: usize,
}

// A seat's place in a series: logged in, the number that is sent next, and how many packets of that message were written
// one by one: 0 where none is unfinished.
// Stays: numbers with a flag, since the definitions (specs/Ends, specs/Serving) and the C interface name them.
#[derive(Clone, Copy)]
pub struct Place {
    pub login: bool,
    pub next: u64,
    pub piece: usize,
}

// What one seat has of the day: its place in each series, in the opening's order.
#[derive(Clone, Copy)]
pub struct Seat {
    pub places: [Place; 8],
}

impl Seat {
    // A seat that has nothing.
    pub const NONE: Seat = Seat {
        places: [Place {
            login: false,
            next: 0,
            piece: 0,
        }; 8],
    };
}

// The serving end: the day, and the one seat that it serves.
#[derive(Clone, Copy)]
pub struct Sender {
    pub day: Day,
    pub seat: Seat,
}

// What Send answers: none left (01: "none"), or the message's number and how many bytes were written.
#[derive(Clone, Copy)]
pub struct Sent {
    pub number: u32,
    pub len: usize,
}

// What Send answers for one packet: none left, or the message's number, how many bytes were written, and whether the
// packet was the message's last.
#[derive(Clone, Copy)]
pub struct SentPacket {
    pub number: u32,
    pub len: usize,
    pub last: bool,
}

// What a call leaves: the end, and its answer.
#[derive(Clone, Copy)]
pub struct OpenStep {
    pub end: Sender,
    pub answer: Result<(), Refusal>,
}

#[derive(Clone, Copy)]
pub struct PublishStep {
    pub end: Sender,
    pub answer: Result<u32, Refusal>,
}

#[derive(Clone, Copy)]
pub struct LoginStep {
    pub end: Sender,
    pub answer: Result<usize, Refusal>,
}

#[derive(Clone, Copy)]
pub struct SendStep {
    pub end: Sender,
    pub answer: Result<Option<Sent>, Refusal>,
}

#[derive(Clone, Copy)]
pub struct SendPacketStep {
    pub end: Sender,
    pub answer: Result<Option<SentPacket>, Refusal>,
}

// What both forms of Send find out before they write: none left, a refusal, or the message that is next: its series'
// place, its number, and where its entry lies in the log.
#[derive(Clone, Copy)]
pub(crate) struct NextMessage {
    pub(crate) place: usize,
    pub(crate) number: u32,
    pub(crate) start: usize,
    pub(crate) size: usize,
}

// The day's places: the series of an opening, each with its reserve and no message published; the others empty.
fn new_places(series: &[u16], reserves: &[usize]) -> [DaySeries; 8]
    requires { (length series.now ≤ 8) × (length reserves.now ≡ length series.now) }
    ensures { result ≡ filled no_series (opened_series series.now reserves.now) }
{
    let mut all = [DaySeries::new(0, 0); 8];
    for (i, one) in series.iter().enumerate() {
        all[i] = DaySeries::new(*one, reserves[i]);
    }
    all
}

impl Day {
    // The first place of a series among the open ones.
    fn place(&self, series: u16) -> Option<usize>
        ensures { result ≡ position (λ (x : DaySeries). x.series == series)
            (take self.now.count self.now.series) }
    {
        self.series
            .iter()
            .take(self.count)
            .position(|one| one.series == series)
    }
}

impl Sender {
    // At most so many series are open.
    pub const MOST_SERIES: usize = 8;
    // At most so many messages a series and day.
    pub const MOST_MESSAGES: u32 = 1000000;
    // At most so many content bytes a message.
    pub const MOST_CONTENT: usize = ftd::fields::MOST_CONTENT;
    // At most so many bytes of the answer's content: one packet holds it.
    pub const ANSWER_CONTENT: usize = ftd::fields::PACKET_CONTENT;
    // At most so many packets a message, so many bytes a packet, and so many bytes all packets of a message: an output
    // of as many is never too small for Send.
    pub const MOST_PACKETS: usize = ftd::chain::MOST_PACKETS;

    pub const MOST_PACKET: usize = ftd::fields::PACKET_CONTENT + ftd::chain::OVERHEAD;

    pub const MOST_OUTPUT: usize = ftd::fields::MOST_CONTENT
        + ftd::chain::MOST_PACKETS * ftd::chain::OVERHEAD;

    // The limits, as a promise.
    // Stays: apart from `Receiver::limits`, since each end gives its own constants; there is nothing else to share.
    pub fn limits() -> Limits
        ensures { result ≡ sender_limits }
    {
        Limits {
            series: Sender::MOST_SERIES,
            messages: Sender::MOST_MESSAGES,
            content: Sender::MOST_CONTENT,
            login: Sender::ANSWER_CONTENT,
        }
    }

    // The most that a message takes, as a promise.
    pub fn most() -> Most
        ensures { result ≡ sender_most }
    {
        Most {
            packets: Sender::MOST_PACKETS,
            packet: Sender::MOST_PACKET,
            output: Sender::MOST_OUTPUT,
        }
    }

    // It holds no series, no day and no login.
    pub fn fresh() -> Sender
        ensures { result ≡ fresh_sender }
    {
        Sender {
            day: Day {
                date: None,
                count: 0,
                series: [DaySeries::new(0, 0); 8],
                used: 0,
            },
            seat: Seat::NONE,
        }
    }

    // Where a series stands among the open ones: its first place.
    pub fn find(self, series: u16) -> Option<usize>
        ensures { Finds self series result }
    {
        self.day.place(series)
    }

    // A refused Opening leaves the end.
    fn not_opened(self) -> OpenStep
        ensures { result ≡ unopened self }
    {
        OpenStep {
            end: self,
            answer: Err(Refusal::Opening),
        }
    }

    // Opening: a trade date above the present one, if any, the series and their reserves, and the log, of which the length
    // alone is read; 11. It empties log and logins.
    pub fn open(self, date: u32, series: &[u16], reserves: &[usize], log: &[u8]) -> OpenStep
        ensures { OpensDay self date series.now reserves.now log.now result }
    {
        if wrong_series(series)
            || is_up_to(date, self.day.date)
            || wrong_reserves(series, reserves, log)
        {
            return self.not_opened();
        }
        OpenStep {
            end: Sender {
                day: Day {
                    date: Some(date),
                    count: series.len(),
                    series: new_places(series, reserves),
                    used: 0,
                },
                seat: Seat::NONE,
            },
            answer: Ok(()),
        }
    }

    // A refused Publish leaves the end.
    fn not_published(self, refusal: Refusal) -> PublishStep
        ensures { result ≡ unpublished self refusal }
    {
        PublishStep {
            end: self,
            answer: Err(refusal),
        }
    }

    // Publish in a series found, of content that passed: 20, 18 and 21, then the entry behind the used part of the log.
    // The content lies in two parts, one behind the other.
    fn publish_at(
        self,
        at: usize,
        series: u16,
        tid: u32,
        head: &[u8],
        tail: &[u8],
        log: &mut [u8],
    ) -> PublishStep
        requires { (content_check tid Down (head.now ++ tail.now) most_content ≡ (Ok tt)) × Finds self series (Some at) }
        ensures { Publishes self series tid (head.now ++ tail.now) log.old result
            log.new }
    {
        let mut day = self.day;
        let one = day.series[at];
        let size = entry_length(head, tail);
        if log.len() < day.used {
            return self.not_published(Refusal::DamagedLog);
        }
        if log.len() - day.used < size {
            return self.not_published(Refusal::TooSmall);
        }
        if over_shares(day, at, size, log.len()) {
            return self.not_published(Refusal::TooSmall);
        }
        if one.published >= Sender::MOST_MESSAGES {
            return self.not_published(Refusal::DayFull);
        }
        let number = one.published + 1;
        put_entry(log, day.used, series, tid, number, head, tail);
        day.series[at] = DaySeries {
            series,
            published: number,
            reserve: one.reserve,
            used: one.used + size,
        };
        day.used += size;
        PublishStep {
            end: Sender {
                day,
                seat: self.seat,
            },
            answer: Ok(number),
        }
    }

    // Publish of content that passed: 13, or in the series found.
    fn publish_passed(
        self,
        series: u16,
        tid: u32,
        head: &[u8],
        tail: &[u8],
        log: &mut [u8],
    ) -> PublishStep
        requires { content_check tid Down (head.now ++ tail.now) most_content ≡ (Ok tt) }
        ensures { Publishes self series tid (head.now ++ tail.now) log.old result
            log.new }
    {
        let Some(at) = self.find(series) else {
            return self.not_published(Refusal::UnknownSeries);
        };
        self.publish_at(at, series, tid, head, tail, log)
    }

    // Publish: series, TID and content; 7 to 10, 13, 20, 18 and 21. It writes the message's entry into the log.
    pub fn publish(self, series: u16, tid: u32, content: &[u8], log: &mut [u8]) -> PublishStep
        ensures { Publishes self series tid content.now log.old result log.new }
    {
        if let Err(r) = check_content(tid, Direction::Down, content, Sender::MOST_CONTENT) {
            return self.not_published(r);
        }
        self.publish_passed(series, tid, &content[..0], content, log)
    }

    // Publish of a content that lies in two parts, one behind the other.
    pub fn publish_parts(
        self,
        series: u16,
        tid: u32,
        head: &[u8],
        tail: &[u8],
        log: &mut [u8],
    ) -> PublishStep
        ensures { Publishes self series tid (head.now ++ tail.now) log.old result
            log.new }
    {
        if let Err(r) = check_parts(tid, Direction::Down, head, tail, Sender::MOST_CONTENT) {
            return self.not_published(r);
        }
        self.publish_passed(series, tid, head, tail, log)
    }

    // The series at a place, logged in with a number next, of which so many packets were written one by one.
    pub(crate) fn with_place(self, i: usize, next: u64, piece: usize) -> Sender
        requires { i < 8 }
        ensures { result ≡ placed_at self i next piece }
    {
        let mut seat = self.seat;
        seat.places[i] = Place {
            login: true,
            next,
            piece,
        };
        Sender {
            day: self.day,
            seat,
        }
    }

    // Login: a login packet, and the answer's content. The answer is written, or the call is refused.
    pub fn login(self, series: u16, packet: &[u8], content: &[u8], out: &mut [u8]) -> LoginStep
        ensures { LogsIn self series packet.now content.now out.old result
            out.new }
    {
        if not_one_message(packet) {
            return LoginStep {
                end: self,
                answer: Err(Refusal::NotOnePacket),
            };
        }
        let d = read_dated(packet);
        match d.packet {
            Packet::Message {
                header,
                content: asked,
                ..
            } => {
                let at = asked.start;
                let asked = &packet[at..at + asked.len];
                log_in(self, series, header, d.date, asked, content, out)
            }
            Packet::Refused(r) => LoginStep {
                end: self,
                answer: Err(r),
            },
            _ => LoginStep {
                end: self,
                answer: Err(Refusal::NotOnePacket),
            },
        }
    }

    // What both forms of Send find out in an open series before they write: 14, none left, 20, or the entry of the message
    // that is next.
    fn next_at(self, i: usize, series: u16, log: &[u8]) -> Result<Option<NextMessage>, Refusal>
        requires { Finds self series (Some i) }
        ensures { FindsNext self series log.now result }
    {
        let place = self.seat.places[i];
        if !place.login {
            return Err(Refusal::NotLoggedIn);
        }
        if (self.day.series[i].published as u64) < place.next {
            return Ok(None);
        }
        let number = (place.next % 4294967296) as u32;
        match find_entry(self, log, series, number) {
            None => Err(Refusal::DamagedLog),
            Some(EntryPlace { start, size }) => Ok(Some(NextMessage {
                place: i,
                number,
                start,
                size,
            })),
        }
    }

    // The same in any series: 13 first.
    fn find_next(self, series: u16, log: &[u8]) -> Result<Option<NextMessage>, Refusal>
        ensures { FindsNext self series log.now result }
    {
        let Some(i) = self.find(series) else {
            return Err(Refusal::UnknownSeries);
        };
        self.next_at(i, series, log)
    }

    // What all packets of an entry bear; each bears its place too (02, No. 10).
    fn message_of(self, series: u16, number: u32, x: &[u8]) -> Message
        requires { 16 ≤ length x.now }
        ensures { result ≡ headed self series number x.now }
    {
        Message {
            date: self.day.date,
            tid: be32(x, 4),
            series,
            number,
            counted: true,
        }
    }

    // An entry of the log, written as packets; the next one is next. 18 where the output lacks the bytes needed.
    fn send_entry(self, i: usize, series: u16, number: u32, x: &[u8], out: &mut [u8]) -> SendStep
        requires { EntryNext self series i number x.now }
        ensures { Leaves (send_entry self series out.old (some x.now)) result.end result.answer
            out.new }
    {
        let m = self.message_of(series, number, x);
        let Ok(len) = write_chain(m, &x[16..], out) else {
            return SendStep {
                end: self,
                answer: Err(Refusal::TooSmall),
            };
        };
        SendStep {
            end: self.with_place(i, (number as u64) + 1, 0),
            answer: Ok(Some(Sent { number, len })),
        }
    }

    // Send: the next message of a series as packets, read off the log.
    pub fn send(self, series: u16, log: &[u8], out: &mut [u8]) -> SendStep
        ensures { Sends self series log.now out.old result out.new }
    {
        match self.find_next(series, log) {
            Ok(None) => SendStep {
                end: self,
                answer: Ok(None),
            },
            Err(r) => SendStep {
                end: self,
                answer: Err(r),
            },
            Ok(Some(next)) => {
                let end = next.start + next.size;
                self.send_entry(next.place, series, next.number, &log[next.start..end], out)
            }
        }
    }

    // Behind a packet of a message: with its last one the message is stepped over.
    fn after_packet(self, i: usize, number: u32, piece: usize, last: bool) -> Sender
        requires { (i < 8) × (piece < 17) }
        ensures { result ≡ stepped_at self i number piece last }
    {
        if last {
            return self.with_place(i, (number as u64) + 1, 0);
        }
        self.with_place(i, number as u64, piece + 1)
    }

    // An entry of the log: the packet that is next is written. 20 where the entry has no such packet; 18 where the output
    // lacks the bytes of that one.
    fn send_piece(
        self,
        i: usize,
        series: u16,
        number: u32,
        x: &[u8],
        out: &mut [u8],
    ) -> SendPacketStep
        requires { EntryNext self series i number x.now }
        ensures { Leaves (send_packet_entry self series out.old (some x.now)) result.end
            result.answer out.new }
    {
        let piece = self.seat.places[i].piece;
        let m = self.message_of(series, number, x);
        match write_packet(m, &x[16..], piece, out) {
            Ok(Some(PacketWritten { len, last })) => SendPacketStep {
                end: self.after_packet(i, number, piece, last),
                answer: Ok(Some(SentPacket { number, len, last })),
            },
            Ok(None) => SendPacketStep {
                end: self,
                answer: Err(Refusal::DamagedLog),
            },
            Err(_) => SendPacketStep {
                end: self,
                answer: Err(Refusal::TooSmall),
            },
        }
    }

    // Send of one packet (02, No. 4): the next packet of the message that is next, read off the log.
    pub fn send_packet(self, series: u16, log: &[u8], out: &mut [u8]) -> SendPacketStep
        ensures { SendsPacket self series log.now out.old result out.new }
    {
        match self.find_next(series, log) {
            Ok(None) => SendPacketStep {
                end: self,
                answer: Ok(None),
            },
            Err(r) => SendPacketStep {
                end: self,
                answer: Err(r),
            },
            Ok(Some(next)) => {
                let end = next.start + next.size;
                self.send_piece(next.place, series, next.number, &log[next.start..end], out)
            }
        }
    }
}
