// The box (02, No. 3): the receiving end towards above and the one day below by value; what its 16 seats have of the day
// is lent, as numbers. What comes in from above is published below, an answer's trade date opens a day there.
ghost use Rattle.std.specs.Prelude.{◌≡◌, map, ◌+◌, ◌<◌, ◌≤◌, length};
ghost use Rattle.flow.specs.declared.receiver.KeptSeries.{KeptSeries};
ghost use Rattle.flow.specs.Ends.{filled, kept_series};
ghost use Rattle.flow.specs.Serving.{open_day_of};
ghost use Rattle.flow.specs.Deciding.{Decides, LiesAt};
ghost use Rattle.flow.specs.Order.{order_of};
ghost use Rattle.flow.specs.Promises.{Publishes};
ghost use Rattle.flow.specs.declared.receiver.Received.TheVariants.{Complete};
ghost use Rattle.relay.specs.Box.{confirm_past, no_seat, server_of, taken_way, reserves_of};
ghost use Rattle.relay.specs.Promises.{IsFresh, OpensBox, ConnectsBox, AsksBox, ConfirmsBox, LogsInSeat};
ghost use Rattle.relay.specs.Promises.{SendsSeat, SendsPacketSeat, ReceivesBox};
ghost use Rattle.relay.specs.Helpers.{AnsweredBy, opening_by, kept_at, late_answer, KeepsBy};
ghost use Rattle.relay.specs.Helpers.{handed_content, Hands};

use crate::places::{clear, put_place, seat_at};
use flow::days::{before, is_up_to};
use flow::order::{Order, order_of};
use flow::receiver::{Decision, Origin, Received, Receiver, copy_piece};
use flow::sender::{Day, Place, PublishStep, Seat, Sender, Sent, SentPacket};
use ftd::packet::{Span, read_dated};
use ftd::refusal::{Refusal, number};

// The box: the receiving end towards above with the reserves of its series (02, No. 11), and the day below.
// Stays: the reserves beside the end, not in its places: the receiving end (specs/Ends) has none, and Box takes both.
#[derive(Clone, Copy)]
pub struct Relay {
    pub receiver: Receiver,
    pub reserves: [usize; 8],
    pub day: Day,
}

// What a call leaves and answers. Connect leaves a box; Ask and the calls of a seat leave it as it is.
#[derive(Clone, Copy)]
pub struct OpenStep {
    pub end: Relay,
    pub answer: Result<(), Refusal>,
}

#[derive(Clone, Copy)]
pub struct ConfirmStep {
    pub end: Relay,
    pub answer: Result<u32, Refusal>,
}

#[derive(Clone, Copy)]
pub struct ReceiveStep {
    pub end: Relay,
    pub answer: Received,
}

// The reserves of an opening; 0 for the places behind them.
fn all_reserves(reserves: &[usize]) -> [usize; 8]
    requires { length reserves.now ≤ 8 }
    ensures { result ≡ filled 0 reserves.now }
{
    let mut all = [0; 8];
    all[..reserves.len()].copy_from_slice(reserves);
    all
}

// Answer: the receiving end came past its row 15.
fn confirm_past(answer: Result<u32, Refusal>) -> bool
    ensures { result ≡ confirm_past answer }
{
    answer.err().is_none_or(|r| 15 < number(r))
}

// Answer: 15 for a trade date before the day open below.
fn is_late(answer: Result<u32, Refusal>, date: Option<u32>, today: Option<u32>) -> bool
    ensures { result ≡ late_answer answer date today }
{
    confirm_past(answer) && before(date, today)
}

// The open series of a receiving end, as an array, and how many they are.
fn series_names(e: Receiver) -> [u16; 8]
    ensures { result ≡ map (λ (x : KeptSeries). x.series) e.kept.series }
{
    e.kept.series.map(|one| one.series)
}

fn series_count(e: Receiver) -> usize
    ensures { (result ≡ length (kept_series e)) × (result ≤ 8) }
{
    e.kept.count.min(8)
}

// What a seat's call left of its place in a series is written; every other number stays.
fn keep_place(places: &mut [u64; 384], seat: usize, series: u16, end: Sender)
    requires { seat < 16 }
    ensures { places.new ≡ kept_at places.old seat series end }
{
    if let Some(i) = end.find(series) {
        put_place(places, seat, i, end.seat.places[i]);
    }
}

impl Relay {
    // So many seats (02, No. 3).
    pub const SEATS: usize = 16;

    // It holds no series and no day. Of the seats' numbers all are 0.
    pub fn fresh() -> Relay
        ensures { IsFresh result }
    {
        Relay {
            receiver: Receiver::fresh(),
            reserves: [0; 8],
            day: Sender::fresh().day,
        }
    }

    // With another receiving end.
    fn with_receiver(self, end: Receiver) -> Relay
        ensures { result ≡ record { receiver = end; reserves = self.reserves; day = self.day } }
    {
        Relay {
            receiver: end,
            ..self
        }
    }

    // The day with a seat is a serving end.
    fn server(self, seat: Seat) -> Sender
        ensures { result ≡ server_of self.day seat }
    {
        Sender {
            day: self.day,
            seat,
        }
    }

    // Opening: the series with their reserves, once; 11, also where there isn't one reserve for each series. The day below
    // stays closed.
    pub fn open(self, series: &[u16], reserves: &[usize]) -> OpenStep
        ensures { OpensBox self series.now reserves.now result }
    {
        if reserves.len() != series.len() {
            return OpenStep {
                end: self,
                answer: Err(Refusal::Opening),
            };
        }
        let step = self.receiver.open(series);
        if let Err(r) = step.answer {
            return OpenStep {
                end: self.with_receiver(step.end),
                answer: Err(r),
            };
        }
        OpenStep {
            end: Relay {
                receiver: step.end,
                reserves: all_reserves(reserves),
                day: self.day,
            },
            answer: Ok(()),
        }
    }

    // Connect: a new line from above. The seats go on.
    pub fn connect(self) -> Relay
        ensures { ConnectsBox self result }
    {
        self.with_receiver(self.receiver.connect())
    }

    // Ask: the receiving end's. The box stays.
    pub fn request_login(
        self,
        series: u16,
        content: &[u8],
        out: &mut [u8],
    ) -> Result<usize, Refusal>
        ensures { AsksBox self series content.now out.old result out.new }
    {
        self.receiver.request_login(series, content, out)
    }

    // An answer that the receiving end took opens its day below: 11, or no seat is logged in.
    fn open_below(
        self,
        end: Receiver,
        last: u32,
        date: u32,
        log: &[u8],
        places: &mut [u64; 384],
    ) -> ConfirmStep
        ensures { AnsweredBy self places.old end last
            (opening_by (open_day_of (server_of self.day no_seat) date (kept_series self.receiver)
            (reserves_of self.receiver self.reserves) log.now)) result places.new }
    {
        let names = series_names(self.receiver);
        let n = series_count(self.receiver);
        let server = self.server(Seat::NONE);
        let step = server.open(date, &names[..n], &self.reserves[..n], log);
        if let Err(r) = step.answer {
            return ConfirmStep {
                end: self,
                answer: Err(r),
            };
        }
        clear(places);
        ConfirmStep {
            end: Relay {
                receiver: end,
                day: step.end.day,
                ..self
            },
            answer: Ok(last),
        }
    }

    // An answer that the receiving end took: above the day open below, or where none is, it opens.
    fn confirmed(
        self,
        end: Receiver,
        last: u32,
        date: Option<u32>,
        log: &[u8],
        places: &mut [u64; 384],
    ) -> ConfirmStep
        ensures { AnsweredBy self places.old end last
            (taken_way self.receiver self.reserves self.day log.now date) result places.new }
    {
        match date {
            Some(d) if !is_up_to(d, self.day.date) => self.open_below(end, last, d, log, places),
            _ => ConfirmStep {
                end: self.with_receiver(end),
                answer: Ok(last),
            },
        }
    }

    // Answer: the receiving end's; 15 also below the day open below, then 11. Above that day, or where none is, it opens
    // its day, with the receiving end's series and their reserves, and no seat is logged in.
    pub fn confirm_login(
        self,
        series: u16,
        packet: &[u8],
        log: &[u8],
        places: &mut [u64; 384],
    ) -> ConfirmStep
        ensures { ConfirmsBox self places.old series packet.now log.now result
            places.new }
    {
        let step = self.receiver.confirm_login(series, packet);
        let date = read_dated(packet).date;
        if is_late(step.answer, date, self.day.date) {
            return ConfirmStep {
                end: self,
                answer: Err(Refusal::OtherDay),
            };
        }
        match step.answer {
            Ok(last) => self.confirmed(step.end, last, date, log, places),
            Err(r) => ConfirmStep {
                end: self.with_receiver(step.end),
                answer: Err(r),
            },
        }
    }

    // What was decided is kept, with a day below: the piece is copied.
    fn keep(self, day: Day, d: Decision, packet: &[u8], buffer: &mut [u8]) -> ReceiveStep
        requires { d.content.start + d.content.len ≤ length packet.now }
        ensures { KeepsBy self day d packet.now buffer.old result buffer.new }
    {
        let at = d.content.start;
        copy_piece(d.target, &packet[at..at + d.content.len], buffer);
        ReceiveStep {
            end: Relay {
                receiver: d.end,
                day,
                ..self
            },
            answer: d.answer,
        }
    }

    // A message that is to be handed on is published below. Its content lies in the packet; or its last bytes do, and the
    // others in the reassembly buffer: it is checked where it lies.
    fn publish_below(
        self,
        d: Decision,
        tid: u32,
        origin: Origin,
        all: Span,
        packet: &[u8],
        log: &mut [u8],
        buffer: &[u8],
    ) -> PublishStep
        requires { LiesAt d buffer.now (Complete 0 0 origin all)
            × (d.content.start + d.content.len ≤ length packet.now) }
        ensures { Publishes (server_of self.day no_seat) d.series tid
            (handed_content d packet.now buffer.now origin all) log.old result
            log.new }
    {
        let server = self.server(Seat::NONE);
        let at = d.content.start;
        let piece = &packet[at..at + d.content.len];
        match (origin, d.target) {
            (Origin::Buffer, Some(held)) => {
                server.publish_parts(d.series, tid, &buffer[all.start..held], piece, log)
            }
            _ => server.publish(d.series, tid, piece, log),
        }
    }

    // A message that is to be handed on: where its publication is refused, it is not taken either, and its chain is
    // dropped.
    fn hand_on(
        self,
        d: Decision,
        tid: u32,
        origin: Origin,
        all: Span,
        packet: &[u8],
        log: &mut [u8],
        buffer: &mut [u8],
    ) -> ReceiveStep
        requires { Decides self.receiver self.day.date packet.now buffer.old d
            × Hands tid origin all d.answer }
        ensures { ReceivesBox self packet.now log.old buffer.old result
            log.new buffer.new }
    {
        let step = self.publish_below(d, tid, origin, all, packet, log, buffer);
        if let Err(r) = step.answer {
            return ReceiveStep {
                end: self.with_receiver(self.receiver.drop_chain(d.series)),
                answer: Received::Refused(r),
            };
        }
        self.keep(step.end.day, d, packet, buffer)
    }

    // Receive: the receiving end's; 15 also for a series whose trade date is before the day open below. A message that is
    // handed on is published below under the same number; where that is refused, the refusal is the answer, only the
    // chain is dropped, and both buffers stay.
    pub fn receive(self, packet: &[u8], log: &mut [u8], buffer: &mut [u8]) -> ReceiveStep
        ensures { ReceivesBox self packet.now log.old buffer.old result
            log.new buffer.new }
    {
        let d = self.receiver.decide(self.day.date, packet, buffer);
        match d.answer {
            Received::Complete {
                tid,
                origin,
                content,
                ..
            } => self.hand_on(d, tid, origin, content, packet, log, buffer),
            Received::Idle | Received::Duplicate(_) | Received::Partial(_) | Received::Refused(_) =>
                self.keep(self.day, d, packet, buffer),
        }
    }

    // Login of a seat: 25, then the serving end's. Nothing changes but its place and the output.
    pub fn login(
        self,
        seat: usize,
        series: u16,
        packet: &[u8],
        content: &[u8],
        places: &mut [u64; 384],
        out: &mut [u8],
    ) -> Result<usize, Refusal>
        ensures { LogsInSeat self places.old seat series packet.now content.now
            out.old result places.new out.new }
    {
        if 15 < seat {
            return Err(Refusal::NoSeat);
        }
        let server = self.server(seat_at(places, 24 * seat));
        let step = server.login(series, packet, content, out);
        if step.answer.is_ok() {
            keep_place(places, seat, series, step.end);
        }
        step.answer
    }

    // Send of a seat: 25, then the serving end's.
    pub fn send(
        self,
        seat: usize,
        series: u16,
        places: &mut [u64; 384],
        log: &[u8],
        out: &mut [u8],
    ) -> Result<Option<Sent>, Refusal>
        ensures { SendsSeat self places.old seat series log.now out.old result
            places.new out.new }
    {
        if 15 < seat {
            return Err(Refusal::NoSeat);
        }
        let server = self.server(seat_at(places, 24 * seat));
        let step = server.send(series, log, out);
        if matches!(step.answer, Ok(Some(_))) {
            keep_place(places, seat, series, step.end);
        }
        step.answer
    }

    // Send of one packet at a seat (02, No. 4).
    pub fn send_packet(
        self,
        seat: usize,
        series: u16,
        places: &mut [u64; 384],
        log: &[u8],
        out: &mut [u8],
    ) -> Result<Option<SentPacket>, Refusal>
        ensures { SendsPacketSeat self places.old seat series log.now out.old result
            places.new out.new }
    {
        if 15 < seat {
            return Err(Refusal::NoSeat);
        }
        let server = self.server(seat_at(places, 24 * seat));
        let step = server.send_packet(series, log, out);
        if matches!(step.answer, Ok(Some(_))) {
            keep_place(places, seat, series, step.end);
        }
        step.answer
    }

    // The order of the box and another serving end, an exchange say, for a series (02, No. 14): of the box its day
    // alone counts, and nothing is changed.
    pub fn order_with(self, series: u16, log: &[u8], second: Sender, other: &[u8]) -> Order
        ensures { result ≡ order_of series (server_of self.day no_seat) log.now second
            other.now }
    {
        order_of(series, self.server(Seat::NONE), log, second, other)
    }

    // The order of two boxes for a series.
    pub fn order(self, series: u16, log: &[u8], second: Relay, other: &[u8]) -> Order
        ensures { result ≡ order_of series (server_of self.day no_seat) log.now
            (server_of second.day no_seat) other.now }
    {
        self.order_with(series, log, second.server(Seat::NONE), other)
    }
}
