// The receiving end (01, "The receiving end"): its state by value, and what its calls answer.
ghost use Rattle.std.specs.Prelude.{true, map, ◌≡◌, ◌<◌, ◌≤◌, ◌==◌, length, take, replicate};
ghost use Rattle.std.specs.List.{position};
ghost use Rattle.flow.specs.declared.receiver.KeptSeries.{KeptSeries};
ghost use Rattle.ftd.specs.Fields.{shaped};
ghost use Rattle.ftd.specs.Packet.{span};
ghost use Rattle.flow.specs.Deciding.{Decides, dropped_of, copied_to};
ghost use Rattle.flow.specs.Ends.{wrote, request_content, fresh_receiver, receiver_limits, filled, new_kept, no_live, most_series};
ghost use Rattle.flow.specs.Helpers.{FindsKept, series_at};
ghost use Rattle.flow.specs.Promises.{OpensEnd, Connects, Asks, Confirms, Receives};
ghost use Rattle.flow.specs.Receiving.{next_wanted};
ghost use Rattle.flow.specs.ReceiveHelpers.{stayed};
ghost use Rattle.flow.specs.RequestHelpers.{request_at};
ghost use Rattle.flow.specs.World.{series_in};

use crate::confirm::confirm_with;
use crate::header::not_one_message;
use crate::limits::Limits;
use crate::receive::{fits_at, take_packet};
use crate::series::wrong_series;
use ftd::bytes::copy_at;
use ftd::composition::Direction;
use ftd::content::check_content;
use ftd::fields::count_field;
use ftd::login::{Ending, write_login};
use ftd::packet::{Packet, Span, not_one_packet, read_dated};
use ftd::refusal::Refusal;

// What is kept of a series, whatever happens to the line: its trade date (01: mark), none at first, and the last
// number.
#[derive(Clone, Copy)]
pub struct KeptSeries {
    pub series: u16,
    pub date: Option<u32>,
    pub last: u32,
}

impl KeptSeries {
    // With no trade date and last 0.
    pub(crate) fn new(series: u16) -> KeptSeries
        ensures { result ≡ new_kept series }
    {
        KeptSeries {
            series,
            date: None,
            last: 0,
        }
    }
}

// The durable part: how many series are open, and what is kept of each, in the opening's order. No series: not opened
// yet.
// Stays: an array with its count, no Vec: no heap (01), and the C interface hands the end over by value.
#[derive(Clone, Copy)]
pub struct Kept {
    pub count: usize,
    pub series: [KeptSeries; 8],
}

// What a series has on this connection: logged in, and an open chain with its TID, how many bytes of it are held, and
// how many pieces, counted up to 65,536 (02, No. 10).
// Stays: numbers with two flags, since the definitions (specs/Ends, specs/Receiving) and the C interface name them.
#[derive(Clone, Copy)]
pub struct LiveSeries {
    pub login: bool,
    pub chain: bool,
    pub tid: u32,
    pub held: usize,
    pub pieces: u32,
}

impl LiveSeries {
    // Neither a login nor a chain.
    pub(crate) const NONE: LiveSeries = LiveSeries {
        login: false,
        chain: false,
        tid: 0,
        held: 0,
        pieces: 0,
    };
    // Logged in, with no chain.
    pub(crate) const LOGGED_IN: LiveSeries = LiveSeries {
        login: true,
        chain: false,
        tid: 0,
        held: 0,
        pieces: 0,
    };
}

#[derive(Clone, Copy)]
pub struct Live {
    pub series: [LiveSeries; 8],
}

// The receiving end: what it keeps, and what it has on this connection.
#[derive(Clone, Copy)]
pub struct Receiver {
    pub kept: Kept,
    pub live: Live,
}

// Where the content of a message lies that is handed on: in the packet, or in the reassembly buffer (01: chain buffer).
#[derive(Clone, Copy)]
pub enum Origin {
    Packet,
    Buffer,
}

// What Receive answers: nothing of a message; again; a fragment is held; handed on. Each but the first with the series'
// last number.
// Stays: five outcomes that callers tell apart in one match, as specs/Receiving.antt names them; a Result round
// them would nest it.
#[derive(Clone, Copy)]
pub enum Received {
    Idle,
    Duplicate(u32),
    Partial(u32),
    Complete {
        last: u32,
        tid: u32,
        origin: Origin,
        content: Span,
    },
    Refused(Refusal),
}

// What Receive decides before a byte is written: the end and the answer that it leaves, the packet's series, where the
// packet's content lies in it, and where that is copied.
#[derive(Clone, Copy)]
pub struct Decision {
    pub end: Receiver,
    pub answer: Received,
    pub series: u16,
    pub content: Span,
    pub target: Option<usize>,
}

// What a call leaves: the end, and its answer. Ask leaves the end as it is, and Connect answers nothing.
#[derive(Clone, Copy)]
pub struct OpenStep {
    pub end: Receiver,
    pub answer: Result<(), Refusal>,
}

#[derive(Clone, Copy)]
pub struct ConfirmStep {
    pub end: Receiver,
    pub answer: Result<u32, Refusal>,
}

#[derive(Clone, Copy)]
pub struct ReceiveStep {
    pub end: Receiver,
    pub answer: Received,
}

// The places kept: the series of an opening, each with no trade date and last 0; the others empty.
fn new_kept(series: &[u16]) -> [KeptSeries; 8]
    requires { length series.now ≤ 8 }
    ensures { result ≡ filled (new_kept 0) (map new_kept series.now) }
{
    let mut all = [KeptSeries::new(0); 8];
    for (i, one) in series.iter().enumerate() {
        all[i] = KeptSeries::new(*one);
    }
    all
}

// No login and no chain.
pub(crate) fn no_line() -> Live
    ensures { result ≡ record { series = replicate most_series no_live } }
{
    Live {
        series: [LiveSeries::NONE; 8],
    }
}

// The next number wanted: no number of four bytes follows the highest, and 0 is never one.
fn next_wanted(last: u32) -> u32
    ensures { result ≡ next_wanted last }
{
    last.wrapping_add(1)
}

// The end stays as it is; nothing is copied.
fn stay(e: Receiver, answer: Received, series: u16) -> Decision
    ensures { result ≡ stayed e answer series (span 0 0) }
{
    Decision {
        end: e,
        answer,
        series,
        content: Span { start: 0, len: 0 },
        target: None,
    }
}

// The series in the header of what was read; 0 where there is none.
// Stays: 0, not None, since the definition series_in (specs/World) gives it.
fn series_in(read: Packet) -> u16
    ensures { result ≡ series_in read }
{
    match read {
        Packet::Message { header, .. } => header.series,
        _ => 0,
    }
}

// The piece that was decided on is copied.
pub fn copy_piece(target: Option<usize>, content: &[u8], buffer: &mut [u8])
    ensures { buffer.new ≡ copied_to target content.now buffer.old }
{
    if let Some(n) = target {
        if fits_at(n, content.len(), buffer.len()) {
            copy_at(buffer, n, content);
        }
    }
}

impl Kept {
    // The first place of a series among the open ones.
    // Stays: like `place` of `Day` and `Checkpoints` but for the field compared; one function for all would take the
    // array, the count and a closure, and be no plainer than the chain.
    fn place(&self, series: u16) -> Option<usize>
        ensures { result ≡ position (λ (x : KeptSeries). x.series == series)
            (take self.now.count self.now.series) }
    {
        self.series
            .iter()
            .take(self.count)
            .position(|one| one.series == series)
    }
}

impl Receiver {
    // At most so many series are open.
    pub const MOST_SERIES: usize = 8;
    // No number is above it.
    pub const MOST_MESSAGES: u32 = 1000000;
    // The reassembly buffer has so many bytes for each series: a message's content.
    pub const PART: usize = ftd::fields::MOST_CONTENT;
    // Pieces of a chain are counted so far and no further (02, No. 10).
    pub const MOST_PIECES: u32 = 65536;
    // At most so many bytes of the request's content: with the start field behind it, one packet holds it.
    pub const REQUEST_CONTENT: usize = 4068;

    // The limits, as a promise.
    pub fn limits() -> Limits
        ensures { result ≡ receiver_limits }
    {
        Limits {
            series: Receiver::MOST_SERIES,
            messages: Receiver::MOST_MESSAGES,
            content: Receiver::PART,
            login: Receiver::REQUEST_CONTENT,
        }
    }

    // It holds no series.
    pub fn fresh() -> Receiver
        ensures { result ≡ fresh_receiver }
    {
        Receiver {
            kept: Kept {
                count: 0,
                series: [KeptSeries::new(0); 8],
            },
            live: no_line(),
        }
    }

    // Where a series stands among the open ones: its first place.
    pub(crate) fn find(&self, series: u16) -> Option<usize>
        ensures { FindsKept self.now series result }
    {
        self.kept.place(series)
    }

    // The series at a place, with what is now kept of it and what it now has on this connection.
    pub(crate) fn with_at(self, i: usize, series: KeptSeries, line: LiveSeries) -> Receiver
        requires { i < 8 }
        ensures { result ≡ series_at self i series line }
    {
        let mut kept = self.kept;
        let mut live = self.live;
        kept.series[i] = series;
        live.series[i] = line;
        Receiver { kept, live }
    }

    // Opening: the series, once; 11.
    pub fn open(self, series: &[u16]) -> OpenStep
        ensures { OpensEnd self series.now result }
    {
        if self.kept.count > 0 || wrong_series(series) {
            return OpenStep {
                end: self,
                answer: Err(Refusal::Opening),
            };
        }
        OpenStep {
            end: Receiver {
                kept: Kept {
                    count: series.len(),
                    series: new_kept(series),
                },
                live: no_line(),
            },
            answer: Ok(()),
        }
    }

    // Connect: login and chain of all series are cleared. Never refused.
    pub fn connect(self) -> Receiver
        ensures { Connects self result }
    {
        Receiver {
            kept: self.kept,
            live: no_line(),
        }
    }

    // 18, or the request is written: the content, and the start field for the series at a place.
    fn write_request(
        self,
        i: usize,
        series: u16,
        content: &[u8],
        out: &mut [u8],
    ) -> Result<usize, Refusal>
        requires { (i < 8) × (shaped content.now request_content ≡ true) }
        ensures { wrote self result out.new ≡ request_at self i series content.now
            out.old }
    {
        let one = self.kept.series[i];
        let start = Some(Ending {
            series,
            number: next_wanted(one.last),
        });
        write_login(one.date, content, start, out).or(Err(Refusal::TooSmall))
    }

    // Ask: series and the request's content; 7 to 10, 13 and 18. The request is written, and the end stays. 8 to 10 say
    // the same of the content as of the content with its start field, where it has none of its own.
    pub fn request_login(
        self,
        series: u16,
        content: &[u8],
        out: &mut [u8],
    ) -> Result<usize, Refusal>
        ensures { Asks self series content.now out.old result out.new }
    {
        check_content(0x0016, Direction::Up, content, Receiver::REQUEST_CONTENT)?;
        if 0 < count_field(content, 0x0004) {
            return Err(Refusal::Composition);
        }
        let Some(i) = self.find(series) else {
            return Err(Refusal::UnknownSeries);
        };
        self.write_request(i, series, content, out)
    }

    // Answer: a login answer of a series; 12, the reader's refusals, 8 to 10, 13, 15 and 16. The series is logged in.
    pub fn confirm_login(self, series: u16, packet: &[u8]) -> ConfirmStep
        ensures { Confirms self series packet.now result }
    {
        if not_one_message(packet) {
            return ConfirmStep {
                end: self,
                answer: Err(Refusal::NotOnePacket),
            };
        }
        let d = read_dated(packet);
        match d.packet {
            Packet::Message {
                header,
                content,
                ..
            } => {
                let at = content.start;
                confirm_with(self, series, header, d.date, &packet[at..at + content.len])
            }
            Packet::Refused(r) => ConfirmStep {
                end: self,
                answer: Err(r),
            },
            _ => ConfirmStep {
                end: self,
                answer: Err(Refusal::NotOnePacket),
            },
        }
    }

    // What Receive decides, for an end that takes nothing of a day before a trade date; nothing is written (02, No. 3).
    pub fn decide(self, floor: Option<u32>, packet: &[u8], buffer: &[u8]) -> Decision
        ensures { Decides self floor packet.now buffer.now result }
    {
        let d = read_dated(packet);
        if not_one_packet(packet) {
            return stay(
                self,
                Received::Refused(Refusal::NotOnePacket),
                series_in(d.packet),
            );
        }
        match d.packet {
            Packet::Message {
                header,
                content,
                ..
            } => take_packet(self, floor, header, d.date, d.place, content, buffer.len()),
            Packet::Refused(r) => stay(self, Received::Refused(r), 0),
            Packet::Short(_) => stay(self, Received::Refused(Refusal::NotOnePacket), 0),
            _ => stay(self, Received::Idle, 0),
        }
    }

    // The chain of a series is dropped.
    pub fn drop_chain(self, series: u16) -> Receiver
        ensures { result ≡ dropped_of self series }
    {
        let Some(i) = self.find(series) else {
            return self;
        };
        self.with_at(i, self.kept.series[i], LiveSeries::LOGGED_IN)
    }

    // Receive: a packet. A piece of a chain is copied into the series' part of the reassembly buffer.
    pub fn receive(self, packet: &[u8], buffer: &mut [u8]) -> ReceiveStep
        ensures { Receives self packet.now buffer.old result buffer.new }
    {
        let d = self.decide(None, packet, buffer);
        let at = d.content.start;
        copy_piece(d.target, &packet[at..at + d.content.len], buffer);
        ReceiveStep {
            end: d.end,
            answer: d.answer,
        }
    }
}
