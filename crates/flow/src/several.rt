// A bufferful (02, No. 8): many packets in one call of the receiving end, many records in one call of the serving end;
// the single call for one after the other.
ghost use Rattle.std.specs.Prelude.{◌≡◌, ◌+◌, ◌-◌, ◌≤◌, length, drop};
ghost use Rattle.ftd.specs.Runs.{front};
ghost use Rattle.ftd.specs.Chain.Laws.{packet_form};
ghost use Rattle.flow.specs.Promises.{ReceivesSeveral, PublishesSeveral};
ghost use Rattle.flow.specs.Several.{placed_from, received_stops, receiving, record_form};
ghost use Rattle.flow.specs.Several.{record_missing, publishing, rest_of};
ghost use Rattle.flow.specs.SeveralHelpers.{turn_stop, LiesIn, AnswerIn, PublishesRecord};

use crate::receiver::{Origin, Received, Receiver};
use crate::sender::{PublishStep, Sender};
use ftd::bytes::{be16, be32, size32};
use ftd::packet::{Span, missing, said_length};
use ftd::refusal::Refusal;

// What a bufferful of packets comes to: all taken; so many bytes are missing of the rest; a message is handed on, whose
// content lies in the bytes of this call or in the reassembly buffer; or a packet is refused.
// Stays: four outcomes that callers tell apart, as specs/Several.antt names them; no nested Result is plainer.
#[derive(Clone, Copy)]
pub enum ReceivedSeveral {
    End,
    Short(usize),
    Complete {
        last: u32,
        tid: u32,
        origin: Origin,
        content: Span,
    },
    Refused(Refusal),
}

// What a bufferful of records comes to: all are in; so many bytes are missing of the rest; or a record is refused, and
// those before it are in.
// Stays: three outcomes; in a Result<Option<usize>, Refusal> the end would be a None, and missing bytes a success.
#[derive(Clone, Copy)]
pub enum PublishedSeveral {
    End,
    Short(usize),
    Refused(Refusal),
}

// What a call leaves: the end, its answer, and how many bytes were taken, those of a refused packet or record among
// them.
#[derive(Clone, Copy)]
pub struct ReceiveSeveralStep {
    pub end: Receiver,
    pub answer: ReceivedSeveral,
    pub taken: usize,
}

#[derive(Clone, Copy)]
pub struct PublishSeveralStep {
    pub end: Sender,
    pub answer: PublishedSeveral,
    pub taken: usize,
}

// How many bytes the packet at a place takes; 0 where none stands there whole.
// Stays: 0, not None, as with an entry of the log.
pub fn packet_size(s: &[u8], at: usize) -> usize
    requires { at ≤ length s.now }
    ensures { (result ≡ front packet_form (drop at s.now)) × (result ≤ length s.now - at) }
{
    let p = &s[at..];
    if 0 < missing(p) {
        return 0;
    }
    said_length(p)
}

// No packet stands whole there: end where nothing is left, else short.
// Stays: like `records_rest` but for the answer's type and the bytes missing; one function for both would take both
// answers and the count as arguments, and be no shorter.
pub fn packets_rest(p: &[u8]) -> ReceivedSeveral
    ensures { result ≡ rest_of receiving p.now }
{
    if p.is_empty() {
        return ReceivedSeveral::End;
    }
    ReceivedSeveral::Short(missing(p))
}

// A message's content, which lies in the packet of n bytes at a place or in the reassembly buffer, as a place in the
// bytes of the call or in the buffer.
fn placed(at: usize, n: usize, origin: Origin, content: Span) -> Span
    requires { LiesIn n origin content × (at + n ≤ 18446744073709551615) }
    ensures { result ≡ placed_from at origin content }
{
    match origin {
        Origin::Packet => Span {
            start: at + content.start,
            len: content.len,
        },
        Origin::Buffer => content,
    }
}

// What Receive answered to the packet of n bytes at a place: the call stops at a message or a refusal.
pub fn receive_turn(at: usize, n: usize, answer: Received) -> Option<ReceivedSeveral>
    requires { AnswerIn n answer × (at + n ≤ 18446744073709551615) }
    ensures { turn_stop result ≡ received_stops at answer }
{
    match answer {
        Received::Idle | Received::Duplicate(_) | Received::Partial(_) => None,
        Received::Complete {
            last,
            tid,
            origin,
            content,
        } => Some(ReceivedSeveral::Complete {
            last,
            tid,
            origin,
            content: placed(at, n, origin, content),
        }),
        Received::Refused(r) => Some(ReceivedSeveral::Refused(r)),
    }
}

// How many bytes the record at a place takes; 0 where none stands there whole.
// Stays: 0, not None, as with an entry of the log.
pub fn record_size(s: &[u8], at: usize) -> usize
    requires { at ≤ length s.now }
    ensures { (result ≡ front record_form (drop at s.now)) × (result ≤ length s.now - at) }
{
    let left = s.len() - at;
    if left < 10 {
        return 0;
    }
    let n = size32(be32(s, at + 6));
    if left - 10 < n {
        return 0;
    }
    10 + n
}

// How many bytes are missing of the record at the front: ten for the four of a packet.
fn record_missing(x: &[u8]) -> usize
    requires { front record_form x.now ≡ 0 }
    ensures { result ≡ record_missing x.now }
{
    if x.len() < 10 {
        return 10 - x.len();
    }
    10 + size32(be32(x, 6)) - x.len()
}

// No record stands whole there: end where nothing is left, else short.
pub fn records_rest(x: &[u8]) -> PublishedSeveral
    requires { front record_form x.now ≡ 0 }
    ensures { result ≡ rest_of publishing x.now }
{
    if x.is_empty() {
        return PublishedSeveral::End;
    }
    PublishedSeveral::Short(record_missing(x))
}

// Publish of a record.
pub fn publish_record(e: Sender, x: &[u8], log: &mut [u8]) -> PublishStep
    requires { 10 ≤ length x.now }
    ensures { PublishesRecord e x.now log.old result log.new }
{
    e.publish(be16(x, 0), be32(x, 2), &x[10..], log)
}

impl Receiver {
    // Receive for packet after packet, up to the first message or refusal, a short rest or the end.
    pub fn receive_several(self, packets: &[u8], buffer: &mut [u8]) -> ReceiveSeveralStep
        ensures { ReceivesSeveral self packets.now buffer.old result buffer.new }
    {
        let mut end = self;
        let mut at: usize = 0;
        loop {
            let n = packet_size(packets, at);
            if n == 0 {
                return ReceiveSeveralStep {
                    end,
                    answer: packets_rest(&packets[at..]),
                    taken: at,
                };
            }
            let past = at + n;
            let step = end.receive(&packets[at..past], buffer);
            end = step.end;
            if let Some(answer) = receive_turn(at, n, step.answer) {
                return ReceiveSeveralStep {
                    end,
                    answer,
                    taken: past,
                };
            }
            at = past;
        }
    }
}

impl Sender {
    // Publish for record after record, up to the first refusal, a short rest or the end.
    pub fn publish_several(self, records: &[u8], log: &mut [u8]) -> PublishSeveralStep
        ensures { PublishesSeveral self records.now log.old result log.new }
    {
        let mut end = self;
        let mut at: usize = 0;
        loop {
            let n = record_size(records, at);
            if n == 0 {
                return PublishSeveralStep {
                    end,
                    answer: records_rest(&records[at..]),
                    taken: at,
                };
            }
            let behind = at + n;
            let step = publish_record(end, &records[at..behind], log);
            end = step.end;
            if let Err(r) = step.answer {
                return PublishSeveralStep {
                    end,
                    answer: PublishedSeveral::Refused(r),
                    taken: behind,
                };
            }
            at = behind;
        }
    }
}
