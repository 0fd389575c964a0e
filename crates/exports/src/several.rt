// A bufferful (02, No. 8) for C and Rust: many packets in one call of the receiving end, many records in one call of the
// serving end.
ghost use Rattle.std.specs.Prelude.{◌≡◌};
ghost use Rattle.flow.specs.Several.{receive_several_of, publish_several_of};
ghost use Rattle.exports.specs.Serving.{sender_for};
ghost use Rattle.exports.specs.Receiving.{receiver_for};
ghost use Rattle.exports.specs.Several.{stopped_with, handed_with, received_several_with, received_several_numbers};
ghost use Rattle.exports.specs.Several.{published_several_with, published_several_numbers};

use crate::FtdSpan;
use crate::receiving::{FtdReceiver, origin_number, receiver_for, receiver_numbers};
use crate::serving::{FtdSender, sender_for, sender_numbers};
use flow::receiver::Origin;
use flow::several::{PublishedSeveral, ReceivedSeveral};
use ftd::packet::Span;
use ftd::refusal::number;

// What a bufferful of packets leaves: the end, how many bytes were taken, and the answer.
#[repr(C)]
#[derive(Clone, Copy)]
pub struct FtdReceivedSeveral {
    pub end: FtdReceiver,
    pub content: FtdSpan,
    pub taken: usize,
    pub missing: usize,
    pub last: u32,
    pub tid: u32,
    pub answer: u8,
    pub origin: u8,
    pub refusal: u8,
}

// What a bufferful of records leaves.
#[repr(C)]
#[derive(Clone, Copy)]
pub struct FtdPublishedSeveral {
    pub end: FtdSender,
    pub taken: usize,
    pub missing: usize,
    pub answer: u8,
    pub refusal: u8,
}

// An answer that hands on no message.
fn stopped(
    end: FtdReceiver,
    taken: usize,
    answer: u8,
    missing: usize,
    refusal: u8,
) -> FtdReceivedSeveral
    ensures { result ≡ stopped_with end taken answer missing refusal }
{
    FtdReceivedSeveral {
        end,
        content: FtdSpan { start: 0, len: 0 },
        taken,
        missing,
        last: 0,
        tid: 0,
        answer,
        origin: 0,
        refusal,
    }
}

// A message is handed on.
fn handed(
    end: FtdReceiver,
    taken: usize,
    last: u32,
    tid: u32,
    origin: Origin,
    content: Span,
) -> FtdReceivedSeveral
    ensures { result ≡ handed_with end taken last tid origin content }
{
    FtdReceivedSeveral {
        end,
        content: content.into(),
        taken,
        missing: 0,
        last,
        tid,
        answer: 3,
        origin: origin_number(origin),
        refusal: 0,
    }
}

// What a bufferful of packets answers.
fn received_several(end: FtdReceiver, taken: usize, a: ReceivedSeveral) -> FtdReceivedSeveral
    ensures { result ≡ received_several_with end taken a }
{
    match a {
        ReceivedSeveral::End => stopped(end, taken, 0, 0, 0),
        ReceivedSeveral::Short(n) => stopped(end, taken, 1, n, 0),
        ReceivedSeveral::Complete {
            last,
            tid,
            origin,
            content,
        } => handed(end, taken, last, tid, origin, content),
        ReceivedSeveral::Refused(r) => stopped(end, taken, 4, 0, number(r)),
    }
}

// Receive for packet after packet, up to the first message or refusal, a short rest or the end.
#[unsafe(no_mangle)]
pub extern "C" fn ftd_receive_several(
    end: FtdReceiver,
    packets: &[u8],
    buffer: &mut [u8],
) -> FtdReceivedSeveral
    ensures answer { result ≡ received_several_numbers (receive_several_of (receiver_for end) packets.now
        buffer.old) }
    ensures buffer { buffer.new ≡ (receive_several_of (receiver_for end) packets.now
        buffer.old).bytes }
{
    let step = receiver_for(end).receive_several(packets, buffer);
    received_several(receiver_numbers(step.end), step.taken, step.answer)
}

// What a bufferful of records answers.
fn published_several(end: FtdSender, taken: usize, a: PublishedSeveral) -> FtdPublishedSeveral
    ensures { result ≡ published_several_with end taken a }
{
    match a {
        PublishedSeveral::End => FtdPublishedSeveral {
            end,
            taken,
            missing: 0,
            answer: 0,
            refusal: 0,
        },
        PublishedSeveral::Short(n) => FtdPublishedSeveral {
            end,
            taken,
            missing: n,
            answer: 1,
            refusal: 0,
        },
        PublishedSeveral::Refused(r) => FtdPublishedSeveral {
            end,
            taken,
            missing: 0,
            answer: 4,
            refusal: number(r),
        },
    }
}

// Publish for record after record, up to the first refusal, a short rest or the end.
#[unsafe(no_mangle)]
pub extern "C" fn ftd_publish_several(
    end: FtdSender,
    records: &[u8],
    log: &mut [u8],
) -> FtdPublishedSeveral
    ensures answer { result ≡ published_several_numbers (publish_several_of (sender_for end) records.now
        log.old) }
    ensures log { log.new ≡ (publish_several_of (sender_for end) records.now
        log.old).bytes }
{
    let step = sender_for(end).publish_several(records, log);
    published_several(sender_numbers(step.end), step.taken, step.answer)
}
