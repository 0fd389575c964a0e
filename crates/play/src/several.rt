// A bufferful (02, No. 8), made on a player: the single call for one input after the other, each answer printed as a
// line, and then the bytes taken.
ghost use Rattle.std.specs.Prelude.{◌≡◌, ◌+◌, ◌*◌, ◌/◌, ◌≤◌, length};
ghost use Rattle.listing.specs.Text.{WroteText};
ghost use Rattle.play.specs.Words.{argument as argument_of, said_bytes};
ghost use Rattle.play.specs.Lines.{published_line, received_line, Passing};
ghost use Rattle.play.specs.Several.{taken_line, received_why, published_why, PrintsReceived, PrintsPublished};
ghost use Rattle.play.specs.Played.{ShowsReceiveAll, ShowsPublishAll, PlaysReceiveAll, PlaysPublishAll};

use crate::player::{Played, Player};
use crate::text::{published_line, put_numbered, received_line};
use crate::words::{argument, put_bytes};
use flow::receiver::{Received, Receiver};
use flow::sender::Sender;
use flow::several::{
    PublishedSeveral, ReceivedSeveral, packet_size, packets_rest, publish_record, receive_turn,
    record_size, records_rest,
};
use ftd::bytes::size8;
use ftd::refusal::{Refusal, number};
use listing::{put_byte, put_word};

// Stays: two types, and two of each function below; `PrintsReceived` and `PrintsPublished` of specs/ name both types.
// What a walk leaves: the end, its answer, how many bytes were taken, and the length of the lines.
#[derive(Clone, Copy)]
pub(crate) struct ReceivedAll {
    end: Receiver,
    answer: ReceivedSeveral,
    taken: usize,
    len: usize,
}

#[derive(Clone, Copy)]
pub(crate) struct PublishedAll {
    end: Sender,
    answer: PublishedSeveral,
    taken: usize,
    len: usize,
}

// The line of Receive's answer, from a place on.
fn received_at(text: &mut [u8], at: usize, answer: Received, packet: &[u8], buffer: &[u8]) -> usize
    requires { (at + (64 + 2 * length packet.now) ≤ length text.old)
        × (at + (64 + 2 * length buffer.now) ≤ length text.old) }
    ensures { WroteText text.old at (received_line packet.now buffer.now answer)
        text.new result × (result ≤ length text.new) × Passing answer at result }
{
    let n = received_line(&mut text[at..], answer, packet, buffer);
    at + n
}

// The line of Publish's answer, from a place on.
fn published_at(text: &mut [u8], at: usize, answer: Result<u32, Refusal>) -> usize
    requires { at + 64 ≤ length text.old }
    ensures { WroteText text.old at (published_line answer) text.new result × (result ≤ at + 28) }
{
    let n = published_line(&mut text[at..], answer);
    at + n
}

// Receive for packet after packet, each answer printed; it stops where the call for several does.
fn receive_packets(e: Receiver, packets: &[u8], buffer: &mut [u8], text: &mut [u8]) -> ReceivedAll
    requires { 64 + 7 * length packets.now + 2 * length buffer.old ≤ length text.old }
    ensures { PrintsReceived e packets.now buffer.old buffer.new result
        text.old text.new }
{
    let mut end = e;
    let mut at: usize = 0;
    let mut to: usize = 0;
    loop {
        let n = packet_size(packets, at);
        if n == 0 {
            return ReceivedAll {
                end,
                answer: packets_rest(&packets[at..]),
                taken: at,
                len: to,
            };
        }
        let past = at + n;
        let packet = &packets[at..past];
        let step = end.receive(packet, buffer);
        end = step.end;
        to = received_at(text, to, step.answer, packet, buffer);
        let turn = receive_turn(at, n, step.answer);
        if let Some(a) = turn {
            return ReceivedAll {
                end,
                answer: a,
                taken: past,
                len: to,
            };
        }
        at = past;
    }
}

// Publish for record after record, each answer printed.
fn publish_records(e: Sender, records: &[u8], log: &mut [u8], text: &mut [u8]) -> PublishedAll
    requires { 64 + 7 * length records.now ≤ length text.old }
    ensures { PrintsPublished e records.now log.old log.new result
        text.old text.new }
{
    let mut end = e;
    let mut at: usize = 0;
    let mut to: usize = 0;
    loop {
        let n = record_size(records, at);
        if n == 0 {
            return PublishedAll {
                end,
                answer: records_rest(&records[at..]),
                taken: at,
                len: to,
            };
        }
        let behind = at + n;
        let step = publish_record(end, &records[at..behind], log);
        end = step.end;
        to = published_at(text, to, step.answer);
        if let Err(r) = step.answer {
            return PublishedAll {
                end,
                answer: PublishedSeveral::Refused(r),
                taken: behind,
                len: to,
            };
        }
        at = behind;
    }
}

// Why a bufferful of packets stopped.
fn put_received_why(text: &mut [u8], at: usize, answer: ReceivedSeveral) -> usize
    requires { at + 40 ≤ length text.old }
    ensures { WroteText text.old at (received_why answer) text.new result × (result ≤ at + 40) }
{
    match answer {
        ReceivedSeveral::End => put_word(text, at, b"end"),
        ReceivedSeveral::Short(n) => put_numbered(text, at, b"short", n),
        ReceivedSeveral::Complete { .. } => put_word(text, at, b"message"),
        ReceivedSeveral::Refused(r) => put_numbered(text, at, b"refused", size8(number(r))),
    }
}

// Why a bufferful of records stopped.
fn put_published_why(text: &mut [u8], at: usize, answer: PublishedSeveral) -> usize
    requires { at + 40 ≤ length text.old }
    ensures { WroteText text.old at (published_why answer) text.new result × (result ≤ at + 40) }
{
    match answer {
        PublishedSeveral::End => put_word(text, at, b"end"),
        PublishedSeveral::Short(n) => put_numbered(text, at, b"short", n),
        PublishedSeveral::Refused(r) => put_numbered(text, at, b"refused", size8(number(r))),
    }
}

// `taken`, the bytes taken, and why.
fn received_taken(text: &mut [u8], at: usize, n: usize, answer: ReceivedSeveral) -> usize
    requires { at + 96 ≤ length text.old }
    ensures { WroteText text.old at (taken_line n (received_why answer)) text.new result
        × (result ≤ length text.new) }
{
    let to = put_numbered(text, at, b"taken", n);
    let to = put_byte(text, to, 32);
    let to = put_received_why(text, to, answer);
    put_byte(text, to, 10)
}

// The same of records.
fn published_taken(text: &mut [u8], at: usize, n: usize, answer: PublishedSeveral) -> usize
    requires { at + 96 ≤ length text.old }
    ensures { WroteText text.old at (taken_line n (published_why answer)) text.new result
        × (result ≤ length text.new) }
{
    let to = put_numbered(text, at, b"taken", n);
    let to = put_byte(text, to, 32);
    let to = put_published_why(text, to, answer);
    put_byte(text, to, 10)
}

// Receive for several packets.
fn receive_all(player: Player, packets: &[u8], buffer: &mut [u8], text: &mut [u8]) -> Played
    requires { 160 + 7 * length packets.now + 2 * length buffer.old ≤ length text.old }
    ensures { ShowsReceiveAll player packets.now buffer.old buffer.new result
        text.old text.new }
{
    let most = text.len() - 96;
    let all = receive_packets(player.receiver, packets, buffer, &mut text[..most]);
    let len = received_taken(text, all.len, all.taken, all.answer);
    Played {
        player: player.with_receiver(all.end),
        len,
    }
}

// Receive for the packets that a line says, in the chain buffer's part.
pub(crate) fn play_receive_all(
    player: Player,
    line: &[u8],
    chain: &mut [u8],
    bytes: &mut [u8],
    text: &mut [u8],
) -> Played
    requires { (160 + 7 * (length line.now / 2) + 2 * player.chain ≤ length text.old)
        × (length line.now ≤ length bytes.old) × (player.chain ≤ length chain.old) }
    ensures { PlaysReceiveAll player (said_bytes (argument_of line.now 0)) chain.old
        chain.new result text.old text.new }
{
    let n = put_bytes(bytes, 0, argument(line, 0));
    receive_all(player, &bytes[..n], &mut chain[..player.chain], text)
}

// Publish for several records.
fn publish_all(player: Player, records: &[u8], log: &mut [u8], text: &mut [u8]) -> Played
    requires { 160 + 7 * length records.now ≤ length text.old }
    ensures { ShowsPublishAll player records.now log.old log.new result
        text.old text.new }
{
    let most = text.len() - 96;
    let all = publish_records(player.sender, records, log, &mut text[..most]);
    let len = published_taken(text, all.len, all.taken, all.answer);
    Played {
        player: player.with_sender(all.end),
        len,
    }
}

// Publish for the records that a line says, in the log's part.
pub(crate) fn play_publish_all(
    player: Player,
    line: &[u8],
    log: &mut [u8],
    bytes: &mut [u8],
    text: &mut [u8],
) -> Played
    requires { (160 + 7 * (length line.now / 2) ≤ length text.old) × (length line.now ≤ length bytes.old)
        × (player.log ≤ length log.old) }
    ensures { PlaysPublishAll player (said_bytes (argument_of line.now 0)) log.old
        log.new result text.old text.new }
{
    let n = put_bytes(bytes, 0, argument(line, 0));
    publish_all(player, &bytes[..n], &mut log[..player.log], text)
}
