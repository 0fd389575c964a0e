// The calls of the receiving end, made on a player: the end is the one that the call leaves, and the answer is printed.
ghost use Rattle.std.specs.Prelude.{◌≡◌, ◌+◌, ◌*◌, ◌≤◌, length};
ghost use Rattle.play.specs.Words.{argument as argument_of, said_bytes, series_from};
ghost use Rattle.play.specs.Played.{ShowsOpenEnd, ShowsConnect, ShowsAsk, ShowsAnswer, ShowsReceive, ShowsState};
ghost use Rattle.play.specs.Played.{PlaysAsk, PlaysReceive};

use crate::player::{Played, Player, clear};
use crate::state::state_lines;
use crate::text::{confirmed_line, outcome_line, received_line, requested_line, word_line};
use crate::words::{argument, put_bytes, read_series};

// Opening.
fn open_end(player: Player, series: &[u16], text: &mut [u8]) -> Played
    requires { 64 ≤ length text.old }
    ensures { ShowsOpenEnd player series.now result text.old text.new }
{
    let step = player.receiver.open(series);
    let len = outcome_line(text, b"opened", step.answer);
    Played {
        player: player.with_receiver(step.end),
        len,
    }
}

// Opening, with the series that a line says.
pub(crate) fn play_open_end(player: Player, count: usize, line: &[u8], text: &mut [u8]) -> Played
    requires { (64 ≤ length text.old) × (count ≤ 64) }
    ensures { ShowsOpenEnd player (series_from line.now 0 count) result text.old
        text.new }
{
    let mut list = [0u16; 64];
    read_series(line, 0, count, &mut list);
    open_end(player, &list[..count], text)
}

// Connect.
pub(crate) fn connect(player: Player, text: &mut [u8]) -> Played
    requires { 64 ≤ length text.old }
    ensures { ShowsConnect player result text.old text.new }
{
    let end = player.receiver.connect();
    let len = word_line(text, b"connected");
    Played {
        player: player.with_receiver(end),
        len,
    }
}

// Ask. The end stays.
fn ask(player: Player, series: u16, content: &[u8], out: &mut [u8], text: &mut [u8]) -> Played
    requires { 64 + 2 * length out.old ≤ length text.old }
    ensures { ShowsAsk player series content.now (length out.old) out.new result
        text.old text.new }
{
    clear(out);
    let answer = player.receiver.request_login(series, content, out);
    let len = requested_line(text, answer, out);
    Played { player, len }
}

// Ask, with the content that a line says, and an output of so many bytes.
pub(crate) fn play_ask(
    player: Player,
    series: u16,
    room: usize,
    line: &[u8],
    bytes: &mut [u8],
    out: &mut [u8],
    text: &mut [u8],
) -> Played
    requires { (64 + 2 * room ≤ length text.old) × (room ≤ length out.old)
        × (length line.now ≤ length bytes.old) }
    ensures { PlaysAsk player series (said_bytes (argument_of line.now 2)) room result text.old
        text.new }
{
    let n = put_bytes(bytes, 0, argument(line, 2));
    ask(player, series, &bytes[..n], &mut out[..room], text)
}

// Answer.
fn answer(player: Player, series: u16, packet: &[u8], text: &mut [u8]) -> Played
    requires { 64 ≤ length text.old }
    ensures { ShowsAnswer player series packet.now result text.old text.new }
{
    let step = player.receiver.confirm_login(series, packet);
    let len = confirmed_line(text, step.answer);
    Played {
        player: player.with_receiver(step.end),
        len,
    }
}

// Answer, with the packet that a line says.
pub(crate) fn play_answer(
    player: Player,
    series: u16,
    line: &[u8],
    bytes: &mut [u8],
    text: &mut [u8],
) -> Played
    requires { (64 ≤ length text.old) × (length line.now ≤ length bytes.old) }
    ensures { ShowsAnswer player series (said_bytes (argument_of line.now 1)) result text.old
        text.new }
{
    let n = put_bytes(bytes, 0, argument(line, 1));
    answer(player, series, &bytes[..n], text)
}

// Receive.
fn receive(player: Player, packet: &[u8], buffer: &mut [u8], text: &mut [u8]) -> Played
    requires { (64 + 2 * length packet.now ≤ length text.old) × (64 + 2 * length buffer.old ≤ length text.old) }
    ensures { ShowsReceive player packet.now buffer.old buffer.new result
        text.old text.new }
{
    let step = player.receiver.receive(packet, buffer);
    let len = received_line(text, step.answer, packet, buffer);
    Played {
        player: player.with_receiver(step.end),
        len,
    }
}

// Receive, with the packet that a line says, in the chain buffer's part.
pub(crate) fn play_receive(
    player: Player,
    line: &[u8],
    chain: &mut [u8],
    bytes: &mut [u8],
    text: &mut [u8],
) -> Played
    requires { (64 + length line.now ≤ length text.old) × (64 + 2 * player.chain ≤ length text.old)
        × (length line.now ≤ length bytes.old) × (player.chain ≤ length chain.old) }
    ensures { PlaysReceive player (said_bytes (argument_of line.now 0)) chain.old
        chain.new result text.old text.new }
{
    let n = put_bytes(bytes, 0, argument(line, 0));
    receive(player, &bytes[..n], &mut chain[..player.chain], text)
}

// Both ends and the named places, for people.
pub(crate) fn show_state(player: Player, text: &mut [u8]) -> Played
    requires { 8192 ≤ length text.old }
    ensures { ShowsState player result text.old text.new }
{
    Played {
        player,
        len: state_lines(text, player.sender, player.receiver, player.checkpoints),
    }
}
