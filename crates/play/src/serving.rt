// The calls of the serving end, made on a player: the end is the one that the call leaves, and the answer is printed.
ghost use Rattle.std.specs.Prelude.{◌≡◌, ◌+◌, ◌*◌, ◌≤◌, length};
ghost use Rattle.play.specs.Words.{argument as argument_of, said_bytes};
ghost use Rattle.play.specs.Played.{ShowsOpenDay, ShowsPublish, ShowsLogin, ShowsSend, ShowsSendPacket};
ghost use Rattle.play.specs.Played.{PlaysOpenDay, PlaysPublish, PlaysLogin, PlaysSend};

use crate::player::{Played, Player, clear};
use crate::text::{login_line, outcome_line, published_line, sent_line, sent_packet_line};
use crate::words::{argument, put_bytes, put_two, read_reserves, read_series};

// Opening.
fn open_day(
    player: Player,
    date: u32,
    series: &[u16],
    reserves: &[usize],
    log: &[u8],
    text: &mut [u8],
) -> Played
    requires { 64 ≤ length text.old }
    ensures { ShowsOpenDay player date series.now reserves.now log.now result
        text.old text.new }
{
    let step = player.sender.open(date, series, reserves, log);
    let len = outcome_line(text, b"opened", step.answer);
    Played {
        player: player.with_sender(step.end),
        len,
    }
}

// Opening, with the series and reserves that a line says, and the log's part.
pub(crate) fn play_open_day(
    player: Player,
    date: u32,
    count: usize,
    line: &[u8],
    log: &[u8],
    text: &mut [u8],
) -> Played
    requires { (64 ≤ length text.old) × (count ≤ 64) × (player.log ≤ length log.now) }
    ensures { PlaysOpenDay player line.now date count log.now result text.old
        text.new }
{
    let mut list = [0u16; 64];
    read_series(line, 1, count, &mut list);
    let mut shares = [0usize; 64];
    read_reserves(line, 1, count, &mut shares);
    open_day(
        player,
        date,
        &list[..count],
        &shares[..count],
        &log[..player.log],
        text,
    )
}

// Publish.
fn publish(
    player: Player,
    series: u16,
    tid: u32,
    content: &[u8],
    log: &mut [u8],
    text: &mut [u8],
) -> Played
    requires { 64 ≤ length text.old }
    ensures { ShowsPublish player series tid content.now log.old log.new result
        text.old text.new }
{
    let step = player.sender.publish(series, tid, content, log);
    let len = published_line(text, step.answer);
    Played {
        player: player.with_sender(step.end),
        len,
    }
}

// Publish, with the content that a line says, in the log's part.
pub(crate) fn play_publish(
    player: Player,
    series: u16,
    tid: u32,
    line: &[u8],
    log: &mut [u8],
    bytes: &mut [u8],
    text: &mut [u8],
) -> Played
    requires { (64 ≤ length text.old) × (length line.now ≤ length bytes.old)
        × (player.log ≤ length log.old) }
    ensures { PlaysPublish player series tid (said_bytes (argument_of line.now 2)) log.old
        log.new result text.old text.new }
{
    let n = put_bytes(bytes, 0, argument(line, 2));
    publish(
        player,
        series,
        tid,
        &bytes[..n],
        &mut log[..player.log],
        text,
    )
}

// Login.
fn login(
    player: Player,
    series: u16,
    packet: &[u8],
    content: &[u8],
    out: &mut [u8],
    text: &mut [u8],
) -> Played
    requires { 64 + 2 * length out.old ≤ length text.old }
    ensures { ShowsLogin player series packet.now content.now (length out.old)
        out.new result text.old text.new }
{
    clear(out);
    let step = player.sender.login(series, packet, content, out);
    let len = login_line(text, step.answer, out);
    Played {
        player: player.with_sender(step.end),
        len,
    }
}

// Login, with the packet and the content that a line says, and an output of so many bytes.
pub(crate) fn play_login(
    player: Player,
    series: u16,
    room: usize,
    line: &[u8],
    bytes: &mut [u8],
    out: &mut [u8],
    text: &mut [u8],
) -> Played
    requires { (64 + 2 * room ≤ length text.old) × (room ≤ length out.old)
        × (length line.now ≤ length bytes.old) }
    ensures { PlaysLogin player series (said_bytes (argument_of line.now 2))
        (said_bytes (argument_of line.now 3)) room result text.old text.new }
{
    let two = put_two(bytes, line, 2, 3);
    let n = two.first;
    let m = two.second;
    let all = &bytes[..];
    login(
        player,
        series,
        &all[..n],
        &all[n..n + m],
        &mut out[..room],
        text,
    )
}

// Send.
fn send(player: Player, series: u16, log: &[u8], out: &mut [u8], text: &mut [u8]) -> Played
    requires { 64 + 2 * length out.old ≤ length text.old }
    ensures { ShowsSend player series log.now (length out.old) out.new result
        text.old text.new }
{
    clear(out);
    let step = player.sender.send(series, log, out);
    let len = sent_line(text, step.answer, out);
    Played {
        player: player.with_sender(step.end),
        len,
    }
}

// Send of one packet.
fn send_packet(player: Player, series: u16, log: &[u8], out: &mut [u8], text: &mut [u8]) -> Played
    requires { 64 + 2 * length out.old ≤ length text.old }
    ensures { ShowsSendPacket player series log.now (length out.old) out.new result
        text.old text.new }
{
    clear(out);
    let step = player.sender.send_packet(series, log, out);
    let len = sent_packet_line(text, step.answer, out);
    Played {
        player: player.with_sender(step.end),
        len,
    }
}

// Send, of a whole message or of one packet, from the log's part, with an output of so many bytes.
pub(crate) fn play_send(
    player: Player,
    series: u16,
    room: usize,
    single: bool,
    log: &[u8],
    out: &mut [u8],
    text: &mut [u8],
) -> Played
    requires { (64 + 2 * room ≤ length text.old) × (room ≤ length out.old)
        × (player.log ≤ length log.now) }
    ensures { PlaysSend player series log.now room single result text.old
        text.new }
{
    if single {
        return send_packet(player, series, &log[..player.log], &mut out[..room], text);
    }
    send(player, series, &log[..player.log], &mut out[..room], text)
}
