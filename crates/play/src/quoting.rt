// The book's calls, made on a player: the book is the one that the call leaves, and the answer is printed.
ghost use Rattle.std.specs.Prelude.{◌≡◌, ◌≤◌, length};
ghost use Rattle.play.specs.Words.{argument as argument_of, said_bytes};
ghost use Rattle.play.specs.Played.{ShowsStart, ShowsTake, ShowsLevel, ShowsMean};

use crate::player::{Played, Player};
use crate::prices::{level_line, mean_line};
use crate::text::outcome_line;
use crate::words::{argument, put_bytes};

// Start.
fn start_book(player: Player, code: &[u8], text: &mut [u8]) -> Played
    requires { 64 ≤ length text.old }
    ensures { ShowsStart player code.now result text.old text.new }
{
    let step = player.book.start(code);
    let len = outcome_line(text, b"started", step.answer);
    Played {
        player: player.with_book(step.book),
        len,
    }
}

// Start, with the code that a line says.
pub(crate) fn play_book(player: Player, line: &[u8], bytes: &mut [u8], text: &mut [u8]) -> Played
    requires { (64 ≤ length text.old) × (length line.now ≤ length bytes.old) }
    ensures { ShowsStart player (said_bytes (argument_of line.now 0)) result text.old
        text.new }
{
    let n = put_bytes(bytes, 0, argument(line, 0));
    start_book(player, &bytes[..n], text)
}

// Take.
fn take_message(player: Player, tid: u32, content: &[u8], text: &mut [u8]) -> Played
    requires { 64 ≤ length text.old }
    ensures { ShowsTake player tid content.now result text.old text.new }
{
    let step = player.book.take(tid, content);
    let len = outcome_line(text, b"taken", step.answer);
    Played {
        player: player.with_book(step.book),
        len,
    }
}

// Take, with the content that a line says.
pub(crate) fn play_take(
    player: Player,
    tid: u32,
    line: &[u8],
    bytes: &mut [u8],
    text: &mut [u8],
) -> Played
    requires { (64 ≤ length text.old) × (length line.now ≤ length bytes.old) }
    ensures { ShowsTake player tid (said_bytes (argument_of line.now 1)) result text.old
        text.new }
{
    let n = put_bytes(bytes, 0, argument(line, 1));
    take_message(player, tid, &bytes[..n], text)
}

// A level. The book stays.
pub(crate) fn show_level(player: Player, buying: bool, place: usize, text: &mut [u8]) -> Played
    requires { 64 ≤ length text.old }
    ensures { ShowsLevel player buying place result text.old text.new }
{
    let answer = player.book.level(buying, place);
    Played {
        player,
        len: level_line(text, answer),
    }
}

// The mean. The book stays.
pub(crate) fn show_mean(player: Player, text: &mut [u8]) -> Played
    requires { 64 ≤ length text.old }
    ensures { ShowsMean player result text.old text.new }
{
    let answer = player.book.mean();
    Played {
        player,
        len: mean_line(text, answer),
    }
}
