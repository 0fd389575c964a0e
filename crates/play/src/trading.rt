// The trading calendar's calls, made on a player: the calendar is the one that the call leaves, and the answer is
// printed.
ghost use Rattle.std.specs.Prelude.{◌≡◌, ◌+◌, ◌*◌, ◌≤◌, length};
ghost use Rattle.play.specs.Words.{words_from};
ghost use Rattle.play.specs.Played.{ShowsCalendar, ShowsTime, ShowsDate};

use crate::player::{Played, Player};
use crate::text::{date_line, outcome_line, time_line};
use crate::words::read_words;
use calendar::trading::mark_date;

// Set.
fn set_calendar(player: Player, sessions: &[u32], holidays: &[u32], text: &mut [u8]) -> Played
    requires { 64 ≤ length text.old }
    ensures { ShowsCalendar player sessions.now holidays.now result text.old
        text.new }
{
    let step = player.calendar.set(sessions, holidays);
    let len = outcome_line(text, b"set", step.answer);
    Played {
        player: player.with_calendar(step.calendar),
        len,
    }
}

// Set, with the sessions and the holidays that a line says.
pub(crate) fn play_calendar(
    player: Player,
    sessions: usize,
    holidays: usize,
    line: &[u8],
    text: &mut [u8],
) -> Played
    requires { (64 ≤ length text.old) × (sessions ≤ 16) × (holidays ≤ 64) }
    ensures { ShowsCalendar player (words_from line.now 1 (3 * sessions))
        (words_from line.now (1 + 3 * sessions) holidays) result text.old text.new }
{
    let n = 3 * sessions;
    let mut times = [0u32; 48];
    read_words(line, 1, n, &mut times);
    let mut dates = [0u32; 64];
    read_words(line, 1 + n, holidays, &mut dates);
    set_calendar(player, &times[..n], &dates[..holidays], text)
}

// Whether a time is inside a session. The calendar stays.
pub(crate) fn ask_time(player: Player, seconds: u32, text: &mut [u8]) -> Played
    requires { 64 ≤ length text.old }
    ensures { ShowsTime player seconds result text.old text.new }
{
    let answer = player.calendar.ask(seconds);
    Played {
        player,
        len: time_line(text, answer),
    }
}

// The date of a mark.
pub(crate) fn show_date(player: Player, mark: u32, text: &mut [u8]) -> Played
    requires { 64 ≤ length text.old }
    ensures { ShowsDate player mark result text.old text.new }
{
    Played {
        player,
        len: date_line(text, mark_date(mark)),
    }
}
