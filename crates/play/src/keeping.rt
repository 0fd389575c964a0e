// The calls of the named places (02, No. 13), made on a player: keeping changes the named places, a return the
// receiving end, and the answer is printed.
ghost use Rattle.std.specs.Prelude.{◌≡◌, ◌≤◌, length};
ghost use Rattle.play.specs.Words.{argument as argument_of, name_in};
ghost use Rattle.play.specs.Played.{ShowsKeep, ShowsReturn};

use crate::player::{Played, Player};
use crate::text::outcome_line;
use crate::words::{argument, name_in};
use ftd::refusal::Refusal;

// Keep. The receiving end stays.
fn keep(player: Player, name: &[u8], text: &mut [u8]) -> Played
    requires { 64 ≤ length text.old }
    ensures { ShowsKeep player name.now result text.old text.new }
{
    let step = player.checkpoints.keep(player.receiver, name);
    let len = outcome_line(text, b"kept", step.answer);
    Played {
        player: player.with_checkpoints(step.checkpoints),
        len,
    }
}

// Keep, under the name that a line says.
pub(crate) fn play_keep(player: Player, line: &[u8], text: &mut [u8]) -> Played
    requires { 64 ≤ length text.old }
    ensures { ShowsKeep player (name_in (argument_of line.now 0)) result text.old
        text.new }
{
    keep(player, name_in(argument(line, 0)), text)
}

// Return. The named places stay.
fn restore(player: Player, name: &[u8], text: &mut [u8]) -> Played
    requires { 64 ≤ length text.old }
    ensures { ShowsReturn player name.now result text.old text.new }
{
    let step = player.checkpoints.restore(player.receiver, name);
    let len = outcome_line(text, b"returned", step.answer);
    Played {
        player: player.with_receiver(step.end),
        len,
    }
}

// Return, to the name that a line says.
pub(crate) fn play_return(player: Player, line: &[u8], text: &mut [u8]) -> Played
    requires { 64 ≤ length text.old }
    ensures { ShowsReturn player (name_in (argument_of line.now 0)) result text.old
        text.new }
{
    restore(player, name_in(argument(line, 0)), text)
}
