// Both ends and the named places as lines, for people.
ghost use Rattle.std.specs.Prelude.{◌≡◌, ◌+◌, ◌≤◌, length};
ghost use Rattle.flow.specs.Checkpoints.{used_names};
ghost use Rattle.listing.specs.Text.{WroteText, decimal_of};
ghost use Rattle.play.specs.State.{date_text, shown_places, serving_line, next_text, place_text, served_line, served_lines};
ghost use Rattle.play.specs.State.{share_text, served_text};
ghost use Rattle.play.specs.State.{receiving_line, login_text, held_text, chain_text, kept_text, live_text, kept_line};
ghost use Rattle.play.specs.State.{kept_lines, name_text, named_line, saved_series, saved_lines, checkpoint_lines};
ghost use Rattle.play.specs.State.{all_checkpoints, places_lines, state_lines};

use crate::text::put_numbered;
use flow::checkpoint::{Checkpoint, Checkpoints};
use flow::receiver::{Kept, KeptSeries, LiveSeries, Receiver};
use flow::sender::{DaySeries, Place, Sender};
use ftd::bytes::{size16, size32};
use listing::{put_byte, put_decimal, put_word};

// A number of any width.
fn put_number(out: &mut [u8], at: usize, x: usize) -> usize
    requires { at + 20 ≤ length out.old }
    ensures { WroteText out.old at (decimal_of x) out.new result × (result ≤ at + 20) }
{
    put_decimal(out, at, x)
}

// A trade date, or `none`.
fn put_date(out: &mut [u8], at: usize, date: Option<u32>) -> usize
    requires { at + 20 ≤ length out.old }
    ensures { WroteText out.old at (date_text date) out.new result × (result ≤ at + 20) }
{
    match date {
        None => put_word(out, at, b"none"),
        Some(d) => put_number(out, at, size32(d)),
    }
}

// How many of 8 places are in use.
fn shown_places(count: usize) -> usize
    ensures { (result ≡ shown_places count) × (result ≤ 8) }
{
    count.min(8)
}

// The serving end: its trade date, the bytes of the log in use.
fn put_serving(out: &mut [u8], at: usize, sender: Sender) -> usize
    requires { at + 64 ≤ length out.old }
    ensures { WroteText out.old at (serving_line sender) out.new result × (result ≤ at + 64) }
{
    let n = put_word(out, at, b"serving");
    let n = put_byte(out, n, 32);
    let n = put_date(out, n, sender.day.date);
    let n = put_byte(out, n, 32);
    let n = put_number(out, n, sender.day.used);
    put_byte(out, n, 10)
}

// The number sent next, or `out` where nobody is logged in.
fn put_next(out: &mut [u8], at: usize, place: Place) -> usize
    requires { at + 20 ≤ length out.old }
    ensures { WroteText out.old at (next_text place) out.new result × (result ≤ at + 20) }
{
    if place.login {
        return put_number(out, at, place.next as usize);
    }
    put_word(out, at, b"out")
}

// The number sent next, and how many packets of that message were written one by one.
fn put_place(out: &mut [u8], at: usize, place: Place) -> usize
    requires { at + 53 ≤ length out.old }
    ensures { WroteText out.old at (place_text place) out.new result × (result ≤ at + 53) }
{
    let n = put_word(out, at, b" next ");
    let n = put_next(out, n, place);
    let n = put_word(out, n, b" piece ");
    put_number(out, n, place.piece)
}

// The bytes of the log that a series uses, and its reserve.
fn put_share(out: &mut [u8], at: usize, one: DaySeries) -> usize
    requires { at + 55 ≤ length out.old }
    ensures { WroteText out.old at (share_text one) out.new result × (result ≤ at + 55) }
{
    let n = put_word(out, at, b" used ");
    let n = put_number(out, n, one.used);
    let n = put_word(out, n, b" reserve ");
    put_number(out, n, one.reserve)
}

// A series, and how many messages were published in it.
fn put_served_text(out: &mut [u8], at: usize, one: DaySeries) -> usize
    requires { at + 81 ≤ length out.old }
    ensures { WroteText out.old at (served_text one) out.new result × (result ≤ at + 81) }
{
    let n = put_numbered(out, at, b"series", size16(one.series));
    let n = put_byte(out, n, 32);
    put_numbered(out, n, b"published", size32(one.published))
}

// Stays: this, `put_kept` and `put_saved` share the byte at the end alone; their texts are three (`served_line`,
// `kept_line`, `saved_series`).
// A series of the serving end.
fn put_served(out: &mut [u8], at: usize, one: DaySeries, place: Place) -> usize
    requires { at + 190 ≤ length out.old }
    ensures { WroteText out.old at (served_line one place) out.new result × (result ≤ at + 190) }
{
    let n = put_served_text(out, at, one);
    let n = put_share(out, n, one);
    let n = put_place(out, n, place);
    put_byte(out, n, 10)
}

// The series of the serving end.
fn put_all_served(out: &mut [u8], at: usize, sender: Sender) -> usize
    requires { at + 1520 ≤ length out.old }
    ensures { WroteText out.old at (served_lines sender) out.new result × (result ≤ at + 1520) }
{
    let mut to = at;
    for i in 0..shown_places(sender.day.count) {
        to = put_served(out, to, sender.day.series[i], sender.seat.places[i]);
    }
    to
}

// ` in` or ` out`.
fn put_login(out: &mut [u8], at: usize, login: bool) -> usize
    requires { at + 4 ≤ length out.old }
    ensures { WroteText out.old at (login_text login) out.new result × (result ≤ at + 4) }
{
    if login {
        return put_word(out, at, b" in");
    }
    put_word(out, at, b" out")
}

// The content bytes held of an open chain, and how many pieces they are.
fn put_held(out: &mut [u8], at: usize, held: usize, pieces: usize) -> usize
    requires { at + 48 ≤ length out.old }
    ensures { WroteText out.old at (held_text held pieces) out.new result × (result ≤ at + 48) }
{
    let n = put_word(out, at, b" chain ");
    let n = put_number(out, n, held);
    let n = put_byte(out, n, 32);
    put_number(out, n, pieces)
}

// An open chain, or `none`.
fn put_chain(out: &mut [u8], at: usize, chain: bool, held: usize, pieces: usize) -> usize
    requires { at + 48 ≤ length out.old }
    ensures { WroteText out.old at (chain_text chain held pieces) out.new result × (result ≤ at + 48) }
{
    if chain {
        return put_held(out, at, held, pieces);
    }
    put_word(out, at, b" chain none")
}

// What is kept of a series.
fn put_kept_text(out: &mut [u8], at: usize, one: KeptSeries) -> usize
    requires { at + 128 ≤ length out.old }
    ensures { WroteText out.old at (kept_text one) out.new result × (result ≤ at + 128) }
{
    let n = put_numbered(out, at, b"series", size16(one.series));
    let n = put_byte(out, n, 32);
    let n = put_date(out, n, one.date);
    let n = put_byte(out, n, 32);
    put_numbered(out, n, b"last", size32(one.last))
}

// What a series has on this connection.
fn put_live_text(out: &mut [u8], at: usize, line: LiveSeries) -> usize
    requires { at + 64 ≤ length out.old }
    ensures { WroteText out.old at (live_text line) out.new result × (result ≤ at + 64) }
{
    let n = put_login(out, at, line.login);
    let n = put_chain(out, n, line.chain, line.held, size32(line.pieces));
    put_byte(out, n, 10)
}

// A series of the receiving end.
fn put_kept(out: &mut [u8], at: usize, one: KeptSeries, line: LiveSeries) -> usize
    requires { at + 192 ≤ length out.old }
    ensures { WroteText out.old at (kept_line one line) out.new result × (result ≤ at + 192) }
{
    let n = put_kept_text(out, at, one);
    put_live_text(out, n, line)
}

// The series of the receiving end.
fn put_all_kept(out: &mut [u8], at: usize, receiver: Receiver) -> usize
    requires { at + 1536 ≤ length out.old }
    ensures { WroteText out.old at (kept_lines receiver) out.new result × (result ≤ at + 1536) }
{
    let mut to = at;
    for i in 0..shown_places(receiver.kept.count) {
        to = put_kept(out, to, receiver.kept.series[i], receiver.live.series[i]);
    }
    to
}

// How many series are open at the receiving end.
fn put_receiving(out: &mut [u8], at: usize, receiver: Receiver) -> usize
    requires { at + 64 ≤ length out.old }
    ensures { WroteText out.old at (receiving_line receiver) out.new result × (result ≤ at + 64) }
{
    let n = put_numbered(out, at, b"receiving", receiver.kept.count);
    put_byte(out, n, 10)
}

// The letters of a name.
fn put_name(out: &mut [u8], at: usize, name: u64) -> usize
    requires { at + 8 ≤ length out.old }
    ensures { WroteText out.old at (name_text name) out.new result × (result ≤ at + 8) }
{
    let mut to = at;
    let mut rest = name;
    for _ in 0..8usize {
        let x = (rest % 256) as u8;
        if x == 0 {
            return to;
        }
        to = put_byte(out, to, x);
        rest /= 256;
    }
    to
}

// A name.
fn put_named(out: &mut [u8], at: usize, name: u64) -> usize
    requires { at + 16 ≤ length out.old }
    ensures { WroteText out.old at (named_line name) out.new result × (result ≤ at + 16) }
{
    let n = put_word(out, at, b"place ");
    let n = put_name(out, n, name);
    put_byte(out, n, 10)
}

// A series as it was kept.
fn put_saved(out: &mut [u8], at: usize, one: KeptSeries) -> usize
    requires { at + 129 ≤ length out.old }
    ensures { WroteText out.old at (saved_series one) out.new result × (result ≤ at + 129) }
{
    let n = put_kept_text(out, at, one);
    put_byte(out, n, 10)
}

// The series as they were kept.
fn put_all_saved(out: &mut [u8], at: usize, kept: Kept) -> usize
    requires { at + 1032 ≤ length out.old }
    ensures { WroteText out.old at (saved_lines kept) out.new result × (result ≤ at + 1032) }
{
    let mut to = at;
    for one in &kept.series[..shown_places(kept.count)] {
        to = put_saved(out, to, *one);
    }
    to
}

// A name, and what was kept under it.
fn put_checkpoint(out: &mut [u8], at: usize, one: Checkpoint) -> usize
    requires { at + 1048 ≤ length out.old }
    ensures { WroteText out.old at (checkpoint_lines one) out.new result × (result ≤ at + 1048) }
{
    let n = put_named(out, at, one.name);
    put_all_saved(out, n, one.kept)
}

// How many names are in use.
fn names_used(checkpoints: Checkpoints) -> usize
    ensures { (result ≡ length (used_names checkpoints)) × (result ≤ 4) }
{
    checkpoints.count.min(4)
}

// The names in use, and what was kept under each.
fn put_checkpoints(out: &mut [u8], at: usize, checkpoints: Checkpoints) -> usize
    requires { at + 4192 ≤ length out.old }
    ensures { WroteText out.old at (all_checkpoints checkpoints) out.new result
        × (result ≤ at + 4192) }
{
    let mut to = at;
    for one in &checkpoints.places[..names_used(checkpoints)] {
        to = put_checkpoint(out, to, *one);
    }
    to
}

// The named places.
fn put_places(out: &mut [u8], at: usize, checkpoints: Checkpoints) -> usize
    requires { at + 4256 ≤ length out.old }
    ensures { WroteText out.old at (places_lines checkpoints) out.new result
        × (result ≤ at + 4256) }
{
    let n = put_numbered(out, at, b"places", names_used(checkpoints));
    let n = put_byte(out, n, 10);
    put_checkpoints(out, n, checkpoints)
}

// Both ends and the named places.
pub(crate) fn state_lines(
    out: &mut [u8],
    sender: Sender,
    receiver: Receiver,
    checkpoints: Checkpoints,
) -> usize
    requires { 8192 ≤ length out.old }
    ensures { WroteText out.old 0 (state_lines sender receiver checkpoints) out.new result
        × (result ≤ length out.new) }
{
    let n = put_serving(out, 0, sender);
    let n = put_all_served(out, n, sender);
    let n = put_receiving(out, n, receiver);
    let n = put_all_kept(out, n, receiver);
    put_places(out, n, checkpoints)
}
