// Receive at the receiving end (01, "The receiving end"): its tests in the refusal table's order, and its answer. The
// packet's series is taken out of the end, decided on, and put back once. Nothing is written (02, No. 3).
ghost use Rattle.std.specs.Prelude.{◌≡◌, ◌+◌, ◌<◌, leb};
ghost use Rattle.flow.specs.Ends.{logged_in};
ghost use Rattle.flow.specs.Receiving.{out_of_line, broken_chain, misplaced, one_more};
ghost use Rattle.flow.specs.ReceiveHelpers.{parts_of, no_room, out_of_chain, wrong_piece, one_step, one_dropping};
ghost use Rattle.flow.specs.ReceiveHelpers.{one_completing, one_keeping, one_holds, one_piece, takes_one, decides_with};

use crate::days::{before, differs};
use crate::receiver::{Decision, KeptSeries, LiveSeries, Origin, Received, Receiver};
use ftd::bytes::number16;
use ftd::packet::{Chain, Header, Span};
use ftd::refusal::Refusal;

// What a packet leaves of its series, the answer, and where its content is copied.
#[derive(Clone, Copy)]
pub(crate) struct OneStep {
    pub kept: KeptSeries,
    pub live: LiveSeries,
    pub answer: Received,
    pub target: Option<usize>,
}

// Refusal 16: number 0, above last + 1 or above 1,000,000.
fn out_of_line(last: u32, number: u32) -> bool
    ensures { result ≡ out_of_line last number }
{
    number == 0 || last < number - 1 || Receiver::MOST_MESSAGES < number
}

// Refusal 17: no open chain of the same TID.
fn broken_chain(live: LiveSeries, h: Header) -> bool
    ensures { result ≡ broken_chain live h }
{
    !live.chain || live.tid != h.tid
}

// Refusal 17: a place that is not the count of the pieces held (02, No. 10). Without a place nothing is compared.
fn misplaced(place: Option<u16>, pieces: u32) -> bool
    ensures { result ≡ misplaced place pieces }
{
    place.is_some_and(|j| number16(j) != pieces)
}

// Refusal 17 of C and L: no open chain of the same TID, or the place is not the next.
fn out_of_chain(live: LiveSeries, h: Header, place: Option<u16>) -> bool
    ensures { result ≡ out_of_chain live h place }
{
    broken_chain(live, h) || misplaced(place, live.pieces)
}

// Refusal 17, by the chain letter: S and F are piece 0.
fn wrong_piece(live: LiveSeries, h: Header, place: Option<u16>) -> bool
    ensures { result ≡ wrong_piece live h place h.chain }
{
    match h.chain {
        Chain::Single | Chain::First => misplaced(place, 0),
        Chain::Middle | Chain::Last => out_of_chain(live, h, place),
    }
}

// One piece more is held; the count stops at 65,536 (02, No. 10).
fn one_more(pieces: u32) -> u32
    ensures { result ≡ one_more pieces }
{
    if pieces < Receiver::MOST_PIECES {
        pieces + 1
    } else {
        Receiver::MOST_PIECES
    }
}

// The bytes that all parts of the buffer take, by the count of the open series.
fn all_parts(count: usize) -> usize
    ensures { result ≡ parts_of count }
{
    Receiver::PART * count.min(Receiver::MOST_SERIES)
}

// Refusal 18: the buffer is shorter than all its parts, or the chain passes 32,768.
fn no_room(count: usize, size: usize, held: usize, more: usize) -> bool
    ensures { result ≡ no_room count size held more }
{
    size < all_parts(count) || Receiver::PART < more || Receiver::PART - more < held
}

// A way out with no chain: logged in.
fn leave(kept: KeptSeries, answer: Received, target: Option<usize>) -> OneStep
    ensures { result ≡ one_step kept logged_in answer target }
{
    OneStep {
        kept,
        live: LiveSeries::LOGGED_IN,
        answer,
        target,
    }
}

// A way out that drops the chain: last stays, and nothing is copied.
fn drop_chain(kept: KeptSeries, answer: Received) -> OneStep
    ensures { result ≡ one_dropping kept answer }
{
    leave(kept, answer, None)
}

// A message is handed on: its number is the last one, and no chain is open.
fn complete(
    kept: KeptSeries,
    h: Header,
    origin: Origin,
    content: Span,
    target: Option<usize>,
) -> OneStep
    ensures { result ≡ one_completing kept h origin content target }
{
    let now = KeptSeries {
        last: h.number,
        ..kept
    };
    let answer = Received::Complete {
        last: h.number,
        tid: h.tid,
        origin,
        content,
    };
    leave(now, answer, target)
}

// The next piece is held: its chain is open with so many bytes, and one piece more.
fn keep_chain(
    kept: KeptSeries,
    tid: u32,
    held: usize,
    pieces: u32,
    target: Option<usize>,
) -> OneStep
    ensures { result ≡ one_keeping kept tid held pieces target }
{
    OneStep {
        kept,
        live: LiveSeries {
            login: true,
            chain: true,
            tid,
            held,
            pieces: one_more(pieces),
        },
        answer: Received::Partial(kept.last),
        target,
    }
}

// A piece of so many bytes behind the bytes held of its chain, so many pieces; 18. The last one hands the message on.
fn hold(
    kept: KeptSeries,
    i: usize,
    count: usize,
    h: Header,
    held: usize,
    pieces: u32,
    whole: bool,
    more: usize,
    size: usize,
) -> OneStep
    requires { i < 8 }
    ensures { result ≡ one_holds kept i count h held pieces whole more size }
{
    if no_room(count, size, held, more) {
        return drop_chain(kept, Received::Refused(Refusal::TooSmall));
    }
    let start = Receiver::PART * i;
    let len = held + more;
    let target = Some(start + held);
    if whole {
        let all = Span { start, len };
        return complete(kept, h, Origin::Buffer, all, target);
    }
    keep_chain(kept, h.tid, len, pieces, target)
}

// The next number's packet, by its chain letter, for a buffer of so many bytes; 17 and 18. F starts a chain, replacing
// any.
fn take_piece(
    kept: KeptSeries,
    live: LiveSeries,
    i: usize,
    count: usize,
    h: Header,
    place: Option<u16>,
    at: Span,
    size: usize,
) -> OneStep
    requires { i < 8 }
    ensures { result ≡ one_piece kept live i count h place at size h.chain }
{
    if wrong_piece(live, h, place) {
        return drop_chain(kept, Received::Refused(Refusal::BrokenChain));
    }
    let LiveSeries { held, pieces, .. } = live;
    match h.chain {
        Chain::Single => complete(kept, h, Origin::Packet, at, None),
        Chain::First => hold(kept, i, count, h, 0, 0, false, at.len, size),
        Chain::Middle => hold(kept, i, count, h, held, pieces, false, at.len, size),
        Chain::Last => hold(kept, i, count, h, held, pieces, true, at.len, size),
    }
}

// A message packet of an open series, by what is kept of it, what it has on this connection, its place and the count of
// the open ones: 14, 15, also of a day before some trade date, 16, again, and then its piece.
#[tactic(auto, unfolding(crate::specs::ReceiveHelpers::takes_one))]
fn take_one(
    floor: Option<u32>,
    kept: KeptSeries,
    live: LiveSeries,
    i: usize,
    count: usize,
    h: Header,
    date: Option<u32>,
    place: Option<u16>,
    at: Span,
    size: usize,
) -> OneStep
    requires { i < 8 }
    ensures { result ≡ takes_one floor kept live i count h date place at size }
{
    if live.login {
        if differs(date, kept.date) || before(kept.date, floor) {
            return drop_chain(kept, Received::Refused(Refusal::OtherDay));
        }
        if out_of_line(kept.last, h.number) {
            return drop_chain(kept, Received::Refused(Refusal::OutOfLine));
        }
        if h.number <= kept.last {
            return drop_chain(kept, Received::Duplicate(kept.last));
        }
        return take_piece(kept, live, i, count, h, place, at, size);
    }
    OneStep {
        kept,
        live,
        answer: Received::Refused(Refusal::NotLoggedIn),
        target: None,
    }
}

// A message packet, as header, trade date, place in its message and place of its content, for a buffer of so many
// bytes: 13 to 18, again, or a piece. Its series is taken out of the end and put back once.
pub(crate) fn take_packet(
    e: Receiver,
    floor: Option<u32>,
    h: Header,
    date: Option<u32>,
    place: Option<u16>,
    at: Span,
    size: usize,
) -> Decision
    ensures { result ≡ decides_with floor e h date place at size }
{
    let Some(i) = e.find(h.series) else {
        return Decision {
            end: e,
            answer: Received::Refused(Refusal::UnknownSeries),
            series: h.series,
            content: at,
            target: None,
        };
    };
    let kept = e.kept.series[i];
    let live = e.live.series[i];
    let step = take_one(floor, kept, live, i, e.kept.count, h, date, place, at, size);
    Decision {
        end: e.with_at(i, step.kept, step.live),
        answer: step.answer,
        series: h.series,
        content: at,
        target: step.target,
    }
}

// A piece of so many bytes fits at a place of a buffer of so many.
pub(crate) fn fits_at(at: usize, more: usize, size: usize) -> bool
    ensures { result ≡ leb (at + more) size }
{
    more <= size && at <= size - more
}
