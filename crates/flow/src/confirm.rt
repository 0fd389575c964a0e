// Answer at the receiving end (01, "The receiving end"): its tests in the refusal table's order, and the login.
ghost use Rattle.std.specs.Prelude.{◌≡◌, ◌<◌};
ghost use Rattle.flow.specs.Ends.{left};
ghost use Rattle.flow.specs.Receiving.{confirm_with};
ghost use Rattle.flow.specs.RequestHelpers.{answer_content, wrong_date, last_on, confirm_at};

use crate::days::{before, differs};
use crate::header::{no_login, not_zero};
use crate::receiver::{ConfirmStep, KeptSeries, LiveSeries, Receiver};
use ftd::composition::{Direction, is_composed};
use ftd::items::{wrong_item, wrong_width};
use ftd::packet::Header;
use ftd::refusal::Refusal;

// Refusals 8 to 10, of the packet's header and content.
#[tactic(auto, unfolding(crate::specs::RequestHelpers::answer_content))]
fn check_answer(h: Header, content: &[u8]) -> Result<(), Refusal>
    ensures { result ≡ answer_content h content.now }
{
    if wrong_width(content) {
        return Err(Refusal::FieldLength);
    }
    if wrong_item(content) {
        return Err(Refusal::Item);
    }
    if no_login(h) || !is_composed(0x0016, Direction::Down, content) {
        return Err(Refusal::Composition);
    }
    Ok(())
}

// Refusal 15: no trade date, or one below the kept one.
fn wrong_date(own: Option<u32>, date: Option<u32>) -> bool
    ensures { result ≡ wrong_date own date }
{
    date.is_none() || before(date, own)
}

// The last number on a trade date: 0 where it starts a new day.
fn last_on(own: Option<u32>, last: u32, date: Option<u32>) -> u32
    ensures { result ≡ last_on own last date }
{
    if differs(date, own) { 0 } else { last }
}

// Refusals 15 and 16; else the series at a place is logged in, with no chain, on the packet's trade date.
fn confirm_at(e: Receiver, i: usize, series: u16, h: Header, date: Option<u32>) -> ConfirmStep
    requires { i < 8 }
    ensures { left result.end result.answer ≡ confirm_at e i series h date }
{
    let own = e.kept.series[i];
    if wrong_date(own.date, date) {
        return ConfirmStep {
            end: e,
            answer: Err(Refusal::OtherDay),
        };
    }
    if not_zero(h) {
        return ConfirmStep {
            end: e,
            answer: Err(Refusal::OutOfLine),
        };
    }
    let last = last_on(own.date, own.last, date);
    let now = KeptSeries { series, date, last };
    ConfirmStep {
        end: e.with_at(i, now, LiveSeries::LOGGED_IN),
        answer: Ok(last),
    }
}

// A message packet, as header, trade date and content: refusals 8 to 16, or the login.
pub(crate) fn confirm_with(
    e: Receiver,
    series: u16,
    h: Header,
    date: Option<u32>,
    content: &[u8],
) -> ConfirmStep
    ensures { left result.end result.answer ≡ confirm_with e series h date content.now }
{
    if let Err(r) = check_answer(h, content) {
        return ConfirmStep {
            end: e,
            answer: Err(r),
        };
    }
    let Some(i) = e.find(series) else {
        return ConfirmStep {
            end: e,
            answer: Err(Refusal::UnknownSeries),
        };
    };
    confirm_at(e, i, series, h, date)
}
