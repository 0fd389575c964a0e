// Login at the serving end (01, "The serving end"): its tests in the refusal table's order, and its answer.
ghost use Rattle.std.specs.Prelude.{cond, true, ◌≡◌, ◌<◌, ◌≤◌, length};
ghost use Rattle.ftd.specs.Login.{login_bytes};
ghost use Rattle.ftd.specs.Fields.{shaped, packet_content};
ghost use Rattle.flow.specs.Ends.{wrote, before};
ghost use Rattle.flow.specs.Serving.{start_elsewhere, wanted, login_with};
ghost use Rattle.flow.specs.LoginHelpers.{wrong_login, login_contents, login_line, start_outside, login_answer};

use crate::days::before;
use crate::header::{no_login, not_zero};
use crate::sender::{LoginStep, Sender};
use ftd::composition::{Direction, is_composed};
use ftd::fields::{count_field, is_shaped};
use ftd::items::{wrong_item, wrong_width};
use ftd::login::write_login;
use ftd::packet::Header;
use ftd::refusal::Refusal;
use ftd::resume::{Resume, find_resume};

// Refusal 10: of the packet's header and content, and of the answer's content.
#[tactic(auto, unfolding(crate::specs::LoginHelpers::wrong_login))]
fn wrong_login(h: Header, asked: &[u8], content: &[u8]) -> bool
    ensures { result ≡ wrong_login h asked.now content.now }
{
    no_login(h)
        || !is_composed(0x0016, Direction::Up, asked)
        || 1 < count_field(asked, 0x0004)
        || !is_composed(0x0016, Direction::Down, content)
}

// Refusals 7 to 10, each of the packet and of the answer's content.
#[tactic(auto, unfolding(crate::specs::LoginHelpers::login_contents))]
fn check_contents(h: Header, asked: &[u8], content: &[u8]) -> Result<(), Refusal>
    ensures { result ≡ login_contents h asked.now content.now }
{
    if !is_shaped(content, Sender::ANSWER_CONTENT) {
        return Err(Refusal::FieldRun);
    }
    if wrong_width(asked) || wrong_width(content) {
        return Err(Refusal::FieldLength);
    }
    if wrong_item(asked) || wrong_item(content) {
        return Err(Refusal::Item);
    }
    if wrong_login(h, asked, content) {
        return Err(Refusal::Composition);
    }
    Ok(())
}

// Refusal 13: the start field is of another series.
fn starts_elsewhere(series: u16, start: Resume) -> bool
    ensures { result ≡ start_elsewhere series start }
{
    matches!(start, Resume::Next { series: other, .. } if other != series)
}

// Refusals 13, of the start field, 15 and 16.
fn check_line(
    day: Option<u32>,
    series: u16,
    h: Header,
    date: Option<u32>,
    start: Resume,
) -> Result<(), Refusal>
    ensures { result ≡ login_line day series h date start }
{
    if starts_elsewhere(series, start) {
        return Err(Refusal::UnknownSeries);
    }
    if before(day, date) {
        return Err(Refusal::OtherDay);
    }
    if not_zero(h) {
        return Err(Refusal::OutOfLine);
    }
    Ok(())
}

// The next number wanted: 1 where no start field is there.
fn number_wanted(start: Resume) -> u32
    ensures { result ≡ wanted start }
{
    match start {
        Resume::Next { number, .. } => number,
        Resume::Absent | Resume::Misshapen | Resume::Several => 1,
    }
}

// The number to start with: 1 with a trade date below the end's own.
fn start_number(day: Option<u32>, date: Option<u32>, start: Resume) -> u32
    ensures { result ≡ cond (before date day) 1 (wanted start) }
{
    if before(date, day) {
        1
    } else {
        number_wanted(start)
    }
}

// Refusal 19: the number is 0, or above the next one to be published.
fn wrong_start(published: u32, next: u32) -> bool
    ensures { result ≡ start_outside published next }
{
    next == 0 || published < next - 1
}

// The bytes that the answer takes.
fn answer_size(date: Option<u32>, content: &[u8]) -> usize
    requires { length content.now ≤ packet_content }
    ensures { result ≡ length (login_bytes date content.now) }
{
    if date.is_some() {
        26 + content.len()
    } else {
        20 + content.len()
    }
}

// Refusals 18 and 19; else the answer is written, and the series at a place has the number next.
fn answer_login(e: Sender, i: usize, next: u32, content: &[u8], out: &mut [u8]) -> LoginStep
    requires { (i < 8) × (shaped content.now packet_content ≡ true) }
    ensures { wrote result.end result.answer out.new ≡ login_answer e i next content.now
        out.old }
{
    let n = answer_size(e.day.date, content);
    if out.len() < n {
        return LoginStep {
            end: e,
            answer: Err(Refusal::TooSmall),
        };
    }
    if wrong_start(e.day.series[i].published, next) {
        return LoginStep {
            end: e,
            answer: Err(Refusal::WrongStart),
        };
    }
    let _ = write_login(e.day.date, content, None, out); // it has room, and whole fields
    LoginStep {
        end: e.with_place(i, next as u64, 0),
        answer: Ok(n),
    }
}

// A message packet, as header, trade date and content, and the answer's content: refusals 7 to 19, or the answer.
pub(crate) fn log_in(
    e: Sender,
    series: u16,
    h: Header,
    date: Option<u32>,
    asked: &[u8],
    content: &[u8],
    out: &mut [u8],
) -> LoginStep
    ensures { wrote result.end result.answer out.new ≡ login_with e series h date asked.now
        content.now out.old }
{
    if let Err(r) = check_contents(h, asked, content) {
        return LoginStep {
            end: e,
            answer: Err(r),
        };
    }
    let Some(i) = e.find(series) else {
        return LoginStep {
            end: e,
            answer: Err(Refusal::UnknownSeries),
        };
    };
    let own = e.day.date;
    let start = find_resume(asked);
    if let Err(r) = check_line(own, series, h, date, start) {
        return LoginStep {
            end: e,
            answer: Err(r),
        };
    }
    answer_login(e, i, start_number(own, date, start), content, out)
}
