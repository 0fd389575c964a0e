// The trading calendar (02, No. 7) for C and Rust: its state as numbers by value, and its calls. Any numbers are a
// calendar.
ghost use Rattle.std.specs.Prelude.{◌≡◌};
ghost use Rattle.calendar.specs.Calendar.{fresh_calendar, set_of, ask_of, mark_date};
ghost use Rattle.exports.specs.Trading.{calendar_for, calendar_numbers};
ghost use Rattle.exports.specs.Trading.{step_numbers, trade_time_numbers};
ghost use Rattle.exports.specs.Trading.Laws.{CalendarNumberLaws};

use crate::written::refusal_of;
use calendar::trading::{Calendar, mark_date};

// Sessions in 8 places of three numbers, holidays in 32; an unused place is 0.
#[repr(C)]
#[derive(Clone, Copy)]
pub struct FtdCalendar {
    pub sessions: [u32; 24],
    pub holidays: [u32; 32],
}

// What Set leaves: the calendar, and its answer.
#[repr(C)]
#[derive(Clone, Copy)]
pub struct FtdCalendarStep {
    pub calendar: FtdCalendar,
    pub refusal: u8,
}

// What a time is: its trade date, and whether it is inside a session.
// Stays: `inside` as a number; the C interface (include/ftd.h).
#[repr(C)]
#[derive(Clone, Copy)]
pub struct FtdTradeTime {
    pub date: u32,
    pub inside: u8,
}

// The calendar that the numbers say.
impl From<FtdCalendar> for Calendar {
    ghost from_gives = { λ c r. r ≡ calendar_for c };

    fn from(c: FtdCalendar) -> Calendar {
        let FtdCalendar { sessions, holidays } = c;
        Calendar { sessions, holidays }
    }
}

// The calendar as numbers.
impl From<Calendar> for FtdCalendar {
    ghost from_gives = { λ c r. r ≡ calendar_numbers c };

    fn from(c: Calendar) -> FtdCalendar {
        let Calendar { sessions, holidays } = c;
        FtdCalendar { sessions, holidays }
    }
}

// A calendar with neither session nor holiday.
#[unsafe(no_mangle)]
pub extern "C" fn ftd_calendar_fresh() -> FtdCalendar
    ensures { result ≡ calendar_numbers fresh_calendar }
{
    Calendar::fresh().into()
}

// Set: sessions, three numbers each, and holidays, YYYYMMDD.
#[unsafe(no_mangle)]
pub extern "C" fn ftd_set_calendar(
    calendar: FtdCalendar,
    sessions: &[u32],
    holidays: &[u32],
) -> FtdCalendarStep
    ensures { result ≡ step_numbers (set_of (calendar_for calendar) sessions.now holidays.now) }
{
    let step = Calendar::from(calendar).set(sessions, holidays);
    FtdCalendarStep {
        calendar: step.calendar.into(),
        refusal: refusal_of(step.answer),
    }
}

// Ask: whether a time, in seconds since 1970 UTC, is inside a session, and its trade date.
#[unsafe(no_mangle)]
pub extern "C" fn ftd_ask_calendar(calendar: FtdCalendar, seconds: u32) -> FtdTradeTime
    ensures { result ≡ trade_time_numbers (ask_of (calendar_for calendar) seconds) }
{
    match Calendar::from(calendar).ask(seconds) {
        None => FtdTradeTime { date: 0, inside: 0 },
        Some(d) => FtdTradeTime { date: d, inside: 1 },
    }
}

// The China date of a mark, YYYYMMDD.
#[unsafe(no_mangle)]
pub extern "C" fn ftd_mark_date(mark: u32) -> u32
    ensures { result ≡ mark_date mark }
{
    mark_date(mark)
}

// The calendar as numbers and back, as a promise.
pub fn keeps_calendar_numbers()
    ensures { CalendarNumberLaws }
{}
