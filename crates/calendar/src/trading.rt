// The trading calendar: set, asked for a time's trade date; the date of a mark.
ghost use Rattle.std.specs.Prelude.{◌++◌, ◌≡◌, ◌≤◌, ◌<◌, length, drop};
ghost use Rattle.calendar.specs.Calendar.{fresh_calendar, set_of, china_day, china_second, ask_of, mark_date};
ghost use Rattle.calendar.specs.Calendar.Laws.{CalendarLaws};
ghost use Rattle.calendar.specs.Calendar.Times.{InsideLaws};
ghost use Rattle.calendar.specs.Calendar.Taken.{SetLaws};
ghost use Rattle.calendar.specs.Calendar.Examples.{CalendarExamples};
ghost use Rattle.calendar.specs.Refusals.{RefusalsLeave};

use crate::holidays::{date_number, next_trading, trades, wrong_holidays};
use crate::sessions::{in_session, wrong_sessions};
use ftd::refusal::Refusal;

// Sessions in 8 places of three numbers, holidays in 32; an unused place is 0.
// Stays: arrays of numbers, no Vec: no heap (01), and the C interface hands the calendar over by value.
#[derive(Clone, Copy)]
pub struct Calendar {
    pub sessions: [u32; 24],
    pub holidays: [u32; 32],
}

// What Set leaves: the calendar, and its answer.
#[derive(Clone, Copy)]
pub struct SetStep {
    pub calendar: Calendar,
    pub answer: Result<(), Refusal>,
}

// The day in China, and the second of that day.
fn china_day(seconds: u32) -> u32
    ensures { (result ≡ china_day seconds) × (result ≤ 49710) }
{
    ((seconds as u64 + 28800) / 86400) as u32
}

fn china_second(seconds: u32) -> u32
    ensures { result ≡ china_second seconds }
{
    ((seconds as u64 + 28800) % 86400) as u32
}

impl Calendar {
    // A calendar holds at most so many sessions and holidays.
    pub const MOST_SESSIONS: usize = 8;

    pub const MOST_HOLIDAYS: usize = 32;

    // Neither session nor holiday.
    pub fn fresh() -> Self
        ensures { result ≡ fresh_calendar }
    {
        Calendar {
            sessions: [0; 24],
            holidays: [0; 32],
        }
    }

    // Sets sessions, three numbers each, and holidays, YYYYMMDD. Refused, the calendar stays as it was.
    pub fn set(self, sessions: &[u32], holidays: &[u32]) -> SetStep
        ensures { result ≡ set_of self sessions.now holidays.now }
    {
        if wrong_sessions(sessions) {
            return SetStep {
                calendar: self,
                answer: Err(Refusal::Sessions),
            };
        }
        if wrong_holidays(holidays) {
            return SetStep {
                calendar: self,
                answer: Err(Refusal::Holiday),
            };
        }
        let mut places = [0u32; 24];
        places[..sessions.len()].copy_from_slice(sessions);
        let mut dates = [0u32; 32];
        dates[..holidays.len()].copy_from_slice(holidays);
        SetStep {
            calendar: Calendar {
                sessions: places,
                holidays: dates,
            },
            answer: Ok(()),
        }
    }

    // Whether a time, in seconds since 1970 UTC, is inside a session, and its trade date.
    pub fn ask(self, seconds: u32) -> Option<u32>
        ensures { result ≡ ask_of self seconds }
    {
        let day = china_day(seconds);
        let second = china_second(seconds);
        if !trades(&self.holidays, day) || !in_session(&self.sessions, false, second) {
            return None;
        }
        let date = if in_session(&self.sessions, true, second) {
            date_number(next_trading(&self.holidays, day))
        } else {
            date_number(day)
        };
        Some(date)
    }
}

// The China date of a mark, YYYYMMDD.
pub fn mark_date(mark: u32) -> u32
    ensures { result ≡ mark_date mark }
{
    date_number(china_day(mark))
}

// What holds of the calendar, as a promise.
pub fn keeps_calendar_laws()
    ensures { CalendarLaws }
{}

// Which times are inside, and of which date, as a promise.
pub fn keeps_inside()
    ensures { InsideLaws }
{}

// What Set takes and refuses, as a promise.
pub fn keeps_set_laws()
    ensures { SetLaws }
{}

// A refused Set leaves the calendar, as a promise.
pub fn keeps_refusals()
    ensures { RefusalsLeave }
{}

// The worked examples, as a promise.
pub fn keeps_calendar_examples()
    ensures { CalendarExamples }
{}
