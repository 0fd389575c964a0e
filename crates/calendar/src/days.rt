// Days and dates, by arithmetic.
ghost use Rattle.std.specs.Prelude.{true, ◌≡◌, ◌+◌, ◌≤◌, ◌<◌};
ghost use Rattle.ftd.specs.Gregorian.{real_date};
ghost use Rattle.calendar.specs.Days.{date, date_of, day_of, day_for};
ghost use Rattle.calendar.specs.Days.Laws.{DayLaws};
ghost use Rattle.calendar.specs.Days.Helpers.{before_year, before_month, lacking_at};

use ftd::gregorian::{is_leap, is_real};

// A year, a month from 1, a day from 1.
#[derive(Clone, Copy)]
pub struct CivilDate {
    pub year: u32,
    pub month: u32,
    pub day: u32,
}

// The days before a year, from the year 1 on.
fn before_year(year: u64) -> u64
    requires { (1 ≤ year) × (year < 4294967296) }
    ensures { result ≡ before_year year }
{
    let y = year - 1;
    y * 365 + y / 4 - y / 100 + y / 400
}

// The year of a day that is counted from the year 1 on: the mean year hits it or the year before.
fn year_at(n: u64) -> u64
    requires { n < 5000000000 }
    ensures { (1 ≤ result) × (result < 20000000) × (before_year result ≤ n) × (n < before_year (result + 1)) }
{
    let year = n * 400 / 146097 + 1;
    if before_year(year + 1) <= n {
        year + 1
    } else {
        year
    }
}

// The days before a month of its year: as if February had 30, less what it lacks.
#[tactic(auto, unfolding(crate::specs::Days::Helpers::before_month))]
fn before_month(leap: bool, month: u64) -> u64
    requires { (1 ≤ month) × (month ≤ 13) }
    ensures { result ≡ before_month leap month }
{
    let days = (367 * month - 362) / 12;
    if month <= 2 {
        days
    } else if leap {
        days - 1
    } else {
        days - 2
    }
}

// What February lacks of 30 days, for a day of the year behind it.
#[tactic(auto, unfolding(crate::specs::Days::Helpers::lacking_at))]
fn lacking(leap: bool, n: u64) -> u64
    ensures { (result ≡ lacking_at leap n) × (result ≤ 2) }
{
    if n < 59 + u64::from(leap) {
        0
    } else {
        2 - u64::from(leap)
    }
}

// The month of a day of the year, from 0.
fn month_at(leap: bool, n: u64) -> u64
    requires { (n < 366) × (n < before_month leap 13) }
    ensures { (1 ≤ result) × (result ≤ 12) × (before_month leap result ≤ n) × (n < before_month leap (result + 1)) }
{
    (12 * (n + lacking(leap, n)) + 373) / 367
}

// The date of a day.
pub fn date_of(day: u32) -> CivilDate
    ensures { result ≡ date_of day }
{
    let n = day as u64 + 719162;
    let year = year_at(n);
    let leap = is_leap(year as u32);
    let rest = n - before_year(year);
    let month = month_at(leap, rest);
    CivilDate {
        year: year as u32,
        month: month as u32,
        day: (rest - before_month(leap, month) + 1) as u32,
    }
}

// The day of a real date from 1970 on.
fn counted_day(year: u32, month: u32, day: u32) -> u32
    requires { (1970 ≤ year) × (real_date year month day ≡ true) }
    ensures { result ≡ day_of (date year month day) }
{
    let years = before_year(year as u64) - 719162;
    let months = before_month(is_leap(year), month as u64);
    (years + (months + (day - 1) as u64)) as u32
}

// The day of a date.
pub fn day_of(date: CivilDate) -> Option<u32>
    ensures { result ≡ day_for date }
{
    let CivilDate { year, month, day } = date;
    if year < 1970 || !is_real(year, month, day) {
        return None;
    }
    Some(counted_day(year, month, day))
}

// What holds of days and dates, as a promise.
pub fn keeps_day_laws()
    ensures { DayLaws }
{}
