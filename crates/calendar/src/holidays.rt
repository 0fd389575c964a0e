// Holidays, as numbers YYYYMMDD, and the days that trade.
ghost use Rattle.std.specs.Prelude.{◌≡◌, ◌≤◌, length};
ghost use Rattle.calendar.specs.Calendar.{real_number, wrong_holidays, is_holiday, is_trading, next_trading};
ghost use Rattle.calendar.specs.Days.{date_number};

use crate::days::date_of;
use ftd::gregorian::is_real;

// The number is a real date.
fn real_number(n: u32) -> bool
    ensures { result ≡ real_number n }
{
    is_real(n / 10000, n / 100 % 100, n % 100)
}

// 27.
pub(crate) fn wrong_holidays(s: &[u32]) -> bool
    ensures { result ≡ wrong_holidays s.now }
{
    32 < s.len() || s.iter().any(|&n| !real_number(n))
}

// A date stands among the holidays.
fn is_holiday(s: &[u32; 32], date: u32) -> bool
    ensures { result ≡ is_holiday s.now date }
{
    s.contains(&date)
}

// The date of a day as a number; up to 2106.
pub(crate) fn date_number(day: u32) -> u32
    requires { day ≤ 49755 }
    ensures { result ≡ date_number day }
{
    let date = date_of(day);
    date.year * 10000 + (date.month * 100 + date.day)
}

// A weekday that is no holiday.
pub(crate) fn trades(s: &[u32; 32], day: u32) -> bool
    requires { day ≤ 49755 }
    ensures { result ≡ is_trading s.now day }
{
    (day + 3) % 7 < 5 && !is_holiday(s, date_number(day))
}

// The next trading day. There is one: no other bound is needed.
pub(crate) fn next_trading(s: &[u32; 32], day: u32) -> u32
    requires { day ≤ 49708 }
    ensures { (result ≡ next_trading s.now day) × (result ≤ 49755) }
{
    let mut next = day + 1;
    while !trades(s, next) {
        next += 1;
    }
    next
}
