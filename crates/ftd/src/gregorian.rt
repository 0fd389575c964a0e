// Real dates: years and months of the Gregorian calendar.
ghost use Rattle.std.specs.Prelude.{◌≡◌, ◌≤◌};
ghost use Rattle.ftd.specs.Gregorian.{leap_year, month_days, real_date};

use crate::bytes::wide32;

// The months' days in a year without 29 February.
static DAYS: [u8; 12] = [31, 28, 31, 30, 31, 30, 31, 31, 30, 31, 30, 31];

// The year has a 29 February.
#[tactic(auto, unfolding(crate::specs::Gregorian::leap_year))]
pub fn is_leap(year: u32) -> bool
    ensures { result ≡ leap_year year }
{
    year % 4 == 0 && (year % 100 != 0 || year % 400 == 0)
}

// The days of a month.
fn month_days(year: u32, month: u32) -> u8
    requires { (1 ≤ month) × (month ≤ 12) }
    ensures { result ≡ month_days year month }
{
    if month == 2 {
        if is_leap(year) {
            return 29;
        }
        return 28;
    }
    DAYS[(month - 1) as usize]
}

// A real date, from 1601 on.
#[tactic(auto, unfolding(crate::specs::Gregorian::real_date))]
pub fn is_real(year: u32, month: u32, day: u32) -> bool
    ensures { result ≡ real_date year month day }
{
    matches!(year, 1601..=9999)
        && matches!(month, 1..=12)
        && 1 <= day
        && day <= wide32(month_days(year, month))
}
