// Values of Date, read and written.
ghost use Rattle.std.specs.Prelude.{◌≡◌, ◌≤◌, length};
ghost use Rattle.ftd.specs.Bytes.{put};
ghost use Rattle.ftd.specs.Write.{written_answer, written_output, fit_verdict};
ghost use Rattle.ftd.specs.Values.{year_of, month_of, day_digits};
ghost use Rattle.ftd.specs.Dates.{date_value, date_bytes, date_fits};
ghost use Rattle.ftd.specs.Dates.Examples.{DateExamples};

use crate::bytes::{number16, wide32};
use crate::gregorian::is_real;
use crate::refusal::Refusal;
use crate::signed::put_digits;
use crate::texts::put_spaces;
use crate::values::{Class, all_in, is_date, two_digits, year};
use crate::write::{WriteError, room};

// A value: all spaces for unused, or a day; or none where the bytes are not one.
#[derive(Clone, Copy)]
pub enum Date {
    NoDate,
    Unused,
    Day { year: u16, month: u8, day: u8 },
}

// The day in eight bytes.
fn day(s: &[u8]) -> Date
    requires { length s.now ≡ 8 }
    ensures { result ≡ Date.Day (year_of s.now) (month_of s.now) (day_digits s.now) }
{
    Date::Day {
        year: year(s),
        month: two_digits(s[4], s[5]),
        day: two_digits(s[6], s[7]),
    }
}

// The bytes as a Date.
pub fn read_date(s: &[u8]) -> Date
    ensures { result ≡ date_value s.now }
{
    if is_date(s) {
        if all_in(Class::Space, s, 0, s.len()) {
            return Date::Unused;
        }
        return day(s);
    }
    Date::NoDate
}

// A value is a Date's.
fn date_fits(v: Date) -> bool
    ensures { result ≡ date_fits v }
{
    match v {
        Date::NoDate => false,
        Date::Unused => true,
        Date::Day { year, month, day } => is_real(number16(year), wide32(month), wide32(day)),
    }
}

// The bytes of a day.
fn put_day(out: &mut [u8], year: u16, month: u8, day: u8)
    requires { 8 ≤ length out.old }
    ensures { out.new ≡ put out.old 0 (date_bytes (Date.Day year month day)) }
{
    put_digits(out, 0, 4, year as u64);
    put_digits(out, 4, 2, month as u64);
    put_digits(out, 6, 2, day as u64);
}

// The bytes of a value.
fn put_date(out: &mut [u8], v: Date)
    requires { 8 ≤ length out.old }
    ensures { out.new ≡ put out.old 0 (date_bytes v) }
{
    match v {
        Date::NoDate => {}
        Date::Unused => put_spaces(out, 0, 8),
        Date::Day { year, month, day } => put_day(out, year, month, day),
    }
}

// A value as a Date.
pub fn write_date(out: &mut [u8], v: Date) -> Result<usize, WriteError>
    ensures answer { result ≡ written_answer (fit_verdict (date_fits v)) (date_bytes v) out.old }
    ensures output { out.new ≡ written_output (fit_verdict (date_fits v)) (date_bytes v) out.old }
{
    if !date_fits(v) {
        return Err(WriteError::Refused(Refusal::Item));
    }
    room(out, 8)?;
    put_date(out, v);
    Ok(8)
}

// The worked examples of the date item, as a promise.
pub fn keeps_date_examples()
    ensures { DateExamples }
{}
