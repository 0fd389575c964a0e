// Which bytes are a value of an item's type (Table 6, Appendix B).
ghost use Rattle.std.specs.Prelude.{◌&&◌, ◌++◌, ◌≡◌, ◌+◌, ◌-◌, ◌<◌, ◌≤◌, length, take, drop};
ghost use Rattle.ftd.specs.Table.{first_listed, last_listed};
ghost use Rattle.ftd.specs.Values.{every, is_listed, is_number, is_float, digit_of, two_digits, year_of, is_date};
ghost use Rattle.ftd.specs.Values.{month_of, day_digits, is_value};
ghost use Rattle.ftd.specs.Gregorian.{real_date};
ghost use Rattle.ftd.specs.Values.Helpers.{in_class};

use crate::bytes::{number16, size8, wide16, wide32};
use crate::gregorian::is_real;
use crate::kinds::{ACTION_FLAG, CHAR, DATE, FLOAT, INT, NUMBER, ORDER_TYPE, STRING, WORD};

// The values of the enumerations of Appendix B by kind, from the first to the last, with 0: eight entries for each, 1
// where the value is listed.
static LISTED: [u8; 80] = [
    1, // ACTION_FLAG: 0 1 2
    1, 1, 0, 0, 0, 0, 0, 1, // BOOL_FLAG: 0 1
    1, 0, 0, 0, 0, 0, 0, 1, // FORCE_EXIT_CODE: 0
    0, 0, 0, 0, 0, 0, 0, 1, // HEDGE_FLAG: 0 1 3
    1, 0, 1, 0, 0, 0, 0, 1, // INSTRUMENT_STATUS: 0 1 2 3 4
    1, 1, 1, 1, 0, 0, 0, 1, // MATCH_CONDITION: 0 1 2 3 4 5
    1, 1, 1, 1, 1, 0, 0, 1, // MATCH_SESSION: 0 1 2 3 4 5 6 7
    1, 1, 1, 1, 1, 1, 1, 1, // OFFSET_FLAG: 0 1 2 3
    1, 1, 1, 0, 0, 0, 0, 1, // ORDER_STATUS: 0 1 2 3 4 5
    1, 1, 1, 1, 1, 0, 0, 1, // ORDER_TYPE: 0 1 2 3 4 5 6
    1, 1, 1, 1, 1, 1, 0,
];

// Classes of bytes.
#[derive(Clone, Copy)]
pub enum Class {
    Text,
    Digit,
    Zero,
    Space,
}

// A byte is of a class.
fn in_class(class: Class, b: u8) -> bool
    ensures { result ≡ in_class class b }
{
    match class {
        Class::Text => b' ' <= b && b != 0x7F,
        Class::Digit => b.is_ascii_digit(),
        Class::Zero => b == b'0',
        Class::Space => b == b' ',
    }
}

// All bytes of a part are of a class. No early end: many bytes at once are faster.
pub(crate) fn all_in(class: Class, s: &[u8], from: usize, to: usize) -> bool
    requires { (from ≤ to) × (to ≤ length s.now) }
    ensures { result ≡ every (in_class class) (drop from (take to s.now)) }
{
    s[from..to]
        .iter()
        .fold(true, |good, b| good & in_class(class, *b))
}

// The same of two parts: from `from` up to the point, and what stands behind it.
fn both_in(class: Class, s: &[u8], from: usize, point: usize, behind: usize) -> bool
    requires { (from ≤ point) × (point ≤ behind) × (behind ≤ length s.now) }
    ensures { result ≡ every (in_class class) (drop from (take point s.now) ++ drop behind s.now) }
{
    all_in(class, s, from, point) && all_in(class, s, behind, s.len())
}

// The bytes up to the point and behind it are a Number.
fn is_signed(s: &[u8], point: usize, behind: usize) -> bool
    requires { (1 ≤ point) × (point ≤ behind) × (behind ≤ length s.now) }
    ensures { result ≡ is_number (take point s.now ++ drop behind s.now) }
{
    if s[0] == b'-' {
        return both_in(Class::Digit, s, 1, point, behind)
            && !both_in(Class::Zero, s, 1, point, behind);
    }
    both_in(Class::Digit, s, 0, point, behind)
}

// The bytes are a Number.
pub fn is_number(s: &[u8]) -> bool
    ensures { result ≡ is_number s.now }
{
    !s.is_empty() && is_signed(s, s.len(), s.len())
}

// The bytes are a Float with that many decimals.
pub fn is_float(scale: u8, s: &[u8]) -> bool
    ensures { result ≡ is_float scale s.now }
{
    let decimals = size8(scale);
    if s.len() < decimals + 2 {
        return false;
    }
    let point = s.len() - (decimals + 1);
    s[point] == b'.' && is_signed(s, point, point + 1)
}

// What a digit stands for; 0 for any other byte.
pub(crate) fn digit(b: u8) -> u8
    ensures { (result ≡ digit_of b) × (result ≤ 9) }
{
    if b.is_ascii_digit() {
        return b - b'0';
    }
    0
}

// The number that two digits make.
pub(crate) fn two_digits(a: u8, b: u8) -> u8
    ensures { (result ≡ two_digits a b) × (result ≤ 99) }
{
    digit(a) * 10 + digit(b)
}

// The year in the first four of eight bytes.
pub(crate) fn year(s: &[u8]) -> u16
    requires { length s.now ≡ 8 }
    ensures { result ≡ year_of s.now }
{
    wide16(two_digits(s[0], s[1])) * 100 + wide16(two_digits(s[2], s[3]))
}

// Eight bytes name a real date.
fn is_real_day(s: &[u8]) -> bool
    requires { length s.now ≡ 8 }
    ensures { result ≡ real_date (year_of s.now) (month_of s.now) (day_digits s.now) }
{
    let month = wide32(two_digits(s[4], s[5]));
    let day = wide32(two_digits(s[6], s[7]));
    is_real(number16(year(s)), month, day)
}

// The bytes are a Date.
pub fn is_date(s: &[u8]) -> bool
    ensures { result ≡ is_date s.now }
{
    s.len() == 8
        && (all_in(Class::Space, s, 0, 8) || (all_in(Class::Digit, s, 0, 8) && is_real_day(s)))
}

// A byte is listed by an enumeration, or 0.
pub(crate) fn is_listed(kind: u8, b: u8) -> bool
    requires { (first_listed ≤ kind) × (kind ≤ last_listed) }
    ensures { result ≡ is_listed kind b }
{
    b < 8 && LISTED[size8(kind - ACTION_FLAG) * 8 + size8(b)] == 1
}

// The bytes are a value of a type, by kind and decimals.
pub fn is_value(kind: u8, scale: u8, s: &[u8]) -> bool
    ensures { result ≡ is_value kind scale s.now }
{
    match kind {
        CHAR => s.len() == 1,
        WORD => s.len() == 2,
        INT => s.len() == 4,
        STRING => all_in(Class::Text, s, 0, s.len()),
        NUMBER => is_number(s),
        FLOAT => is_float(scale, s),
        DATE => is_date(s),
        ACTION_FLAG..=ORDER_TYPE => s.len() == 1 && is_listed(kind, s[0]),
        _ => false,
    }
}
