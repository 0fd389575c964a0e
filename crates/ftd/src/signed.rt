// Numbers and Floats: a sign and a whole number of units; read, written, and as a signed integer.
ghost use Rattle.std.specs.Prelude.{◌++◌, ◌≡◌, ◌+◌, ◌-◌, ◌*◌, ◌≤◌, pos, length, take, drop};
ghost use Rattle.ftd.specs.Bytes.{put};
ghost use Rattle.ftd.specs.Signed.{pow10, digits_of, signed_of, number_value, float_value};
ghost use Rattle.ftd.specs.Signed.Integer.{integer_of, from_integer};
ghost use Rattle.ftd.specs.Signed.Write.{digits_in, number_bytes, number_fits, float_bytes, float_fits};
ghost use Rattle.ftd.specs.Values.Laws.{ValueLaws};
ghost use Rattle.ftd.specs.Write.{written_answer, written_output, fit_verdict};

use crate::bytes::{put8, size8};
use crate::refusal::Refusal;
use crate::values::{digit, is_float, is_number};
use crate::write::{WriteError, room};

// A value, or none where the bytes are not one.
#[derive(Clone, Copy)]
pub struct Signed {
    pub negative: bool,
    pub units: u64,
}

// The number that the digits of a part make behind those of `start`.
fn digits(start: u64, s: &[u8], from: usize, to: usize) -> u64
    requires { (from ≤ to) × (to ≤ length s.now) × ((start + 1) * pow10 (to - from) ≤ pow10 18) }
    ensures { (result ≡ digits_of start (drop from (take to s.now)))
        × (result + 1 ≤ (start + 1) * pow10 (to - from)) }
{
    let mut n = start;
    for b in &s[from..to] {
        n = n * 10 + digit(*b) as u64;
    }
    n
}

// The units in two parts: from `from` up to the point, and what stands behind it.
fn units(s: &[u8], from: usize, point: usize, behind: usize) -> u64
    requires { (from ≤ point) × (point ≤ behind) × (behind ≤ length s.now) × (length s.now ≤ 18) }
    ensures { result ≡ digits_of 0 (drop from (take point s.now) ++ drop behind s.now) }
{
    digits(digits(0, s, from, point), s, behind, s.len())
}

// The value of the Number that the bytes up to the point and behind it make.
fn value_of(s: &[u8], point: usize, behind: usize) -> Option<Signed>
    requires { (1 ≤ point) × (point ≤ behind) × (behind ≤ length s.now) × (length s.now ≤ 18) }
    ensures { result ≡ signed_of (take point s.now ++ drop behind s.now) }
{
    if s[0] == b'-' {
        return Some(Signed {
            negative: true,
            units: units(s, 1, point, behind),
        });
    }
    Some(Signed {
        negative: false,
        units: units(s, 0, point, behind),
    })
}

// The bytes as a Number.
pub fn read_number(s: &[u8]) -> Option<Signed>
    ensures { result ≡ number_value s.now }
{
    if 18 < s.len() {
        return None;
    }
    if is_number(s) {
        return value_of(s, s.len(), s.len());
    }
    None
}

// The bytes as a Float with that many decimals.
pub fn read_float(scale: u8, s: &[u8]) -> Option<Signed>
    ensures { result ≡ float_value scale s.now }
{
    if 18 < s.len() {
        return None;
    }
    if is_float(scale, s) {
        let point = s.len() - (size8(scale) + 1);
        return value_of(s, point, point + 1);
    }
    None
}

// ─── Written ───

// 10 to the power of 0 to 18.
static POWER: [u64; 19] = [
    1,
    10,
    100,
    1000,
    10000,
    100000,
    1000000,
    10000000,
    100000000,
    1000000000,
    10000000000,
    100000000000,
    1000000000000,
    10000000000000,
    100000000000000,
    1000000000000000,
    10000000000000000,
    100000000000000000,
    1000000000000000000,
];

// 10 to a power.
fn power(n: usize) -> u64
    requires { n ≤ 18 }
    ensures { (result ≡ pow10 n) × (1 ≤ result) }
{
    POWER[n]
}

// The last digits of a number, as many as `width`.
pub(crate) fn put_digits(out: &mut [u8], at: usize, width: usize, units: u64)
    requires { at + width ≤ length out.old }
    ensures { out.new ≡ put out.old at (digits_in width units) }
{
    let mut left = units;
    for i in (0..width).rev() {
        out[at + i] = b'0' + (left % 10) as u8;
        left /= 10;
    }
}

// The bytes of a Number.
fn put_number(out: &mut [u8], width: usize, v: Signed)
    requires { (1 ≤ width) × (width ≤ length out.old) }
    ensures { out.new ≡ put out.old 0 (number_bytes width v.negative v.units) }
{
    if v.negative {
        put8(out, 0, b'-');
        put_digits(out, 1, width - 1, v.units);
        return;
    }
    put_digits(out, 0, width, v.units);
}

// A value fits a Number of a width.
#[tactic(auto, unfolding(crate::specs::Signed::Write::number_fits))]
fn number_fits(width: usize, v: Signed) -> bool
    ensures { result ≡ number_fits width v.negative v.units }
{
    if width < 1 || 18 < width {
        return false;
    }
    if v.negative {
        return v.units != 0 && v.units < power(width - 1);
    }
    v.units < power(width)
}

// A value as a Number of a width.
pub fn write_number(
    out: &mut [u8],
    width: usize,
    negative: bool,
    units: u64,
) -> Result<usize, WriteError>
    ensures answer { result ≡ written_answer (fit_verdict (number_fits width negative units)) (number_bytes width negative units)
        out.old }
    ensures output { out.new ≡ written_output (fit_verdict (number_fits width negative units))
        (number_bytes width negative units) out.old }
{
    let v = Signed { negative, units };
    if !number_fits(width, v) {
        return Err(WriteError::Refused(Refusal::Item));
    }
    room(out, width)?;
    put_number(out, width, v);
    Ok(width)
}

// The bytes of a Float.
fn put_float(out: &mut [u8], scale: usize, width: usize, v: Signed)
    requires { (scale + 2 ≤ width) × (width ≤ 18) × (width ≤ length out.old) }
    ensures { out.new ≡ put out.old 0 (float_bytes scale width v.negative v.units) }
{
    let point = width - (scale + 1);
    let whole = Signed {
        units: v.units / power(scale),
        ..v
    };
    put_number(out, point, whole);
    put8(out, point, b'.');
    put_digits(out, point + 1, scale, v.units);
}

// A value fits a Float of a width with that many decimals.
#[tactic(auto, unfolding(crate::specs::Signed::Write::float_fits))]
fn float_fits(scale: u8, width: usize, v: Signed) -> bool
    ensures { result ≡ float_fits scale width v.negative v.units }
{
    size8(scale) + 2 <= width && width <= 18 && number_fits(width - 1, v)
}

// A value as a Float of a width, with that many decimals.
pub fn write_float(
    out: &mut [u8],
    scale: u8,
    width: usize,
    negative: bool,
    units: u64,
) -> Result<usize, WriteError>
    ensures answer { result ≡ written_answer (fit_verdict (float_fits scale width negative units))
        (float_bytes scale width negative units) out.old }
    ensures output { out.new ≡ written_output (fit_verdict (float_fits scale width negative units))
        (float_bytes scale width negative units) out.old }
{
    let v = Signed { negative, units };
    if !float_fits(scale, width, v) {
        return Err(WriteError::Refused(Refusal::Item));
    }
    room(out, width)?;
    put_float(out, size8(scale), width, v);
    Ok(width)
}

// The round trips of values, as a promise.
pub fn keeps_value_laws()
    ensures { ValueLaws }
{}

// ─── As a signed integer ───

// A magnitude as a signed number.
fn above(units: u64) -> i64
    requires { units ≤ 999999999999999999 }
    ensures { result ≡ pos units }
{
    units as i64
}

// A value that was read, as a plain signed number of units.
#[tactic(auto, unfolding(crate::specs::Signed::Integer::integer_of))]
pub fn integer_of(v: Option<Signed>) -> Option<i64>
    ensures { result ≡ integer_of v }
{
    let Signed { negative, units } = v?;
    if 999999999999999999 < units {
        return None;
    }
    if negative {
        return Some(-above(units));
    }
    Some(above(units))
}

// A plain signed number of units as a value to be written; none where it has more than 18 digits.
pub fn from_integer(x: i64) -> Option<Signed>
    ensures { result ≡ from_integer x }
{
    if x < 0 {
        if x < -999999999999999999 {
            return None;
        }
        return Some(Signed {
            negative: true,
            units: (0 - x) as u64,
        });
    }
    if 999999999999999999 < x {
        return None;
    }
    Some(Signed {
        negative: false,
        units: x as u64,
    })
}
