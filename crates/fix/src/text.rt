// Texts: separators, numbers of 1 to 9 digits, the sum of bytes; what of them is written.
ghost use Rattle.std.specs.Prelude.{[], ◌∷◌, ◌≡◌, ◌&&◌, ◌+◌, ◌-◌, ◌/◌, ◌<◌, ◌≤◌, length, drop};
ghost use Rattle.ftd.specs.Bytes.{put};
ghost use Rattle.fix.specs.Text.{until as until_of, stands_at, number_in, plain_in, or_else, is_yes, sum_of};
ghost use Rattle.fix.specs.Text.{length_text, letter, sum_text};

use ftd::bytes::{copy_at, size32};

// The separator.
pub(crate) const SOH: u8 = 1;

// How many bytes stand from a place on before the first byte c; all where there is none.
pub(crate) fn until(s: &[u8], at: usize, c: u8) -> usize
    ensures { (result ≡ until_of c (drop at s.now)) × (result ≤ length s.now - at) }
{
    let rest = &s[at.min(s.len())..];
    rest.iter().position(|&x| x == c).unwrap_or(rest.len())
}

// The bytes from a place on begin with these.
pub(crate) fn stands_at(s: &[u8], at: usize, w: &[u8]) -> bool
    ensures { result ≡ stands_at s.now at w.now }
{
    s[at.min(s.len())..].starts_with(w)
}

// A text as a number.
#[tactic(auto, unfolding(crate::specs::Text::number_in))]
pub fn number_in(s: &[u8]) -> Option<u32>
    ensures { (result ≡ number_in s.now) × (or_else 0 result ≤ 999999999) }
{
    if s.is_empty() || 9 < s.len() {
        return None;
    }
    let mut n: u32 = 0;
    for &c in s {
        if !c.is_ascii_digit() {
            return None;
        }
        n = n * 10 + u32::from(c - b'0');
    }
    Some(n)
}

// A text as a number without a zero in front.
#[tactic(auto, unfolding(crate::specs::Text::plain_in))]
pub(crate) fn plain_in(s: &[u8]) -> Option<u32>
    ensures { (result ≡ plain_in s.now) × (or_else 0 result ≤ 999999999) }
{
    if s.first() == Some(&b'0') {
        return None;
    }
    number_in(s)
}

// Exactly the one byte Y.
#[tactic(auto, unfolding(crate::specs::Text::is_yes))]
pub(crate) fn is_yes(s: &[u8]) -> bool
    ensures { result ≡ is_yes s.now }
{
    matches!(s, [b'Y'])
}

// The sum of all bytes, modulo 256.
pub(crate) fn sum_of(s: &[u8]) -> u32
    ensures { (result ≡ sum_of s.now) × (result < 256) }
{
    u32::from(s.iter().fold(0u8, |n, &b| n.wrapping_add(b)))
}

// How many digits a length has.
#[tactic(auto, unfolding(crate::specs::Text::length_text))]
pub(crate) fn length_digits(n: usize) -> usize
    ensures { (result ≡ length (length_text n)) × (result ≤ 4) }
{
    match n {
        0..=9 => 1,
        10..=99 => 2,
        100..=999 => 3,
        _ => 4,
    }
}

// The last digit of a number.
fn digit_of(n: usize) -> u8
    ensures { result ≡ letter n }
{
    b'0' + (n % 10) as u8
}

// A length without zeros in front is put at a place.
#[tactic(auto, unfolding(crate::specs::Text::length_text))]
pub(crate) fn put_length(out: &mut [u8], at: usize, n: usize)
    requires { at + 4 ≤ length out.old }
    ensures { out.new ≡ put out.old at (length_text n) }
{
    let digits = [
        digit_of(n / 1000),
        digit_of(n / 100),
        digit_of(n / 10),
        digit_of(n),
    ];
    copy_at(out, at, &digits[4 - length_digits(n)..]);
}

// A sum in three digits is put at a place.
pub(crate) fn put_sum(out: &mut [u8], at: usize, n: u32)
    requires { at + 3 ≤ length out.old }
    ensures { out.new ≡ put out.old at (sum_text n) }
{
    let n = size32(n);
    copy_at(out, at, &[digit_of(n / 100), digit_of(n / 10), digit_of(n)]);
}
