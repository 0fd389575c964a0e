// Prices as text, and the lines that the book's answers are printed as.
ghost use Rattle.std.specs.Prelude.{◌≡◌, [], ◌∷◌, ◌+◌, ◌%◌, ◌<◌, ◌≤◌, length};
ghost use Rattle.ftd.specs.Signed.Write.{digits_in};
ghost use Rattle.listing.specs.Text.{WroteText};
ghost use Rattle.play.specs.Lines.{units_text, price_text, priced, spaced, pair_line};
ghost use Rattle.play.specs.Lines.{price_line, level_line, mean_line};

use crate::text::word_line;
use book::levels::Level;
use ftd::bytes::size32;
use ftd::refusal::Refusal;
use listing::{put_byte, put_decimal, put_word};

// The last digit of a number.
fn put_digit(out: &mut [u8], at: usize, x: u64) -> usize
    requires { at < length out.old }
    ensures { WroteText out.old at ((48 + x % 10) ∷ []) out.new result }
{
    put_byte(out, at, 48 + (x % 10) as u8)
}

// The last four digits.
fn put_four(out: &mut [u8], at: usize, x: u64) -> usize
    requires { at + 4 ≤ length out.old }
    ensures { WroteText out.old at (digits_in 4 x) out.new result × (result ≡ at + 4) }
{
    let tens = x / 10;
    let hundreds = tens / 10;
    let n = put_digit(out, at, hundreds / 10);
    let n = put_digit(out, n, hundreds);
    let n = put_digit(out, n, tens);
    put_digit(out, n, x)
}

// So many units of 0.0001.
fn put_units(out: &mut [u8], at: usize, units: u64) -> usize
    requires { at + 25 ≤ length out.old }
    ensures { WroteText out.old at (units_text units) out.new result × (result ≤ at + 25) }
{
    let n = put_decimal(out, at, (units / 10000) as usize);
    let n = put_byte(out, n, b'.');
    put_four(out, n, units)
}

// A price.
fn put_price(out: &mut [u8], at: usize, price: i64) -> usize
    requires { at + 26 ≤ length out.old }
    ensures { WroteText out.old at (price_text price) out.new result × (result ≤ at + 26) }
{
    let units = price.unsigned_abs();
    if price < 0 {
        let n = put_byte(out, at, b'-');
        return put_units(out, n, units);
    }
    put_units(out, at, units)
}

// A word, a space and a price.
fn put_priced(out: &mut [u8], word: &[u8], price: i64) -> usize
    requires { (64 ≤ length out.old) × (length word.now ≤ 5) }
    ensures { WroteText out.old 0 (priced word.now price) out.new result × (result ≤ 32) }
{
    let n = put_word(out, 0, word);
    let n = put_byte(out, n, 32);
    put_price(out, n, price)
}

// A space and a number.
fn put_spaced(out: &mut [u8], at: usize, x: usize) -> usize
    requires { at + 21 ≤ length out.old }
    ensures { WroteText out.old at (spaced x) out.new result × (result ≤ at + 21) }
{
    let n = put_byte(out, at, 32);
    put_decimal(out, n, x)
}

// The line of a price and a quantity.
fn pair_line(out: &mut [u8], price: i64, quantity: u32) -> usize
    requires { 64 ≤ length out.old }
    ensures { WroteText out.old 0 (pair_line price quantity) out.new result
        × (result ≤ length out.new) }
{
    let n = put_priced(out, b"level", price);
    let n = put_spaced(out, n, size32(quantity));
    put_byte(out, n, 10)
}

// The line of a price alone.
fn price_line(out: &mut [u8], price: i64) -> usize
    requires { 64 ≤ length out.old }
    ensures { WroteText out.old 0 (price_line price) out.new result
        × (result ≤ length out.new) }
{
    let n = put_priced(out, b"mean", price);
    put_byte(out, n, 10)
}

// The line of a level.
pub(crate) fn level_line(out: &mut [u8], answer: Option<Level>) -> usize
    requires { 64 ≤ length out.old }
    ensures { WroteText out.old 0 (level_line answer) out.new result
        × (result ≤ length out.new) }
{
    match answer {
        None => word_line(out, b"none"),
        Some(Level { price, quantity }) => pair_line(out, price, quantity),
    }
}

// The line of a mean.
pub(crate) fn mean_line(out: &mut [u8], answer: Option<i64>) -> usize
    requires { 64 ≤ length out.old }
    ensures { WroteText out.old 0 (mean_line answer) out.new result
        × (result ≤ length out.new) }
{
    match answer {
        None => word_line(out, b"none"),
        Some(p) => price_line(out, p),
    }
}
