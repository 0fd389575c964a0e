// What a field of a message says to the book of a contract.
ghost use Rattle.std.specs.Prelude.{◌≡◌, ◌+◌, ◌≤◌, length, drop, pos};
ghost use Rattle.ftd.specs.Bytes.{part};
ghost use Rattle.book.specs.Event.{same_bytes, event_of, quotation_in, match_in, sided, faced, price_of};
ghost use Rattle.book.specs.Event.{PriceInside, Inside};
ghost use Rattle.book.specs.Event.Laws.{EventLaws};

use crate::levels::Level;
use ftd::bytes::be32;
use ftd::signed::{Signed, read_float};

// Stays: `buying` and `absolute` are bools, as items of kind `BOOL_FLAG`; the definitions of specs/Event.antt take
// them so.
// A quotation of a side, absolute or an increment; a match; or nothing. Price and volume stand as a level, an increment
// as the unsigned number in its four bytes.
// Stays: three outcomes, as specs/Event.antt names them; an Option round the other two would nest them.
#[derive(Clone, Copy)]
pub enum Event {
    Nothing,
    Quotation {
        absolute: bool,
        buying: bool,
        offer: Level,
    },
    Match(Level),
}

// The bytes from a place on are those of the code.
fn same_code(code: &[u8], field: &[u8], at: usize) -> bool
    requires { (at + 10 ≤ length field.now) × (length code.now ≡ 10) }
    ensures { result ≡ same_bytes (part field.now at 10) code.now }
{
    &field[at..at + 10] == code
}

// The price in twelve bytes: Float 12,4.
fn price_of(s: &[u8]) -> Option<i64>
    requires { length s.now ≡ 12 }
    ensures { (result ≡ price_of s.now) × PriceInside result }
{
    let Signed { negative, units } = read_float(4, s)?;
    let price = units as i64;
    Some(if negative { -price } else { price })
}

// The side of a quotation: Direction 0 is buying, 1 selling; any other is not used.
#[tactic(auto, unfolding(crate::specs::Event::faced))]
fn facing(absolute: bool, direction: u8, offer: Level) -> Event
    ensures { result ≡ faced absolute direction offer }
{
    let buying = match direction {
        0 => true,
        1 => false,
        _ => return Event::Nothing,
    };
    Event::Quotation {
        absolute,
        buying,
        offer,
    }
}

// The kind of a quotation: VolumeType 0 is an increment, 1 absolute; any other is not used.
#[tactic(auto, unfolding(crate::specs::Event::sided))]
fn quotation(kind: u8, direction: u8, offer: Level) -> Event
    ensures { result ≡ sided kind direction offer }
{
    match kind {
        0 => facing(false, direction, offer),
        1 => facing(true, direction, offer),
        _ => Event::Nothing,
    }
}

// A quotation of the contract, in a MarketOrderDataField with its FID and length.
fn quotation_in(code: &[u8], field: &[u8]) -> Event
    requires { (length field.now ≡ 39) × (length code.now ≡ 10) }
    ensures { (result ≡ quotation_in code.now (drop 6 field.now)) × Inside result }
{
    if !same_code(code, field, 6) {
        return Event::Nothing;
    }
    let Some(price) = price_of(&field[19..31]) else {
        return Event::Nothing;
    };
    let quantity = be32(field, 31);
    quotation(field[17], field[18], Level { price, quantity })
}

// A match of the contract, in a MarketMatchIncDataField with its FID and length.
fn match_in(code: &[u8], field: &[u8]) -> Event
    requires { (length field.now ≡ 35) × (length code.now ≡ 10) }
    ensures { (result ≡ match_in code.now (drop 6 field.now)) × Inside result }
{
    if !same_code(code, field, 6) {
        return Event::Nothing;
    }
    let Some(price) = price_of(&field[18..30]) else {
        return Event::Nothing;
    };
    let quantity = be32(field, 30);
    Event::Match(Level { price, quantity })
}

// What a field, with its FID and length, says to the book of a contract.
#[tactic(auto, unfolding(crate::specs::Event::event_of))]
pub(crate) fn event_of(code: &[u8], tid: u32, field: &[u8]) -> Event
    requires { length code.now ≡ 10 }
    ensures { (result ≡ event_of code.now tid field.now) × Inside result }
{
    match tid {
        0x2001 if field.len() == 39 && be32(field, 0) == 0x000D => quotation_in(code, field),
        0x2002 if field.len() == 35 && be32(field, 0) == 0x000A => match_in(code, field),
        _ => Event::Nothing,
    }
}

// What a field says, whatever its values, as a promise.
pub fn keeps_event_laws()
    ensures { EventLaws }
{}
