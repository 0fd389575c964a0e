// The book of a contract and its calls: Start, Take, Level and Mean (request No. 2).
ghost use Rattle.std.specs.Prelude.{◌≡◌, false, ◌≤◌, nat_abs};
ghost use Rattle.book.specs.Event.{Inside};
ghost use Rattle.book.specs.Calls.{fresh_book, start_of, take_of, level_of, book_mean};
ghost use Rattle.book.specs.Calls.{quote_on, one_more, lowered, quotation_on, match_check, Takes};
ghost use Rattle.book.specs.Calls.{matched_with, match_summed, match_on, applied, walked, events_of};
ghost use Rattle.book.specs.Levels.{quantity_at};
ghost use Rattle.book.specs.Quantity.{lacks};

use crate::event::{Event, event_of};
use crate::levels::{
    Level, Side, held_at, is_full, level_in, no_levels, place_of, put_at, quantity_at,
};
use crate::quantity::{is_lacking, new_quantity};
use crate::sums::{Sums, add_match, no_sums, sums_mean};
use ftd::composition::Direction;
use ftd::content::check_content;
use ftd::fields::{MOST_CONTENT, field_size};
use ftd::kinds::STRING;
use ftd::refusal::Refusal;
use ftd::values::is_value;

// The contract's code as its item's bytes, its two sides, and the sums over the day's matches.
#[derive(Clone, Copy)]
pub struct Book {
    pub code: [u8; 10],
    pub buying: Side,
    pub selling: Side,
    pub sums: Sums,
}

// What Start and Take leave: the book, and the answer.
#[derive(Clone, Copy)]
pub struct Step {
    pub book: Book,
    pub answer: Result<(), Refusal>,
}

// What a quotation leaves of a side.
#[derive(Clone, Copy)]
pub struct SideStep {
    pub side: Side,
    pub answer: Result<(), Refusal>,
}

// 22, 23, or a quotation's quantity is put at its price.
fn quote(side: Side, absolute: bool, buying: bool, offer: Level) -> SideStep
    ensures { result ≡ quote_on side absolute buying offer }
{
    let at = place_of(side, buying, offer);
    let old = held_at(side, at, offer);
    let Some(n) = new_quantity(absolute, old, offer.quantity) else {
        return SideStep {
            side,
            answer: Err(Refusal::Quantity),
        };
    };
    if one_more(side, old, n) {
        return SideStep {
            side,
            answer: Err(Refusal::Levels),
        };
    }
    // Stays: `Level { quantity: n, ..offer }` was tried; the proof then lacks that the price copied fits.
    let mut new = offer;
    new.quantity = n;
    SideStep {
        side: put_at(side, at, old, new),
        answer: Ok(()),
    }
}

// 23: a level more than the side has places.
#[tactic(auto, unfolding(crate::specs::Calls::one_more))]
fn one_more(side: Side, old: u32, n: u32) -> bool
    ensures { result ≡ one_more side old n }
{
    n != 0 && old == 0 && is_full(side)
}

// A match's volume taken from the level at its price, where one stands.
fn lower(side: Side, buying: bool, offer: Level) -> Side
    requires { lacks (quantity_at buying offer.price side) offer.quantity ≡ false }
    ensures { result ≡ lowered buying offer side }
{
    let at = place_of(side, buying, offer);
    let old = held_at(side, at, offer);
    if old == 0 {
        return side;
    }
    // Stays: `Level { quantity: .., ..offer }` was tried; the proof then lacks that the price copied fits.
    let mut new = offer;
    new.quantity = old - offer.quantity;
    put_at(side, at, old, new)
}

// A refused step leaves the book.
fn refused(book: Book, r: Refusal) -> Step
    ensures { result ≡ record { book = book; answer = Err r } }
{
    Step {
        book,
        answer: Err(r),
    }
}

// 22 and the first of 24: on either side a level stands and has less than the match takes; a volume above 1,000,000.
fn check_match(book: Book, offer: Level) -> Result<(), Refusal>
    ensures { (result ≡ match_check book offer) × Takes book offer result }
{
    if is_lacking(quantity_at(book.buying, true, offer), offer.quantity) {
        return Err(Refusal::Quantity);
    }
    if is_lacking(quantity_at(book.selling, false, offer), offer.quantity) {
        return Err(Refusal::Quantity);
    }
    if 1000000 < offer.quantity {
        return Err(Refusal::Volume);
    }
    Ok(())
}

// A match's volume is taken from both sides, and the sums go on.
fn take_match(book: Book, offer: Level, sums: Sums) -> Book
    requires { Takes book offer (Ok tt) }
    ensures { result ≡ matched_with book offer sums }
{
    Book {
        buying: lower(book.buying, true, offer),
        selling: lower(book.selling, false, offer),
        sums,
        ..book
    }
}

// The rest of 24, or the match is taken.
fn sum_match(book: Book, offer: Level) -> Step
    requires { (nat_abs offer.price ≤ 99999999999) × Takes book offer (Ok tt) }
    ensures { result ≡ match_summed book offer }
{
    let Some(next) = add_match(book.sums, offer) else {
        return refused(book, Refusal::Volume);
    };
    Step {
        book: take_match(book, offer, next),
        answer: Ok(()),
    }
}

// A match on the book.
fn apply_match(book: Book, offer: Level) -> Step
    requires { nat_abs offer.price ≤ 99999999999 }
    ensures { result ≡ match_on book offer }
{
    if let Err(r) = check_match(book, offer) {
        return refused(book, r);
    }
    sum_match(book, offer)
}

// A quotation on its side of the book.
fn apply_quotation(book: Book, absolute: bool, buying: bool, offer: Level) -> Step
    ensures { result ≡ quotation_on book absolute buying offer }
{
    if buying {
        let step = quote(book.buying, absolute, true, offer);
        return Step {
            book: Book {
                buying: step.side,
                ..book
            },
            answer: step.answer,
        };
    }
    let step = quote(book.selling, absolute, false, offer);
    Step {
        book: Book {
            selling: step.side,
            ..book
        },
        answer: step.answer,
    }
}

// What an event does to the book.
fn apply(book: Book, event: Event) -> Step
    requires { Inside event }
    ensures { result ≡ applied book event }
{
    match event {
        Event::Nothing => Step {
            book,
            answer: Ok(()),
        },
        Event::Quotation {
            absolute,
            buying,
            offer,
        } => apply_quotation(book, absolute, buying, offer),
        Event::Match(offer) => apply_match(book, offer),
    }
}

// The fields of a message in order, each on the book as those before it left it, up to the first that is refused.
fn walk(book: Book, tid: u32, content: &[u8]) -> Step
    ensures { result ≡ walked book (events_of book.code tid content.now) }
{
    // Stays: the code copied, ten bytes; lent from `book`, both books stay on the stack, 2,064 bytes more in all.
    let code = book.code;
    let mut current = book;
    let mut at: usize = 0;
    loop {
        let n = field_size(content, at);
        if n == 0 {
            return Step {
                book: current,
                answer: Ok(()),
            };
        }
        let end = at + n;
        let step = apply(current, event_of(&code, tid, &content[at..end]));
        if step.answer.is_err() {
            return step;
        }
        current = step.book;
        at = end;
    }
}

impl Book {
    // At most so many levels a side.
    pub const MOST_LEVELS: usize = 64;

    // A book of no contract: every message that 7 to 10 pass is taken, and changes nothing.
    pub fn fresh() -> Book
        ensures { result ≡ fresh_book }
    {
        Book {
            code: [0; 10],
            buying: no_levels(),
            selling: no_levels(),
            sums: no_sums(),
        }
    }

    // Start: the day's book of a contract, by its code as item bytes; 9.
    pub fn start(self, code: &[u8]) -> Step
        ensures { result ≡ start_of self code.now }
    {
        if code.len() != 10 || !is_value(STRING, 0, code) {
            return refused(self, Refusal::Item);
        }
        let mut bytes = [0; 10];
        bytes.copy_from_slice(code);
        Step {
            book: Book {
                code: bytes,
                buying: no_levels(),
                selling: no_levels(),
                sums: no_sums(),
            },
            answer: Ok(()),
        }
    }

    // Take: a message, by TID and content; 7 to 10, then field by field 22, 23 and 24. A refused one leaves the book.
    pub fn take(self, tid: u32, content: &[u8]) -> Step
        ensures { result ≡ take_of self tid content.now }
    {
        if let Err(r) = check_content(tid, Direction::Down, content, MOST_CONTENT) {
            return refused(self, r);
        }
        let step = walk(self, tid, content);
        if let Err(r) = step.answer {
            return refused(self, r);
        }
        step
    }

    // Level: the pair at a place of a side, best first, or none.
    pub fn level(self, buying: bool, i: usize) -> Option<Level>
        ensures { result ≡ level_of self buying i }
    {
        if buying {
            level_in(self.buying, i)
        } else {
            level_in(self.selling, i)
        }
    }

    // Mean: the day's mean match price, or none.
    pub fn mean(self) -> Option<i64>
        ensures { result ≡ book_mean self }
    {
        sums_mean(self.sums)
    }
}
