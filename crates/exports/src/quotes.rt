// The book of a contract (02, No. 2) for C and Rust: its state as numbers by value, and its calls. Any numbers are a
// book.
ghost use Rattle.std.specs.Prelude.{◌≡◌};
ghost use Rattle.book.specs.Calls.{fresh_book, start_of, take_of, level_of, book_mean};
ghost use Rattle.exports.specs.Quotes.{book_for, book_numbers, step_numbers};
ghost use Rattle.exports.specs.Quotes.{buying_for, level_numbers, mean_numbers};
ghost use Rattle.exports.specs.Quotes.Laws.{BookNumberLaws};

use crate::written::refusal_of;
use book::calls::{Book, Step};
use book::levels::{Level, Side};
use book::sums::Sums;

// The contract's code, the levels of its two sides, best first, and the sums over the day's matches.
#[repr(C)]
#[derive(Clone, Copy)]
pub struct FtdBook {
    pub code: [u8; 10],
    pub buying: [Level; 64],
    pub selling: [Level; 64],
    pub turnover: i64,
    pub volume: i64,
}

// What Start and Take leave: the book, and the answer.
#[repr(C)]
#[derive(Clone, Copy)]
pub struct FtdBookStep {
    pub book: FtdBook,
    pub refusal: u8,
}

// What stands at a place of a side.
// Stays: `found` as a number; the C interface (include/ftd.h).
#[repr(C)]
#[derive(Clone, Copy)]
pub struct FtdListed {
    pub price: i64,
    pub quantity: u32,
    pub found: u8,
}

// The mean match price, or none.
// Stays: `found` as a number; the C interface (include/ftd.h).
#[repr(C)]
#[derive(Clone, Copy)]
pub struct FtdMean {
    pub price: i64,
    pub found: u8,
}

// The book that the numbers say.
impl From<FtdBook> for Book {
    ghost from_gives = { λ n r. r ≡ book_for n };

    fn from(n: FtdBook) -> Book {
        let FtdBook {
            code,
            buying: bids,
            selling: asks,
            turnover,
            volume,
        } = n;
        Book {
            code,
            buying: Side { levels: bids },
            selling: Side { levels: asks },
            sums: Sums { turnover, volume },
        }
    }
}

// The book as numbers.
impl From<Book> for FtdBook {
    ghost from_gives = { λ b r. r ≡ book_numbers b };

    fn from(b: Book) -> FtdBook {
        let Book {
            code,
            buying: Side { levels: bids },
            selling: Side { levels: asks },
            sums,
        } = b;
        FtdBook {
            code,
            buying: bids,
            selling: asks,
            turnover: sums.turnover,
            volume: sums.volume,
        }
    }
}

// A book of no contract.
#[unsafe(no_mangle)]
pub extern "C" fn ftd_book_fresh() -> FtdBook
    ensures { result ≡ book_numbers fresh_book }
{
    Book::fresh().into()
}

// Start: the day's book of a contract, by the bytes of its code.
#[unsafe(no_mangle)]
pub extern "C" fn ftd_book_start(book: FtdBook, code: &[u8]) -> FtdBookStep
    ensures { result ≡ step_numbers (start_of (book_for book) code.now) }
{
    let Step { book, answer } = Book::from(book).start(code);
    FtdBookStep {
        book: book.into(),
        refusal: refusal_of(answer),
    }
}

// Take: a message, by TID and content.
#[unsafe(no_mangle)]
pub extern "C" fn ftd_book_take(book: FtdBook, tid: u32, content: &[u8]) -> FtdBookStep
    ensures { result ≡ step_numbers (take_of (book_for book) tid content.now) }
{
    let Step { book, answer } = Book::from(book).take(tid, content);
    FtdBookStep {
        book: book.into(),
        refusal: refusal_of(answer),
    }
}

// 0 is buying, any other number selling.
fn buying_for(n: u8) -> bool
    ensures { result ≡ buying_for n }
{
    n == 0
}

// Level: the pair at a place of a side, best first.
#[unsafe(no_mangle)]
pub extern "C" fn ftd_book_level(book: FtdBook, side: u8, place: usize) -> FtdListed
    ensures { result ≡ level_numbers (level_of (book_for book) (buying_for side) place) }
{
    match Book::from(book).level(buying_for(side), place) {
        None => FtdListed {
            price: 0,
            quantity: 0,
            found: 0,
        },
        Some(Level { price, quantity }) => FtdListed {
            price,
            quantity,
            found: 1,
        },
    }
}

// Mean: the day's mean match price.
#[unsafe(no_mangle)]
pub extern "C" fn ftd_book_mean(book: FtdBook) -> FtdMean
    ensures { result ≡ mean_numbers (book_mean (book_for book)) }
{
    match Book::from(book).mean() {
        None => FtdMean { price: 0, found: 0 },
        Some(p) => FtdMean { price: p, found: 1 },
    }
}

// The book as numbers and back, as a promise.
pub fn keeps_book_numbers()
    ensures { BookNumberLaws }
{}
