// The worked examples of the book (request No. 2): makes the calls of standard input, and prints each answer with what
// the book then shows, buying, selling and mean, in units of 0.0001. A call is a byte, a length of four bytes and that
// many bytes: 0 and a code, or 1, a TID of four bytes and a content.
#![tactic(auto)]

use book::calls::{Book, Step};
use book::levels::Level;
use ftd::bytes::{be32, size32};
use ftd::refusal::{Refusal, number};
use ftd::signed::{Signed, from_integer};
use std::io;
use streams::read_full;

fn print(rt: &impl Print, text: &[u8]) -> io::Result<()> {
    rt.write_all(text)
}

// Units, with their sign.
fn print_units(rt: &impl Print, x: i64) -> io::Result<()> {
    let Some(Signed { negative, units }) = from_integer(x) else {
        return print(rt, b"?");
    };
    if negative {
        print(rt, b"-")?;
    }
    rt.print(units)
}

// The level at a place, behind a space where it is not the first; false where there is none.
fn print_level(rt: &impl Print, book: Book, buying: bool, i: usize) -> io::Result<bool> {
    let Some(Level { price, quantity }) = book.level(buying, i) else {
        return Ok(false);
    };
    if 0 < i {
        print(rt, b" ")?;
    }
    rt.print(u64::from(quantity))?;
    print(rt, b"@")?;
    print_units(rt, price)?;
    Ok(true)
}

// A side, best first.
fn print_side(rt: &impl Print, book: Book, buying: bool) -> io::Result<()> {
    for i in 0..Book::MOST_LEVELS {
        if !print_level(rt, book, buying, i)? {
            break;
        }
    }
    Ok(())
}

fn print_mean(rt: &impl Print, book: Book) -> io::Result<()> {
    match book.mean() {
        None => print(rt, b"-"),
        Some(p) => print_units(rt, p),
    }
}

fn print_outcome(rt: &impl Print, answer: Result<(), Refusal>) -> io::Result<()> {
    let Err(r) = answer else {
        return print(rt, b"0 ");
    };
    rt.print(u64::from(number(r)))?;
    print(rt, b" ")
}

// An answer, and what the book shows.
fn print_step(rt: &impl Print, step: Step) -> io::Result<Book> {
    print_outcome(rt, step.answer)?;
    print_side(rt, step.book, true)?;
    print(rt, b"|")?;
    print_side(rt, step.book, false)?;
    print(rt, b"|")?;
    print_mean(rt, step.book)?;
    print(rt, b"\n")?;
    Ok(step.book)
}

// A call on the book.
fn call(rt: &impl Print, book: Book, kind: u8, bytes: &[u8]) -> io::Result<Book> {
    if kind == 0 {
        return print_step(rt, book.start(bytes));
    }
    if bytes.len() < 4 {
        return Ok(book);
    }
    let tid = be32(bytes, 0);
    print_step(rt, book.take(tid, &bytes[4..]))
}

// All calls of some bytes.
fn calls(rt: &impl Print, input: &[u8]) -> io::Result<()> {
    let mut book = Book::fresh();
    let mut at: usize = 0;
    while at < input.len() {
        if input.len() - at < 5 {
            return Ok(());
        }
        let n = size32(be32(input, at + 1));
        let start = at + 5;
        if input.len() - start < n {
            return Ok(());
        }
        book = call(rt, book, input[at], &input[start..start + n])?;
        at = start + n;
    }
    Ok(())
}

fn main(rt: HostRuntime) -> io::Result<()> {
    let mut stdin = rt.reader();
    let mut input = [0u8; 262144];
    let n = read_full(&mut stdin, &mut input)?;
    calls(&rt, &input[..n])
}
