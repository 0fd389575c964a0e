// Compares the calendar and the date item with what they should be. Each file is a run of records: a letter and two
// numbers of four bytes, high byte first. V, W: the eight bytes are a date item, or not one. D: a day and its date. M:
// a mark and its date. S: how many numbers of sessions and how many holidays follow, then Set's answer (0, or its
// refusal); the calendar goes on as Set leaves it. A: a time and its trade date, 0 outside. A line for each file: name,
// number of records, number of those that differ.
#![tactic(auto)]

ghost use Rattle.std.specs.Prelude.{◌≡◌, ◌≤◌, length};

use calendar::days::{CivilDate, date_of};
use calendar::trading::{Calendar, mark_date};
use ftd::bytes::be32;
use ftd::refusal::{Refusal, number};
use ftd::values::is_date;
use std::io::Read;
use std::rt::Files;
use std::{fs, io};
use streams::read_full;

// What came of a file: how many records, how many that differ, and whether all its bytes are records.
#[derive(Clone, Copy)]
struct Tally {
    records: u64,
    differ: u64,
    whole: bool,
}

// What came of a whole record: the calendar behind it, and whether it is right.
#[derive(Clone, Copy)]
struct Compared {
    calendar: Calendar,
    right: bool,
}

// The date's number is that one.
fn is_number(date: CivilDate, n: u32) -> bool {
    date.year == n / 10000 && date.month == n / 100 % 100 && date.day == n % 100
}

// A trade date is that one, 0 for outside.
fn is_answer(answer: Option<u32>, n: u32) -> bool {
    answer.unwrap_or(0) == n
}

// Set's answer is that one, 0 for set.
fn is_set(answer: Result<(), Refusal>, n: u32) -> bool {
    let said = match answer {
        Ok(()) => 0,
        Err(r) => number(r),
    };
    u32::from(said) == n
}

// Reads n numbers; false where there is no room for them, or the file has fewer.
fn numbers<R: Read>(input: &mut R, out: &mut [u32], n: usize) -> io::Result<bool> {
    if out.len() < n {
        return Ok(false);
    }
    for x in out[..n].iter_mut() {
        let mut four = [0u8; 4];
        if read_full(input, &mut four)? < 4 {
            return Ok(false);
        }
        *x = u32::from_be_bytes(four);
    }
    Ok(true)
}

// Set, with the first n numbers of sessions and the first m holidays; none where there are fewer.
fn compare_answer(
    calendar: Calendar,
    sessions: &[u32],
    n: usize,
    holidays: &[u32],
    m: usize,
    said: u32,
) -> Option<Compared> {
    let step = calendar.set(sessions.get(..n)?, holidays.get(..m)?);
    Some(Compared {
        calendar: step.calendar,
        right: is_set(step.answer, said),
    })
}

// Set, with n numbers of sessions and m holidays, which follow; none where they are not there whole.
fn compare_set<R: Read>(
    input: &mut R,
    calendar: Calendar,
    n: usize,
    m: usize,
) -> io::Result<Option<Compared>> {
    let mut sessions = [0u32; 64];
    let mut holidays = [0u32; 64];
    let mut said = [0u32; 64];
    if numbers(input, &mut sessions, n)?
        && numbers(input, &mut holidays, m)?
        && numbers(input, &mut said, 1)?
    {
        return Ok(compare_answer(calendar, &sessions, n, &holidays, m, said[0]));
    }
    Ok(None)
}

// A record by its letter; none where it is not there whole.
fn compare_record<R: Read>(
    input: &mut R,
    calendar: Calendar,
    head: &[u8],
) -> io::Result<Option<Compared>>
    requires { 9 ≡ length head.now }
{
    let x = be32(head, 1);
    let y = be32(head, 5);
    let right = match head[0] {
        b'V' => is_date(&head[1..]),
        b'W' => !is_date(&head[1..]),
        b'D' => is_number(date_of(x), y),
        b'M' => mark_date(x) == y,
        b'A' => is_answer(calendar.ask(x), y),
        b'S' => return compare_set(input, calendar, x as usize, y as usize),
        _ => return Ok(None),
    };
    Ok(Some(Compared { calendar, right }))
}

// All records of a file.
fn all_records<R: Read>(input: &mut R) -> io::Result<Tally> {
    let mut calendar = Calendar::fresh();
    let mut t = Tally {
        records: 0,
        differ: 0,
        whole: false,
    };
    for _ in 0..1000000u64 {
        let mut head = [0u8; 9];
        let got = read_full(input, &mut head)?;
        if got == 0 {
            t.whole = true;
            return Ok(t);
        }
        if got < 9 {
            return Ok(t);
        }
        let Some(c) = compare_record(input, calendar, &head)? else {
            return Ok(t);
        };
        calendar = c.calendar;
        t.records += 1;
        t.differ += u64::from(!c.right);
    }
    Ok(t)
}

// The line of a file.
fn compare(rt: &(impl Files + Print), name: &str) -> io::Result<()> {
    rt.write_all(name.as_bytes())?;
    let Ok(mut file) = fs::open(rt, name) else {
        return rt.write_all(b" missing\n");
    };
    let t = all_records(&mut file)?;
    rt.write_all(b" ")?;
    rt.print(t.records)?;
    rt.write_all(b" ")?;
    rt.print(t.differ)?;
    if t.whole {
        rt.write_all(b"\n")
    } else {
        rt.write_all(b" broken\n")
    }
}

fn main(rt: HostRuntime) -> io::Result<()> {
    compare(&rt, "items")?;
    compare(&rt, "examples")?;
    compare(&rt, "days")?;
    compare(&rt, "marks")?;
    compare(&rt, "times")
}
