// Compares the listings of captures with what they should be. Each file is a run of records: length of the capture in
// four bytes, length of the text in four, the capture, the text. A line for each file: name, number of records, number
// of those that differ.
#![tactic(auto)]

ghost use Rattle.std.specs.Prelude.{true, ◌≡◌, ◌≤◌};
ghost use Rattle.listing.specs.Lines.{listing_of};

use check::same;
use ftd::bytes::be32;
use listing::{Line, write_line};
use std::io::Read;
use std::rt::Files;
use std::{fs, io};
use streams::read_full;

// What came of a record.
#[derive(Clone, Copy)]
enum Record {
    // No bytes are left.
    Nothing,
    // It is not there whole, or too long.
    Broken,
    Same,
    Differs,
}

// What came of a file: how many records, how many that differ, and whether all its bytes are records.
#[derive(Clone, Copy)]
struct Tally {
    records: u64,
    differ: u64,
    whole: bool,
}

// The text is the listing of the capture; `more` says that the input goes on behind it.
fn lists(capture: &[u8], more: bool, text: &[u8]) -> bool
    ensures { result ≡ true → text.now ≡ listing_of capture.now more }
{
    let mut out = [0u8; 64];
    let mut at: usize = 0;
    let mut to: usize = 0;
    loop {
        match write_line(capture, more, at, &mut out) {
            Line::TooSmall => {
                return false;
            }
            Line::Last(len) => {
                return same(&out[..len], &text[to..]);
            }
            Line::More { len, next } => {
                if text.len() - to < len || !same(&out[..len], &text[to..to + len]) {
                    return false;
                }
                at = next;
                to += len;
            }
        }
    }
}

// Reads n bytes to the start of a buffer; false where it has fewer bytes, or the file.
fn fill<R: Read>(input: &mut R, buffer: &mut [u8], n: usize) -> io::Result<bool> {
    if buffer.len() < n {
        return Ok(false);
    }
    let got = read_full(input, &mut buffer[..n])?;
    Ok(got == n)
}

// The lister reads at most 65,536 bytes.
fn read_part(n: usize) -> usize
    ensures { (result ≤ 65536) × (result ≤ n) }
{
    n.min(65536)
}

// Reads a record and compares it. What the capture has behind the part that the lister reads goes to the text's buffer
// and is dropped.
fn next_record<R: Read>(input: &mut R, capture: &mut [u8], text: &mut [u8]) -> io::Result<Record> {
    let mut head = [0u8; 8];
    let got = read_full(input, &mut head)?;
    if got == 0 {
        return Ok(Record::Nothing);
    }
    if got < 8 {
        return Ok(Record::Broken);
    }
    let length = be32(&head, 0) as usize;
    let n = read_part(length);
    let m = be32(&head, 4) as usize;
    if capture.len() < n || text.len() < m {
        return Ok(Record::Broken);
    }
    if !fill(input, capture, n)? || !fill(input, text, length - n)? || !fill(input, text, m)? {
        return Ok(Record::Broken);
    }
    if lists(&capture[..n], n < length, &text[..m]) {
        Ok(Record::Same)
    } else {
        Ok(Record::Differs)
    }
}

// All records of a file.
fn all_records<R: Read>(input: &mut R) -> io::Result<Tally> {
    let mut capture = [0u8; 65536];
    let mut text = [0u8; 65536];
    let mut t = Tally {
        records: 0,
        differ: 0,
        whole: false,
    };
    for _ in 0..1000000u64 {
        match next_record(input, &mut capture, &mut text)? {
            Record::Nothing => {
                t.whole = true;
                return Ok(t);
            }
            Record::Broken => {
                return Ok(t);
            }
            Record::Same => {
                t.records += 1;
            }
            Record::Differs => {
                t.records += 1;
                t.differ += 1;
            }
        }
    }
    Ok(t)
}

// The line of a file.
fn compare(rt: &(impl Files + Print), name: &str) -> io::Result<()> {
    rt.write_all(name.as_bytes())?;
    let Ok(mut file) = fs::open(rt, name) else {
        return rt.write_all(b" missing\n");
    };
    let t = all_records(&mut file)?;
    rt.write_all(b" ")?;
    rt.print(t.records)?;
    rt.write_all(b" ")?;
    rt.print(t.differ)?;
    if t.whole {
        rt.write_all(b"\n")
    } else {
        rt.write_all(b" missing\n")
    }
}

fn main(rt: HostRuntime) -> io::Result<()> {
    compare(&rt, "valid")?;
    compare(&rt, "damaged")?;
    compare(&rt, "cut")?;
    compare(&rt, "empty")?;
    compare(&rt, "full")?;
    compare(&rt, "more")
}
