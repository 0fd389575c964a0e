// The log of the serving end (01, "The serving end", row 20): entry behind entry in one lent slice, an entry written,
// and the walk up to the entry wanted.
ghost use Rattle.std.specs.Prelude.{[], ◌++◌, ◌≡◌, suc, ◌+◌, ◌-◌, ◌<◌, ◌≤◌, length, drop, eqb};
ghost use Rattle.ftd.specs.Bytes.{put};
ghost use Rattle.ftd.specs.Fields.{most_content};
ghost use Rattle.ftd.specs.Runs.{front, run_of};
ghost use Rattle.flow.specs.Log.{entry_bytes, entry, walk, entry_of};
ghost use Rattle.flow.specs.Helpers.{checked, PlaceInside, EntryIn};

use crate::sender::Sender;
use ftd::bytes::{be16, be32, copy_at, put16, put32, size32};
use ftd::fields::is_shaped;

// Where an entry lies in the log: where it starts, and how many bytes it takes, its head among them.
#[derive(Clone, Copy)]
pub(crate) struct EntryPlace {
    pub(crate) start: usize,
    pub(crate) size: usize,
}

// What the walk does with an entry: it is wrong; it is the one wanted; or it is passed, with its series' place and its
// number.
// Stays: three outcomes, as `checked` of specs/Helpers.antt names them; an Option round two of them would nest.
#[derive(Clone, Copy)]
pub(crate) enum EntryStep {
    Wrong,
    Wanted,
    Passed { place: usize, number: u32 },
}

// How many bytes the entry of a content takes that lies in two parts.
pub(crate) fn entry_length(head: &[u8], tail: &[u8]) -> usize
    requires { length (head.now ++ tail.now) ≤ most_content }
    ensures { result ≡ 16 + length (head.now ++ tail.now) }
{
    16 + (head.len() + tail.len())
}

// An entry is put at a place: series 2 bytes, zero 2, TID 4, number 4, content length 4, then the content, which lies
// in two parts, one behind the other.
pub(crate) fn put_entry(
    log: &mut [u8],
    at: usize,
    series: u16,
    tid: u32,
    number: u32,
    head: &[u8],
    tail: &[u8],
)
    requires { (at + 16 + length (head.now ++ tail.now) ≤ length log.old)
        × (length (head.now ++ tail.now) < 4294967296) }
    ensures { log.new ≡ put log.old at
        (entry_bytes series tid number (head.now ++ tail.now)) }
{
    let n = head.len() + tail.len();
    put16(log, at, series);
    put16(log, at + 2, 0);
    put32(log, at + 4, tid);
    put32(log, at + 8, number);
    put32(log, at + 12, (n % 4294967296) as u32);
    copy_at(log, at + 16, head);
    copy_at(log, at + 16 + head.len(), tail);
}

// How many bytes the entry at a place takes; 0 where none stands there whole.
// Stays: 0, not None, since its contract gives `front` (ftd, specs/Runs), which is 0 there.
pub(crate) fn entry_size(l: &[u8], at: usize) -> usize
    ensures { (result ≡ front entry (drop at l.now)) × (result ≤ length l.now - at) }
{
    if l.len() < at {
        return 0;
    }
    let left = l.len() - at;
    if left < 16 {
        return 0;
    }
    let n = size32(be32(l, at + 12));
    if left - 16 < n {
        return 0;
    }
    16 + n
}

// The number is the one behind the last.
fn follows(number: u32, last: u32) -> bool
    ensures { result ≡ eqb number (suc last) }
{
    number != 0 && number - 1 == last
}

// An entry against row 20, with the last number of each place so far, and whether it is the one wanted.
#[tactic(auto, unfolding(crate::specs::Helpers::checked, crate::specs::Ends::is_served))]
fn check_entry(e: Sender, x: &[u8], last: &[u32; 8], s: u16, k: u32) -> EntryStep
    requires { 16 ≤ length x.now }
    ensures { (result ≡ checked e last.now s k x.now) × PlaceInside result }
{
    let series = be16(x, 0);
    let number = be32(x, 8);
    let Some(place) = e.find(series) else {
        return EntryStep::Wrong;
    };
    if be16(x, 2) != 0
        || !follows(number, last[place])
        || !is_shaped(&x[16..], Sender::MOST_CONTENT)
    {
        return EntryStep::Wrong;
    }
    if series == s && number == k {
        return EntryStep::Wanted;
    }
    EntryStep::Passed { place, number }
}

// The walk over the entries of the used part, up to entry k of series s.
fn walk_entries(e: Sender, l: &[u8], s: u16, k: u32) -> Option<EntryPlace>
    ensures { EntryIn (walk e s k [] (run_of entry l.now).entries) l.now result }
{
    let mut last: [u32; 8] = [0; 8];
    let mut at: usize = 0;
    loop {
        let n = entry_size(l, at);
        if n == 0 {
            return None;
        }
        match check_entry(e, &l[at..at + n], &last, s, k) {
            EntryStep::Wrong => {
                return None;
            }
            EntryStep::Wanted => {
                return Some(EntryPlace { start: at, size: n });
            }
            EntryStep::Passed { place, number } => {
                last[place] = number;
                at += n;
            }
        }
    }
}

// Entry k of series s; damaged where the log is against row 20 before it, or has no such entry.
pub(crate) fn find_entry(e: Sender, log: &[u8], s: u16, k: u32) -> Option<EntryPlace>
    ensures { EntryIn (entry_of e log.now s k) log.now result }
{
    let used = e.day.used;
    if log.len() < used {
        return None;
    }
    walk_entries(e, &log[..used], s, k)
}
