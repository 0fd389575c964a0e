// The order of two serving ends with their logs, for a series (02, No. 14).
ghost use Rattle.std.specs.Prelude.{◌≡◌, ◌-◌, ◌≤◌, length, take, drop};
ghost use Rattle.flow.specs.Order.{message_of, same_message, order_from, other_date, order_of};
ghost use Rattle.flow.specs.OrderHelpers.{messages_in, NextIn, last_found, UsedPart};

use crate::log::{entry_size, find_entry};
use crate::sender::Sender;
use ftd::bytes::{be16, be32};
use ftd::refusal::Refusal;

// The same; the first, or the second, is a start of the other; or the first number with another TID or content.
// Stays: five outcomes that callers tell apart in one match, as specs/Order.antt names them; a Result round them
// would nest it.
#[derive(Clone, Copy)]
pub enum Order {
    Same,
    FirstStarts,
    SecondStarts,
    Differ(u32),
    Refused(Refusal),
}

// Where the next entry of a series lies.
#[derive(Clone, Copy)]
pub(crate) struct NextEntry {
    pub(crate) start: usize,
    pub(crate) size: usize,
}

// Not the same trade date, where none is one of its own.
fn other_date(a: Option<u32>, b: Option<u32>) -> bool
    ensures { result ≡ other_date a b }
{
    a != b
}

// Two entries have the same TID and content.
fn same_message(x: &[u8], y: &[u8]) -> bool
    requires { (16 ≤ length x.now) × (16 ≤ length y.now) }
    ensures { result ≡ same_message (message_of x.now) (message_of y.now) }
{
    be32(x, 4) == be32(y, 4) && x[16..] == y[16..]
}

// The next entry of a series from a place on, where so many of it are left.
fn next_of(l: &[u8], from: usize, series: u16, left: u32) -> Option<NextEntry>
    ensures { NextIn (take left (messages_in series (drop from l.now))) series left l.now
        result }
{
    if left == 0 {
        return None;
    }
    let mut at: usize = from;
    loop {
        let n = entry_size(l, at);
        if n == 0 {
            return None;
        }
        if be16(l, at) == series {
            return Some(NextEntry { start: at, size: n });
        }
        at += n;
    }
}

// The first so many messages of a series in one log, and the first so many in another, side by side: each log is walked
// once, and k are the same so far.
fn side_by_side(l: &[u8], first: u32, m: &[u8], second: u32, series: u16) -> Order
    ensures { result ≡ order_from 1 (take first (messages_in series l.now))
        (take second (messages_in series m.now)) }
{
    let mut k: u32 = 0;
    let mut at: usize = 0;
    let mut to: usize = 0;
    loop {
        let x = next_of(l, at, series, first - k);
        let y = next_of(m, to, series, second - k);
        let Some(x) = x else {
            return if y.is_none() {
                Order::Same
            } else {
                Order::FirstStarts
            };
        };
        let Some(y) = y else {
            return Order::SecondStarts;
        };
        let behind = x.start + x.size;
        let past = y.start + y.size;
        if !same_message(&l[x.start..behind], &m[y.start..past]) {
            return Order::Differ(k + 1);
        }
        k += 1;
        at = behind;
        to = past;
    }
}

// Send of the last entry of a series would find no damage; where none is published, there is no last entry.
fn finds_last(e: Sender, log: &[u8], series: u16, published: u32) -> bool
    ensures { result ≡ last_found e log.now series published }
{
    published == 0 || find_entry(e, log, series, published).is_some()
}

// How many bytes of the used part are there.
fn used_part(log: &[u8], used: usize) -> usize
    ensures { UsedPart log.now used result }
{
    log.len().min(used)
}

// The order for a series: 13, 15 and 20; nothing is changed.
pub fn order_of(series: u16, first: Sender, log: &[u8], second: Sender, other: &[u8]) -> Order
    ensures { result ≡ order_of series first log.now second other.now }
{
    let Some(i) = first.find(series) else {
        return Order::Refused(Refusal::UnknownSeries);
    };
    let Some(j) = second.find(series) else {
        return Order::Refused(Refusal::UnknownSeries);
    };
    let a = first.day;
    let b = second.day;
    if other_date(a.date, b.date) {
        return Order::Refused(Refusal::OtherDay);
    }
    let x = a.series[i];
    let y = b.series[j];
    if finds_last(first, log, series, x.published)
        && finds_last(second, other, series, y.published)
    {
        let n = used_part(log, a.used);
        let m = used_part(other, b.used);
        return side_by_side(&log[..n], x.published, &other[..m], y.published, series);
    }
    Order::Refused(Refusal::DamagedLog)
}
