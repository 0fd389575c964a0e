// The room of the log that the series share (02, No. 11): the reserves of an opening, and the shares with one entry more.
// What is taken is subtracted step by step from the log's length, so that no sum is made that could wrap.
ghost use Rattle.std.specs.Prelude.{cond, ◌≡◌, ◌+◌, ◌<◌, ltb, eqb};
ghost use Rattle.flow.specs.Serving.{wrong_reserves};
ghost use Rattle.flow.specs.ShareHelpers.{share_with, shares_in};

use crate::sender::{Day, DaySeries};

// 11: not one reserve for each series, or reserves above the log's length together.
pub(crate) fn wrong_reserves(series: &[u16], reserves: &[usize], log: &[u8]) -> bool
    ensures { result ≡ wrong_reserves series.now reserves.now log.now }
{
    // Stays: a return of its own, since the loop below is no operand of `||`.
    if reserves.len() != series.len() {
        return true;
    }
    let mut left = log.len();
    for one in reserves {
        if left < *one {
            return true;
        }
        left -= *one;
    }
    false
}

// How many bytes more a place has: those of the entry at its own place, none at the others.
fn more_at(i: usize, at: usize, more: usize) -> usize
    ensures { result ≡ cond (eqb i at) more 0 }
{
    if i == at { more } else { 0 }
}

// The share of a series with so many bytes more is above what is left.
fn is_over(one: DaySeries, more: usize, left: usize) -> bool
    ensures { result ≡ ltb left (share_with more one) }
{
    left < one.reserve || left < one.used || left - one.used < more
}

// The share of a series with so many bytes more: the larger of the bytes used and its reserve.
fn share(one: DaySeries, more: usize) -> usize
    requires { one.used + more < 18446744073709551616 }
    ensures { result ≡ share_with more one }
{
    (one.used + more).max(one.reserve)
}

// 18: the shares of all open series, that at a place with so many bytes more, are above the log's length together.
pub(crate) fn over_shares(day: Day, at: usize, more: usize, room: usize) -> bool
    ensures { result ≡ ltb room (shares_in day at more) }
{
    let mut left = room;
    for (i, one) in day.series.iter().enumerate() {
        if i >= day.count {
            return false;
        }
        let extra = more_at(i, at, more);
        if is_over(*one, extra, left) {
            return true;
        }
        left -= share(*one, extra);
    }
    false
}
