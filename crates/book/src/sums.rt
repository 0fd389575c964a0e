// The sums of price times volume and of volumes, and their mean.
ghost use Rattle.std.specs.Prelude.{◌≡◌, ◌<◌, ◌≤◌, pos, nat_abs, ◌*ℤ◌};
ghost use Rattle.book.specs.Sums.{no_sums, beyond, added_to, summed_with, goes_up, nearest_of, with_sign, mean_of};
ghost use Rattle.book.specs.Sums.Laws.{MeanLaws};

use crate::levels::Level;

// The sums over the day's matches: price times volume, in units of 0.0001, and volume.
#[derive(Clone, Copy)]
pub struct Sums {
    pub turnover: i64,
    pub volume: i64,
}

// Nothing matched yet.
pub fn no_sums() -> Sums
    ensures { result ≡ no_sums }
{
    Sums {
        turnover: 0,
        volume: 0,
    }
}

// Price times volume.
fn product(offer: Level) -> i64
    requires { (nat_abs offer.price ≤ 99999999999) × (offer.quantity ≤ 1000000) }
    ensures { (result ≡ offer.price *ℤ pos offer.quantity) × (nat_abs result ≤ 99999999999000000) }
{
    offer.price * i64::from(offer.quantity)
}

// A sum beyond its limit on either side of zero.
#[tactic(auto, unfolding(crate::specs::Sums::beyond))]
fn is_beyond(sum: i64) -> bool
    ensures { result ≡ beyond sum }
{
    9000000000000000000 < sum || sum < -9000000000000000000
}

// A sum and what is added to it.
fn added(sum: i64, x: i64) -> Option<i64>
    requires { nat_abs x ≤ 99999999999000000 }
    ensures { result ≡ added_to sum x }
{
    if is_beyond(sum) {
        return None;
    }
    let next = sum + x;
    if is_beyond(next) {
        return None;
    }
    Some(next)
}

// The sum of price times volume with a match.
fn add_turnover(sum: i64, offer: Level) -> Option<i64>
    requires { (nat_abs offer.price ≤ 99999999999) × (offer.quantity ≤ 1000000) }
    ensures { result ≡ added_to sum (offer.price *ℤ pos offer.quantity) }
{
    added(sum, product(offer))
}

// The sum of volumes with a match.
fn add_volume(sum: i64, volume: u32) -> Option<i64>
    requires { volume ≤ 1000000 }
    ensures { result ≡ added_to sum (pos volume) }
{
    added(sum, i64::from(volume))
}

// Both sums with a match.
#[tactic(auto, unfolding(crate::specs::Sums::summed_with))]
pub(crate) fn add_match(sums: Sums, offer: Level) -> Option<Sums>
    requires { (nat_abs offer.price ≤ 99999999999) × (offer.quantity ≤ 1000000) }
    ensures { result ≡ summed_with sums offer }
{
    let turnover = add_turnover(sums.turnover, offer)?;
    let volume = add_volume(sums.volume, offer.quantity)?;
    Some(Sums { turnover, volume })
}

// A size with the sign of a sum.
#[tactic(auto, unfolding(crate::specs::Sums::with_sign))]
fn with_sign(sum: i64, size: u64) -> i64
    requires { size ≤ nat_abs sum }
    ensures { result ≡ with_sign sum size }
{
    if sum < 0 && 0 < size {
        -1 - (size - 1) as i64
    } else {
        size as i64
    }
}

// A quotient cut down is one too low. The remainder is compared with what it leaves of the volume: its double may not
// fit.
#[tactic(auto, unfolding(crate::specs::Sums::goes_up))]
fn goes_up(quotient: u64, remainder: u64, volume: u64) -> bool
    requires { remainder ≤ volume }
    ensures { result ≡ goes_up quotient remainder volume }
{
    let left = volume - remainder;
    left < remainder || (left == remainder && quotient % 2 == 1)
}

// The whole number nearest to a size over a volume, at the exact half the even one.
fn nearest(size: u64, volume: u64) -> u64
    requires { 0 < volume }
    ensures { (result ≡ nearest_of size volume) × (result ≤ size) }
{
    let quotient = size / volume;
    if goes_up(quotient, size % volume, volume) {
        return quotient + 1;
    }
    quotient
}

// The mean of two sums.
#[tactic(auto, unfolding(crate::specs::Sums::mean_of))]
fn mean_of(sum: i64, volume: i64) -> Option<i64>
    ensures { result ≡ mean_of sum volume }
{
    if 0 < volume {
        return Some(with_sign(sum, nearest(sum.unsigned_abs(), volume.unsigned_abs())));
    }
    None
}

// The mean of the sums.
pub(crate) fn sums_mean(sums: Sums) -> Option<i64>
    ensures { result ≡ mean_of sums.turnover sums.volume }
{
    mean_of(sums.turnover, sums.volume)
}

// What the mean is, as a promise.
pub fn keeps_mean_laws()
    ensures { MeanLaws }
{}
