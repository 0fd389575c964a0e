// What the seats have of the day, as numbers that are lent: seat by seat, series by series in the opening's order, three
// numbers a place: logged in (not 0), next, piece.
ghost use Rattle.std.specs.Prelude.{◌≡◌, ◌<◌, ◌≤◌, ◌+◌, ◌*◌, length};
ghost use Rattle.relay.specs.State.{place_for, seat_for, flag_of, place_written, no_numbers, seat_width};

use flow::sender::{Place, Seat};

// So many numbers in all: 16 seats, 8 series, 3 numbers.
pub const NUMBERS: usize = 384;

// The place that starts at a number.
fn place_at(numbers: &[u64; 384], at: usize) -> Place
    requires { at + 3 ≤ 384 }
    ensures { result ≡ place_for numbers.now at }
{
    Place {
        login: numbers[at] != 0,
        next: numbers[at + 1],
        piece: numbers[at + 2] as usize,
    }
}

// The seat whose places start at a number.
pub(crate) fn seat_at(numbers: &[u64; 384], at: usize) -> Seat
    requires { at + 24 ≤ 384 }
    ensures { result ≡ seat_for numbers.now at }
{
    Seat {
        places: [
            place_at(numbers, at),
            place_at(numbers, at + 3),
            place_at(numbers, at + 6),
            place_at(numbers, at + 9),
            place_at(numbers, at + 12),
            place_at(numbers, at + 15),
            place_at(numbers, at + 18),
            place_at(numbers, at + 21),
        ],
    }
}

// A test as a number.
fn flag_of(b: bool) -> u64
    ensures { result ≡ flag_of b }
{
    if b { 1 } else { 0 }
}

// One place is written; every other number stays.
pub(crate) fn put_place(numbers: &mut [u64; 384], seat: usize, i: usize, place: Place)
    requires { (seat < 16) × (i < 8) }
    ensures { numbers.new ≡ place_written numbers.old seat i place }
{
    let at = 24 * seat + 3 * i;
    numbers[at] = flag_of(place.login);
    numbers[at + 1] = place.next;
    numbers[at + 2] = place.piece as u64;
}

// Nobody is logged in.
pub(crate) fn clear(numbers: &mut [u64; 384])
    ensures { numbers.new ≡ no_numbers }
{
    *numbers = [0; 384];
}
