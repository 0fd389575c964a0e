// Quantities and increments.
ghost use Rattle.std.specs.Prelude.{◌≡◌};
ghost use Rattle.book.specs.Quantity.{new_of, lacks};

// A quantity after a quotation.
pub(crate) fn new_quantity(absolute: bool, old: u32, volume: u32) -> Option<u32>
    ensures { result ≡ new_of absolute old volume }
{
    if absolute {
        return Some(volume);
    }
    if volume < 2147483648 {
        old.checked_add(volume)
    } else {
        old.checked_sub(volume.wrapping_neg())
    }
}

// A level stands, and has less than a match takes.
pub(crate) fn is_lacking(old: u32, volume: u32) -> bool
    ensures { result ≡ lacks old volume }
{
    old != 0 && old < volume
}
