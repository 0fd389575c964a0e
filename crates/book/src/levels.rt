// The price levels of a side, best first.
ghost use Rattle.std.specs.Prelude.{◌≡◌, ◌<◌, ◌≤◌, get_or, set};
ghost use Rattle.book.specs.Levels.{better, same_price, place_in, no_levels, held_by, empty, inserted, removed, put_at};
ghost use Rattle.book.specs.Levels.{quantity_at, level_in, is_full, side_with};

// A level: a price in units of 0.0001, and the quantity there. With quantity 0 the place is not used. Laid
// out as in C: the book of C and Rust (`exports`) holds levels as they are here.
#[repr(C)]
#[derive(Clone, Copy)]
pub struct Level {
    pub price: i64,
    pub quantity: u32,
}

// The levels of a side, best first; the places behind them are not used.
// Stays: an array kept in order by hand, no BTreeMap: no heap (01), and the C interface hands the book over by value.
#[derive(Clone, Copy)]
pub struct Side {
    pub levels: [Level; 64],
}

// No level.
pub fn no_levels() -> Side
    ensures { result ≡ no_levels }
{
    Side {
        levels: [Level {
            price: 0,
            quantity: 0,
        }; 64],
    }
}

// A level's price is better than another's: on the buying side higher, on the selling side lower.
#[tactic(auto, unfolding(crate::specs::Levels::better))]
fn is_better(buying: bool, a: Level, b: Level) -> bool
    ensures { result ≡ better buying a.price b.price }
{
    if buying {
        b.price < a.price
    } else {
        a.price < b.price
    }
}

// The place of a level's price: behind the levels that are better.
// Stays: 64 for a place behind all is what `place_in` of specs/Levels.antt says.
pub(crate) fn place_of(side: Side, buying: bool, new: Level) -> usize
    ensures { (result ≡ place_in buying new.price side.levels) × (result ≤ 64) }
{
    side.levels
        .iter()
        .position(|&one| one.quantity == 0 || !is_better(buying, one, new))
        .unwrap_or(64)
}

// The quantity that stands at a place at a level's price, or 0.
// Stays: 0 for no level is what `held_by` of specs/Levels.antt says.
#[tactic(auto, unfolding(crate::specs::Levels::held_by))]
pub(crate) fn held_at(side: Side, i: usize, new: Level) -> u32
    ensures { result ≡ held_by new.price (get_or side.levels i empty) }
{
    if i < 64 && side.levels[i].price == new.price {
        side.levels[i].quantity
    } else {
        0
    }
}

// The quantity at a level's price, 0 where no level stands.
pub(crate) fn quantity_at(side: Side, buying: bool, new: Level) -> u32
    ensures { result ≡ quantity_at buying new.price side }
{
    held_at(side, place_of(side, buying, new), new)
}

// The level at a place.
#[tactic(auto, unfolding(crate::specs::Levels::level_in))]
pub(crate) fn level_in(side: Side, i: usize) -> Option<Level>
    ensures { result ≡ level_in side i }
{
    let one = *side.levels.get(i)?;
    if one.quantity == 0 { None } else { Some(one) }
}

// All 64 places are used.
#[tactic(auto, unfolding(crate::specs::Levels::is_full))]
pub(crate) fn is_full(side: Side) -> bool
    ensures { result ≡ is_full side }
{
    0 < side.levels[63].quantity
}

// A level pushed in at a place.
fn insert(side: Side, at: usize, new: Level) -> Side
    requires { at ≤ 64 }
    ensures { result ≡ side_with (inserted at new side.levels) }
{
    let mut levels = side.levels;
    if at < 64 {
        levels.copy_within(at..63, at + 1);
        levels[at] = new;
    }
    Side { levels }
}

// The level at a place taken out.
fn remove(side: Side, at: usize) -> Side
    requires { at < 64 }
    ensures { result ≡ side_with (removed at side.levels) }
{
    let mut levels = side.levels;
    levels.copy_within(at + 1.., at);
    levels[63] = Level {
        price: 0,
        quantity: 0,
    };
    Side { levels }
}

// The level at a place replaced.
fn replace(side: Side, at: usize, new: Level) -> Side
    requires { at < 64 }
    ensures { result ≡ side_with (set side.levels at new) }
{
    let mut levels = side.levels;
    levels[at] = new;
    Side { levels }
}

// A level put: `at` is its price's place, `old` what stood there.
pub(crate) fn put_at(side: Side, at: usize, old: u32, new: Level) -> Side
    requires { (at ≤ 64) × (old ≡ held_by new.price (get_or side.levels at empty)) }
    ensures { result ≡ put_at at new side }
{
    if 0 < new.quantity {
        if 0 < old {
            return replace(side, at, new);
        }
        return insert(side, at, new);
    }
    if 0 < old {
        return remove(side, at);
    }
    side
}
