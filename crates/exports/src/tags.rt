// What the tags of an extension say, as numbers; trade dates, places and Bools as numbers.
ghost use Rattle.std.specs.Prelude.{◌≡◌};
ghost use Rattle.ftd.specs.Tags.{trade_date_of, keep_alive_of};
ghost use Rattle.exports.specs.Numbers.{dated_flag, date_of, date_for, placed_flag, place_number, trade_date_numbers, flag};

use ftd::tags::{keep_alive, trade_date};

// A trade date, or none.
// Stays: `dated` as a number; the C interface (include/ftd.h).
#[repr(C)]
#[derive(Clone, Copy)]
pub struct FtdDate {
    pub date: u32,
    pub dated: u8,
}

// 1 where there is a trade date.
pub(crate) fn dated(d: Option<u32>) -> u8
    ensures { result ≡ dated_flag d }
{
    flag_of(d.is_some())
}

// The trade date; 0 where there is none.
pub(crate) fn date(d: Option<u32>) -> u32
    ensures { result ≡ date_of d }
{
    d.unwrap_or(0)
}

// The trade date that a number says there is, or none.
pub(crate) fn date_for(dated: u8, date: u32) -> Option<u32>
    ensures { result ≡ date_for dated date }
{
    if dated == 0 {
        return None;
    }
    Some(date)
}

// 1 where a packet bears its place in its message.
pub(crate) fn placed(j: Option<u16>) -> u8
    ensures { result ≡ placed_flag j }
{
    flag_of(j.is_some())
}

// The place; 0 where it bears none.
pub(crate) fn place(j: Option<u16>) -> u16
    ensures { result ≡ place_number j }
{
    j.unwrap_or(0)
}

// 1 for true.
pub(crate) fn flag_of(b: bool) -> u8
    ensures { result ≡ flag b }
{
    b as u8
}

// The trade date that an extension bears.
#[unsafe(no_mangle)]
pub extern "C" fn ftd_trade_date(extension: &[u8]) -> FtdDate
    ensures { result ≡ trade_date_numbers (trade_date_of extension.now) }
{
    let d = trade_date(extension);
    FtdDate {
        date: date(d),
        dated: dated(d),
    }
}

// 1 where an extension has the keep-alive tag.
#[unsafe(no_mangle)]
pub extern "C" fn ftd_keep_alive(extension: &[u8]) -> u8
    ensures { result ≡ flag (keep_alive_of extension.now) }
{
    flag_of(keep_alive(extension))
}
