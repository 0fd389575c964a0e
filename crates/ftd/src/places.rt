// An item of a field by place: FID and item number, counted from 0.
ghost use Rattle.std.specs.Prelude.{◌≡◌};
ghost use Rattle.ftd.specs.Places.{item_of, item_bytes};

use crate::bytes::size32;
use crate::table::{LAST_FID, end_of, kind_at, scale_at, start_of, width_at};

// Kind (src/kinds.rt) and decimals of an item, and where it lies in its field.
#[derive(Clone, Copy)]
pub struct ItemPlace {
    pub kind: u8,
    pub scale: u8,
    pub start: usize,
    pub width: usize,
}

// Item i of a field, counted from 0. The walk is over the field's own rows, of which there are at most 37.
pub fn item_place(fid: u32, i: usize) -> Option<ItemPlace>
    ensures { result ≡ item_of fid i }
{
    if LAST_FID < fid {
        return None;
    }
    let mut at: usize = 0;
    let mut left = i;
    for row in start_of(size32(fid))..end_of(size32(fid)) {
        if left == 0 {
            return Some(ItemPlace {
                kind: kind_at(row),
                scale: scale_at(row),
                start: at,
                width: width_at(row),
            });
        }
        at += width_at(row);
        left -= 1;
    }
    None
}

// The bytes of item i, a part of the lent field (its bytes without FID and length); none where there is no such item,
// or it is not there whole.
#[tactic(auto, unfolding(crate::specs::Places::item_bytes))]
pub fn item(field: &[u8], fid: u32, i: usize) -> &[u8]
    ensures { result.now ≡ item_bytes field.now fid i }
{
    let Some(ItemPlace { start, width, .. }) = item_place(fid, i) else {
        return &field[..0];
    };
    if field.len() < start || field.len() - start < width {
        return &field[..0];
    }
    &field[start..start + width]
}
