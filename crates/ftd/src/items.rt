// The items of a content's fields: refusals 8 and 9.
ghost use Rattle.std.specs.Prelude.{true, ◌≡◌, ◌+◌, ◌<◌, ◌≤◌, length, take, drop};
ghost use Rattle.ftd.specs.Table.Rule.{row_at};
ghost use Rattle.ftd.specs.Items.{other_width, wrong_width, item_good, walk_of, wrong_item, check_of};

use crate::bytes::{be32, size32};
use crate::fields::{field_size, walk};
use crate::refusal::Refusal;
use crate::table::{LAST_FID, count_of, end_of, kind_at, scale_at, start_of, wide_of, width_at};
use crate::values::is_value;

// The FID is known, and its field has another width.
fn other_width(fid: u32, len: usize) -> bool
    ensures { result ≡ other_width fid len }
{
    if LAST_FID < fid {
        return false;
    }
    count_of(size32(fid)) != 0 && len != wide_of(size32(fid))
}

// Refusal 8: some field with a known FID has another width.
pub fn wrong_width(content: &[u8]) -> bool
    ensures { result ≡ wrong_width content.now }
{
    walk(content).any(|f| other_width(f.fid, f.len))
}

// The item of a row stands whole between two places, and is a value.
fn item_good(content: &[u8], row: usize, pos: usize, end: usize) -> bool
    requires { (row < 379) × (pos ≤ end) × (end ≤ length content.now) }
    ensures { (result ≡ item_good (row_at row) (drop pos (take end content.now)))
        × (result ≡ true → pos + (row_at row).width ≤ end) }
{
    let width = width_at(row);
    width <= end - pos && is_value(kind_at(row), scale_at(row), &content[pos..pos + width])
}

// Refusal 9: fields in order, items in each, up to the first item that is wrong. Fields with an unknown FID pass.
pub fn walk_items(content: &[u8]) -> Result<(), Refusal>
    ensures { result ≡ walk_of content.now }
{
    let mut at: usize = 0;
    'walk: loop {
        let n = field_size(content, at);
        if n == 0 {
            break 'walk Ok(());
        }
        let end = at + n;
        let fid = be32(content, at);
        if LAST_FID < fid {
            at = end; // an unknown field passes
            continue 'walk;
        }
        let mut pos = at + 6;
        'items: for row in start_of(size32(fid))..end_of(size32(fid)) {
            if !item_good(content, row, pos, end) {
                break 'walk Err(Refusal::Item);
            }
            pos += width_at(row);
        }
        at = end;
    }
}

// Refusal 9 as a test: some item is not a value of its type.
#[tactic(auto, unfolding(crate::specs::Items::wrong_item))]
pub fn wrong_item(content: &[u8]) -> bool
    ensures { result ≡ wrong_item content.now }
{
    walk_items(content).is_err()
}

// Refusal 8 over all fields first, then refusal 9.
pub fn check_items(content: &[u8]) -> Result<(), Refusal>
    ensures { result ≡ check_of content.now }
{
    if wrong_width(content) {
        return Err(Refusal::FieldLength);
    }
    walk_items(content)
}
