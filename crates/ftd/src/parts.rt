// The content check of a content that lies in two parts, one behind the other. Nothing is copied but a field that lies
// across both.
ghost use Rattle.std.specs.Prelude.{◌++◌, ◌≡◌, ◌+◌, ◌<◌, ◌≤◌, length, get_or, take, drop};
ghost use Rattle.ftd.specs.Runs.{front};
ghost use Rattle.ftd.specs.Fields.{field, shaped, count_of};
ghost use Rattle.ftd.specs.Items.{wrong_width, walk_of, check_of};
ghost use Rattle.ftd.specs.Composition.{composed};
ghost use Rattle.ftd.specs.Content.{content_check};
ghost use Rattle.ftd.specs.Content.Helpers.{WholeFields, three, Within};

use crate::bytes::{copy_at, size8};
use crate::composition::{Direction, all_hold, direction_number};
use crate::fields::{PACKET_CONTENT, count_field, field_size, is_shaped};
use crate::items::{walk_items, wrong_width};
use crate::refusal::Refusal;

// ─── Three parts, of which the first two are whole fields ───

// Refusal 7, within the limit: the last part is whole fields too, and no field has more than 4,074 bytes.
fn three_shaped(first: &[u8], across: &[u8], last: &[u8], limit: usize) -> bool
    requires { WholeFields first.now × WholeFields across.now
        × Within first.now across.now last.now limit }
    ensures { result ≡ shaped (three first.now across.now last.now) limit }
{
    is_shaped(first, limit) && is_shaped(across, limit) && is_shaped(last, limit)
}

// Refusal 8: some field with a known FID has another width.
fn three_wrong_width(first: &[u8], across: &[u8], last: &[u8]) -> bool
    requires { WholeFields first.now × WholeFields across.now }
    ensures { result ≡ wrong_width (three first.now across.now last.now) }
{
    wrong_width(first) || wrong_width(across) || wrong_width(last)
}

// Refusal 9: part by part, up to the first item that is wrong.
fn three_walk(first: &[u8], across: &[u8], last: &[u8]) -> Result<(), Refusal>
    requires { WholeFields first.now × WholeFields across.now }
    ensures { result ≡ walk_of (three first.now across.now last.now) }
{
    walk_items(first)?;
    walk_items(across)?;
    walk_items(last)
}

// Refusal 8 over all fields first, then refusal 9.
fn three_items(first: &[u8], across: &[u8], last: &[u8]) -> Result<(), Refusal>
    requires { WholeFields first.now × WholeFields across.now }
    ensures { result ≡ check_of (three first.now across.now last.now) }
{
    if three_wrong_width(first, across, last) {
        return Err(Refusal::FieldLength);
    }
    three_walk(first, across, last)
}

// How often a field occurs in the three.
fn three_count(first: &[u8], across: &[u8], last: &[u8], limit: usize, fid: u32) -> usize
    requires { WholeFields first.now × WholeFields across.now
        × Within first.now across.now last.now limit }
    ensures { result ≡ count_of fid (three first.now across.now last.now) }
{
    count_field(first, fid) + (count_field(across, fid) + count_field(last, fid))
}

// Row 10: each field that Appendix E lists for the message occurs as often as listed.
fn three_composed(
    tid: u32,
    direction: Direction,
    first: &[u8],
    across: &[u8],
    last: &[u8],
    limit: usize,
) -> bool
    requires { WholeFields first.now × WholeFields across.now
        × Within first.now across.now last.now limit }
    ensures { result ≡ composed tid direction
        (three first.now across.now last.now) }
{
    all_hold(tid, direction_number(direction), |fid| {
        three_count(first, across, last, limit, fid)
    })
}

// The content check of the three.
#[tactic(auto, unfolding(crate::specs::Content::content_check))]
fn check_three(
    tid: u32,
    direction: Direction,
    first: &[u8],
    across: &[u8],
    last: &[u8],
    limit: usize,
) -> Result<(), Refusal>
    requires { WholeFields first.now × WholeFields across.now
        × Within first.now across.now last.now limit }
    ensures { result ≡ content_check tid direction
        (three first.now across.now last.now) limit }
{
    if !three_shaped(first, across, last, limit) {
        return Err(Refusal::FieldRun);
    }
    three_items(first, across, last)?;
    if !three_composed(tid, direction, first, across, last, limit) {
        return Err(Refusal::Composition);
    }
    Ok(())
}

// ─── Two parts ───

// Stays: it answers where the fields end, which `fields::Fields` does not yield.
// How many bytes the whole fields at the front of a content take.
fn whole_fields(content: &[u8]) -> usize
    ensures { (result ≤ length content.now) × WholeFields (take result content.now)
        × (front field (drop result content.now) ≡ 0) }
{
    let mut at: usize = 0;
    loop {
        let n = field_size(content, at);
        if n == 0 {
            return at;
        }
        at += n;
    }
}

// Byte i of two parts.
fn byte_of(head: &[u8], tail: &[u8], i: usize) -> u8
    requires { i < length head.now + length tail.now }
    ensures { result ≡ get_or (head.now ++ tail.now) i 0 }
{
    if i < head.len() {
        return head[i];
    }
    tail[i - head.len()]
}

// How many bytes the field at the front of two parts takes; 0 where none stands there whole. `len` is their length.
fn size_across(head: &[u8], tail: &[u8], len: usize) -> usize
    requires { len ≡ length head.now + length tail.now }
    ensures { (result ≡ front field (head.now ++ tail.now)) × (result ≤ len) }
{
    if len < 6 {
        return 0;
    }
    let n = 6 + (size8(byte_of(head, tail, 4)) * 256 + size8(byte_of(head, tail, 5)));
    if len < n {
        return 0;
    }
    n
}

// The field that lies across, put together of its start and the rest of it, between whole fields and what is behind.
// It has at most 4,080 bytes with its FID and length: a longer one is refused 7.
fn check_joined(
    tid: u32,
    direction: Direction,
    first: &[u8],
    start: &[u8],
    more: &[u8],
    last: &[u8],
    limit: usize,
) -> Result<(), Refusal>
    requires { WholeFields first.now × WholeFields (start.now ++ more.now)
        × (length start.now + length more.now ≤ 4080)
        × (length first.now + ((length start.now + length more.now) + length last.now) ≤ limit) }
    ensures { result ≡ content_check tid direction
        (three first.now (start.now ++ more.now) last.now) limit }
{
    let mut across = [0u8; 4080];
    copy_at(&mut across, 0, start);
    copy_at(&mut across, start.len(), more);
    let n = start.len() + more.len();
    check_three(tid, direction, first, &across[..n], last, limit)
}

// Where a field lies across: whole fields, its start, and the tail, which has the rest of it.
fn check_across(
    tid: u32,
    direction: Direction,
    first: &[u8],
    start: &[u8],
    tail: &[u8],
    limit: usize,
) -> Result<(), Refusal>
    requires { WholeFields first.now × (front field start.now ≡ 0) × (0 < length start.now)
        × Within first.now start.now tail.now limit }
    ensures { result ≡ content_check tid direction
        (three first.now start.now tail.now) limit }
{
    let n = size_across(start, tail, start.len() + tail.len());
    if n == 0 || PACKET_CONTENT < n {
        return Err(Refusal::FieldRun);
    }
    let more = n - start.len();
    check_joined(
        tid,
        direction,
        first,
        start,
        &tail[..more],
        &tail[more..],
        limit,
    )
}

// The first refusal of a content that is given for a message, or none, where the content lies in two parts.
pub fn check_parts(
    tid: u32,
    direction: Direction,
    head: &[u8],
    tail: &[u8],
    limit: usize,
) -> Result<(), Refusal>
    ensures { result ≡ content_check tid direction (head.now ++ tail.now) limit }
{
    if limit < head.len() || limit - head.len() < tail.len() {
        return Err(Refusal::FieldRun);
    }
    let whole = whole_fields(head);
    if whole == head.len() {
        return check_three(tid, direction, head, &tail[..0], tail, limit);
    }
    check_across(tid, direction, &head[..whole], &head[whole..], tail, limit)
}
