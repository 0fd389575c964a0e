// A run of fields: TAG=TEXT and SOH, one behind the other; the text of a data field has the length that the field
// directly before it says.
ghost use Rattle.std.specs.Prelude.{◌≡◌, ◌+◌, ◌-◌, ◌<◌, ◌≤◌, length, drop};
ghost use Rattle.ftd.specs.Bytes.{part};
ghost use Rattle.fix.specs.Fields.{length_tag, last_of, no_last, text_length, closed, front_of, place_of, text_of};
ghost use Rattle.fix.specs.Fields.{first_of, fields_of, number_at};
ghost use Rattle.fix.specs.FieldPlaces.{FrontInside, PlaceInside};

use crate::tags::{
    ENCODED_TEXT, ENCODED_TEXT_LEN, RAW_DATA, RAW_DATA_LENGTH, SECURE_DATA, SECURE_DATA_LEN,
    SIGNATURE, SIGNATURE_LENGTH,
};
use crate::text::{SOH, number_in, plain_in, until};
use ftd::bytes::size32;

// The field directly before: its tag, and the number that its text is, or 0.
#[derive(Clone, Copy)]
pub(crate) struct Last {
    pub tag: u32,
    pub size: u32,
}

// A field: its tag, and place and length of its text.
#[derive(Clone, Copy)]
pub struct Front {
    pub tag: u32,
    pub start: usize,
    pub len: usize,
}

// The length tag of a data tag; 0 for every other tag.
// Stays: 0 for none is what `length_tag` of specs/Fields.antt says, and `no_last` for a field that none stands
// before.
#[tactic(auto, unfolding(crate::specs::Fields::length_tag))]
fn length_tag(tag: u32) -> u32
    ensures { result ≡ length_tag tag }
{
    match tag {
        SIGNATURE => SIGNATURE_LENGTH,
        SECURE_DATA => SECURE_DATA_LEN,
        RAW_DATA => RAW_DATA_LENGTH,
        ENCODED_TEXT => ENCODED_TEXT_LEN,
        _ => 0,
    }
}

// No field stands before.
pub(crate) fn no_last() -> Last
    ensures { result ≡ no_last }
{
    Last { tag: 0, size: 0 }
}

// A field for the one behind it.
pub(crate) fn last_of(tag: u32, text: &[u8]) -> Last
    ensures { result ≡ last_of tag text.now }
{
    Last {
        tag,
        size: number_in(text).unwrap_or(0),
    }
}

// How long the text is that stands from a place on; 0: there is none.
// Stays: 0 for none is what `text_length` of specs/Fields.antt says.
#[tactic(auto, unfolding(crate::specs::Fields::text_length))]
fn text_length(last: Last, tag: u32, s: &[u8], at: usize) -> usize
    ensures { result ≡ text_length last tag (drop at s.now) }
{
    let by = length_tag(tag);
    if by == 0 {
        until(s, at, SOH)
    } else if by == last.tag {
        size32(last.size)
    } else {
        0
    }
}

// A text of n bytes, at least one, from `start` on behind a place, with SOH behind it.
fn closed_at(tag: u32, start: usize, n: usize, s: &[u8], at: usize) -> Option<Front>
    requires { at + start ≤ length s.now }
    ensures { result ≡ closed tag start n (drop at s.now) }
{
    if n == 0 || s.len() - at - start <= n || s[at + start + n] != SOH {
        return None;
    }
    Some(Front { tag, start, len: n })
}

// The field that stands at a place, behind another.
pub(crate) fn front_at(last: Last, s: &[u8], at: usize) -> Option<Front>
    requires { at ≤ length s.now }
    ensures { (result ≡ front_of last (drop at s.now)) × FrontInside (length s.now - at) result }
{
    let e = until(s, at, b'=');
    if s.len() - at <= e {
        return None;
    }
    let past = at + e;
    let tag = plain_in(&s[at..past])?;
    closed_at(tag, e + 1, text_length(last, tag, s, past + 1), s, at)
}

// Field i of a run, counted from 0.
pub fn find_field(run: &[u8], i: usize) -> Option<Front>
    ensures { (result ≡ place_of run.now i) × PlaceInside run.now result }
{
    let mut at: usize = 0;
    let mut left = i;
    let mut last = no_last();
    loop {
        let Front { tag, start, len } = front_at(last, run, at)?;
        let from = at + start;
        if left == 0 {
            return Some(Front {
                tag,
                start: from,
                len,
            });
        }
        last = last_of(tag, &run[from..from + len]);
        at = from + len + 1;
        left -= 1;
    }
}

// The text of field i, a part of the lent run; no bytes where there is no such field.
pub fn field_text(run: &[u8], i: usize) -> &[u8]
    ensures { result.now ≡ text_of run.now i }
{
    match find_field(run, i) {
        None => &run[..0],
        Some(Front { start, len, .. }) => &run[start..start + len],
    }
}

// The first field of a run with a tag.
pub fn first_field(run: &[u8], tag: u32) -> Option<Front>
    ensures { (result ≡ first_of run.now tag) × PlaceInside run.now result }
{
    let mut at: usize = 0;
    let mut last = no_last();
    loop {
        let front = front_at(last, run, at)?;
        let from = at + front.start;
        if front.tag == tag {
            return Some(Front {
                start: from,
                ..front
            });
        }
        last = last_of(front.tag, &run[from..from + front.len]);
        at = from + front.len + 1;
    }
}

// The number of the first field with a tag; 0 where there is none, or no number.
pub fn number_at(run: &[u8], tag: u32) -> u32
    ensures { (result ≡ number_at tag (fields_of run.now)) × (result ≤ 999999999) }
{
    first_field(run, tag)
        .and_then(|one| number_in(&run[one.start..one.start + one.len]))
        .unwrap_or(0)
}
