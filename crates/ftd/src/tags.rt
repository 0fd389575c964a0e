// The extension of a packet: a run of tags, each a kind byte, a length byte and that many bytes of data (4.1).
ghost use Rattle.std.specs.Prelude.{◌≡◌, ◌+◌, ◌-◌, ◌≤◌, length, drop};
ghost use Rattle.ftd.specs.Runs.{front};
ghost use Rattle.ftd.specs.Tags.{tag, length_right, count_kind, good_tags, tag_run_of, tag_place, TagInside};
ghost use Rattle.ftd.specs.Tags.{trade_date_of, packet_place_of, keep_alive_of, tags_for, place_tag, tag_bytes, extension_bytes};
ghost use Rattle.ftd.specs.Tags.Helpers.{KnownRow, data_place, SeenTag, tags_from};
ghost use Rattle.std.specs.Iterator.{YieldsFirst, item_count};
ghost use Rattle.ftd.specs.Bytes.{put};

use crate::bytes::{be16, be32, put8, put16, put32, size8};
use crate::packet::Span;

// The length of each known tag's data: kinds 0x00 to 0x06, and 0x70.
static LENGTH: [u8; 8] = [0, 4, 1, 1, 0, 4, 2, 2];

// What the extension check finds: refusal 2, or the trade date and the packet's place.
#[derive(Clone, Copy)]
pub struct TagRun {
    pub date: Option<u32>,
    pub place: Option<u16>,
}

// A tag of an extension: its kind, and where its data lies.
#[derive(Clone, Copy)]
struct TagPlace {
    kind: u8,
    start: usize,
    len: usize,
}

// How many bytes the tag at a place takes; 0 where none stands there whole.
pub fn tag_size(extension: &[u8], at: usize) -> usize
    ensures { (result ≡ front tag (drop at extension.now)) × (result ≤ length extension.now - at) }
{
    if extension.len() < at {
        return 0;
    }
    let left = extension.len() - at;
    if left < 2 {
        return 0;
    }
    let n = 2 + size8(extension[at + 1]);
    if left < n {
        return 0;
    }
    n
}

// The tags of an extension, in order, up to the first place where none stands whole.
#[derive(Drop)]
struct Tags<'a> {
    extension: &'a [u8],
    at: usize,
}

impl<'a> Iterator for Tags<'a> {
    type Item = TagPlace;

    ghost next_gives = { YieldsFirst (λ s. tags_from s.extension.now s.at) };

    ghost remaining = { item_count (λ s. tags_from s.extension.now s.at) };

    fn next(&mut self) -> Option<TagPlace> {
        let n = tag_size(self.extension, self.at);
        if n == 0 {
            return None;
        }
        let found = TagPlace {
            kind: self.extension[self.at],
            start: self.at + 2,
            len: n - 2,
        };
        self.at += n;
        Some(found)
    }
}

// Those of the whole extension.
fn each_tag(extension: &[u8]) -> Tags<'_>
    ensures { (result.extension.now ≡ extension.now) × (result.at ≡ 0) }
{
    Tags { extension, at: 0 }
}

// The row of a kind in the table: the first seven kinds are their rows, the last is 0x70; 8 where it has none.
fn row_of(kind: u8) -> usize
    ensures { KnownRow kind result }
{
    if kind < 7 {
        return size8(kind);
    }
    if kind == 0x70 {
        return 7;
    }
    8
}

// A known kind has the length of the table; of any other kind each length is right.
pub fn length_right(kind: u8, len: u8) -> bool
    ensures { result ≡ length_right kind len }
{
    let row = row_of(kind);
    row == 8 || LENGTH[row] == len
}

// One more where the kind is the one that is counted.
fn count_kind(counted: u8, kind: u8, n: usize) -> usize
    requires { n + 1 ≤ 18446744073709551615 }
    ensures { (result ≡ count_kind counted kind n) × (result ≤ n + 1) }
{
    if kind == counted {
        return n + 1;
    }
    n
}

// Where the data of a tag lies that starts at a place, if its kind is the one that is counted; else where that of the
// one seen before does.
fn data_place(counted: u8, kind: u8, place: usize, at: usize) -> usize
    requires { at + 2 ≤ 18446744073709551615 }
    ensures { result ≡ data_place counted kind place at }
{
    if kind == counted {
        return at + 2;
    }
    place
}

// The trade date that a walk over the tags has seen: none, or one.
fn seen_date(extension: &[u8], dates: usize, place: usize) -> Option<u32>
    requires { SeenTag extension.now 0x05 4 dates place × (dates ≤ 1) }
    ensures { result ≡ trade_date_of extension.now }
{
    if dates == 0 {
        return None;
    }
    Some(be32(extension, place))
}

// The packet's place that it has seen.
fn seen_place(extension: &[u8], places: usize, place: usize) -> Option<u16>
    requires { SeenTag extension.now 0x70 2 places place × (places ≤ 1) }
    ensures { result ≡ packet_place_of extension.now }
{
    if places == 0 {
        return None;
    }
    Some(be16(extension, place))
}

// Stays: it asks where the tags end too, which `Tags` does not yield.
// The extension check, the trade date and the packet's place, in one walk: tags end with the extension, known ones have
// their lengths, 0x05 and 0x70 stand once at most.
pub fn read_tags(extension: &[u8]) -> Option<TagRun>
    ensures { result ≡ tag_run_of extension.now }
{
    let mut at: usize = 0;
    let mut dates: usize = 0;
    let mut date: usize = 0;
    let mut places: usize = 0;
    let mut place: usize = 0;
    loop {
        let n = tag_size(extension, at);
        if n == 0 {
            if at < extension.len() || 1 < dates || 1 < places {
                return None;
            }
            return Some(TagRun {
                date: seen_date(extension, dates, date),
                place: seen_place(extension, places, place),
            });
        }
        let kind = extension[at];
        if !length_right(kind, extension[at + 1]) {
            return None;
        }
        dates = count_kind(0x05, kind, dates);
        date = data_place(0x05, kind, date, at);
        places = count_kind(0x70, kind, places);
        place = data_place(0x70, kind, place, at);
        at += n;
    }
}

// The extension check alone, for the writers.
#[tactic(auto, unfolding(crate::specs::Tags::tag_run_of))]
pub fn good_tags(extension: &[u8]) -> bool
    ensures { result ≡ good_tags extension.now }
{
    read_tags(extension).is_some()
}

// The data of the first tag of a kind.
pub fn find_tag(extension: &[u8], kind: u8) -> Option<Span>
    ensures { (result ≡ tag_place extension.now kind) × TagInside extension.now result }
{
    each_tag(extension).find(|t| t.kind == kind).map(|t| Span {
        start: t.start,
        len: t.len,
    })
}

// The trade date that the extension bears: the first tag 0x05, if it has its four bytes.
#[tactic(auto, unfolding(crate::specs::Tags::trade_date_of))]
pub fn trade_date(extension: &[u8]) -> Option<u32>
    ensures { result ≡ trade_date_of extension.now }
{
    let Span { start, len } = find_tag(extension, 0x05)?;
    if len != 4 {
        return None;
    }
    Some(be32(extension, start))
}

// The extension has the keep-alive tag 0x04.
#[tactic(auto, unfolding(crate::specs::Tags::keep_alive_of))]
pub fn keep_alive(extension: &[u8]) -> bool
    ensures { result ≡ keep_alive_of extension.now }
{
    find_tag(extension, 0x04).is_some()
}

// The trade date as the only tag, or none.
pub(crate) fn put_tags(out: &mut [u8], to: usize, date: Option<u32>)
    requires { to + length (extension_bytes (tags_for date)) ≤ length out.old }
    ensures { out.new ≡ put out.old to (extension_bytes (tags_for date)) }
{
    if let Some(d) = date {
        put8(out, to, 0x05);
        put8(out, to + 1, 4);
        put32(out, to + 2, d);
    }
}

// The bytes that it takes.
pub(crate) fn tags_len(date: Option<u32>) -> usize
    ensures { (result ≡ length (extension_bytes (tags_for date))) × (result ≤ 6) }
{
    if date.is_some() { 6 } else { 0 }
}

// The tag of a packet's place.
pub(crate) fn put_place(out: &mut [u8], to: usize, place: u16)
    requires { to + 4 ≤ length out.old }
    ensures { out.new ≡ put out.old to (tag_bytes (place_tag place)) }
{
    put8(out, to, 0x70);
    put8(out, to + 1, 2);
    put16(out, to + 2, place);
}
