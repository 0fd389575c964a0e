// The frame: where its type and its fields stand; put into an output.
ghost use Rattle.std.specs.Prelude.{◌≡◌, ◌++◌, ◌+◌, ◌-◌, ◌<◌, ◌≤◌, length, take, drop};
ghost use Rattle.ftd.specs.Bytes.{put};
ghost use Rattle.fix.specs.Text.{stands_at, sum_of, length_text};
ghost use Rattle.fix.specs.Frame.{begin_text, type_text, trailer, type_at, body_at, length_at, outline_of, FrameInside};
ghost use Rattle.fix.specs.Frame.{is_name, body_length, body_bytes, summed, frame_bytes};

use crate::text::{SOH, length_digits, put_length, put_sum, stands_at, sum_of, until};
use ftd::bytes::{copy_at, put8};
use ftd::packet::Span;

// A frame has at most so many bytes, and its body so many.
pub const MOST_FRAME: usize = 4096;

pub const MOST_BODY: usize = 4072;

// One whole frame: the places of its type and of its fields.
#[derive(Clone, Copy)]
pub struct Frame {
    pub name: Span,
    pub fields: Span,
}

// `8=FIX.4.2` SOH `9=` stands at the front.
fn begins_frame(b: &[u8]) -> bool
    ensures { result ≡ stands_at b.now 0 begin_text }
{
    stands_at(b, 0, b"8=FIX.4.2\x019=")
}

// SOH `35=` is put at a place.
fn put_type(out: &mut [u8], at: usize)
    requires { at + 4 ≤ length out.old }
    ensures { out.new ≡ put out.old at type_text }
{
    copy_at(out, at, b"\x0135=");
}

// `10=`, the sum and SOH are put at a place.
fn put_trailer(out: &mut [u8], at: usize, sum: u32)
    requires { at + 7 ≤ length out.old }
    ensures { out.new ≡ put out.old at (trailer sum) }
{
    copy_at(out, at, b"10=");
    put_sum(out, at + 3, sum);
    put8(out, at + 6, SOH);
}

// A body length, SOH and `35=` stand behind `9=`.
fn has_length(b: &[u8], size: usize) -> bool
    ensures { result ≡ stands_at b.now 12 (length_text size ++ type_text) }
{
    let mut text = [0u8; 8];
    let n = length_digits(size);
    put_length(&mut text, 0, size);
    put_type(&mut text, n);
    stands_at(b, 12, &text[..n + 4])
}

// The trailer of what stands before a place stands there.
fn has_trailer(b: &[u8], at: usize) -> bool
    requires { at ≤ length b.now }
    ensures { result ≡ stands_at b.now at (trailer (sum_of (take at b.now))) }
{
    let mut text = [0u8; 7];
    put_trailer(&mut text, 0, sum_of(&b[..at]));
    stands_at(b, at, &text)
}

// The type of t bytes in a body of so many, and the fields behind it.
#[tactic(auto, unfolding(crate::specs::Frame::type_at))]
fn type_at(b: &[u8], start: usize, size: usize, t: usize) -> Option<Frame>
    requires { (start + size ≤ length b.now) × (t ≤ length b.now) × (length b.now ≤ 4096) }
    ensures { (result ≡ type_at b.now start size t) × FrameInside b.now result }
{
    if t == 0 || size < 4 + t {
        return None;
    }
    Some(Frame {
        name: Span {
            start: start + 3,
            len: t,
        },
        fields: Span {
            start: start + 4 + t,
            len: size - (4 + t),
        },
    })
}

// The body behind a length of n bytes.
#[tactic(auto, unfolding(crate::specs::Frame::body_at))]
fn body_at(b: &[u8], n: usize, size: usize) -> Option<Frame>
    requires { (20 + n + size ≤ length b.now) × (length b.now ≤ 4096) }
    ensures { (result ≡ body_at b.now n size) × FrameInside b.now result }
{
    if has_length(b, size) && has_trailer(b, 13 + n + size) {
        type_at(b, 13 + n, size, until(b, 16 + n, SOH))
    } else {
        None
    }
}

// The length of n bytes, up to the next SOH.
#[tactic(auto, unfolding(crate::specs::Frame::length_at))]
fn length_at(b: &[u8], n: usize) -> Option<Frame>
    requires { (n ≤ length b.now) × (length b.now ≤ 4096) }
    ensures { (result ≡ length_at b.now n) × FrameInside b.now result }
{
    if b.len() < 24 + n {
        return None;
    }
    body_at(b, n, b.len() - (20 + n))
}

// All of a frame but that its fields have a cut.
pub(crate) fn outline_of(b: &[u8]) -> Option<Frame>
    ensures { (result ≡ outline_of b.now) × FrameInside b.now result }
{
    if MOST_FRAME < b.len() || !begins_frame(b) {
        return None;
    }
    length_at(b, until(b, 12, SOH))
}

// A type has a byte at least, and no SOH.
#[tactic(auto, unfolding(crate::specs::Frame::is_name))]
pub(crate) fn is_name(name: &[u8]) -> bool
    ensures { result ≡ is_name name.now }
{
    !name.is_empty() && until(name, 0, SOH) == name.len()
}

// SOH `35=`, the type, SOH and the fields are put at a place.
fn put_body(out: &mut [u8], at: usize, name: &[u8], run: &[u8])
    requires { at + (5 + length name.now + length run.now) ≤ length out.old }
    ensures { out.new ≡ put out.old at (body_bytes name.now run.now) }
{
    let t = name.len();
    put_type(out, at);
    copy_at(out, at + 4, name);
    put8(out, at + 4 + t, SOH);
    copy_at(out, at + 5 + t, run);
}

// All before the trailer, at the start of the output; the length has n digits.
fn put_summed(out: &mut [u8], size: usize, n: usize, name: &[u8], run: &[u8])
    requires { (20 + n + size ≤ length out.old) × (size ≡ body_length name.now run.now)
        × (n ≡ length (length_text size)) }
    ensures { out.new ≡ put out.old 0 (summed name.now run.now) }
{
    copy_at(out, 0, b"8=FIX.4.2\x019=");
    put_length(out, 12, size);
    put_body(out, 12 + n, name, run);
}

// The frame of a type and fields, at the start of an output that has room for it.
pub(crate) fn put_frame(out: &mut [u8], size: usize, n: usize, name: &[u8], run: &[u8])
    requires { (20 + n + size ≤ length out.old) × (size ≡ body_length name.now run.now)
        × (n ≡ length (length_text size)) }
    ensures { out.new ≡ put out.old 0 (frame_bytes name.now run.now) }
{
    let end = 13 + n + size;
    put_summed(out, size, n, name, run);
    let sum = sum_of(&out[..end]);
    put_trailer(out, end, sum);
}
