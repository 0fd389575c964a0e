// A frame read with the expected number: next, again, gap, reset, or refused.
ghost use Rattle.fix.specs.Types.{some_frame};
ghost use Rattle.std.specs.Prelude.{◌≡◌, ◌+◌, ◌≤◌, length};
ghost use Rattle.fix.specs.Frame.{if_whole};
ghost use Rattle.fix.specs.Read.{moved_to, message_with, numbered_of, judged_of, framed_of, read_of, reading};
ghost use Rattle.fix.specs.declared.read.Judged.TheVariants.{Refused as Turned};
ghost use Rattle.fix.specs.FieldPlaces.{MovesIn};

use crate::fields::{Front, first_field, number_at};
use crate::frame::{Frame, outline_of};
use crate::kinds::{Kind, first_tag, is_reset, kind_of, second_tag};
use crate::tags::MSG_SEQ_NUM;
use crate::tally::{numbers_wrong, tags_wrong, walk};
use ftd::packet::Span;
use ftd::refusal::Refusal;

// What a frame says: its type, the place of the type's text and of the fields, the number of 34, the type's own values,
// the text of the first, and whether 123 says Y.
#[derive(Clone, Copy)]
pub struct Message {
    pub kind: Kind,
    pub name: Span,
    pub fields: Span,
    pub number: u32,
    pub first: u32,
    pub second: u32,
    pub text: Span,
    pub fill: bool,
}

// How a frame is judged.
// Stays: five outcomes that callers tell apart in one match, as specs/Read.antt names them; a Result round them
// would nest it.
#[derive(Clone, Copy)]
pub enum Judged {
    Refused(Refusal),
    Next(Message),
    Again(Message),
    Gap(Message),
    Reset(Message),
}

// The judgement, and the number that is expected then.
#[derive(Clone, Copy)]
pub struct Reading {
    pub expected: u32,
    pub answer: Judged,
}

// Refused, the expected number stays.
fn refused(expected: u32, r: Refusal) -> Reading
    ensures { result ≡ reading expected (Turned r) }
{
    Reading {
        expected,
        answer: Judged::Refused(r),
    }
}

// The place of a field's text in the whole bytes.
// Stays: place 0 and length 0 for no field is what `moved_to` of specs/Read.antt says.
fn moved(at: usize, f: Option<Front>) -> Span
    requires { MovesIn at f }
    ensures { result ≡ moved_to at f }
{
    match f {
        None => Span { start: 0, len: 0 },
        Some(Front { start, len, .. }) => Span {
            start: at + start,
            len,
        },
    }
}

// What a frame says, `fill` by the walk over its fields.
fn message_of(b: &[u8], name: Span, fields: Span, kind: Kind, fill: bool) -> Message
    requires { fields.start + fields.len ≤ length b.now }
    ensures { (result ≡ message_with b.now name fields kind fill) × (result.number ≤ 999999999) }
{
    let run = &b[fields.start..fields.start + fields.len];
    let one = first_tag(kind);
    let two = second_tag(kind);
    let number = number_at(run, MSG_SEQ_NUM);
    let first = number_at(run, one);
    let second = number_at(run, two);
    let text = moved(fields.start, first_field(run, one));
    Message {
        kind,
        name,
        fields,
        number,
        first,
        second,
        text,
        fill,
    }
}

// By the number.
fn judge(m: Message, duplicate: bool, expected: u32) -> Reading
    requires { m.number ≤ 999999999 }
    ensures { result ≡ judged_of m duplicate expected }
{
    if is_reset(m.kind) && !m.fill {
        return Reading {
            expected,
            answer: Judged::Reset(m),
        };
    }
    numbered(m, duplicate, expected)
}

fn numbered(m: Message, duplicate: bool, expected: u32) -> Reading
    requires { m.number ≤ 999999999 }
    ensures { result ≡ numbered_of m duplicate expected }
{
    if m.number == expected {
        return Reading {
            expected: expected + 1,
            answer: Judged::Next(m),
        };
    }
    if expected < m.number {
        return Reading {
            expected,
            answer: Judged::Gap(m),
        };
    }
    if duplicate {
        return Reading {
            expected,
            answer: Judged::Again(m),
        };
    }
    refused(expected, Refusal::LowNumber)
}

// The frame's fields: 28, 29, then the judgement.
fn read_framed(b: &[u8], name: Span, fields: Span, expected: u32) -> Reading
    requires { (name.start + name.len ≤ length b.now) × (fields.start + fields.len ≤ length b.now) }
    ensures { result ≡ framed_of b.now expected (if_whole b.now (some_frame name fields)) }
{
    let kind = kind_of(&b[name.start..name.start + name.len]);
    let w = walk(&b[fields.start..fields.start + fields.len], kind);
    if !w.whole || numbers_wrong(kind, w.tally) {
        return refused(expected, Refusal::NotOneFrame);
    }
    if tags_wrong(kind, w.tally) {
        return refused(expected, Refusal::RequiredTag);
    }
    let m = message_of(b, name, fields, kind, w.tally.fill);
    judge(m, w.tally.duplicate, expected)
}

// One frame, read with the expected number.
pub fn read(b: &[u8], expected: u32) -> Reading
    ensures { result ≡ read_of b.now expected }
{
    let Some(Frame { name, fields }) = outline_of(b) else {
        return refused(expected, Refusal::NotOneFrame);
    };
    read_framed(b, name, fields, expected)
}
