// What one walk over the fields of a message keeps: whether numbers are wrong, and how often tags occur.
ghost use Rattle.std.specs.Prelude.{◌≡◌, ◌&&◌, ◌≤◌};
ghost use Rattle.fix.specs.Kinds.{is_number_tag};
ghost use Rattle.fix.specs.Tally.{one_more, greater_with, greater as greater_of, lesser_with, lesser as lesser_of};
ghost use Rattle.fix.specs.Tally.{is_frame_tag, no_tally, tallied_with};
ghost use Rattle.fix.specs.Tally.{walked_of, numbers_wrong, is_own_wrong, session_wrong, tags_wrong};

use crate::fields::{Front, front_at, last_of, no_last};
use crate::kinds::{Kind, first_tag, is_number_tag, is_other, is_resend, second_tag};
use crate::tags::{
    BEGIN_SEQ_NO, BEGIN_STRING, BODY_LENGTH, CHECK_SUM, END_SEQ_NO, GAP_FILL_FLAG, MSG_SEQ_NUM,
    MSG_TYPE, POSS_DUP_FLAG, SENDER_COMP_ID, SENDING_TIME, TARGET_COMP_ID,
};
use crate::text::{is_yes, number_in};

// Stays: 2 for more is what `one_more` of specs/Tally.antt says, and 1,000,000,000 for no last number `no_tally`.
// How often tags occur is 0, 1, or 2 for more; of the range of a resend request the greatest first number and the least
// last one that isn't 0.
#[derive(Clone, Copy)]
pub(crate) struct Tally {
    pub odd: bool,
    pub frame: bool,
    pub sender: u8,
    pub target: u8,
    pub number: u8,
    pub time: u8,
    pub one: u8,
    pub two: u8,
    pub flag: u8,
    pub duplicate: bool,
    pub fill: bool,
    pub first: u32,
    pub last: u32,
}

// Whether a run is whole fields, and its tally.
#[derive(Clone, Copy)]
pub(crate) struct Walked {
    pub whole: bool,
    pub tally: Tally,
}

fn no_tally() -> Tally
    ensures { result ≡ no_tally }
{
    Tally {
        odd: false,
        frame: false,
        sender: 0,
        target: 0,
        number: 0,
        time: 0,
        one: 0,
        two: 0,
        flag: 0,
        duplicate: false,
        fill: false,
        first: 0,
        last: 1000000000,
    }
}

#[tactic(auto, unfolding(crate::specs::Tally::one_more))]
fn one_more(n: u8, hit: bool) -> u8
    ensures { result ≡ one_more n hit }
{
    if !hit {
        n
    } else if n == 0 {
        1
    } else {
        2
    }
}

fn greater_with(n: u32, x: Option<u32>) -> u32
    ensures { result ≡ greater_with n x }
{
    match x {
        None => n,
        Some(m) => n.max(m),
    }
}

#[tactic(auto, unfolding(crate::specs::Tally::greater))]
fn greater(n: u32, hit: bool, x: Option<u32>) -> u32
    ensures { result ≡ greater_of n hit x }
{
    if hit { greater_with(n, x) } else { n }
}

fn lesser_with(n: u32, x: Option<u32>) -> u32
    ensures { result ≡ lesser_with n x }
{
    match x {
        None | Some(0) => n,
        Some(m) => n.min(m),
    }
}

#[tactic(auto, unfolding(crate::specs::Tally::lesser))]
fn lesser(n: u32, hit: bool, x: Option<u32>) -> u32
    ensures { result ≡ lesser_of n hit x }
{
    if hit { lesser_with(n, x) } else { n }
}

#[tactic(auto, unfolding(crate::specs::Tally::is_frame_tag))]
fn is_frame_tag(tag: u32) -> bool
    ensures { result ≡ is_frame_tag tag }
{
    matches!(tag, BEGIN_STRING | BODY_LENGTH | MSG_TYPE | CHECK_SUM)
}

// One field more, by its tag, its text as a number, and whether it says Y.
#[tactic(auto, unfolding(crate::specs::Tally::tallied_with))]
fn tallied(kind: Kind, t: Tally, tag: u32, x: Option<u32>, yes: bool) -> Tally
    ensures { result ≡ tallied_with kind t tag x yes }
{
    Tally {
        odd: t.odd || (is_number_tag(kind, tag) && x.is_none()),
        frame: t.frame || is_frame_tag(tag),
        sender: one_more(t.sender, tag == SENDER_COMP_ID),
        target: one_more(t.target, tag == TARGET_COMP_ID),
        number: one_more(t.number, tag == MSG_SEQ_NUM),
        time: one_more(t.time, tag == SENDING_TIME),
        one: one_more(t.one, tag == first_tag(kind)),
        two: one_more(t.two, tag == second_tag(kind)),
        flag: one_more(t.flag, tag == POSS_DUP_FLAG),
        duplicate: t.duplicate || (tag == POSS_DUP_FLAG && yes),
        fill: t.fill || (tag == GAP_FILL_FLAG && yes),
        first: greater(t.first, tag == BEGIN_SEQ_NO, x),
        last: lesser(t.last, tag == END_SEQ_NO, x),
    }
}

// The walk.
pub(crate) fn walk(run: &[u8], kind: Kind) -> Walked
    ensures { result ≡ walked_of kind run.now }
{
    let mut at: usize = 0;
    let mut last = no_last();
    let mut tally = no_tally();
    loop {
        let Some(Front { tag, start, len }) = front_at(last, run, at) else {
            return Walked {
                whole: at == run.len(),
                tally,
            };
        };
        let from = at + start;
        let to = from + len;
        let text = &run[from..to];
        tally = tallied(kind, tally, tag, number_in(text), is_yes(text));
        last = last_of(tag, text);
        at = to + 1;
    }
}

// 28: a number that is none, or a wrong range.
#[tactic(auto, unfolding(crate::specs::Tally::numbers_wrong))]
pub(crate) fn numbers_wrong(kind: Kind, t: Tally) -> bool
    ensures { result ≡ numbers_wrong kind t }
{
    t.odd || (is_resend(kind) && t.last < t.first)
}

#[tactic(auto, unfolding(crate::specs::Tally::is_own_wrong))]
fn is_own_wrong(tag: u32, n: u8) -> bool
    ensures { result ≡ is_own_wrong tag n }
{
    tag != 0 && n != 1
}

#[tactic(auto, unfolding(crate::specs::Tally::session_wrong))]
fn session_wrong(kind: Kind, t: Tally) -> bool
    ensures { result ≡ session_wrong kind t }
{
    !is_other(kind)
        && (t.sender != 1
            || t.target != 1
            || t.time != 1
            || is_own_wrong(first_tag(kind), t.one)
            || is_own_wrong(second_tag(kind), t.two))
}

// 29: a required tag missing, it or the flag twice.
#[tactic(auto, unfolding(crate::specs::Tally::tags_wrong))]
pub(crate) fn tags_wrong(kind: Kind, t: Tally) -> bool
    ensures { result ≡ tags_wrong kind t }
{
    t.frame || t.number != 1 || 1 < t.flag || session_wrong(kind, t)
}
