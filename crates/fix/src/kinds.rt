// The six types of messages that are looked into, and their tags.
ghost use Rattle.std.specs.Prelude.{◌≡◌};
ghost use Rattle.fix.specs.Kinds.{kind_for, kind_of, session_number, logon_number, resend_number, is_number_tag};
ghost use Rattle.fix.specs.Kinds.{first_tag, second_tag, is_resend, is_reset, is_other};

use crate::tags::{
    BEGIN_SEQ_NO, ENCODED_TEXT_LEN, ENCRYPT_METHOD, END_SEQ_NO, HEART_BT_INT,
    LAST_MSG_SEQ_NUM_PROCESSED, MAX_MESSAGE_SIZE, MSG_SEQ_NUM, NEW_SEQ_NO, NO_MSG_TYPES,
    RAW_DATA_LENGTH, SECURE_DATA_LEN, SIGNATURE_LENGTH, TEST_REQ_ID,
};

// The type of a message: one of the six, or another.
#[derive(Clone, Copy)]
pub enum Kind {
    Heartbeat,
    TestRequest,
    ResendRequest,
    SequenceReset,
    Logout,
    Logon,
    Other,
}

// The type of one byte.
#[tactic(auto, unfolding(crate::specs::Kinds::kind_for))]
fn kind_for(c: u8) -> Kind
    ensures { result ≡ kind_for c }
{
    match c {
        b'0' => Kind::Heartbeat,
        b'1' => Kind::TestRequest,
        b'2' => Kind::ResendRequest,
        b'4' => Kind::SequenceReset,
        b'5' => Kind::Logout,
        b'A' => Kind::Logon,
        _ => Kind::Other,
    }
}

// Which type a text is.
#[tactic(auto, unfolding(crate::specs::Kinds::kind_of))]
pub(crate) fn kind_of(name: &[u8]) -> Kind
    ensures { result ≡ kind_of name.now }
{
    match name {
        [c] => kind_for(*c),
        _ => Kind::Other,
    }
}

// Numbers of header and trailer.
#[tactic(auto, unfolding(crate::specs::Kinds::session_number))]
fn session_number(tag: u32) -> bool
    ensures { result ≡ session_number tag }
{
    matches!(
        tag,
        MSG_SEQ_NUM | SECURE_DATA_LEN | SIGNATURE_LENGTH | LAST_MSG_SEQ_NUM_PROCESSED
    )
}

#[tactic(auto, unfolding(crate::specs::Kinds::logon_number))]
fn logon_number(tag: u32) -> bool
    ensures { result ≡ logon_number tag }
{
    matches!(
        tag,
        ENCRYPT_METHOD | HEART_BT_INT | RAW_DATA_LENGTH | MAX_MESSAGE_SIZE | NO_MSG_TYPES
    )
}

#[tactic(auto, unfolding(crate::specs::Kinds::resend_number))]
fn resend_number(tag: u32) -> bool
    ensures { result ≡ resend_number tag }
{
    matches!(tag, BEGIN_SEQ_NO | END_SEQ_NO)
}

// The text of a tag is a number.
#[tactic(auto, unfolding(crate::specs::Kinds::is_number_tag))]
pub(crate) fn is_number_tag(kind: Kind, tag: u32) -> bool
    ensures { result ≡ is_number_tag kind tag }
{
    match kind {
        Kind::Heartbeat | Kind::TestRequest => session_number(tag),
        Kind::ResendRequest => session_number(tag) || resend_number(tag),
        Kind::SequenceReset => session_number(tag) || tag == NEW_SEQ_NO,
        Kind::Logout => session_number(tag) || tag == ENCODED_TEXT_LEN,
        Kind::Logon => session_number(tag) || logon_number(tag),
        Kind::Other => tag == MSG_SEQ_NUM,
    }
}

// The tag of the type's first own value, and of its second; 0 for none.
// Stays: 0 for none is what `first_tag` and `second_tag` of specs/Kinds.antt say.
pub(crate) fn first_tag(kind: Kind) -> u32
    ensures { result ≡ first_tag kind }
{
    match kind {
        Kind::TestRequest => TEST_REQ_ID,
        Kind::ResendRequest => BEGIN_SEQ_NO,
        Kind::SequenceReset => NEW_SEQ_NO,
        Kind::Logon => ENCRYPT_METHOD,
        _ => 0,
    }
}

pub(crate) fn second_tag(kind: Kind) -> u32
    ensures { result ≡ second_tag kind }
{
    match kind {
        Kind::ResendRequest => END_SEQ_NO,
        Kind::Logon => HEART_BT_INT,
        _ => 0,
    }
}

// A resend request; a sequence reset; none of the six.
pub(crate) fn is_resend(kind: Kind) -> bool
    ensures { result ≡ is_resend kind }
{
    matches!(kind, Kind::ResendRequest)
}

pub(crate) fn is_reset(kind: Kind) -> bool
    ensures { result ≡ is_reset kind }
{
    matches!(kind, Kind::SequenceReset)
}

pub(crate) fn is_other(kind: Kind) -> bool
    ensures { result ≡ is_other kind }
{
    matches!(kind, Kind::Other)
}
