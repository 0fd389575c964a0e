// Tags, by their names in FIX 4.2.

pub(crate) const BEGIN_SEQ_NO: u32 = 7;

pub(crate) const BEGIN_STRING: u32 = 8;

pub(crate) const BODY_LENGTH: u32 = 9;

pub(crate) const CHECK_SUM: u32 = 10;

pub(crate) const END_SEQ_NO: u32 = 16;

pub(crate) const MSG_SEQ_NUM: u32 = 34;

pub(crate) const MSG_TYPE: u32 = 35;

pub(crate) const NEW_SEQ_NO: u32 = 36;

pub(crate) const POSS_DUP_FLAG: u32 = 43;

pub(crate) const SENDER_COMP_ID: u32 = 49;

pub(crate) const SENDING_TIME: u32 = 52;

pub(crate) const TARGET_COMP_ID: u32 = 56;

pub(crate) const SIGNATURE: u32 = 89;

pub(crate) const SECURE_DATA_LEN: u32 = 90;

pub(crate) const SECURE_DATA: u32 = 91;

pub(crate) const SIGNATURE_LENGTH: u32 = 93;

pub(crate) const RAW_DATA_LENGTH: u32 = 95;

pub(crate) const RAW_DATA: u32 = 96;

pub(crate) const ENCRYPT_METHOD: u32 = 98;

pub(crate) const HEART_BT_INT: u32 = 108;

pub(crate) const TEST_REQ_ID: u32 = 112;

pub(crate) const GAP_FILL_FLAG: u32 = 123;

pub(crate) const ENCODED_TEXT_LEN: u32 = 354;

pub(crate) const ENCODED_TEXT: u32 = 355;

pub(crate) const LAST_MSG_SEQ_NUM_PROCESSED: u32 = 369;

pub(crate) const MAX_MESSAGE_SIZE: u32 = 383;

pub(crate) const NO_MSG_TYPES: u32 = 384;
