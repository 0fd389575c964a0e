// The kinds of items' types: Table 6, and the enumerations of Appendix B.
ghost use Rattle.std.specs.Prelude.{◌≡◌};
ghost use Rattle.ftd.specs.Table.{kinds};

// Stays: numbers, not an enum: is_value, char_fits, read_char and write_char take any u8 and say what each answers,
// and
// `all` gives the numbers as `kinds` of specs/Table.antt has them.
// Table 6: Char without an enumeration, Word, Int, String, Number, Float; and Date, which is FTDDate of Appendix B
// alone.
pub const CHAR: u8 = 0;

pub const WORD: u8 = 1;

pub const INT: u8 = 2;

pub const STRING: u8 = 3;

pub const NUMBER: u8 = 4;

pub const FLOAT: u8 = 5;

pub const DATE: u8 = 6;

// Char with an enumeration of Appendix B, by the values that it lists. A kind has the name of its first type.
// 0 1 2: FTDActionFlag, FTDDataFlowFlag, FTDMatchFlag, FTDTradeRight
pub const ACTION_FLAG: u8 = 7;
// 0 1: FTDBoolFlag, FTDClientType, FTDDirection, FTDNewsUrgency, FTDPubStyle, FTDVolumeType
pub const BOOL_FLAG: u8 = 8;
// 0: FTDForceExitCode, FTDInstrumentType, FTDInstrumentVersion, FTDStopCode, FTDTradeType, FTDUserStatus,
// FTDUserType
pub const FORCE_EXIT_CODE: u8 = 9;
// 1 3: FTDHedgeFlag
pub const HEDGE_FLAG: u8 = 10;
// 0 1 2 3 4: FTDInstrumentStatus, FTDMarketStatus, FTDParticipantType
pub const INSTRUMENT_STATUS: u8 = 11;
// 1 2 3 4 5: FTDMatchCondition
pub const MATCH_CONDITION: u8 = 12;
// 1 2 3 4 5 6 7: FTDMatchSession
pub const MATCH_SESSION: u8 = 13;
// 0 1 2 3: FTDOffsetFlag
pub const OFFSET_FLAG: u8 = 14;
// 0 1 2 3 4 5: FTDOrderStatus
pub const ORDER_STATUS: u8 = 15;
// 0 1 2 3 4 5 6: FTDOrderType
pub const ORDER_TYPE: u8 = 16;

// The kinds in order, as a promise.
pub fn all() -> [u8; 17]
    ensures { result ≡ kinds }
{
    [
        CHAR,
        WORD,
        INT,
        STRING,
        NUMBER,
        FLOAT,
        DATE,
        ACTION_FLAG,
        BOOL_FLAG,
        FORCE_EXIT_CODE,
        HEDGE_FLAG,
        INSTRUMENT_STATUS,
        MATCH_CONDITION,
        MATCH_SESSION,
        OFFSET_FLAG,
        ORDER_STATUS,
        ORDER_TYPE,
    ]
}
