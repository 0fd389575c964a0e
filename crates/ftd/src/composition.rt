// Make-up: how often each field occurs in a message, by Appendix E of the standard.
ghost use Rattle.std.specs.Prelude.{ℕ, List, ◌≡◌, ◌+◌, ◌<◌};
ghost use Rattle.ftd.specs.Fields.{count_of};
ghost use Rattle.ftd.specs.Composition.Rule.{CompositionRule};
ghost use Rattle.ftd.specs.Composition.Helpers.{line_of};
ghost use Rattle.ftd.specs.Composition.{direction_of, in_range, appendix_e, line_at, line_holds, all_hold, composed};

use crate::bytes::{number16, size8};
use crate::fields::count_field;

// The lines of Appendix E in columns, in the paper's order: TID, direction (0 up, 1 down), FID, least and most count
// (0: unlimited).
static TID: [u16; 82] = [
    0x0001, // Error down
    0x0001, // Error down
    0x0001, // Error down
    0x1005, // ForceExit down
    0x2007, // InstrumentChangeNotify down
    0x2007, // InstrumentChangeNotify down
    0x2006, // InstrumentStatusChangeNotify down
    0x2006, // InstrumentStatusChangeNotify down
    0x2003, // MarketBulletin down
    0x2004, // MarketMatchData down
    0x2004, // MarketMatchData down
    0x2002, // MarketMatchIncData down
    0x2002, // MarketMatchIncData down
    0x2001, // MarketOrderIncData down
    0x2001, // MarketOrderIncData down
    0x2005, // MarketStatusChangeNotify down
    0x2005, // MarketStatusChangeNotify down
    0x1003, // OrderConfirmation down
    0x1003, // OrderConfirmation down
    0x1002, // ParticipantBulletin down
    0x0004, // ReqOrderAction up
    0x0003, // ReqOrderInsert up
    0x000C, // ReqQryClient up
    0x0008, // ReqQryDeposit up
    0x0005, // ReqQryInstrument up
    0x000E, // ReqQryInstrumentStatus up
    0x000B, // ReqQryMarket up
    0x0002, // ReqQryMarketMatchData up
    0x0012, // ReqQryMarketOrderData up
    0x000D, // ReqQryMarketStatus up
    0x0006, // ReqQryOrder up
    0x0013, // ReqQryParticipant up
    0x000A, // ReqQryPosition up
    0x0009, // ReqQryPPosition up
    0x0007, // ReqQryTrade up
    0x0014, // ReqQryUser up
    0x0015, // ReqQryUserLogin up
    0x0016, // ReqUserLogin up
    0x0016, // ReqUserLogin up
    0x0017, // ReqUserLogout up
    0x0018, // ReqUserPasswordUpdate up
    0x0004, // RspOrderAction down
    0x0004, // RspOrderAction down
    0x0003, // RspOrderInsert down
    0x0003, // RspOrderInsert down
    0x000C, // RspQryClient down
    0x000C, // RspQryClient down
    0x0008, // RspQryDeposit down
    0x0008, // RspQryDeposit down
    0x0005, // RspQryInstrument down
    0x0005, // RspQryInstrument down
    0x000E, // RspQryInstrumentStatus down
    0x000E, // RspQryInstrumentStatus down
    0x000B, // RspQryMarket down
    0x000B, // RspQryMarket down
    0x0002, // RspQryMarketMatchData down
    0x0002, // RspQryMarketMatchData down
    0x0012, // RspQryMarketOrderData down
    0x0012, // RspQryMarketOrderData down
    0x000D, // RspQryMarketStatus down
    0x000D, // RspQryMarketStatus down
    0x0006, // RspQryOrder down
    0x0006, // RspQryOrder down
    0x0013, // RspQryParticipant down
    0x0013, // RspQryParticipant down
    0x000A, // RspQryPosition down
    0x000A, // RspQryPosition down
    0x0009, // RspQryPPosition down
    0x0009, // RspQryPPosition down
    0x0007, // RspQryTrade down
    0x0007, // RspQryTrade down
    0x0014, // RspQryUser down
    0x0014, // RspQryUser down
    0x0015, // RspQryUserLogin down
    0x0015, // RspQryUserLogin down
    0x0016, // RspUserLogin down
    0x0016, // RspUserLogin down
    0x0017, // RspUserLogout down
    0x0017, // RspUserLogout down
    0x0018, // RspUserPasswordUpdate down
    0x0018, // RspUserPasswordUpdate down
    0x1001, // TradeInsertSingle down
];

static DIRECTION: [u8; 82] = [
    1, 1, 1, 1, 1, 1, 1, 1, 1, 1, 1, 1, 1, 1, 1, 1, 1, 1, 1, 1, 0, 0, 0, 0, 0, 0, 0, 0, 0, 0, 0, 0,
    0, 0, 0, 0, 0, 0, 0, 0, 0, 1, 1, 1, 1, 1, 1, 1, 1, 1, 1, 1, 1, 1, 1, 1, 1, 1, 1, 1, 1, 1, 1, 1,
    1, 1, 1, 1, 1, 1, 1, 1, 1, 1, 1, 1, 1, 1, 1, 1, 1, 1,
];

static FID: [u16; 82] = [
    0x0005, // ErrorField
    0x002E, // ErrorTargetSequenceField
    0x002D, // ErrorTargetOrderField
    0x0006, // ForceExitField
    0x0007, // InstrumentField
    0x0005, // ErrorField
    0x0008, // InstrumentStatusField
    0x0005, // ErrorField
    0x0001, // BulletinField
    0x0013, // MarketMatchDataField
    0x0012, // MarketMatchDataChgField
    0x000A, // MarketMatchIncDataField
    0x0005, // ErrorField
    0x000D, // MarketOrderDataField
    0x0005, // ErrorField
    0x0009, // MarketStatusField
    0x0005, // ErrorField
    0x000E, // OrderStatusField
    0x0005, // ErrorField
    0x0001, // BulletinField
    0x000B, // OrderActionField
    0x000C, // OrderInsertField
    0x0014, // ReqQryClientField
    0x0015, // ReqQryDepositField
    0x0016, // ReqQryInstrumentField
    0x0017, // ReqQryInstrumentStatusField
    0x0018, // ReqQryMarketField
    0x001F, // ReqQryMarketMatchDataField
    0x001B, // ReqQryMarketOrderDataField
    0x0019, // ReqQryMarketStatusField
    0x001A, // ReqQryOrderField
    0x001C, // ReqQryParticipantField
    0x001D, // ReqQryPositionField
    0x001E, // ReqQryPPositionField
    0x0020, // ReqQryTradeField
    0x0021, // ReqQryUserField
    0x0022, // ReqQryUserLoginField
    0x0023, // ReqUserLoginField
    0x0004, // DisseminationstartField
    0x0024, // ReqUserLogoutField
    0x0025, // ReqUserPasswordUpdateField
    0x000B, // OrderActionField
    0x0005, // ErrorField
    0x000C, // OrderInsertField
    0x0005, // ErrorField
    0x0002, // ClientField
    0x0005, // ErrorField
    0x0003, // DepositField
    0x0005, // ErrorField
    0x0007, // InstrumentField
    0x0005, // ErrorField
    0x0008, // InstrumentStatusField
    0x0005, // ErrorField
    0x0026, // MarketField
    0x0005, // ErrorField
    0x0013, // MarketMatchDataField
    0x0005, // ErrorField
    0x000D, // MarketOrderDataField
    0x0005, // ErrorField
    0x0009, // MarketStatusField
    0x0005, // ErrorField
    0x000E, // OrderStatusField
    0x0005, // ErrorField
    0x000F, // ParticipantField
    0x0005, // ErrorField
    0x0010, // PositionField
    0x0005, // ErrorField
    0x0011, // PPositionField
    0x0005, // ErrorField
    0x002A, // TradeInsertSingleField
    0x0005, // ErrorField
    0x002B, // UserField
    0x0005, // ErrorField
    0x002C, // UserLoginField
    0x0005, // ErrorField
    0x0027, // RspUserLoginField
    0x0005, // ErrorField
    0x0028, // RspUserLogoutField
    0x0005, // ErrorField
    0x0029, // RspUserPasswordUpdateField
    0x0005, // ErrorField
    0x002A, // TradeInsertSingleField
];

static LEAST: [u8; 82] = [
    1, 0, 0, 1, 1, 0, 1, 0, 1, 0, 0, 1, 0, 1, 0, 1, 0, 1, 0, 1, 1, 1, 1, 1, 1, 1, 1, 1, 1, 1, 1, 1,
    1, 1, 1, 1, 1, 1, 0, 1, 1, 1, 0, 1, 0, 1, 0, 1, 0, 1, 0, 1, 0, 1, 0, 1, 0, 1, 0, 1, 0, 1, 0, 1,
    0, 1, 0, 1, 0, 1, 0, 1, 0, 1, 0, 1, 0, 1, 0, 1, 0, 1,
];

static MOST: [u8; 82] = [
    1, 1, 1, 1, 1, 1, 1, 1, 1, 0, 0, 0, 1, 0, 1, 1, 1, 1, 1, 1, 1, 1, 1, 1, 1, 1, 1, 1, 1, 1, 1, 1,
    1, 1, 1, 1, 1, 1, 1, 1, 1, 1, 1, 1, 1, 0, 1, 0, 1, 0, 1, 0, 1, 0, 1, 0, 1, 0, 1, 0, 1, 0, 1, 0,
    1, 0, 1, 0, 1, 0, 1, 0, 1, 0, 1, 1, 1, 1, 1, 1, 1, 1,
];

// Up: sent by the member. Down: sent by the exchange.
#[derive(Clone, Copy)]
pub enum Direction {
    Up = 0,
    Down = 1,
}

// The direction's number in the table.
pub(crate) fn direction_number(d: Direction) -> u8
    ensures { result ≡ direction_of d }
{
    d as u8
}

// A count is at least the least and at most the most; 0 as the most is no bound.
fn in_range(least: usize, most: usize, n: usize) -> bool
    ensures { result ≡ in_range least most n }
{
    least <= n && (most == 0 || n <= most)
}

// Line i of Appendix E is of the message.
fn line_of(i: usize, tid: u32, direction: u8) -> bool
    requires { i < 82 }
    ensures { result ≡ line_of (line_at i) tid direction }
{
    number16(TID[i]) == tid && DIRECTION[i] == direction
}

// The field of line i.
fn line_field(i: usize) -> u32
    requires { i < 82 }
    ensures { result ≡ (line_at i).fid }
{
    number16(FID[i])
}

// Line i allows a count of its field.
fn line_allows(i: usize, n: usize) -> bool
    requires { i < 82 }
    ensures { result ≡ in_range (line_at i).least (line_at i).most n }
{
    in_range(size8(LEAST[i]), size8(MOST[i]), n)
}

// Line i of Appendix E, if it is of the message, has its field as often as it says. `count` says how often a field
// occurs in the content.
fn line_holds<F: Fn(u32) -> usize>(i: usize, tid: u32, direction: u8, count: &F) -> bool
    requires { (i < 82) × F.IsAlwaysCallable count.now }
    ensures { (content : List ℕ) → ((fid n : ℕ) → F.post count.now fid n → n ≡ count_of fid content)
        → result ≡ line_holds (line_at i) tid direction content }
{
    !line_of(i, tid, direction) || line_allows(i, count(line_field(i)))
}

// All lines of Appendix E hold.
pub(crate) fn all_hold<F: Fn(u32) -> usize>(tid: u32, direction: u8, count: F) -> bool
    requires { F.IsAlwaysCallable count }
    ensures { (content : List ℕ) → ((fid n : ℕ) → F.post count fid n → n ≡ count_of fid content)
        → result ≡ all_hold appendix_e tid direction content }
{
    (0..82).all(|i| line_holds(i, tid, direction, &count))
}

// Row 10: each field that Appendix E lists for the message occurs as often as listed. The content is walked once for
// each line of the message, at most three times.
pub fn is_composed(tid: u32, direction: Direction, content: &[u8]) -> bool
    ensures { result ≡ composed tid direction content.now }
{
    all_hold(
        tid,
        direction_number(direction),
        |fid| count_field(content, fid),
    )
}

// The rule of the table, as a promise: each line's field is in Appendix D, its TID in Appendix A, no field twice for a
// message.
pub fn keeps_composition_rule()
    ensures { CompositionRule }
{}
