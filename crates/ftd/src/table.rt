// The table of Appendix D in columns: kind, width and decimals of each row, and where the rows of each field stand.
// A look-up takes no search: FIDs are 1 to 46, and START, COUNT and WIDE have an entry for each.
ghost use Rattle.std.specs.Prelude.{◌≡◌, ◌+◌, ◌<◌, ◌≤◌};
ghost use Rattle.ftd.specs.Table.Rule.{rows_place, TableRule, row_at};

use crate::bytes::{size8, size16};
use crate::kinds::{
    ACTION_FLAG, BOOL_FLAG, CHAR, DATE, FLOAT, FORCE_EXIT_CODE, HEDGE_FLAG, INSTRUMENT_STATUS, INT,
    MATCH_CONDITION, MATCH_SESSION, NUMBER, OFFSET_FLAG, ORDER_STATUS, ORDER_TYPE, STRING, WORD,
};

// The last FID of Appendix D.
pub(crate) const LAST_FID: u32 = 46;

// The kind of each row (src/kinds.rt has their names; specs/Table.antt names the rows).
static KIND: [u8; 379] = [
    STRING, // BulletinField NewsType: FTDNewsType
    BOOL_FLAG, // BulletinField NewsUrgency: FTDNewsUrgency
    STRING, // BulletinField SendTime: FTDTime
    STRING, // BulletinField Abstract: FTDStringType<80>
    STRING, // BulletinField ComeFrom: FTDStringType<20>
    STRING, // BulletinField MarketId: FTDMarketId
    STRING, // BulletinField Content: FTDStringType<500>
    STRING, // BulletinField URLLink: FTDStringType<200>
    STRING, // ClientField ClientId: FTDClientId
    STRING, // ClientField ParticipantId: FTDParticipantId
    STRING, // ClientField ClientName: FTDName
    BOOL_FLAG, // ClientField ClientType: FTDClientType
    ACTION_FLAG, // ClientField TradeRights: FTDTradeRight
    STRING, // DepositField ParticipantId: FTDParticipantId
    INSTRUMENT_STATUS, // DepositField ParticipantType: FTDParticipantType
    DATE, // DepositField TradeDate: FTDDate
    FLOAT, // DepositField InitMargin: FTDValue
    FLOAT, // DepositField BuySpecOpenUsedMargin: FTDValue
    FLOAT, // DepositField BuyHedgeOpenUsedMargin: FTDValue
    FLOAT, // DepositField SellSpecOpenUsedMargin: FTDValue
    FLOAT, // DepositField SellHedgeOpenUsedMargin: FTDValue
    FLOAT, // DepositField BuySpecOffsetProfit: FTDValue
    FLOAT, // DepositField BuyHedgeOffsetProfit: FTDValue
    FLOAT, // DepositField SellSpecOffsetProfit: FTDValue
    FLOAT, // DepositField SellHedgeOffsetProfit: FTDValue
    FLOAT, // DepositField BuySpecOpenFrozMargin: FTDValue
    FLOAT, // DepositField BuyHedgeOpenFrozMargin: FTDValue
    FLOAT, // DepositField SellSpecOpenFrozMargin: FTDValue
    FLOAT, // DepositField SellHedgeOpenFrozMargin: FTDValue
    FLOAT, // DepositField BuySpecOffsetMargin: FTDValue
    FLOAT, // DepositField BuyHedgeOffsetMargin: FTDValue
    FLOAT, // DepositField SellSpecOffsetMargin: FTDValue
    FLOAT, // DepositField SellHedgeOffsetMargin: FTDValue
    FLOAT, // DepositField BuySpecTurnOver: FTDValue
    FLOAT, // DepositField BuyHedgeTurnOver: FTDValue
    FLOAT, // DepositField SellSpecTurnOver: FTDValue
    FLOAT, // DepositField SellHedgeTurnOver: FTDValue
    FLOAT, // DepositField AddValue: FTDValue
    FLOAT, // DepositField DelValue: FTDValue
    FLOAT, // DepositField BalanceValue: FTDValue
    WORD, // DisseminationstartField SequenceSeries: FTDSequenceSeries
    INT, // DisseminationstartField SequenceNo: FTDSequenceNo
    STRING, // ErrorField ErrorCode: FTDErrorCode
    STRING, // ErrorField ErrorText: FTDStringType<100>
    STRING, // ErrorField TimeStamp: FTDTimeStamp
    STRING, // ErrorTargetOrderField OrderSysId: FTDSysOrderId
    STRING, // ErrorTargetOrderField OrderLocalId: FTDLocalId
    WORD, // ErrorTargetSequenceField SequenceSeries: FTDSequenceSeries
    INT, // ErrorTargetSequenceField SequenceNo: FTDSequenceNo
    FORCE_EXIT_CODE, // ForceExitField ForceExitCode: FTDForceExitCode
    STRING, // ForceExitField ForceExitMsg: FTDStringType<100>
    STRING, // InstrumentField MarketId: FTDMarketId
    STRING, // InstrumentField InstrumentId: FTDInstrumentId
    FORCE_EXIT_CODE, // InstrumentField InstrumentVersion: FTDInstrumentVersion
    STRING, // InstrumentField InstrumentName: FTDName
    CHAR, // InstrumentField ShortCutKey: FTDCharType
    DATE, // InstrumentField StartTrdDate: FTDDate
    DATE, // InstrumentField EndTrdDate: FTDDate
    FORCE_EXIT_CODE, // InstrumentField InstrumentType: FTDInstrumentType
    DATE, // InstrumentField EndDelvDate: FTDDate
    DATE, // InstrumentField StartDelvDate: FTDDate
    FORCE_EXIT_CODE, // InstrumentField InstrStopCode: FTDStopCode
    STRING, // InstrumentField Currency: FTDStringType<3>
    ACTION_FLAG, // InstrumentField TradeRights: FTDTradeRight
    BOOL_FLAG, // InstrumentField FuseRights: FTDBoolFlag
    INT, // InstrumentField Unit: FTDIntType
    FLOAT, // InstrumentField Tick: FTDPrice
    FLOAT, // InstrumentField HighLimitRate: FTDPercent
    FLOAT, // InstrumentField LowLimitRate: FTDPercent
    INT, // InstrumentField MaxLot: FTDVolume
    INT, // InstrumentField MinLot: FTDVolume
    BOOL_FLAG, // InstrumentField Pubstyle: FTDPubStyle
    FLOAT, // InstrumentField Fuselimit: FTDPrice
    INT, // InstrumentField Fusepersisttime: FTDIntType
    STRING, // InstrumentField Fusepoint: FTDStringType<6>
    BOOL_FLAG, // InstrumentField FuseFlag: FTDBoolFlag
    INT, // InstrumentField Forcedistime: FTDIntType
    STRING, // InstrumentStatusField InstrumentId: FTDInstrumentId
    INSTRUMENT_STATUS, // InstrumentStatusField InstrumentStatus: FTDInstrumentStatus
    STRING, // MarketField MarketId: FTDMarketId
    STRING, // MarketField MarketName: FTDName
    WORD, // MarketField BroadcastSequenceSeries: FTDWordType
    FORCE_EXIT_CODE, // MarketField TradeType: FTDTradeType
    STRING, // MarketMatchDataChgField InstrumentId: FTDInstrumentId
    FORCE_EXIT_CODE, // MarketMatchDataChgField InstrumentVersion: FTDInstrumentVersion
    FLOAT, // MarketMatchDataChgField OpenPrice: FTDPrice
    FLOAT, // MarketMatchDataChgField HighPrice: FTDPrice
    FLOAT, // MarketMatchDataChgField LowPrice: FTDPrice
    FLOAT, // MarketMatchDataChgField LastPrice: FTDPrice
    FLOAT, // MarketMatchDataChgField BidPrice: FTDPrice
    FLOAT, // MarketMatchDataChgField AskPrice: FTDPrice
    INT, // MarketMatchDataChgField BidLot: FTDVolume
    INT, // MarketMatchDataChgField AskLot: FTDVolume
    INT, // MarketMatchDataChgField Volume: FTDVolume
    INT, // MarketMatchDataChgField OpenInterest: FTDVolume
    STRING, // MarketMatchDataField InstrumentId: FTDInstrumentId
    FORCE_EXIT_CODE, // MarketMatchDataField InstrumentVersion: FTDInstrumentVersion
    FLOAT, // MarketMatchDataField PreClose: FTDPrice
    FLOAT, // MarketMatchDataField PreSettle: FTDPrice
    INT, // MarketMatchDataField PreOpenInterest: FTDVolume
    FLOAT, // MarketMatchDataField OpenPrice: FTDPrice
    FLOAT, // MarketMatchDataField BidPrice: FTDPrice
    INT, // MarketMatchDataField BidLot: FTDVolume
    FLOAT, // MarketMatchDataField AskPrice: FTDPrice
    INT, // MarketMatchDataField AskLot: FTDVolume
    FLOAT, // MarketMatchDataField LastPrice: FTDPrice
    INT, // MarketMatchDataField LastLot: FTDVolume
    INT, // MarketMatchDataField TradeLot: FTDIntType
    INT, // MarketMatchDataField TradeTurnover: FTDVolume
    INT, // MarketMatchDataField OpenInterest: FTDVolume
    FLOAT, // MarketMatchDataField HighPrice: FTDPrice
    FLOAT, // MarketMatchDataField LowPrice: FTDPrice
    FLOAT, // MarketMatchDataField ClosePrice: FTDPrice
    FLOAT, // MarketMatchDataField SettlePrice: FTDPrice
    FLOAT, // MarketMatchDataField ClearPrice: FTDPrice
    FLOAT, // MarketMatchDataField AveragePrice: FTDPrice
    FLOAT, // MarketMatchDataField LifeHigh: FTDPrice
    FLOAT, // MarketMatchDataField LifeLow: FTDPrice
    FLOAT, // MarketMatchDataField HighLimit: FTDPrice
    FLOAT, // MarketMatchDataField LowLimit: FTDPrice
    INT, // MarketMatchDataField TotalVolume: FTDVolume
    STRING, // MarketMatchDataField UpdateTime: FTDTime
    BOOL_FLAG, // MarketMatchDataField MarketMatchDataStatus: FTDBoolFlag
    INT, // MarketMatchDataField TotalMarketMatchData: FTDIntType
    INT, // MarketMatchDataField BroadcastSequenceNo: FTDIntType
    STRING, // MarketMatchIncDataField InstrumentId: FTDInstrumentId
    FORCE_EXIT_CODE, // MarketMatchIncDataField InstrumentVersion: FTDInstrumentVersion
    BOOL_FLAG, // MarketMatchIncDataField VolumeType: FTDVolumeType
    FLOAT, // MarketMatchIncDataField Price: FTDPrice
    INT, // MarketMatchIncDataField Volume: FTDVolume
    ACTION_FLAG, // MarketMatchIncDataField MatchFlag: FTDMatchFlag
    STRING, // MarketOrderDataField InstrumentId: FTDInstrumentId
    FORCE_EXIT_CODE, // MarketOrderDataField InstrumentVersion: FTDInstrumentVersion
    BOOL_FLAG, // MarketOrderDataField VolumeType: FTDVolumeType
    BOOL_FLAG, // MarketOrderDataField Direction: FTDDirection
    FLOAT, // MarketOrderDataField Price: FTDPrice
    INT, // MarketOrderDataField Volume: FTDVolume
    INT, // MarketOrderDataField BroadcastSequenceNo: FTDIntType
    STRING, // MarketStatusField MarketId: FTDMarketId
    INSTRUMENT_STATUS, // MarketStatusField MarketStatusId: FTDMarketStatus
    INT, // MarketStatusField BroadcastSequenceNo: FTDIntType
    ACTION_FLAG, // OrderActionField OrderActionCode: FTDActionFlag
    STRING, // OrderActionField OrderSysId: FTDSysOrderId
    STRING, // OrderActionField ActionLocalId: FTDLocalId
    STRING, // OrderActionField InstrumentId: FTDInstrumentId
    FORCE_EXIT_CODE, // OrderActionField InstrumentVersion: FTDInstrumentVersion
    STRING, // OrderActionField UserId: FTDUserId
    STRING, // OrderInsertField OrderSysId: FTDSysOrderId
    STRING, // OrderInsertField OrderLocalId: FTDLocalId
    STRING, // OrderInsertField UserId: FTDUserId
    STRING, // OrderInsertField ParticipantId: FTDParticipantId
    STRING, // OrderInsertField ClientId: FTDClientId
    STRING, // OrderInsertField InstrumentId: FTDInstrumentId
    BOOL_FLAG, // OrderInsertField Direction: FTDDirection
    OFFSET_FLAG, // OrderInsertField OffsetFlag: FTDOffsetFlag
    HEDGE_FLAG, // OrderInsertField HedgeFlag: FTDHedgeFlag
    FLOAT, // OrderInsertField StopPrice: FTDPrice
    FLOAT, // OrderInsertField LimitPrice: FTDPrice
    INT, // OrderInsertField VolumeTotalOriginal: FTDIntType
    ORDER_TYPE, // OrderInsertField OrderType: FTDOrderType
    MATCH_CONDITION, // OrderInsertField MatchCondition: FTDMatchCondition
    MATCH_SESSION, // OrderInsertField MatchSession: FTDMatchSession
    DATE, // OrderInsertField ValidThrough: FTDDate
    INT, // OrderInsertField MinimalVolume: FTDVolume
    BOOL_FLAG, // OrderInsertField AutoSuspend: FTDBoolFlag
    STRING, // OrderInsertField InsertTime: FTDDateTime
    STRING, // OrderInsertField MessageReference: FTDMsgRef
    STRING, // OrderStatusField OrderSysId: FTDSysOrderId
    STRING, // OrderStatusField OrderLocalId: FTDLocalId
    STRING, // OrderStatusField UserId: FTDUserId
    STRING, // OrderStatusField ParticipantId: FTDParticipantId
    STRING, // OrderStatusField ClientId: FTDClientId
    STRING, // OrderStatusField InstrumentId: FTDInstrumentId
    BOOL_FLAG, // OrderStatusField Direction: FTDDirection
    OFFSET_FLAG, // OrderStatusField OffsetFlag: FTDOffsetFlag
    HEDGE_FLAG, // OrderStatusField HedgeFlag: FTDHedgeFlag
    FLOAT, // OrderStatusField StopPrice: FTDPrice
    FLOAT, // OrderStatusField LimitPrice: FTDPrice
    INT, // OrderStatusField VolumeTotalOriginal: FTDIntType
    ORDER_TYPE, // OrderStatusField OrderType: FTDOrderType
    INT, // OrderStatusField VolumeTotal: FTDIntType
    MATCH_CONDITION, // OrderStatusField MatchCondition: FTDMatchCondition
    MATCH_SESSION, // OrderStatusField MatchSession: FTDMatchSession
    DATE, // OrderStatusField ValidThrough: FTDDate
    INT, // OrderStatusField MinimalVolume: FTDVolume
    BOOL_FLAG, // OrderStatusField AutoSuspend: FTDBoolFlag
    ORDER_STATUS, // OrderStatusField OrderStatus: FTDOrderStatus
    STRING, // OrderStatusField InsertTime: FTDDateTime
    STRING, // OrderStatusField ActiveTime: FTDTime
    STRING, // OrderStatusField SuspendTime: FTDTime
    STRING, // OrderStatusField UpdateTime: FTDTime
    STRING, // OrderStatusField ActiveUserId: FTDUserId
    FLOAT, // OrderStatusField Margin: FTDPrice
    STRING, // OrderStatusField ForceGroupId: FTDLocalId
    FLOAT, // OrderStatusField TradePrice: FTDPrice
    INT, // OrderStatusField TradeVolume: FTDIntType
    STRING, // OrderStatusField MessageReference: FTDMsgRef
    STRING, // ParticipantField ParticipantId: FTDParticipantId
    STRING, // ParticipantField ParticipantName: FTDName
    INSTRUMENT_STATUS, // ParticipantField ParticipantType: FTDParticipantType
    ACTION_FLAG, // ParticipantField PartiTrdRight: FTDTradeRight
    STRING, // PositionField ParticipantId: FTDParticipantId
    STRING, // PositionField ClientId: FTDClientId
    STRING, // PositionField InstrumentId: FTDInstrumentId
    FORCE_EXIT_CODE, // PositionField InstrumentVersion: FTDInstrumentVersion
    DATE, // PositionField TradeDate: FTDDate
    INT, // PositionField YdBuyHedgePosition: FTDVolume
    INT, // PositionField YdBuySpecPosition: FTDVolume
    INT, // PositionField YdSellHedgePosition: FTDVolume
    INT, // PositionField YdSellSpecPosition: FTDVolume
    INT, // PositionField BuyHedgeVolume: FTDVolume
    INT, // PositionField BuySpecVolume: FTDVolume
    INT, // PositionField SellHedgeVolume: FTDVolume
    INT, // PositionField SellSpecVolume: FTDVolume
    INT, // PositionField BuyHedgePosition: FTDVolume
    INT, // PositionField BuySpecPosition: FTDVolume
    INT, // PositionField SellHedgePosition: FTDVolume
    INT, // PositionField SellSpecPosition: FTDVolume
    INT, // PositionField BuyOffsHPosition: FTDVolume
    INT, // PositionField BuyOffsSPosition: FTDVolume
    INT, // PositionField SellOffsHPosition: FTDVolume
    INT, // PositionField SellOffsSPosition: FTDVolume
    INT, // PositionField YdBuyOffsHPosition: FTDVolume
    INT, // PositionField YdBuyOffsSPosition: FTDVolume
    INT, // PositionField YdSellOffsHPosition: FTDVolume
    INT, // PositionField YdSellOffsSPosition: FTDVolume
    INT, // PositionField LongOpenFrozHPosition: FTDVolume
    INT, // PositionField LongOpenFrozSPosition: FTDVolume
    INT, // PositionField ShortOpenFrozHPosition: FTDVolume
    INT, // PositionField ShortOpenFrozSPosition: FTDVolume
    INT, // PositionField LongOffsFrozHPosition: FTDVolume
    INT, // PositionField LongOffsFrozSPosition: FTDVolume
    INT, // PositionField ShortOffsFrozHPosition: FTDVolume
    INT, // PositionField ShortOffsFrozSPosition: FTDVolume
    INT, // PositionField YdLongOffsFrozHPosition: FTDVolume
    INT, // PositionField YdLongOffsFrozSPosition: FTDVolume
    INT, // PositionField YdShortOffsFrozHPosition: FTDVolume
    INT, // PositionField YdShortOffsFrozSPosition: FTDVolume
    STRING, // PPositionField ParticipantId: FTDParticipantId
    STRING, // PPositionField InstrumentId: FTDInstrumentId
    FORCE_EXIT_CODE, // PPositionField InstrumentVersion: FTDInstrumentVersion
    DATE, // PPositionField TradeDate: FTDDate
    INT, // PPositionField YdBuyHedgePosition: FTDVolume
    INT, // PPositionField YdBuySpecPosition: FTDVolume
    INT, // PPositionField YdSellHedgePosition: FTDVolume
    INT, // PPositionField YdSellSpecPosition: FTDVolume
    INT, // PPositionField BuyHedgeVolume: FTDVolume
    INT, // PPositionField BuySpecVolume: FTDVolume
    INT, // PPositionField SellHedgeVolume: FTDVolume
    INT, // PPositionField SellSpecVolume: FTDVolume
    INT, // PPositionField BuyHedgePosition: FTDVolume
    INT, // PPositionField BuySpecPosition: FTDVolume
    INT, // PPositionField SellHedgePosition: FTDVolume
    INT, // PPositionField SellSpecPosition: FTDVolume
    INT, // PPositionField BuyOffsHPosition: FTDVolume
    INT, // PPositionField BuyOffsSPosition: FTDVolume
    INT, // PPositionField SellOffsHPosition: FTDVolume
    INT, // PPositionField SellOffsSPosition: FTDVolume
    INT, // PPositionField YdBuyOffsHPosition: FTDVolume
    INT, // PPositionField YdBuyOffsSPosition: FTDVolume
    INT, // PPositionField YdSellOffsHPosition: FTDVolume
    INT, // PPositionField YdSellOffsSPosition: FTDVolume
    INT, // PPositionField LongOpenFrozHPosition: FTDVolume
    INT, // PPositionField LongOpenFrozSPosition: FTDVolume
    INT, // PPositionField ShortOpenFrozHPosition: FTDVolume
    INT, // PPositionField ShortOpenFrozSPosition: FTDVolume
    INT, // PPositionField LongOffsFrozHPosition: FTDVolume
    INT, // PPositionField LongOffsFrozSPosition: FTDVolume
    INT, // PPositionField ShortOffsFrozHPosition: FTDVolume
    INT, // PPositionField ShortOffsFrozSPosition: FTDVolume
    INT, // PPositionField YdLongOffsFrozHPosition: FTDVolume
    INT, // PPositionField YdLongOffsFrozSPosition: FTDVolume
    INT, // PPositionField YdShortOffsFrozHPosition: FTDVolume
    INT, // PPositionField YdShortOffsFrozSPosition: FTDVolume
    STRING, // ReqQryClientField ParticipantId: FTDParticipantId
    STRING, // ReqQryClientField ClientId: FTDClientId
    STRING, // ReqQryDepositField ParticipantId: FTDParticipantId
    STRING, // ReqQryInstrumentField MarketId: FTDMarketId
    STRING, // ReqQryInstrumentField InstrumentId: FTDInstrumentId
    STRING, // ReqQryInstrumentStatusField MarketId: FTDMarketId
    STRING, // ReqQryInstrumentStatusField InstrumentId: FTDInstrumentId
    STRING, // ReqQryMarketField MarketId: FTDMarketId
    STRING, // ReqQryMarketMatchDataField InstrumentId: FTDInstrumentId
    STRING, // ReqQryMarketOrderDataField InstrumentId: FTDInstrumentId
    BOOL_FLAG, // ReqQryMarketOrderDataField Direction: FTDDirection
    STRING, // ReqQryMarketStatusField MarketId: FTDMarketId
    STRING, // ReqQryOrderField InstrumentId: FTDInstrumentId
    FORCE_EXIT_CODE, // ReqQryOrderField InstrumentVersion: FTDInstrumentVersion
    STRING, // ReqQryOrderField ParticipantId: FTDParticipantId
    STRING, // ReqQryOrderField UserId: FTDUserId
    STRING, // ReqQryOrderField ClientId: FTDClientId
    STRING, // ReqQryOrderField OrderSysId: FTDSysOrderId
    STRING, // ReqQryParticipantField ParticipantId: FTDParticipantId
    STRING, // ReqQryPositionField ParticipantId: FTDParticipantId
    STRING, // ReqQryPositionField ClientId: FTDClientId
    STRING, // ReqQryPositionField InstrumentId: FTDInstrumentId
    STRING, // ReqQryPPositionField ParticipantId: FTDParticipantId
    STRING, // ReqQryPPositionField InstrumentId: FTDInstrumentId
    STRING, // ReqQryTradeField InstrumentId: FTDInstrumentId
    FORCE_EXIT_CODE, // ReqQryTradeField InstrumentVersion: FTDInstrumentVersion
    STRING, // ReqQryTradeField ParticipantId: FTDParticipantId
    STRING, // ReqQryTradeField UserId: FTDUserId
    STRING, // ReqQryTradeField ClientId: FTDClientId
    STRING, // ReqQryTradeField OrderSysId: FTDSysOrderId
    STRING, // ReqQryTradeField StartTime: FTDTime
    STRING, // ReqQryTradeField ThroughTime: FTDTime
    STRING, // ReqQryUserField ParticipantId: FTDParticipantId
    STRING, // ReqQryUserField UserId: FTDUserId
    STRING, // ReqQryUserLoginField ParticipantId: FTDParticipantId
    STRING, // ReqQryUserLoginField UserId: FTDUserId
    ACTION_FLAG, // ReqUserLoginField DataFlowFlag: FTDDataFlowFlag
    STRING, // ReqUserLoginField ParticipantId: FTDParticipantId
    STRING, // ReqUserLoginField UserId: FTDUserId
    STRING, // ReqUserLoginField Password: FTDPassword
    STRING, // ReqUserLoginField ConnectionReference: FTDConnectionReference
    STRING, // ReqUserLoginField ServerAppName: FTDServerAppName
    STRING, // ReqUserLoginField ProtocolVersion: FTDProtocolVersion
    NUMBER, // ReqUserLoginField TimeOut: FTDTimeOut
    STRING, // ReqUserLoginField IpAddr: FTDStringType<20>
    ACTION_FLAG, // ReqUserLogoutField DataFlowFlag: FTDDataFlowFlag
    STRING, // ReqUserLogoutField ParticipantId: FTDParticipantId
    STRING, // ReqUserLogoutField UserId: FTDUserId
    STRING, // ReqUserPasswordUpdateField ParticipantId: FTDParticipantId
    STRING, // ReqUserPasswordUpdateField UserId: FTDUserId
    STRING, // ReqUserPasswordUpdateField NewPassword: FTDPassword
    STRING, // ReqUserPasswordUpdateField OldPassword: FTDPassword
    ACTION_FLAG, // RspUserLoginField DataFlowFlag: FTDDataFlowFlag
    STRING, // RspUserLoginField ParticipantId: FTDParticipantId
    STRING, // RspUserLoginField UserId: FTDUserId
    STRING, // RspUserLoginField Password: FTDPassword
    STRING, // RspUserLoginField ExchangeDateTime: FTDDateTime
    NUMBER, // RspUserLoginField TimeSpan: FTDNumberType<3>
    STRING, // RspUserLoginField IpAddr: FTDStringType<20>
    STRING, // RspUserLoginField MaxOrderLocalId: FTDLocalId
    ACTION_FLAG, // RspUserLogoutField DataFlowFlag: FTDDataFlowFlag
    STRING, // RspUserLogoutField ParticipantId: FTDParticipantId
    STRING, // RspUserLogoutField UserId: FTDUserId
    STRING, // RspUserLogoutField ExchangeDateTime: FTDDateTime
    STRING, // RspUserPasswordUpdateField ParticipantId: FTDParticipantId
    STRING, // RspUserPasswordUpdateField UserId: FTDUserId
    STRING, // RspUserPasswordUpdateField NewPassword: FTDPassword
    STRING, // TradeInsertSingleField InstrumentId: FTDInstrumentId
    FORCE_EXIT_CODE, // TradeInsertSingleField InstrumentVersion: FTDInstrumentVersion
    BOOL_FLAG, // TradeInsertSingleField CancelFlag: FTDBoolFlag
    DATE, // TradeInsertSingleField CancelDate: FTDDate
    STRING, // TradeInsertSingleField CancelTime: FTDTime
    STRING, // TradeInsertSingleField TradeId: FTDTradeId
    DATE, // TradeInsertSingleField MatchDate: FTDDate
    STRING, // TradeInsertSingleField MatchTime: FTDTime
    DATE, // TradeInsertSingleField ClearDate: FTDDate
    FLOAT, // TradeInsertSingleField Price: FTDPrice
    INT, // TradeInsertSingleField Volume: FTDVolume
    STRING, // TradeInsertSingleField OrderSysId: FTDSysOrderId
    STRING, // TradeInsertSingleField UserId: FTDUserId
    BOOL_FLAG, // TradeInsertSingleField Direction: FTDDirection
    OFFSET_FLAG, // TradeInsertSingleField OffsetFlag: FTDOffsetFlag
    HEDGE_FLAG, // TradeInsertSingleField HedgeFlag: FTDHedgeFlag
    STRING, // TradeInsertSingleField ParticipantId: FTDParticipantId
    STRING, // TradeInsertSingleField ClientId: FTDClientId
    STRING, // TradeInsertSingleField OrderLocalId: FTDLocalId
    STRING, // UserField UserId: FTDUserId
    STRING, // UserField ParticipantId: FTDParticipantId
    STRING, // UserField Name: FTDStringType<20>
    BOOL_FLAG, // UserField IsLogin: FTDBoolFlag
    FORCE_EXIT_CODE, // UserField UserStatus: FTDUserStatus
    FORCE_EXIT_CODE, // UserField UserType: FTDUserType
    STRING, // UserLoginField ParticipantId: FTDParticipantId
    STRING, // UserLoginField UserId: FTDUserId
    STRING, // UserLoginField IpAddr: FTDStringType<20>
    BOOL_FLAG, // UserLoginField DialogStreamStatus: FTDBoolFlag
    STRING, // UserLoginField DialogLoginTime: FTDDateTime
    STRING, // UserLoginField DialogLogoutTime: FTDDateTime
    BOOL_FLAG, // UserLoginField PrivateStreamStatus: FTDBoolFlag
    STRING, // UserLoginField PrivateLoginTime: FTDDateTime
    STRING, // UserLoginField PrivateLogoutTime: FTDDateTime
    BOOL_FLAG, // UserLoginField BroadcastStreamStatus: FTDBoolFlag
    STRING, // UserLoginField BroadcastLoginTime: FTDDateTime
    STRING, // UserLoginField BroadcastLogoutTime: FTDDateTime
    STRING, // UserLoginField FrontId: FTDStringType<20>
];

// The width of each row, in bytes.
static WIDTH: [u16; 379] = [
    3, 1, 8, 80, 20, 10, 500, 200, 8, 8, 80, 1, 1, 8, 1, 8, 14, 14, 14, 14, 14, 14, 14, 14, 14, 14,
    14, 14, 14, 14, 14, 14, 14, 14, 14, 14, 14, 14, 14, 14, 2, 4, 10, 100, 20, 20, 24, 2, 4, 1,
    100, 10, 10, 1, 80, 1, 8, 8, 1, 8, 8, 1, 3, 1, 1, 4, 12, 4, 4, 4, 4, 1, 12, 4, 6, 1, 4, 10, 1,
    10, 80, 2, 1, 10, 1, 12, 12, 12, 12, 12, 12, 4, 4, 4, 4, 10, 1, 12, 12, 4, 12, 12, 4, 12, 4,
    12, 4, 4, 4, 4, 12, 12, 12, 12, 12, 12, 12, 12, 12, 12, 4, 8, 1, 4, 4, 10, 1, 1, 12, 4, 1, 10,
    1, 1, 1, 12, 4, 4, 10, 1, 4, 1, 20, 24, 10, 1, 15, 20, 24, 15, 8, 8, 10, 1, 1, 1, 12, 12, 4, 1,
    1, 1, 8, 4, 1, 20, 6, 20, 24, 15, 8, 8, 10, 1, 1, 1, 12, 12, 4, 1, 4, 1, 1, 8, 4, 1, 1, 20, 8,
    8, 8, 15, 12, 24, 12, 4, 6, 8, 80, 1, 1, 8, 8, 10, 1, 8, 4, 4, 4, 4, 4, 4, 4, 4, 4, 4, 4, 4, 4,
    4, 4, 4, 4, 4, 4, 4, 4, 4, 4, 4, 4, 4, 4, 4, 4, 4, 4, 4, 8, 10, 1, 8, 4, 4, 4, 4, 4, 4, 4, 4,
    4, 4, 4, 4, 4, 4, 4, 4, 4, 4, 4, 4, 4, 4, 4, 4, 4, 4, 4, 4, 4, 4, 4, 4, 8, 8, 8, 10, 10, 10,
    10, 10, 10, 10, 1, 10, 10, 1, 8, 15, 8, 20, 8, 8, 8, 10, 8, 10, 10, 1, 8, 15, 8, 20, 8, 8, 8,
    15, 8, 15, 1, 8, 15, 40, 5, 20, 8, 3, 20, 1, 8, 15, 8, 15, 40, 40, 1, 8, 15, 40, 20, 3, 20, 24,
    1, 8, 15, 20, 8, 15, 40, 10, 1, 1, 8, 8, 20, 8, 8, 8, 12, 4, 20, 15, 1, 1, 1, 8, 8, 24, 15, 8,
    20, 1, 1, 1, 8, 15, 20, 1, 20, 20, 1, 20, 20, 1, 20, 20, 20,
];

// The decimals of each row: Float only, else 0.
static SCALE: [u8; 379] = [
    0, 0, 0, 0, 0, 0, 0, 0, 0, 0, 0, 0, 0, 0, 0, 0, 2, 2, 2, 2, 2, 2, 2, 2, 2, 2, 2, 2, 2, 2, 2, 2,
    2, 2, 2, 2, 2, 2, 2, 2, 0, 0, 0, 0, 0, 0, 0, 0, 0, 0, 0, 0, 0, 0, 0, 0, 0, 0, 0, 0, 0, 0, 0, 0,
    0, 0, 4, 2, 2, 0, 0, 0, 4, 0, 0, 0, 0, 0, 0, 0, 0, 0, 0, 0, 0, 4, 4, 4, 4, 4, 4, 0, 0, 0, 0, 0,
    0, 4, 4, 0, 4, 4, 0, 4, 0, 4, 0, 0, 0, 0, 4, 4, 4, 4, 4, 4, 4, 4, 4, 4, 0, 0, 0, 0, 0, 0, 0, 0,
    4, 0, 0, 0, 0, 0, 0, 4, 0, 0, 0, 0, 0, 0, 0, 0, 0, 0, 0, 0, 0, 0, 0, 0, 0, 0, 0, 0, 4, 4, 0, 0,
    0, 0, 0, 0, 0, 0, 0, 0, 0, 0, 0, 0, 0, 0, 0, 0, 4, 4, 0, 0, 0, 0, 0, 0, 0, 0, 0, 0, 0, 0, 0, 0,
    4, 0, 4, 0, 0, 0, 0, 0, 0, 0, 0, 0, 0, 0, 0, 0, 0, 0, 0, 0, 0, 0, 0, 0, 0, 0, 0, 0, 0, 0, 0, 0,
    0, 0, 0, 0, 0, 0, 0, 0, 0, 0, 0, 0, 0, 0, 0, 0, 0, 0, 0, 0, 0, 0, 0, 0, 0, 0, 0, 0, 0, 0, 0, 0,
    0, 0, 0, 0, 0, 0, 0, 0, 0, 0, 0, 0, 0, 0, 0, 0, 0, 0, 0, 0, 0, 0, 0, 0, 0, 0, 0, 0, 0, 0, 0, 0,
    0, 0, 0, 0, 0, 0, 0, 0, 0, 0, 0, 0, 0, 0, 0, 0, 0, 0, 0, 0, 0, 0, 0, 0, 0, 0, 0, 0, 0, 0, 0, 0,
    0, 0, 0, 0, 0, 0, 0, 0, 0, 0, 0, 0, 0, 0, 0, 0, 0, 0, 0, 0, 0, 0, 0, 0, 0, 0, 0, 0, 0, 0, 4, 0,
    0, 0, 0, 0, 0, 0, 0, 0, 0, 0, 0, 0, 0, 0, 0, 0, 0, 0, 0, 0, 0, 0, 0, 0, 0, 0, 0,
];

// The first row of each field, by FID; 0 is no FID.
static START: [u16; 47] = [
    0, 0, 8, 13, 40, 42, 49, 51, 77, 138, 125, 141, 147, 131, 167, 197, 201, 238, 83, 95, 274, 276,
    277, 279, 281, 285, 286, 283, 292, 293, 296, 282, 298, 306, 308, 310, 319, 322, 79, 326, 334,
    338, 341, 360, 366, 45, 47,
];

// How many rows each field has, by FID.
static COUNT: [u8; 47] = [
    0, 8, 5, 27, 2, 3, 2, 26, 2, 3, 6, 6, 20, 7, 30, 4, 37, 36, 12, 30, 2, 1, 2, 2, 1, 1, 6, 2, 1,
    3, 2, 1, 8, 2, 2, 9, 3, 4, 4, 8, 4, 3, 19, 6, 13, 2, 2,
];

// The width of each field in bytes, by FID.
static WIDE: [u16; 47] = [
    0, 822, 98, 353, 6, 130, 101, 201, 11, 15, 29, 71, 158, 33, 254, 90, 163, 155, 99, 252, 16, 8,
    20, 20, 10, 10, 62, 11, 8, 26, 18, 10, 78, 23, 23, 120, 24, 103, 93, 131, 44, 63, 166, 46, 186,
    44, 6,
];

// The first row of a field.
pub(crate) fn start_of(fid: usize) -> usize
    requires { fid < 47 }
    ensures { (result ≡ (rows_place fid).start) × (result < 65536) }
{
    size16(START[fid])
}

// Where the rows of a field end.
pub(crate) fn end_of(fid: usize) -> usize
    requires { fid < 47 }
    ensures { (result ≡ (rows_place fid).start + (rows_place fid).count) × (result ≤ 379) }
{
    start_of(fid) + count_of(fid)
}

// How many rows a field has.
pub(crate) fn count_of(fid: usize) -> usize
    requires { fid < 47 }
    ensures { (result ≡ (rows_place fid).count) × (result < 256) }
{
    size8(COUNT[fid])
}

// The width of a field.
pub(crate) fn wide_of(fid: usize) -> usize
    requires { fid < 47 }
    ensures { result ≡ (rows_place fid).wide }
{
    size16(WIDE[fid])
}

// Kind, width and decimals of a row.
pub(crate) fn kind_at(row: usize) -> u8
    requires { row < 379 }
    ensures { result ≡ (row_at row).kind }
{
    KIND[row]
}

pub(crate) fn width_at(row: usize) -> usize
    requires { row < 379 }
    ensures { (result ≡ (row_at row).width) × (result < 65536) }
{
    size16(WIDTH[row])
}

pub(crate) fn scale_at(row: usize) -> u8
    requires { row < 379 }
    ensures { result ≡ (row_at row).scale }
{
    SCALE[row]
}

// The rule of the table holds.
pub fn keeps_table_rule()
    ensures { TableRule }
{}
