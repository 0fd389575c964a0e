// The two ends of a flow (01, "The serving end", "The receiving end"): their states, and what each call answers.
#![tactic(auto)]

ghost use Rattle.flow.specs.Agreement.{Agreement};
ghost use Rattle.flow.specs.Bench.{Bench};
ghost use Rattle.flow.specs.Biggest.{Biggest};
ghost use Rattle.flow.specs.Bufferful.{Bufferful};
ghost use Rattle.flow.specs.Effective.{EffectiveHistories};
ghost use Rattle.flow.specs.Follows.{NumbersFollow};
ghost use Rattle.flow.specs.PacketByPacket.{PacketByPacket};
ghost use Rattle.flow.specs.Records.{RecordLayout};
ghost use Rattle.flow.specs.Refusals.{RefusalsLeave};
ghost use Rattle.flow.specs.EveryPiece.{EveryPiece};
ghost use Rattle.flow.specs.Shares.{Shares};
ghost use Rattle.flow.specs.Order.{OrderLaws};
ghost use Rattle.flow.specs.OrderRows.{OrderRows};
ghost use Rattle.flow.specs.Rewind.{RewindAgreement};
ghost use Rattle.flow.specs.RewindNumbers.{RewindNumbers};
ghost use Rattle.flow.specs.Untagged.{Untagged};

pub mod limits; // the limits of both
pub mod series; // series in a list
pub mod days; // trade dates compared
mod header; // tests on a login packet
mod log; // the log of the serving end
mod login; // the serving end's Login
mod room; // the room of the log that the series share
mod confirm; // the receiving end's Answer
pub mod sender; // the serving end
mod receive; // the receiving end's Receive
pub mod receiver; // the receiving end
pub mod several; // a bufferful of packets, or of records
pub mod checkpoint; // named places of the receiving end to come back to
pub mod order; // the order of two serving ends

// Demand 3, as a promise.
pub fn keeps_agreement()
    ensures { Agreement }
{}

// One packet a call, as a promise.
pub fn keeps_packet_by_packet()
    ensures { PacketByPacket }
{}

// Every piece counted, as a promise.
pub fn keeps_every_piece()
    ensures { EveryPiece }
{}

// A share of the log for each series, as a promise.
pub fn keeps_shares()
    ensures { Shares }
{}

// The bench examples P1 to P12, as a promise: the definitions answer what the paper says.
pub fn keeps_bench()
    ensures { Bench }
{}

// The biggest message there is, as a promise.
pub fn keeps_biggest()
    ensures { Biggest }
{}

// A bufferful is so many single calls, as a promise.
pub fn keeps_bufferful()
    ensures { Bufferful }
{}

// A refusal changes nothing, as a promise.
pub fn keeps_refusals()
    ensures { RefusalsLeave }
{}

// Packets without a trade date, as a promise.
pub fn keeps_untagged()
    ensures { Untagged }
{}

// The layout of records, as a promise.
pub fn keeps_records()
    ensures { RecordLayout }
{}

// The numbers taken follow each other, as a promise.
pub fn keeps_numbers()
    ensures { NumbersFollow }
{}

// Demand 3 with named places to come back to, as a promise.
pub fn keeps_rewind()
    ensures { RewindAgreement }
{}

// The histories of it are those of the calls that count, as a promise.
pub fn keeps_effective()
    ensures { EffectiveHistories }
{}

// And the numbers taken with them, as a promise.
pub fn keeps_rewind_numbers()
    ensures { RewindNumbers }
{}

// The order of two serving ends, its laws and its worked rows, as a promise.
pub fn keeps_order()
    ensures { OrderLaws × OrderRows }
{}
