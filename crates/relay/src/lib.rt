// The box (02, No. 3): one receiving end joined to a serving end with 16 seats, over the contracts of `flow`; and what
// holds of boxes in a row (02, No. 14).
#![tactic(auto)]

ghost use Rattle.relay.specs.Agreement.{BoxAgreement};
ghost use Rattle.relay.specs.Bufferful.{BoxBufferful};
ghost use Rattle.relay.specs.Calls.{BoxCalls};
ghost use Rattle.relay.specs.Examples.{BoxExamples};
ghost use Rattle.relay.specs.Refusals.{RefusalsLeave};
ghost use Rattle.relay.specs.RowAgreement.{RowAgreement};
ghost use Rattle.relay.specs.RowExamples.{RowExamples};

pub mod places; // what the seats have, as numbers that are lent
pub mod relay; // the box and its calls
pub mod several; // a bufferful from above

// The agreement of the box, as a promise.
pub fn keeps_box()
    ensures { BoxAgreement }
{}

// What each call of the box changes and leaves, as a promise.
pub fn keeps_box_calls()
    ensures { BoxCalls }
{}

// A refused call leaves all as it was, Receive but for a chain, as a promise.
pub fn keeps_box_refusals()
    ensures { RefusalsLeave }
{}

// A bufferful from above is so many single calls, as a promise.
pub fn keeps_box_bufferful()
    ensures { BoxBufferful }
{}

// The worked examples, as a promise: the definitions answer what the papers say.
pub fn keeps_box_examples()
    ensures { BoxExamples }
{}

// The agreement of boxes in a row, as a promise.
pub fn keeps_row()
    ensures { RowAgreement }
{}

// The worked examples of a row, as a promise.
pub fn keeps_row_examples()
    ensures { RowExamples }
{}
