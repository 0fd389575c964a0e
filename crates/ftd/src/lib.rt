// FTD packets (JR/T 0016-2004, 4.1 and 4.2) and typed items (Appendices A to E): read from any bytes, with nothing
// trusted.
#![tactic(auto)]

ghost use Rattle.ftd.specs.Demand2.{Demand2};
ghost use Rattle.ftd.specs.Refusals.{RefusalsLeave};

pub mod bytes; // numbers in bytes
pub mod refusal; // the refusal table
pub mod tags; // the run of tags in a packet's extension
pub mod fields; // the run of data fields in a message's content
pub mod packet; // what a packet is, and its fields
pub mod write; // packets written
pub mod chain; // a message cut into packets and written
pub mod composition; // make-up: how often each field occurs
pub mod resume; // the start field
pub mod login; // login packets
pub mod items; // the items of a content's fields
pub mod table; // the table of Appendix D
pub mod kinds; // the kinds of items' types
pub mod gregorian; // real dates: leap years and months
pub mod values; // which bytes are a value of an item's type
pub mod content; // the content check as one
pub mod parts; // the content check of a content in two parts
pub mod mode; // the mode of a message type
pub mod places; // an item of a field by place
pub mod signed; // Numbers and Floats: read, written, and as signed integers
pub mod texts; // values of String, read and written
pub mod whole; // values of Char, Word and Int, read and written
pub mod dates; // values of Date, read and written
pub mod item; // values of items, by FID and item number

// Demand 2, as a promise.
pub fn keeps_demand_two()
    ensures { Demand2 }
{}

// A refused writer leaves every byte of the output, as a promise.
pub fn keeps_refusals()
    ensures { RefusalsLeave }
{}
