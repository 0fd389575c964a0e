// A book beside the flow (request No. 2): the price levels of one contract, from order quotations and matches, and the
// mean match price.
#![tactic(auto)]

ghost use Rattle.book.specs.Agreement.{BookAgreement};
ghost use Rattle.book.specs.Verdict.{BookRefusals};
ghost use Rattle.book.specs.Refusals.{RefusalsLeave};
ghost use Rattle.book.specs.Examples.{Examples};

pub mod levels; // the price levels of a side
pub mod quantity; // quantities and increments
pub mod sums; // the sums of price times volume and of volumes, and their mean
pub mod event; // what a field says to the book of a contract
pub mod calls; // the book and its calls

// What the book shows after every list of calls, as a promise.
pub fn keeps_book()
    ensures { BookAgreement }
{}

// What is refused with 22, 23 and 24, as a promise.
pub fn keeps_verdicts()
    ensures { BookRefusals }
{}

// A refused Start or Take leaves the book, as a promise.
pub fn keeps_refusals()
    ensures { RefusalsLeave }
{}

// Worked examples, as a promise: the definitions answer and show what the paper says.
pub fn keeps_examples()
    ensures { Examples }
{}
