// Frames of JR/T 0087 (02, No. 12), after FIX 4.2: read with the expected number, and written. Fields are parts of the
// lent bytes, by their places; texts are kept as they stand.
#![tactic(auto)]

ghost use Rattle.fix.specs.Examples.{FrameExamples};
ghost use Rattle.fix.specs.RoundTrips.{RoundTrips};
ghost use Rattle.ftd.specs.Follow.{Follows};
ghost use Rattle.ftd.specs.Return.{Returns};
ghost use Rattle.fix.specs.Follow.{frames, ComesBack};
ghost use Rattle.fix.specs.Refusals.{RefusalsLeave};
ghost use Rattle.fix.specs.Pairs.{PairLaws};
ghost use Rattle.fix.specs.Values.{FrameValues};
ghost use Rattle.fix.specs.Judgement.{Judgement};
ghost use Rattle.fix.specs.Rows.{Rows};
ghost use Rattle.fix.specs.FrameLayout.{FrameLayout};

pub mod text; // separators, numbers, sums
mod tags; // tags by their names
pub mod kinds; // the six types
pub mod fields; // a run of fields
pub mod tally; // what one walk over the fields keeps
pub mod frame; // the frame
pub mod read; // read, and judged by its number
pub mod write; // written

// Worked frames, as a promise: the definitions answer what the paper says.
pub fn keeps_frame_examples()
    ensures { FrameExamples }
{}

// Both round trips: what is read, written again, gives the same bytes; what is written is read back as what was meant.
pub fn keeps_round_trips()
    ensures { RoundTrips }
{}

// The numbers that the reader calls next follow each other, along any bytes, until the caller sets the expected one.
pub fn keeps_frame_numbers()
    ensures { Follows frames }
{}

// The same where the caller comes back to a number that it kept, as a promise.
pub fn keeps_frame_returns()
    ensures { Returns frames ComesBack }
{}

// What is refused leaves the expected number and every byte of the output as they were.
pub fn keeps_refusals()
    ensures { RefusalsLeave }
{}

// Each field's order and text is kept: a run is its pairs of tag and text, and pairs that are written are read back.
pub fn keeps_pairs()
    ensures { PairLaws }
{}

// What each value of a message is: the kind by the type's letter, the numbers and texts by the tags of their fields.
pub fn keeps_frame_values()
    ensures { FrameValues }
{}

// How a frame is judged by its number, the flag Y and gap fill Y: next, again, gap, reset, or refused 30.
pub fn keeps_judgement()
    ensures { Judgement }
{}

// Rows 28 and 29 by the fields: which texts have to be numbers, and which tags stand exactly once; in writing too.
pub fn keeps_rows()
    ensures { Rows }
{}

// The frame as pairs: 8, 9, 35, the fields, 10, at most 4,096 bytes; row 28 takes exactly such bytes for a frame.
pub fn keeps_layout()
    ensures { FrameLayout }
{}
