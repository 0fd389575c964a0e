// The player of a script: a line is a call of an end on real bytes, of the trading calendar or of the book, and prints
// its answer as a line.
#![tactic(auto)]

mod words; // the words of a line
mod text; // answers as lines
mod prices; // prices as text, and the book's answers as lines
mod state; // both ends and the named places as lines
pub mod calls; // a line as a call
mod serving; // the calls of the serving end
mod receiving; // the calls of the receiving end
mod keeping; // the calls of the named places
mod several; // the calls for several packets or records
mod trading; // the calls of the trading calendar
mod quoting; // the calls of the book
pub mod player; // the player
pub mod input; // lines out of the input
