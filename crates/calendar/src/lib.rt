// The trading calendar (02, No. 7): sessions, holidays, trade dates.
#![tactic(auto)]

pub mod days; // days and dates
mod sessions; // sessions, and row 26
mod holidays; // holidays, row 27, and the days that trade
pub mod trading; // the calendar: set, ask, the date of a mark
