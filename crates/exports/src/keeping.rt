// Named places of a receiving end (02, No. 13) for C and Rust: the checkpoints as numbers by value, and the two calls on
// them. Any numbers are checkpoints.
ghost use Rattle.std.specs.Prelude.{◌≡◌};
ghost use Rattle.flow.specs.Checkpoints.{fresh_checkpoints, keep_of, restore_of};
ghost use Rattle.exports.specs.Receiving.{receiver_for};
ghost use Rattle.exports.specs.Keeping.{kept_series_for, checkpoint_for, checkpoints_for};
ghost use Rattle.exports.specs.Keeping.{kept_series_numbers, checkpoint_numbers, checkpoints_numbers};
ghost use Rattle.exports.specs.Keeping.{kept_step_numbers, returned_numbers};
ghost use Rattle.exports.specs.Keeping.Laws.{CheckpointNumberLaws};

use crate::receiving::{FtdReceiver, receiver_for, receiver_numbers};
use crate::tags::{date, date_for, dated};
use crate::written::refusal_of;
use flow::checkpoint::{Checkpoint, Checkpoints};
use flow::receiver::{Kept, KeptSeries};

// What is kept of a series: trade date and last number.
// Stays: `dated` as a number; the C interface (include/ftd.h).
#[repr(C)]
#[derive(Clone, Copy)]
pub struct FtdCheckpointSeries {
    pub date: u32,
    pub last: u32,
    pub series: u16,
    pub dated: u8,
}

// A place: its name as a number, the first letter in the lowest byte; how many series were open, and what is kept of
// each.
#[repr(C)]
#[derive(Clone, Copy)]
pub struct FtdCheckpoint {
    pub name: u64,
    pub count: usize,
    pub series: [FtdCheckpointSeries; 8],
}

// Up to four, in the order in which their names came first, and how many names are in use.
#[repr(C)]
#[derive(Clone, Copy)]
pub struct FtdCheckpoints {
    pub count: usize,
    pub places: [FtdCheckpoint; 4],
}

// What keeping leaves: the checkpoints, and its answer.
#[repr(C)]
#[derive(Clone, Copy)]
pub struct FtdKeptStep {
    pub checkpoints: FtdCheckpoints,
    pub refusal: u8,
}

// What a return leaves: the receiving end, and its answer.
#[repr(C)]
#[derive(Clone, Copy)]
pub struct FtdReturned {
    pub end: FtdReceiver,
    pub refusal: u8,
}

// Stays: loops, in the four conversions here; with arrays made by `map`, one within the other, Keep takes 1,337
// instructions more, Return 613.
// The place that the numbers say.
impl From<FtdCheckpoint> for Checkpoint {
    ghost from_gives = { λ x r. r ≡ checkpoint_for x };

    fn from(x: FtdCheckpoint) -> Checkpoint {
        let mut all = [KeptSeries {
            series: 0,
            date: None,
            last: 0,
        }; 8];
        for i in 0..8 {
            let one = x.series[i];
            all[i] = KeptSeries {
                series: one.series,
                date: date_for(one.dated, one.date),
                last: one.last,
            };
        }
        Checkpoint {
            name: x.name,
            kept: Kept {
                count: x.count,
                series: all,
            },
        }
    }
}

// The checkpoints that the numbers say.
impl From<FtdCheckpoints> for Checkpoints {
    ghost from_gives = { λ c r. r ≡ checkpoints_for c };

    fn from(c: FtdCheckpoints) -> Checkpoints {
        let mut all = [Checkpoint {
            name: 0,
            kept: Kept {
                count: 0,
                series: [KeptSeries {
                    series: 0,
                    date: None,
                    last: 0,
                }; 8],
            },
        }; 4];
        for i in 0..4 {
            all[i] = Checkpoint::from(c.places[i]);
        }
        Checkpoints {
            count: c.count,
            places: all,
        }
    }
}

// What is kept of a series as numbers.
impl From<KeptSeries> for FtdCheckpointSeries {
    ghost from_gives = { λ k r. r ≡ kept_series_numbers k };

    fn from(k: KeptSeries) -> FtdCheckpointSeries {
        FtdCheckpointSeries {
            date: date(k.date),
            last: k.last,
            series: k.series,
            dated: dated(k.date),
        }
    }
}

// A place as numbers.
impl From<Checkpoint> for FtdCheckpoint {
    ghost from_gives = { λ x r. r ≡ checkpoint_numbers x };

    fn from(x: Checkpoint) -> FtdCheckpoint {
        let mut all = [FtdCheckpointSeries {
            date: 0,
            last: 0,
            series: 0,
            dated: 0,
        }; 8];
        for i in 0..8 {
            all[i] = FtdCheckpointSeries::from(x.kept.series[i]);
        }
        FtdCheckpoint {
            name: x.name,
            count: x.kept.count,
            series: all,
        }
    }
}

// The checkpoints as numbers.
impl From<Checkpoints> for FtdCheckpoints {
    ghost from_gives = { λ c r. r ≡ checkpoints_numbers c };

    fn from(c: Checkpoints) -> FtdCheckpoints {
        let mut all = [FtdCheckpoint {
            name: 0,
            count: 0,
            series: [FtdCheckpointSeries {
                date: 0,
                last: 0,
                series: 0,
                dated: 0,
            }; 8],
        }; 4];
        for i in 0..4 {
            all[i] = FtdCheckpoint::from(c.places[i]);
        }
        FtdCheckpoints {
            count: c.count,
            places: all,
        }
    }
}

// No name is in use.
#[unsafe(no_mangle)]
pub extern "C" fn ftd_checkpoints_fresh() -> FtdCheckpoints
    ensures { result ≡ checkpoints_numbers fresh_checkpoints }
{
    Checkpoints::fresh().into()
}

// Keep: what the end keeps of its series, under a name. The end stays as it is.
#[unsafe(no_mangle)]
pub extern "C" fn ftd_keep(
    checkpoints: FtdCheckpoints,
    end: FtdReceiver,
    name: &[u8],
) -> FtdKeptStep
    ensures { result ≡ kept_step_numbers (keep_of (checkpoints_for checkpoints) (receiver_for end) name.now) }
{
    let step = Checkpoints::from(checkpoints).keep(receiver_for(end), name);
    FtdKeptStep {
        checkpoints: step.checkpoints.into(),
        refusal: refusal_of(step.answer),
    }
}

// Return: to what was kept under a name. The checkpoints stay as they are.
#[unsafe(no_mangle)]
pub extern "C" fn ftd_return(
    checkpoints: FtdCheckpoints,
    end: FtdReceiver,
    name: &[u8],
) -> FtdReturned
    ensures { result ≡ returned_numbers (restore_of (checkpoints_for checkpoints) (receiver_for end)
        name.now) }
{
    let step = Checkpoints::from(checkpoints).restore(receiver_for(end), name);
    FtdReturned {
        end: receiver_numbers(step.end),
        refusal: refusal_of(step.answer),
    }
}

// The checkpoints as numbers and back, as a promise.
pub fn keeps_checkpoint_numbers()
    ensures { CheckpointNumberLaws }
{}
