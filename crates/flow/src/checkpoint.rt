// Named places to come back to (02, No. 13): what a receiving end keeps of its series, under a name. The checkpoints are
// a value of their own beside the receiving end, and no other call reads or changes them.
ghost use Rattle.std.specs.Prelude.{◌≡◌, ◌<◌, ◌≤◌, ◌==◌, length, set, take};
ghost use Rattle.std.specs.List.{list_all, position};
ghost use Rattle.std.specs.Char.{is_ascii_uppercase};
ghost use Rattle.flow.specs.declared.checkpoint.Checkpoint.{Checkpoint};
ghost use Rattle.flow.specs.CheckpointHelpers.{FindsName, kept_new, brought_from, placed_name};
ghost use Rattle.flow.specs.Checkpoints.{wrong_name, name_code, fresh_checkpoints, restored};
ghost use Rattle.flow.specs.Promises.{Keeps, Restores};

use crate::receiver::{Kept, KeptSeries, Receiver, no_line};
use ftd::refusal::Refusal;

// Under a name, its letters as one number, the first in the lowest byte: the durable part of a receiving end as it was
// when it was kept.
#[derive(Clone, Copy)]
pub struct Checkpoint {
    pub name: u64,
    pub kept: Kept,
}

// Up to four, in the order in which their names came first.
// Stays: an array with its count, no Vec: no heap (01), and the C interface hands the names over by value.
#[derive(Clone, Copy)]
pub struct Checkpoints {
    pub count: usize,
    pub places: [Checkpoint; 4],
}

// What the calls leave: keeping the checkpoints, a return the receiving end; and the answer.
#[derive(Clone, Copy)]
pub struct KeepStep {
    pub checkpoints: Checkpoints,
    pub answer: Result<(), Refusal>,
}

#[derive(Clone, Copy)]
pub struct RestoreStep {
    pub end: Receiver,
    pub answer: Result<(), Refusal>,
}

// Letters A to Z alone.
fn all_letters(name: &[u8]) -> bool
    ensures { result ≡ list_all is_ascii_uppercase name.now }
{
    name.iter().all(u8::is_ascii_uppercase)
}

// 31: not 1 to 8 letters A to Z.
fn wrong_name(name: &[u8]) -> bool
    ensures { result ≡ wrong_name name.now }
{
    name.is_empty() || name.len() > 8 || !all_letters(name)
}

// A name as one number, the first letter in the lowest byte.
fn name_code(name: &[u8]) -> u64
    requires { length name.now ≤ 8 }
    ensures { result ≡ name_code name.now }
{
    let mut bytes = [0; 8];
    bytes[..name.len()].copy_from_slice(name);
    u64::from_le_bytes(bytes)
}

// A series with the trade date and last number that another end has of it: none and 0 where it is not open there.
fn brought_back(from: &Receiver, x: KeptSeries) -> KeptSeries
    ensures { result ≡ brought_from from.now x }
{
    let Some(i) = from.find(x.series) else {
        return KeptSeries::new(x.series);
    };
    KeptSeries {
        series: x.series,
        ..from.kept.series[i]
    }
}

// Stays: a loop; with an array made by `map` a return takes 283 instructions more.
// The end with what was kept of each of its series; login and chain of all are cleared.
fn bring_back(end: Receiver, kept: Kept) -> Receiver
    ensures { result ≡ restored end kept }
{
    let from = Receiver {
        kept,
        live: no_line(),
    };
    let mut all = [KeptSeries::new(0); 8];
    for i in 0..8 {
        all[i] = brought_back(&from, end.kept.series[i]);
    }
    Receiver {
        kept: Kept {
            count: end.kept.count,
            series: all,
        },
        live: from.live,
    }
}

impl Checkpoints {
    // At most so many names are in use.
    pub const MOST_NAMES: usize = 4;
    // A name has at most so many letters.
    pub const MOST_LETTERS: usize = 8;

    // No name is in use.
    pub fn fresh() -> Checkpoints
        ensures { result ≡ fresh_checkpoints }
    {
        Checkpoints {
            count: 0,
            places: [Checkpoint {
                name: 0,
                kept: Receiver::fresh().kept,
            }; 4],
        }
    }

    // The first place of a name, as its number, among those in use.
    fn place(&self, name: u64) -> Option<usize>
        ensures { result ≡ position (λ (x : Checkpoint). x.name == name)
            (take self.now.count self.now.places) }
    {
        self.places
            .iter()
            .take(self.count)
            .position(|one| one.name == name)
    }

    // Where a name, as its number, stands among those in use: its first place.
    fn find(&self, name: u64) -> Option<usize>
        ensures { FindsName self.now name result }
    {
        self.place(name)
    }

    // So many names, and what is kept under one at a place.
    fn with_at(self, count: usize, i: usize, name: u64, kept: Kept) -> Checkpoints
        requires { i < 4 }
        ensures { result ≡ placed_name self count i name kept }
    {
        let mut places = self.places;
        places[i] = Checkpoint { name, kept };
        Checkpoints { count, places }
    }

    // Under a name that is not in use: 32, or it stands behind the others.
    fn keep_new(self, name: u64, kept: Kept) -> KeepStep
        ensures { result ≡ kept_new self name kept }
    {
        let n = self.count;
        if n < 4 {
            return KeepStep {
                checkpoints: self.with_at(n + 1, n, name, kept),
                answer: Ok(()),
            };
        }
        KeepStep {
            checkpoints: self,
            answer: Err(Refusal::FifthName),
        }
    }

    // Keep: what the end keeps of its series, under a name; 31 and 32. The end stays.
    pub fn keep(self, end: Receiver, name: &[u8]) -> KeepStep
        ensures { Keeps self end name.now result }
    {
        if wrong_name(name) {
            return KeepStep {
                checkpoints: self,
                answer: Err(Refusal::WrongName),
            };
        }
        let code = name_code(name);
        let Some(i) = self.find(code) else {
            return self.keep_new(code, end.kept);
        };
        KeepStep {
            checkpoints: self.with_at(self.count, i, code, end.kept),
            answer: Ok(()),
        }
    }

    // Return: to what was kept under a name; 31 and 33. The checkpoints stay.
    pub fn restore(self, end: Receiver, name: &[u8]) -> RestoreStep
        ensures { Restores self end name.now result }
    {
        if wrong_name(name) {
            return RestoreStep {
                end,
                answer: Err(Refusal::WrongName),
            };
        }
        let Some(i) = self.find(name_code(name)) else {
            return RestoreStep {
                end,
                answer: Err(Refusal::UnknownName),
            };
        };
        RestoreStep {
            end: bring_back(end, self.places[i].kept),
            answer: Ok(()),
        }
    }
}
