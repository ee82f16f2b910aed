// What a task's record and an event's bytes say.
ghost use Rattle.std.specs.Prelude.{◌≡◌, ◌+◌, ◌*◌, [], get_or};
ghost use Rattle.units.specs.{Amounts.steps, Folds.listed};
ghost use Rattle.records.specs.Bytes.{word};
ghost use Rattle.records.specs.Contents.{task, report};

use crate::bytes::{self, byte, word};
use state::Report;
use std::array;
use table::Task;
use units::{Steps, Ticks};

// The limits on the eight resources.
fn limits(bytes: &[u8]) -> [Steps; 8]
    ensures { result ≡ listed (λ k. steps (word bytes.now (16 + k * 2))) 8 }
{
    array::from_fn(|k| Steps(word(bytes, 16 + k * 2)))
}

#[tactic(auto, unfolding(crate::specs::Contents::task))]
fn task(bytes: &[u8]) -> Task
    ensures { result ≡ task bytes.now }
{
    Task {
        period: Ticks(word(bytes, 4)),
        deadline: Ticks(word(bytes, 6)),
        budget: Steps(word(bytes, 8)),
        independent: byte(bytes, 1),
        synchronization: byte(bytes, 2),
        limits: limits(bytes),
    }
}

// The table's entries, of the records of its tasks. Entries past the last are made of no bytes.
pub(crate) fn entries(records: &[[u8; 32]]) -> [Task; 16]
    ensures { result ≡ listed (λ k. task (get_or records.now k [])) 16 }
{
    array::from_fn(|k| task(bytes::at(records, k)))
}

// Of any two bytes, since a record is read before anything is known of it.
#[tactic(auto, unfolding(crate::specs::Contents::report))]
pub(crate) fn report(said: u8, resource: u8) -> Report
    ensures { result ≡ report said resource }
{
    match said {
        0 => Report::CarryOn,
        1 => Report::Done,
        2 => Report::Take(resource),
        _ => Report::Give,
    }
}
