// A record file, read: whether it is well-formed, and what its records say.
#![tactic(auto)]

ghost use Rattle.std.specs.Prelude.{◌≡◌};
ghost use Rattle.records.specs.Records.{first_event, event_count, well_formed};
ghost use Rattle.records.specs.Contents.{table, start, event};

use state::Report;
use table::Table;
use units::Tick;

mod bytes;
mod contents;
mod kinds;

#[derive(Clone, Copy, Debug, PartialEq, Eq)]
pub enum Event {
    Release(u8),
    Tick(Report),
}

// How long a file is at the most.
pub const MOST_BYTES: usize = 65536;

// Which record is the first event.
pub fn first_event(file: &[u8]) -> usize
    ensures { result ≡ first_event file.now }
{
    1 + kinds::tasks(file).len()
}

// How many events there are.
pub fn event_count(file: &[u8]) -> usize
    ensures { result ≡ event_count file.now }
{
    bytes::records(file).len().saturating_sub(first_event(file))
}

// Whether the file is well-formed.
#[tactic(auto, using(std::proofs::lemmas::Bool::Decides::nat_tests), unfolding(crate::specs::Records::well_formed))]
pub fn well_formed(file: &[u8]) -> bool
    ensures { result ≡ well_formed file.now }
{
    kinds::sized(file.len())
        && kinds::is_setting(bytes::record(file, 0))
        && kinds::all_events(file, first_event(file))
}

// The table that the setting and the tasks make. Entries past the last task are zeros.
#[tactic(auto, unfolding(crate::specs::Contents::table))]
pub fn table(file: &[u8]) -> Table
    ensures { result ≡ table file.now }
{
    let setting = bytes::record(file, 0);
    let tasks = kinds::tasks(file);
    Table {
        full: bytes::byte(setting, 1),
        round: bytes::long(setting, 4),
        count: tasks.len(),
        tasks: contents::entries(tasks),
    }
}

// The starting tick.
#[tactic(auto, unfolding(crate::specs::Contents::start))]
pub fn start(file: &[u8]) -> Tick
    ensures { result ≡ start file.now }
{
    Tick(bytes::long(bytes::record(file, 0), 8))
}

// What the record at k says, where it is an event; of any record, since nothing is asked of the file.
#[tactic(auto, unfolding(crate::specs::Contents::event))]
pub fn event_at(file: &[u8], k: usize) -> Event
    ensures { result ≡ event file.now k }
{
    let record = bytes::record(file, k);
    match bytes::byte(record, 1) {
        1 => Event::Release(bytes::byte(record, 2)),
        _ => Event::Tick(contents::report(bytes::byte(record, 2), bytes::byte(record, 3))),
    }
}
