// Where a table or a state is looked into.
ghost use Rattle.std.specs.Prelude.{◌≡◌, ◌<◌};
ghost use Rattle.table.specs.Table.{task_at};
ghost use Rattle.seen.specs.Seen.{walked};

use crate::jobs;
use chooser::gather;
use seen::Seen;
use state::State;
use table::{Table, Task};

// Each place fits, and no resource is held by two jobs; and what the choice and the report need to know.
// A resource that fits is one of 8, so that the set tells of each that has been met.
pub(crate) fn walk(table: Table, state: State) -> Option<Seen>
    ensures { result ≡ walked table state }
{
    let mut seen = Seen::NOTHING;
    // An index: the position is part of what is gathered.
    for (k, job) in state.jobs.iter().enumerate() {
        if k < table.count {
            let task = table.tasks[k];
            if !jobs::fits(task, state.tick, job) {
                return None;
            }
            if jobs::is_taken(seen.held, &job.held) {
                return None;
            }
            seen = gather::seen_with(seen, state.tick, *job, k as u8);
        } else if !jobs::unused(job) {
            return None;
        }
    }
    Some(seen)
}

// Small, since a function that looks into a table and hands it on has two copies on the stack.
pub(crate) fn task_at(table: Table, position: u8) -> Task
    requires { position < 16 }
    ensures { result ≡ task_at table position }
{
    table.tasks[position as usize]
}
