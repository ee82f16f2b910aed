// The speed of a runner that stands in the way of those ahead of it.
ghost use Rattle.std.specs.Prelude.{◌≡◌, ◌≤◌, ◌&&◌, length, filter, min, max, leb, ltb};
ghost use Rattle.std.specs.List.{fold, enumerate_from, zip};
ghost use Rattle.units.specs.Amounts.{ticks};
ghost use Rattle.state.specs.Order.{place};
ghost use Rattle.seen.specs.Seen.{inherited_by};

use crate::order;
use state::{Job, State};
use table::{Table, Task};
use units::{Tick, Ticks};

// The shortest D of the jobs ahead of a place, each with its task.
fn shortest_ahead(jobs: &[Job], tasks: &[Task], now: Tick, run: u64) -> u16
    requires { length jobs.now ≤ 16 }
    ensures { result ≡ fold (λ m x. min m x.1.1.deadline.0) 65535 (filter (λ x. x.1.0.pending && ltb (place now.0 x.1.0.deadline.0 x.0) run) (enumerate_from 0 (zip jobs.now tasks.now))) }
{
    jobs.iter()
        .zip(tasks)
        .enumerate()
        .filter(|(k, (job, _))| job.pending && order::place(now, job.deadline, *k as u8) < run)
        .fold(u16::MAX, |best, (_, (_, task))| best.min(task.deadline.0))
}

// The largest S of the tasks whose D lies between two, both counted.
fn fastest(tasks: &[Task], low: Ticks, high: Ticks) -> u8
    ensures { result ≡ fold (λ m x. max m x.synchronization) 0 (filter (λ x. leb low.0 x.deadline.0 && leb x.deadline.0 high.0) tasks.now) }
{
    tasks
        .iter()
        .filter(|task| (low..=high).contains(&task.deadline))
        .fold(0u8, |best, task| best.max(task.synchronization))
}

// By the runner's place and its own D. The positions are as many as the task count, and 16 at most: a bound that is not known beforehand, so that the compiler keeps a state in one piece.
pub fn inherited(table: Table, state: State, run: u64, own: Ticks) -> u8
    ensures { result ≡ inherited_by table state run own.0 }
{
    let n = table.count.min(State::TASKS);
    let tasks = &table.tasks[..n];
    let ahead = Ticks(shortest_ahead(&state.jobs[..n], tasks, state.tick, run));
    fastest(tasks, own.min(ahead), own.max(ahead))
}
