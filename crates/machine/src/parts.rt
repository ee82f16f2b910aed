// What the calls are made of: one job, one task.
ghost use Rattle.std.specs.Prelude.{◌≡◌, ℕ, ◌<◌, set, Some};
ghost use Rattle.table.specs.Table.{task_at};
ghost use Rattle.state.specs.State.{job_at};
ghost use Rattle.seen.specs.Seen.{told, job_of, reported_by};
ghost use Rattle.machine.specs.Machine.{mid_tick, released};

use choice::Turn;
use report::Outcome;
use state::{Half, Job, Refusal, Report, State};
use table::{Table, Task};
use units::Tick;

pub(crate) fn mid_tick(half: Half) -> bool
    ensures { result ≡ mid_tick half }
{
    half == Half::Second
}

// The job of a task that is released.
pub(crate) fn released(task: Task, now: Tick) -> Job
    ensures { result ≡ released task now.0 }
{
    Job {
        pending: true,
        deadline: now.after(task.deadline),
        wait: task.period,
        ..Job::NONE
    }
}

// One job of a state, one task of a table, and a state with another job. Small functions that look, since one that looks and hands on has
// two copies on the stack; `checker` has its own `task_at`, since a public one would promise something of a position past the end.
pub(crate) fn job_at(state: State, position: usize) -> Job
    requires { position < 16 }
    ensures { result ≡ job_at state position }
{
    state.jobs[position]
}

pub(crate) fn task_at(table: Table, position: usize) -> Task
    requires { position < 16 }
    ensures { result ≡ task_at table position }
{
    table.tasks[position]
}

pub(crate) fn with_job(state: State, position: usize, job: Job) -> State
    requires { position < 16 }
    ensures { result ≡ record { tick = state.tick; jobs = set state.jobs position job; mark = state.mark; half = state.half; runner = state.runner } }
{
    let mut next = state;
    next.jobs[position] = job;
    next
}

// What the report of a turn makes of the runner's job, or why it is refused.
pub(crate) fn reported(
    table: Table,
    state: State,
    turn: Turn,
    held: u16,
    said: Report,
) -> Result<Outcome, Refusal>
    requires { (p : ℕ) → turn.runner ≡ Some p → p < 16 }
    ensures { told (job_of state turn.runner) result ≡ reported_by table state turn.runner held turn.speed said }
{
    match turn.runner {
        Some(p) => {
            let task = task_at(table, usize::from(p));
            let job = job_at(state, usize::from(p));
            reporter::reported(task, job, held, turn.speed, said)
        }
        None => reporter::reported_idle(said),
    }
}
