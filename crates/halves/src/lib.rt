// The state after each half of a tick.
#![tactic(auto)]

ghost use Rattle.std.specs.Prelude.{◌≡◌, set};
ghost use Rattle.choice.specs.Choice.{in_mid_tick};
ghost use Rattle.report.specs.Report.{closed};
ghost use Rattle.seen.specs.Seen.{runner_position, late_by};

use choice::Turn;
use state::{Half, Job, Runner, State};
use units::{Ticks, sets};

// The position of the runner; 16 where there is none, since what follows takes any position.
pub fn runner_position(runner: Runner) -> usize
    ensures { result ≡ runner_position runner }
{
    match runner {
        None => State::TASKS,
        Some(p) => p as usize,
    }
}

// The state in mid-tick, by a turn: the runner is started.
pub fn in_mid_tick(state: State, turn: Turn) -> State
    ensures { result ≡ in_mid_tick state turn }
{
    let p = runner_position(turn.runner);
    let mut jobs = state.jobs;
    if p < State::TASKS {
        jobs[p].started = true;
    }
    State {
        jobs,
        mark: turn.mark,
        half: Half::Second,
        runner: turn.runner,
        ..state
    }
}

// The state a tick later, with the job at a position as its report left it; there is none at a position above 15.
pub fn closed(state: State, position: usize, job: Job) -> State
    ensures { result ≡ closed state (set state.jobs position job) }
{
    let mut jobs = state.jobs;
    if position < State::TASKS {
        jobs[position] = job;
    }
    for next in &mut jobs {
        next.wait = Ticks(next.wait.0.saturating_sub(1));
    }
    State {
        tick: state.tick.after(Ticks(1)),
        jobs,
        half: Half::First,
        runner: None,
        ..state
    }
}

// Whether one of those that are due is still there after the tick, where the job at a position has ended or has not.
#[tactic(auto, unfolding(seen::specs::Seen::late_by))]
pub fn late(due: u16, position: usize, ended: bool) -> bool
    ensures { result ≡ late_by due position ended }
{
    if ended {
        return due != 0 && due != sets::with(0, position);
    }
    due != 0
}
