// The machine's calls, for any table and any state. Each makes both tests itself: a function for the two would add its own copies of table and state to the stack.
#![tactic(auto)]

ghost use Rattle.std.specs.Prelude.{◌≡◌};
ghost use Rattle.state.specs.Answers.{told};
ghost use Rattle.machine.specs.Machine.{release, choose, report};

use checker::examine;
use state::{Ending, Refusal, Report, State, Success};
use table::Table;
use units::Ticks;

mod parts;

// A job of the task at a position is taken on, or refused.
#[tactic(auto, using(crate::proofs::Laws::Found::found_waiting))]
pub fn release(table: Table, state: State, position: usize) -> Result<Success, Refusal>
    ensures { told state result ≡ release table state position }
{
    admission::verdict_of(table)?;
    examine(table, state).ok_or(Refusal::Inconsistent)?;
    if parts::mid_tick(state.half) {
        return Err(Refusal::WrongHalf);
    }
    if table.count <= position {
        return Err(Refusal::NotInTable);
    }
    let job = parts::job_at(state, position);
    if Ticks(0) < job.wait {
        return Err(Refusal::TooEarly);
    }
    let task = parts::task_at(table, position);
    let next = parts::released(task, state.tick);
    Ok(Success::bare(parts::with_job(state, position, next)))
}

// The first half of a tick: who runs, in which mode, at which speed; or refused: 9, 11.
pub fn choose(table: Table, state: State) -> Result<Success, Refusal>
    ensures { told state result ≡ choose table state }
{
    admission::verdict_of(table)?;
    let found = examine(table, state).ok_or(Refusal::Inconsistent)?;
    if parts::mid_tick(state.half) {
        return Err(Refusal::WrongHalf);
    }
    let turn = found.turn;
    Ok(Success {
        state: halves::in_mid_tick(state, turn),
        runner: turn.runner,
        mode: turn.mode,
        speed: turn.speed,
        ending: Ending::GoesOn,
    })
}

// The second half of a tick: what the runner's job says; or refused: 9, 11, 14, 13, 15, 16.
#[tactic(auto, using(crate::proofs::Laws::Found::found_between))]
pub fn report(table: Table, state: State, said: Report) -> Result<Success, Refusal>
    ensures { told state result ≡ report table state said }
{
    admission::verdict_of(table)?;
    let found = examine(table, state).ok_or(Refusal::Inconsistent)?;
    if !parts::mid_tick(state.half) {
        return Err(Refusal::WrongHalf);
    }
    let turn = found.turn;
    let p = halves::runner_position(turn.runner);
    let after = parts::reported(table, state, turn, found.held, said)?;
    if halves::late(found.due, p, !after.job.pending) {
        return Err(Refusal::Late);
    }
    Ok(Success {
        state: halves::closed(state, p, after.job),
        runner: turn.runner,
        mode: turn.mode,
        speed: turn.speed,
        ending: after.ending,
    })
}
