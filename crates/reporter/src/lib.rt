// The second half of a tick, of one task and one job: the steps, the report, the endings.
#![tactic(auto)]

ghost use Rattle.std.specs.Prelude.{◌≡◌};
ghost use Rattle.state.specs.State.{no_job};
ghost use Rattle.seen.specs.Seen.{told, reported, reported_idle};

use report::Outcome;
use state::{Ending, Job, Refusal, Report};
use table::Task;

mod endings;
mod objection;
mod sections;

// What a report makes of the job that ran, or why it is refused; `held` are the resources that jobs hold.
pub fn reported(
    task: Task,
    job: Job,
    held: u16,
    speed: u8,
    said: Report,
) -> Result<Outcome, Refusal>
    ensures { told job result ≡ reported task job held speed said }
{
    objection::objection(task, job, held, said)?;
    Ok(endings::settled(task, said, endings::worked(task, speed, job)))
}

// The report of an idle tick.
#[tactic(auto, unfolding(units::specs::Folds::listed, units::specs::Folds::over))]
pub fn reported_idle(said: Report) -> Result<Outcome, Refusal>
    ensures { told no_job result ≡ reported_idle said }
{
    let idle = Outcome {
        job: Job::NONE,
        ending: Ending::GoesOn,
    };
    match said {
        Report::CarryOn => Ok(idle),
        _ => Err(Refusal::NotNow),
    }
}
