// What a tick and its report do to the runner's job.
ghost use Rattle.std.specs.Prelude.{◌≡◌, ℕ, ◌<◌};
ghost use Rattle.state.specs.declared.Report.TheVariants.{Take};
ghost use Rattle.state.specs.declared.Ending.TheVariants.{Cut};
ghost use Rattle.report.specs.Report.{worked, ended, holding, onward, settled};

use crate::sections;
use report::Outcome;
use state::{Ending, Job, Report, Stack};
use table::Task;
use units::Steps;

// The job with the steps of its tick.
pub(crate) fn worked(task: Task, speed: u8, job: Job) -> Job
    ensures { result ≡ worked task speed job }
{
    let used = sections::rise(job.used, Steps::given(speed), task.budget);
    let held = sections::held_on(task, speed, job.held);
    Job { used, held, ..job }
}

fn ended(job: Job) -> Job
    ensures { result ≡ ended job }
{
    Job {
        wait: job.wait,
        ..Job::NONE
    }
}

fn holding(held: Stack, job: Job) -> Job
    ensures { result ≡ holding held job }
{
    Job { held, ..job }
}

fn cut(job: Job) -> Outcome
    ensures { result ≡ record { job = ended job; ending = Cut } }
{
    Outcome {
        job: ended(job),
        ending: Ending::Cut,
    }
}

// Cut by the budget, or by the limit of a section that it holds then; else it goes on.
fn onward(task: Task, job: Job, held: Stack) -> Outcome
    ensures { result ≡ onward task job held }
{
    if job.used == task.budget {
        return cut(job);
    }
    if sections::at_limit(task, held) {
        return cut(job);
    }
    Outcome {
        job: holding(held, job),
        ending: Ending::GoesOn,
    }
}

// Done; else it goes on with the sections that the report leaves it, or is cut. A take finds room: a fifth was refused.
pub(crate) fn settled(task: Task, said: Report, job: Job) -> Outcome
    requires { (r : ℕ) → said ≡ Take r → job.held.depth < 4 }
    ensures { result ≡ settled task said job }
{
    let held = job.held;
    match said {
        Report::Done => Outcome {
            job: ended(job),
            ending: Ending::Done,
        },
        Report::CarryOn => onward(task, job, held),
        Report::Take(resource) => onward(task, job, sections::taken(resource, held)),
        Report::Give => onward(task, job, sections::given_back(held)),
    }
}
