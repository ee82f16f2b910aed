// Whether a report is to be refused for what it says.
ghost use Rattle.std.specs.Prelude.{◌≡◌, ◌||◌, leb};
ghost use Rattle.state.specs.Order.{holds};
ghost use Rattle.state.specs.Answers.{number_told};
ghost use Rattle.report.specs.Report.{objection};

use state::{Job, Refusal, Report, Stack};
use table::Task;
use units::{Steps, sets};

// It would be taken again, or be a fifth.
fn held_or_fifth(resource: u8, own: Stack) -> bool
    ensures { result ≡ holds resource own || leb 4 own.depth }
{
    own.holds(resource) || Stack::PLACES <= usize::from(own.depth)
}

// Why it is refused, if it is; `held` are the resources that jobs hold.
pub(crate) fn objection(task: Task, job: Job, held: u16, said: Report) -> Result<(), Refusal>
    ensures { number_told result ≡ objection task job held said }
{
    match said {
        Report::CarryOn | Report::Done => Ok(()),
        Report::Give if job.held.any() => Ok(()),
        Report::Give => Err(Refusal::NotNow),
        Report::Take(resource) if held_or_fifth(resource, job.held) => Err(Refusal::NotNow),
        Report::Take(resource) if task.limit(resource) == Steps(0) => Err(Refusal::MayNotTake),
        Report::Take(resource) if sets::has(held, resource as usize) => Err(Refusal::HeldByAnother),
        Report::Take(_) => Ok(()),
    }
}
