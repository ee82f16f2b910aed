// What consistency asks of each job, and of the resources that they hold.
ghost use Rattle.std.specs.Prelude.{◌-◌, ◌≡◌, ◌&&◌, not, ltb, eqb, length};
ghost use Rattle.std.specs.List.{list_any};
ghost use Rattle.table.specs.Table.{limit};
ghost use Rattle.consistency.specs.Consistency.{not_pending_fits, pending_fits, started_fits, held_fits, is_taken, stack_fits, job_fits, unused};

use state::{Job, Section, Stack};
use table::Task;
use units::{Steps, Tick, Ticks, sets};

#[tactic(auto, unfolding(consistency::specs::Consistency::not_pending_fits))]
fn not_pending_fits(job: &Job) -> bool
    ensures { result ≡ not_pending_fits job.now }
{
    !job.started && job.used == Steps(0) && !job.held.any() && job.deadline == Tick(0)
}

// The ticks from a deadline to the next release: T - D.
fn after_deadline(task: Task) -> u64
    ensures { result ≡ task.period.0 - task.deadline.0 }
{
    u64::from(task.period.0.saturating_sub(task.deadline.0))
}

#[tactic(auto, unfolding(consistency::specs::Consistency::pending_fits))]
fn pending_fits(task: Task, now: Tick, job: &Job) -> bool
    ensures { result ≡ pending_fits task now.0 job.now }
{
    let ahead = u64::from(now.distance(job.deadline));
    job.used < task.budget
        && (1..=u64::from(task.deadline.0)).contains(&ahead)
        && u64::from(job.wait.0) == ahead + after_deadline(task)
}

#[tactic(auto, unfolding(consistency::specs::Consistency::started_fits))]
fn started_fits(job: &Job) -> bool
    ensures { result ≡ started_fits job.now }
{
    job.started || (job.used == Steps(0) && !job.held.any())
}

// Whether one of the sections is of the resource.
fn is_among(sections: &[Section], resource: u8) -> bool
    ensures { result ≡ list_any (λ x. eqb x.resource resource) sections.now }
{
    sections.iter().any(|section| section.resource == resource)
}

// Of a section that a job is in: no section below it is of its resource.
fn section_fits(task: Task, below: &[Section], section: Section) -> bool
    ensures { result ≡ ltb 0 (limit task section.resource) && (ltb section.steps.0 (limit task section.resource) && not (list_any (λ x. eqb x.resource section.resource) below.now)) }
{
    let limit = task.limit(section.resource);
    Steps(0) < limit && section.steps < limit && !is_among(below, section.resource)
}

fn held_fits(task: Task, held: &Stack) -> bool
    ensures { result ≡ held_fits task held.now }
{
    let sections = held.in_use();
    sections.iter().enumerate().all(|(i, section)| section_fits(task, &sections[..i], *section))
}

#[tactic(auto, using(consistency::proofs::Laws::Jobs::absent_fits), unfolding(consistency::specs::Consistency::job_fits, consistency::specs::Consistency::wait_fits))]
fn job_fits(task: Task, now: Tick, job: &Job) -> bool
    ensures { result ≡ job_fits task now.0 job.now }
{
    job.wait <= task.period
        && if job.pending {
            started_fits(job) && held_fits(task, &job.held) && pending_fits(task, now, job)
        } else {
            not_pending_fits(job)
        }
}

// What is not in use is 0.
#[tactic(auto, unfolding(consistency::specs::Consistency::stack_fits))]
fn stack_fits(held: &Stack) -> bool
    ensures { result ≡ stack_fits held.now }
{
    let depth = usize::from(held.depth);
    depth <= Stack::PLACES
        && held.sections[depth..]
            .iter()
            .all(|section| *section == Section::NONE)
}

// A place past the task count.
#[tactic(auto, unfolding(consistency::specs::Consistency::unused))]
pub(crate) fn unused(job: &Job) -> bool
    ensures { result ≡ stack_fits job.now.held && unused job.now }
{
    !job.pending && job.wait == Ticks(0) && not_pending_fits(job) && stack_fits(&job.held)
}

// A place in the table. That a task has 8 limits is said here for the walk.
pub(crate) fn fits(task: Task, now: Tick, job: &Job) -> bool
    ensures { (result ≡ stack_fits job.now.held && job_fits task now.0 job.now) × (length task.limits ≡ 8) }
{
    stack_fits(&job.held) && job_fits(task, now, job)
}

// A resource that is held is in the set.
pub(crate) fn is_taken(set: u16, held: &Stack) -> bool
    ensures { result ≡ is_taken set held.now }
{
    held.in_use()
        .iter()
        .any(|section| sets::has(set, usize::from(section.resource)))
}
