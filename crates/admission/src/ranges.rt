// Numbers 4, 5 and 6: what can be wrong with a position.
ghost use Rattle.std.specs.Prelude.{◌≡◌, leb, length};
ghost use Rattle.units.specs.Folds.{all, first};
ghost use Rattle.table.specs.Table.{limit};
ghost use Rattle.admission.specs.Admission.{of_tasks, in_range, fault, fault_at, faulty};
ghost use Rattle.verdict.specs.Verdict.{passing};

use table::Task;
use units::{Steps, Ticks};
use verdict::{Fault, Verdict};

fn limits_in_range(task: Task) -> bool
    ensures { result ≡ all (λ r. leb (limit task r) task.budget.0) 8 }
{
    task.limits.iter().all(|limit| *limit <= task.budget)
}

#[tactic(auto, unfolding(crate::specs::Admission::in_range))]
fn in_range(full: u8, task: Task) -> bool
    ensures { result ≡ in_range full task }
{
    (Ticks(1)..=task.period).contains(&task.deadline)
        && Steps(1) <= task.budget
        && (1..=task.synchronization).contains(&task.independent)
        && task.synchronization <= full
        && limits_in_range(task)
}

// What is wrong with a task, given the D of the position before it.
fn fault_of(full: u8, round: u32, previous: Ticks, task: Task, position: usize) -> Verdict
    ensures { result ≡ fault full round previous.0 task position }
{
    if !in_range(full, task) {
        return Err(Fault::Range(position));
    }
    if round % u32::from(task.deadline.0) != 0 {
        return Err(Fault::Divisor(position));
    }
    if task.deadline < previous {
        return Err(Fault::Order(position));
    }
    Ok(())
}

// What is wrong with the lowest faulty position.
pub(crate) fn first_fault(full: u8, round: u32, tasks: &[Task]) -> Verdict
    ensures { result ≡ first (faulty (of_tasks full round tasks.now)) (fault_at (of_tasks full round tasks.now)) passing (length tasks.now) }
{
    let mut previous = Ticks(0);
    for (k, task) in tasks.iter().enumerate() {
        fault_of(full, round, previous, *task, k)?;
        previous = task.deadline;
    }
    Ok(())
}
