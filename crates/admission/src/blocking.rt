// B: how long a position can be kept waiting by a section of a lower level.
ghost use Rattle.std.specs.Prelude.{◌≡◌, ◌<◌, ℕ, max, get_or, ltb, leb, length};
ghost use Rattle.units.specs.Amounts.{ticks, steps};
ghost use Rattle.units.specs.Folds.{largest};
ghost use Rattle.table.specs.Table.{limit, no_task};

use std::array;
use table::Task;
use units::{Steps, Ticks};

// The longer of two sections on each resource.
fn longer(longest: &[Steps; 8], limits: &[Steps; 8]) -> [Steps; 8]
    ensures { (r : ℕ) → r < 8 → (get_or result r (steps 0)).0 ≡ max (get_or longest.now r (steps 0)).0 (get_or limits.now r (steps 0)).0 }
{
    array::from_fn(|r| longest[r].max(limits[r]))
}

// The longest of the sections of tasks of greater D on each resource.
fn longest_on_each(tasks: &[Task], deadline: Ticks) -> [Steps; 8]
    ensures { (r : ℕ) → r < 8 → (get_or result r (steps 0)).0 ≡ largest (λ j. ltb deadline.0 (get_or tasks.now j no_task).deadline.0)
        (λ j. limit (get_or tasks.now j no_task) r) (length tasks.now) }
{
    let mut longest = [Steps(0); 8];
    for task in tasks {
        let counts = deadline < task.deadline;
        if counts {
            longest = longer(&longest, &task.limits);
        }
    }
    longest
}

// The longest of the sections on resources whose ceiling is at most the deadline.
fn longest_of(ceilings: &[Ticks; 8], sections: &[Steps; 8], deadline: Ticks) -> Steps
    ensures { result.0 ≡ largest (λ k. leb (get_or ceilings.now k (ticks 0)).0 deadline.0) (λ k. (get_or sections.now k (steps 0)).0) 8 }
{
    let mut longest = Steps(0);
    // An index: what a zip of the two lends does not say, in a proof, at which place it stands.
    for (r, section) in sections.iter().enumerate() {
        let counts = ceilings[r] <= deadline;
        if counts {
            longest = longest.max(*section);
        }
    }
    longest
}

// The longest of the sections of tasks of greater D on resources whose ceiling is at most the deadline.
pub(crate) fn block(ceilings: &[Ticks; 8], tasks: &[Task], deadline: Ticks) -> Steps
    ensures { result.0 ≡ largest (λ j. ltb deadline.0 (get_or tasks.now j no_task).deadline.0)
        (λ j. largest (λ r. leb (get_or ceilings.now r (ticks 0)).0 deadline.0) (limit (get_or tasks.now j no_task)) 8) (length tasks.now) }
{
    longest_of(ceilings, &longest_on_each(tasks, deadline), deadline)
}
