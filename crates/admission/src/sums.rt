// Numbers 7 and 8: what a round is asked for.
ghost use Rattle.std.specs.Prelude.{◌≡◌, ◌≤◌, ◌*◌, length, sum_by, Err};
ghost use Rattle.units.specs.Folds.{first};
ghost use Rattle.table.specs.Table.{ceilings};
ghost use Rattle.admission.specs.Admission.{of_tasks, ticks_in_round, overloaded};
ghost use Rattle.verdict.specs.declared.Fault.TheVariants.{Synchronization};
ghost use Rattle.verdict.specs.Verdict.{passing};

use crate::blocking;
use table::Task;
use units::{Steps, Ticks};
use verdict::{Fault, Verdict};

// The ticks that some work takes at a speed in a round, once in each D.
fn ticks_in_round(work: Steps, speed: u8, round: u32, deadline: Ticks) -> u64
    ensures { (result ≡ ticks_in_round work.0 speed round deadline.0) × (result ≤ 65535 * 4294967295) }
{
    if deadline.0 == 0 {
        return 0;
    }
    let ticks = work.up(Steps::given(speed));
    u64::from(ticks.0) * u64::from(round / u32::from(deadline.0))
}

pub(crate) fn independent_sum(round: u32, tasks: &[Task]) -> u64
    requires { length tasks.now ≤ 16 }
    ensures { result ≡ sum_by (λ x. ticks_in_round x.budget.0 x.independent round x.deadline.0) tasks.now }
{
    tasks
        .iter()
        .map(|task| ticks_in_round(task.budget, task.independent, round, task.deadline))
        .sum()
}

// The smallest position whose synchronization sum is above the round.
pub(crate) fn first_overload(round: u32, tasks: &[Task], levels: &[Ticks; 8]) -> Verdict
    requires { (length tasks.now ≤ 16) × (levels.now ≡ ceilings (of_tasks 0 round tasks.now)) }
    ensures { result ≡ first (overloaded (of_tasks 0 round tasks.now)) (λ i. Err (Synchronization i)) passing (length tasks.now) }
{
    let mut sum = 0;
    for (i, task) in tasks.iter().enumerate() {
        let longest = blocking::block(levels, tasks, task.deadline);
        let own = ticks_in_round(task.budget, task.synchronization, round, task.deadline);
        let block = ticks_in_round(longest, task.synchronization, round, task.deadline);
        if u64::from(round) < block + sum + own {
            return Err(Fault::Synchronization(i));
        }
        sum += own;
    }
    Ok(())
}
