// The admission test: whether a table's deadlines can be kept.
#![tactic(auto)]

ghost use Rattle.std.specs.Prelude.{◌≡◌};
ghost use Rattle.admission.specs.Admission.{count_in_range, setting_in_range, verdict};

use table::Table;
use verdict::{Fault, Verdict};

mod blocking;
mod ranges;
mod sums;

fn count_in_range(t: &Table) -> bool
    ensures { result ≡ count_in_range t.now }
{
    (1..=Table::TASKS).contains(&t.count)
}

fn setting_in_range(t: &Table) -> bool
    ensures { result ≡ setting_in_range t.now }
{
    (1..=Table::FULL).contains(&t.full) && (1..=Table::ROUND).contains(&t.round)
}

// The verdict of a table.
#[tactic(auto, using(crate::proofs::Laws::Ranges::count_high))]
pub fn verdict_of(t: Table) -> Verdict
    ensures { result ≡ verdict t }
{
    if !count_in_range(&t) {
        return Err(Fault::Count);
    }
    if !setting_in_range(&t) {
        return Err(Fault::Setting);
    }
    let tasks = &t.tasks[..t.count];
    ranges::first_fault(t.full, t.round, tasks)?;
    if u64::from(t.round) < sums::independent_sum(t.round, tasks) {
        return Err(Fault::Independent);
    }
    sums::first_overload(t.round, tasks, &t.ceilings())
}
