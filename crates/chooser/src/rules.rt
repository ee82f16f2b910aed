// The five rules: the mark, the mode and the speed.
ghost use Rattle.std.specs.Prelude.{◌≡◌};
ghost use Rattle.choice.specs.Choice.{mark_place, mark_at, synchronized, alone, no_holder_behind};
ghost use Rattle.seen.specs.Seen.{rules_by};

use crate::order;
use crate::runner::position;
use choice::Turn;
use seen::Seen;
use state::{Mark, Mode, Place};
use table::Task;
use units::Tick;

// The mark's place; 0, which is behind no other, where there is none.
fn mark_place(now: Tick, mark: Mark) -> u64
    ensures { result ≡ mark_place now.0 mark }
{
    mark.map_or(
        0,
        |marked| order::place(now, marked.deadline, marked.position),
    )
}

// The mark at a place.
fn mark_at(now: Tick, place: u64) -> Mark
    ensures { result ≡ mark_at now.0 place }
{
    let deadline = now.ahead((place / 256 % 4294967296) as u32);
    Some(Place {
        deadline,
        position: position(place),
    })
}

// What a rule gives: synchronization, with a mark and a speed.
fn synchronized(run: u64, mark: Mark, speed: u8) -> Turn
    ensures { result ≡ synchronized run mark speed }
{
    Turn {
        runner: Some(position(run)),
        mark,
        mode: Mode::Synchronization,
        speed,
    }
}

// Or the mark removed, independent, at the runner's own speed.
fn alone(run: u64, task: Task) -> Turn
    ensures { result ≡ alone run task }
{
    Turn {
        runner: Some(position(run)),
        mark: None,
        mode: Mode::Independent,
        speed: task.independent,
    }
}

// Rules 3, 4 and 5, of a runner that is top and has no holder behind it.
fn no_holder_behind(mark: Mark, old: u64, run: u64, task: Task) -> Turn
    ensures { result ≡ no_holder_behind mark old run task }
{
    match mark {
        Some(_) if run < old => synchronized(run, mark, task.synchronization),
        _ => alone(run, task),
    }
}

// Rules 1 and 2, then the others, of a runner with its task; `inherited` is the speed of rule 1.
#[tactic(auto, unfolding(seen::specs::Seen::rules_by))]
pub fn rules(now: Tick, mark: Mark, seen: Seen, run: u64, task: Task, inherited: u8) -> Turn
    ensures { result ≡ rules_by now.0 mark seen run task inherited }
{
    let old = mark_place(now, mark);
    if run != seen.top {
        let moved = mark_at(now, old.max(run.max(seen.last)));
        return synchronized(run, moved, inherited);
    }
    if run < seen.last {
        let moved = mark_at(now, old.max(seen.last));
        return synchronized(run, moved, task.synchronization);
    }
    no_holder_behind(mark, old, run, task)
}
