// The turn, by what a walk has seen.
ghost use Rattle.std.specs.Prelude.{◌≡◌, true, ◌<◌};
ghost use Rattle.table.specs.Table.{D, ceilings};
ghost use Rattle.state.specs.Order.{position_of};
ghost use Rattle.choice.specs.Choice.{runner, turn};
ghost use Rattle.consistency.specs.Consistency.{positions_fit};
ghost use Rattle.seen.specs.Seen.{seen, is_free, run_by};

use crate::walks;
use choice::Turn;
use chooser::{rules, runner, speed};
use seen::Seen;
use state::State;
use table::Table;

// Nothing is held, or top is started (or nobody is there): nobody stands in top's way. `run_place` would say the same, and ask for the ceilings.
pub(crate) fn is_free(found: Seen) -> bool
    ensures { result ≡ is_free found }
{
    found.held == 0 || found.started == found.top
}

// The place of the runner where top may be barred.
pub(crate) fn run_place(table: Table, found: Seen) -> u64
    requires { position_of found.top < 16 }
    ensures { result ≡ run_by found (ceilings table) (D table (position_of found.top)) }
{
    let ceilings = table.ceilings();
    let task = walks::task_at(table, runner::position(found.top));
    runner::run_place(found, ceilings, task.deadline)
}

// The turn of a state that was walked over, by the place of its runner.
pub(crate) fn turn(table: Table, state: State, found: Seen, run: u64) -> Turn
    requires { (positions_fit table state ≡ true) × ((found ≡ seen state) × (run ≡ runner table state)) }
    ensures { result ≡ turn table state }
{
    // Nobody is there.
    if State::NO_PLACE <= found.top {
        return Turn::IDLE;
    }
    let task = walks::task_at(table, runner::position(run));
    let inherited = if run != found.top {
        speed::inherited(table, state, run, task.deadline)
    } else {
        0
    };
    rules::rules(state.tick, state.mark, found, run, task, inherited)
}
