// Whether a state is consistent: document 01's last paragraph of 'Numbers returned', but for the table's own verdict. One walk over the positions tests them and gathers what the turn is made of.
#![tactic(auto)]

ghost use Rattle.std.specs.Prelude.{◌≡◌};
ghost use Rattle.consistency.specs.Consistency.{mark_fits};
ghost use Rattle.seen.specs.Seen.{half_fits_by, examined};

use choice::Turn;
use seen::Examined;
use state::{Half, Mark, Runner, State};
use table::Table;
use units::Tick;

mod jobs;
mod turns;
mod walks;

fn mark_fits(count: usize, now: Tick, mark: Mark) -> bool
    ensures { result ≡ mark_fits count now.0 mark }
{
    mark.is_none_or(|marked| {
        (marked.position as usize) < count && now.distance(marked.deadline) <= State::AHEAD
    })
}

// In mid-tick, that making the choice again would change nothing; `begun` tells whether the turn's runner is started.
fn half_fits(half: Half, on: Runner, old: Mark, begun: bool, turn: Turn) -> bool
    ensures { result ≡ half_fits_by half on old begun turn }
{
    match half {
        Half::First => on.is_none(),
        Half::Second => turn.runner == on && turn.mark == old && begun,
    }
}

// Of a state that fits a table: its turn, what is held and who is due.
pub fn examine(table: Table, state: State) -> Option<Examined>
    ensures { result ≡ examined table state }
{
    let seen = walks::walk(table, state)?;
    let mark = state.mark;
    if !mark_fits(table.count, state.tick, mark) {
        return None;
    }
    let run = if turns::is_free(seen) {
        seen.top
    } else {
        turns::run_place(table, seen)
    };
    let turn = turns::turn(table, state, seen, run);
    if !half_fits(state.half, state.runner, mark, run == seen.started, turn) {
        return None;
    }
    Some(Examined {
        turn,
        held: seen.held,
        due: seen.due,
    })
}
