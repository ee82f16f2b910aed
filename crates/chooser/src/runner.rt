// Whether top is blocked, and the runner.
ghost use Rattle.std.specs.Prelude.{◌≡◌};
ghost use Rattle.state.specs.Order.{position_of};
ghost use Rattle.seen.specs.Seen.{barred, run_by};

use seen::Seen;
use units::{Ticks, sets};

// The position at a place of the order.
pub fn position(place: u64) -> u8
    ensures { result ≡ position_of place }
{
    (place % 256) as u8
}

// Whether some resource that is held has a ceiling that is at most the deadline.
fn barred(held: u16, ceilings: [Ticks; 8], deadline: Ticks) -> bool
    ensures { result ≡ barred held ceilings deadline.0 }
{
    ceilings
        .iter()
        .enumerate()
        .any(|(r, ceiling)| sets::has(held, r) && *ceiling <= deadline)
}

// The place of the runner, by top's deadline: top's, or where what is held bars that the first started job's.
pub fn run_place(seen: Seen, ceilings: [Ticks; 8], deadline: Ticks) -> u64
    ensures { result ≡ run_by seen ceilings deadline.0 }
{
    if barred(seen.held, ceilings, deadline) {
        return seen.started;
    }
    seen.top
}
