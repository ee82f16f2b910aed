// The order of the jobs, as one number for each place in it.
ghost use Rattle.std.specs.Prelude.{◌≡◌};
ghost use Rattle.state.specs.Order.{place};

use units::Tick;

// A place in the order: nearer deadline first, equal deadlines by lower position. One number, as the rules have it.
pub(crate) fn place(now: Tick, deadline: Tick, position: u8) -> u64
    ensures { result ≡ place now.0 deadline.0 position }
{
    (now.distance(deadline) as u64) * 256 + (position as u64)
}
