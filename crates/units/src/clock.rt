// The tick counter, which rolls over.
ghost use Rattle.std.specs.Prelude.{◌≡◌};
ghost use Rattle.units.specs.Clock.{tick, after, distance};

use crate::{Tick, Ticks};

impl Tick {
    // The tick that stands so far ahead of this one.
    #[tactic(auto, unfolding(crate::specs::Clock::after))]
    pub fn ahead(self, distance: u32) -> Tick
        ensures { result ≡ tick (after self.0 distance) }
    {
        Tick(self.0.wrapping_add(distance))
    }

    // The same, so many ticks ahead.
    pub fn after(self, ticks: Ticks) -> Tick
        ensures { result ≡ tick (after self.0 ticks.0) }
    {
        self.ahead(u32::from(ticks.0))
    }

    // How far ahead of this tick a deadline is.
    #[tactic(auto, unfolding(crate::specs::Clock::distance))]
    pub fn distance(self, deadline: Tick) -> u32
        ensures { result ≡ distance self.0 deadline.0 }
    {
        deadline.0.wrapping_sub(self.0)
    }
}
