// Ticks and steps, the tick counter, and sets of positions.
#![tactic(auto)]

ghost use Rattle.std.specs.Prelude.{◌≡◌};
ghost use Rattle.units.specs.Amounts.{ticks, steps, given, up};

mod clock;
pub mod sets;

// How many ticks. A tick count is never added to a step count.
#[derive(Clone, Copy, Debug, PartialEq, Eq, PartialOrd, Ord)]
pub struct Ticks(pub u16);

// A value of the tick counter: now, or a deadline. It rolls over, so no value comes before another.
#[derive(Clone, Copy, Debug, PartialEq, Eq)]
pub struct Tick(pub u32);

// How many steps of work.
#[derive(Clone, Copy, Debug, PartialEq, Eq, PartialOrd, Ord)]
pub struct Steps(pub u16);

impl Steps {
    // What a tick at this speed gives.
    #[tactic(auto, unfolding(crate::specs::Amounts::given))]
    pub fn given(speed: u8) -> Steps
        ensures { result ≡ steps (given speed) }
    {
        Steps(u16::from(speed))
    }

    // Up: the only way from steps to ticks. Ticks that give nothing count for nothing.
    #[tactic(auto, using(crate::proofs::Laws::Amounts::up_none, crate::proofs::Laws::Amounts::ceil_up))]
    pub fn up(self, each: Steps) -> Ticks
        ensures { result ≡ ticks (up self.0 each.0) }
    {
        if each.0 == 0 {
            return Ticks(0);
        }
        Ticks(self.0.div_ceil(each.0))
    }
}
