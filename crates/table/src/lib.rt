// The task table, and the ceilings of its resources.
#![tactic(auto)]

ghost use Rattle.std.specs.Prelude.{◌≡◌};
ghost use Rattle.units.specs.Amounts.{steps};
ghost use Rattle.table.specs.Table.{limit};

use units::{Steps, Ticks};

mod ceilings;

#[derive(Clone, Copy)]
pub struct Task {
    pub period: Ticks,
    pub deadline: Ticks,
    pub budget: Steps,
    pub independent: u8,
    pub synchronization: u8,
    pub limits: [Steps; 8],
}

impl Task {
    // The section limit on a resource; 0 for one above 7.
    pub fn limit(self, resource: u8) -> Steps
        ensures { result ≡ steps (limit self resource) }
    {
        self.limits
            .get(usize::from(resource))
            .copied()
            .unwrap_or(Steps(0))
    }
}

// Entries past the count are not read. No slice and no Vec: memory is fixed, and a count that no table has is number 2.
#[derive(Clone, Copy)]
pub struct Table {
    pub full: u8,
    pub round: u32,
    pub count: usize,
    pub tasks: [Task; Table::TASKS],
}

impl Table {
    pub const TASKS: usize = 16;

    pub const FULL: u8 = 64;

    pub const ROUND: u32 = 1000000;
}
