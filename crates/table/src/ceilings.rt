// Who uses a resource, and its ceiling.
ghost use Rattle.std.specs.Prelude.{◌≡◌, ◌<◌};
ghost use Rattle.units.specs.Amounts.{ticks};
ghost use Rattle.table.specs.Table.{users, ceiling, ceilings};

use crate::Table;
use std::array;
use units::{Steps, Ticks, sets};

impl Table {
    // The users of a resource.
    fn users(&self, resource: usize) -> u16
        requires { resource < 8 }
        ensures { result ≡ users self.now resource }
    {
        let mut users = 0;
        for (k, task) in self.tasks.iter().enumerate() {
            if k < self.count && Steps(0) < task.limits[resource] {
                users = sets::with(users, k);
            }
        }
        users
    }

    // The ceiling of a resource: the D of its lowest user, 0 where it has none.
    fn ceiling(&self, resource: usize) -> Ticks
        requires { resource < 8 }
        ensures { result ≡ ticks (ceiling self.now resource) }
    {
        let lowest = sets::lowest(self.users(resource)) as usize;
        self.tasks
            .get(lowest)
            .map_or(Ticks(0), |user| user.deadline)
    }

    // The ceiling of each resource.
    pub fn ceilings(self) -> [Ticks; 8]
        ensures { result ≡ ceilings self }
    {
        array::from_fn(|resource| self.ceiling(resource))
    }
}
