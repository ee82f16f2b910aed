// Who holds what.
ghost use Rattle.std.specs.Prelude.{◌≡◌};
ghost use Rattle.state.specs.Stack.{in_use};
ghost use Rattle.state.specs.Order.{holds_any, holds, with_held};

use crate::{Section, Stack};
use units::sets;

impl Stack {
    // The sections that the job is in, the outermost first.
    pub fn in_use(&self) -> &[Section]
        ensures { result.now ≡ in_use self.now }
    {
        let depth = (self.depth as usize).min(Stack::PLACES);
        &self.sections[..depth]
    }

    // Whether a resource is held.
    pub fn any(&self) -> bool
        ensures { result ≡ holds_any self.now }
    {
        0 < self.depth
    }

    // Whether this one is.
    pub fn holds(&self, resource: u8) -> bool
        ensures { result ≡ holds resource self.now }
    {
        self.in_use()
            .iter()
            .any(|section| resource == section.resource)
    }

    // A set of resources, with those that are held.
    pub fn join(&self, set: u16) -> u16
        ensures { result ≡ with_held set self.now }
    {
        self.in_use().iter().fold(
            set,
            |found, section| sets::with(found, section.resource as usize),
        )
    }
}
