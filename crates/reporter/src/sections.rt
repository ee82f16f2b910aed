// What a tick and its report do to the sections that a job is in.
ghost use Rattle.std.specs.Prelude.{◌≡◌, ◌+◌, ◌<◌, min, get_or};
ghost use Rattle.units.specs.Amounts.{steps};
ghost use Rattle.state.specs.Stack.{no_section, stacked};
ghost use Rattle.report.specs.Report.{held_on, taken, given_back, at_limit};

use state::{Section, Stack};
use table::Task;
use units::Steps;

// Steps with those of a tick, up to the most that count.
pub(crate) fn rise(before: Steps, tick: Steps, most: Steps) -> Steps
    ensures { result ≡ steps (min (before.0 + tick.0) most.0) }
{
    Steps(before.0.saturating_add(tick.0).min(most.0))
}

// Each section with the steps of a tick.
pub(crate) fn held_on(task: Task, speed: u8, held: Stack) -> Stack
    ensures { result ≡ held_on task speed held }
{
    let mut next = Stack {
        depth: held.depth,
        ..Stack::EMPTY
    };
    // An index: of a zip with the places that are written, nothing would be known.
    for (i, section) in held.in_use().iter().enumerate() {
        let most = task.limit(section.resource);
        let steps = rise(section.steps, Steps::given(speed), most);
        next.sections[i] = Section { steps, ..*section };
    }
    next
}

// The first sections, as a stack so deep: what stands above them is 0.
fn stacked(depth: u8, sections: [Section; 4]) -> Stack
    ensures { result ≡ stacked (λ i. get_or sections i no_section) depth }
{
    let mut kept = sections;
    kept[usize::from(depth).min(Stack::PLACES)..].fill(Section::NONE);
    Stack {
        depth,
        sections: kept,
    }
}

// With one more, inside the others.
pub(crate) fn taken(resource: u8, held: Stack) -> Stack
    requires { held.depth < 4 }
    ensures { result ≡ taken resource held }
{
    let mut sections = held.sections;
    sections[usize::from(held.depth)] = Section {
        resource,
        steps: Steps(0),
    };
    stacked(held.depth + 1, sections)
}

// Without the innermost.
pub(crate) fn given_back(held: Stack) -> Stack
    ensures { result ≡ given_back held }
{
    stacked(held.depth.saturating_sub(1), held.sections)
}

// Whether some section is at its limit.
pub(crate) fn at_limit(task: Task, held: Stack) -> bool
    ensures { result ≡ at_limit task held }
{
    held.in_use()
        .iter()
        .any(|section| section.steps == task.limit(section.resource))
}
