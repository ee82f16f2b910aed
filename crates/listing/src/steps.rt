// What an event prints, and the state after it.
ghost use Rattle.std.specs.Prelude.{◌≡◌};
ghost use Rattle.state.specs.Answers.{told};
ghost use Rattle.listing.specs.Listing.{released, ticked, step};
ghost use Rattle.machine.specs.Machine as Machine;
ghost use Rattle.records.specs.declared.Event.TheVariants as Event·;

use crate::Step;
use lines::Line;
use records::Event;
use state::{Refusal, Report, State, Success};
use table::Table;

fn release(table: Table, state: State, position: u8) -> Step
    ensures { result ≡ released state position (Machine.release table state position) }
{
    match machine::release(table, state, position as usize) {
        Ok(success) => Step {
            line: Line::Release {
                tick: state.tick,
                position,
                number: 0,
            },
            state: success.state,
        },
        Err(refusal) => Step {
            line: Line::Release {
                tick: state.tick,
                position,
                number: refusal.number(),
            },
            state,
        },
    }
}

// The line of a tick. A refused one leaves the state as it was before the first half.
fn ticked(state: State, answer: Result<Success, Refusal>) -> Step
    ensures { result ≡ ticked state (told state answer) }
{
    match answer {
        Ok(success) => Step {
            line: Line::Run {
                tick: state.tick,
                runner: success.runner,
                mode: success.mode,
                speed: success.speed,
                ending: success.ending.number(),
            },
            state: success.state,
        },
        Err(refusal) => Step {
            line: Line::Refused {
                tick: state.tick,
                number: refusal.number(),
            },
            state,
        },
    }
}

// Both halves of a tick. What a refused half shows is of the state before it.
fn tick(table: Table, state: State, said: Report) -> Step
    ensures { result ≡ step table state (Event·.Tick said) }
{
    match machine::choose(table, state) {
        Ok(chosen) => ticked(state, machine::report(table, chosen.state, said)),
        Err(refusal) => ticked(state, Err(refusal)),
    }
}

pub(crate) fn step(table: Table, state: State, event: Event) -> Step
    ensures { result ≡ step table state event }
{
    match event {
        Event::Release(position) => release(table, state, position),
        Event::Tick(said) => tick(table, state, said),
    }
}
