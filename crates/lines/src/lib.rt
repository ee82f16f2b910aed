// The lines of the listing, written into a lent part of the output.
#![tactic(auto)]

ghost use Rattle.std.specs.Prelude.{◌≡◌};
ghost use Rattle.lines.specs.Lines.{text, leaves, answers};

use pieces::Part;
use state::{Mode, Runner};
use units::Tick;

mod pieces;
mod writers;

// The numbers are those that it prints: document 01's, of a table, of a call and of an ending.
#[derive(Clone, Copy, Debug, PartialEq, Eq)]
pub enum Line {
    Table(u8),
    Release {
        tick: Tick,
        position: u8,
        number: u8,
    },
    Run {
        tick: Tick,
        runner: Runner,
        mode: Mode,
        speed: u8,
        ending: u8,
    },
    Refused {
        tick: Tick,
        number: u8,
    },
}

impl Line {
    // No line is longer. A part that has less is not written to.
    pub const ROOM: usize = 64;

    // Writes the line at the start of the part that it is lent, and answers how long it is.
    pub fn write(self, out: &mut [u8]) -> usize
        ensures { (out.new ≡ leaves 64 out.old (text self)) × (result ≡ answers 64 out.old (text self)) }
    {
        if out.len() < Self::ROOM {
            return 0;
        }
        let mut part = Part { out, at: 0 };
        match self {
            Line::Table(number) => part.table(number),
            Line::Release {
                tick,
                position,
                number,
            } => part.release(tick, position, number),
            Line::Run {
                tick,
                runner,
                mode,
                speed,
                ending,
            } => part.run(tick, runner, mode, speed, ending),
            Line::Refused { tick, number } => part.refused(tick, number),
        }
        part.at
    }
}
