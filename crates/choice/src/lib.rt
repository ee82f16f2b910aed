// What a choice is: who runs, in which mode, at which speed. No code: specs/ has the rules of the first half of a tick, proofs/ their laws. `chooser` follows them.
#![tactic(auto)]

use state::{Mark, Mode, Runner, State};

// Who runs, the mark that stands, the mode and the speed.
#[derive(Clone, Copy)]
pub struct Turn {
    pub runner: Runner,
    pub mark: Mark,
    pub mode: Mode,
    pub speed: u8,
}

#[derive(Clone, Copy)]
pub struct Choice {
    pub state: State,
    pub turn: Turn,
}

impl Turn {
    // Nobody runs, and no mark stands.
    pub const IDLE: Turn = Turn {
        runner: None,
        mark: None,
        mode: Mode::Independent,
        speed: 0,
    };
}
