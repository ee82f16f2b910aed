// What one pass over the positions gathers, and what the calls are handed of it. No code: specs/ says what each number is, proofs/ that the rules follow from them. `chooser`, `checker`, `reporter` and `machine` work with them.
#![tactic(auto)]

use choice::Turn;
use state::State;

// The resources that are held and the positions that are due, one bit each; the places of top, of the first started job and of the last holder.
// A place is a number and no Option: where there is none stands one behind every place, or 0, so that a smallest and a largest need no test.
#[derive(Clone, Copy)]
pub struct Seen {
    pub held: u16,
    pub due: u16,
    pub top: u64,
    pub started: u64,
    pub last: u64,
}

// Of a state that fits a table: its turn, the resources that are held, and who is due.
#[derive(Clone, Copy)]
pub struct Examined {
    pub turn: Turn,
    pub held: u16,
    pub due: u16,
}

impl Seen {
    pub const NOTHING: Seen = Seen {
        held: 0,
        due: 0,
        top: State::NO_PLACE,
        started: State::NO_PLACE,
        last: 0,
    };
}
