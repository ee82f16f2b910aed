// What the machine keeps from call to call, and what its calls are told and answer.
#![tactic(auto)]

ghost use Rattle.std.specs.Prelude.{◌≡◌, Ok};
ghost use Rattle.units.specs.Folds.{listed};
ghost use Rattle.state.specs.State.{no_job, fresh};
ghost use Rattle.state.specs.declared.Refusal.TheVariants.{Inconsistent};
ghost use Rattle.state.specs.Answers.{refusal_number, ending_number, bare, told};

use table::Table;
use units::{Steps, Tick, Ticks};
use verdict::{Fault, Verdict};

mod holders;

// A resource that is held, and the steps since it was taken.
#[derive(Clone, Copy, Debug, PartialEq, Eq)]
pub struct Section {
    pub resource: u8,
    pub steps: Steps,
}

// The sections that a job is in, the outermost first: of four places those below the depth are in use.
// No slice and no Vec: memory is fixed, and what stands above the depth is part of the state.
#[derive(Clone, Copy, Debug, PartialEq, Eq)]
pub struct Stack {
    pub depth: u8,
    pub sections: [Section; Stack::PLACES],
}

// The job of one task. What is not in use is 0. Whether it is pending is a flag and no Option: a state that is set by hand may hold the rest
// without a job, and then it is not consistent.
#[derive(Clone, Copy, Debug, PartialEq, Eq)]
pub struct Job {
    pub pending: bool,
    pub started: bool,
    pub deadline: Tick,
    pub used: Steps,
    pub held: Stack,
    pub wait: Ticks,
}

#[derive(Clone, Copy, Debug, PartialEq, Eq)]
pub struct Place {
    pub deadline: Tick,
    pub position: u8,
}

// None: no mark.
pub type Mark = Option<Place>;

// The half of a tick that comes next: the first between ticks, the second in mid-tick.
#[derive(Clone, Copy, Debug, PartialEq, Eq)]
pub enum Half {
    First,
    Second,
}

// The position of the job on the processor; None: nobody.
pub type Runner = Option<u8>;

#[derive(Clone, Copy)]
pub struct State {
    pub tick: Tick,
    pub jobs: [Job; State::TASKS],
    pub mark: Mark,
    pub half: Half,
    pub runner: Runner,
}

#[derive(Clone, Copy, Debug, PartialEq, Eq)]
pub enum Mode {
    Independent,
    Synchronization,
}

// What the runner's job says at the end of its tick.
#[derive(Clone, Copy, Debug, PartialEq, Eq)]
pub enum Report {
    CarryOn,
    Done,
    Take(u8),
    Give,
}

// Why a release, a choice or a report is refused; a table's own faults are `verdict`'s.
#[derive(Clone, Copy, Debug, PartialEq, Eq)]
pub enum Refusal {
    Inconsistent = 9,
    NotInTable = 10,
    WrongHalf = 11,
    TooEarly = 12,
    MayNotTake = 13,
    NotNow = 14,
    HeldByAnother = 15,
    Late = 16,
}

// What becomes of the runner's job at the end of its tick.
#[derive(Clone, Copy, Debug, PartialEq, Eq)]
pub enum Ending {
    GoesOn = 0,
    Done = 1,
    Cut = 2,
}

// What a release, a choice or a report answers that is not refused. A refused one leaves the state as it was.
#[derive(Clone, Copy)]
pub struct Success {
    pub state: State,
    pub runner: Runner,
    pub mode: Mode,
    pub speed: u8,
    pub ending: Ending,
}

// Both, and no Result: a table that does not pass gives a state too, of zeros.
#[derive(Clone, Copy)]
pub struct Start {
    pub verdict: Verdict,
    pub state: State,
}

impl Section {
    pub const NONE: Section = Section {
        resource: 0,
        steps: Steps(0),
    };
}

impl Stack {
    pub const PLACES: usize = 4;

    pub const EMPTY: Stack = Stack {
        depth: 0,
        sections: [Section::NONE; Stack::PLACES],
    };
}

impl Job {
    pub const NONE: Job = Job {
        pending: false,
        started: false,
        deadline: Tick(0),
        used: Steps(0),
        held: Stack::EMPTY,
        wait: Ticks(0),
    };
}

// Sixteen places without a job. The fill changes nothing, but its bound is not known beforehand: so the compiler keeps a state in one
// piece, and does not carry its two hundred numbers one by one through every call.
fn no_jobs(count: usize) -> [Job; State::TASKS]
    ensures { result ≡ listed (λ k. no_job) 16 }
{
    let mut jobs = [Job::NONE; State::TASKS];
    jobs[..count.min(State::TASKS)].fill(Job::NONE);
    jobs
}

impl State {
    pub const TASKS: usize = 16;

    pub const RESOURCES: usize = 8;

    // A marked deadline is at most so far ahead.
    pub const AHEAD: u32 = 65535;

    // Behind every place in the order of the jobs.
    pub const NO_PLACE: u64 = 1099511627776;

    // The table's verdict, and a state without jobs, waits or mark: at the tick that is asked for if the table passes, else at 0.
    pub fn fresh(table: Table, tick: Tick) -> Start
        ensures { result ≡ fresh table tick }
    {
        let verdict = admission::verdict_of(table);
        let now = match verdict {
            Ok(()) => tick,
            Err(_) => Tick(0),
        };
        let jobs = no_jobs(table.count);
        let state = State {
            tick: now,
            jobs,
            mark: None,
            half: Half::First,
            runner: None,
        };
        Start { verdict, state }
    }
}

impl Refusal {
    // The number that document 01 gives it.
    pub fn number(self) -> u8
        ensures { result ≡ refusal_number self }
    {
        self as u8
    }
}

// No state is consistent with a table that does not pass.
impl From<Fault> for Refusal {
    ghost from_gives = { λ _ r. r ≡ Inconsistent };

    fn from(_fault: Fault) -> Refusal {
        Refusal::Inconsistent
    }
}

impl Ending {
    // The number that document 01 gives it.
    pub fn number(self) -> u8
        ensures { result ≡ ending_number self }
    {
        self as u8
    }
}

impl Success {
    // An answer that names no job: independent, speed 0, and nothing ends.
    pub fn bare(state: State) -> Success
        ensures { told state (Ok result) ≡ bare 0 state }
    {
        Success {
            state,
            runner: None,
            mode: Mode::Independent,
            speed: 0,
            ending: Ending::GoesOn,
        }
    }
}
