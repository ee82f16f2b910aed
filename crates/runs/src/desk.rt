// What the commands do: they set a table or a state by hand, or call the machine.
ghost use Rattle.std.specs.Prelude.{◌≡◌};
ghost use Rattle.state.specs.Answers.{told};

use crate::command::Command;
use crate::text::{Choice, StateText, ending, number};
use state::{Half, Job, Mark, Refusal, Report, Runner, Section, Start, State, Success};
use std::io;
use table::{Table, Task};
use units::{Steps, Tick, Ticks};

const NO_TASK: Task = Task {
    period: Ticks(0),
    deadline: Ticks(0),
    budget: Steps(0),
    independent: 0,
    synchronization: 0,
    limits: [Steps(0); 8],
};

#[derive(Drop)]
pub(crate) struct Desk {
    table: Table,
    state: State,
}

// Both halves of a tick. Where one is refused, the state is as before the first.
fn tick(table: Table, state: State, said: Report) -> Result<Success, Refusal> {
    let chosen = machine::choose(table, state)?;
    machine::report(table, chosen.state, said)
}

// A table of the setting, with no numbers in its entries.
fn table(full: u8, round: u32, count: usize) -> Table {
    Table {
        full,
        round,
        count,
        tasks: [NO_TASK; 16],
    }
}

impl Desk {
    // The table of no setting and no task, and the state that it starts with.
    pub(crate) fn new() -> Desk {
        let table = table(0, 0, 0);
        let state = State::fresh(table, Tick(0)).state;
        Desk { table, state }
    }

    // A run of equal entries, from the first to the last: none where the last is before the first.
    fn set_entries(&mut self, first: usize, last: usize, task: Task) {
        if let Some(entries) = self.table.tasks.get_mut(first..=last) {
            entries.fill(task);
        }
    }

    // A state without jobs.
    fn set_state(&mut self, tick: Tick, half: Half, runner: Runner, mark: Mark) {
        self.state = State {
            tick,
            jobs: [Job::NONE; 16],
            mark,
            half,
            runner,
        };
    }

    fn set_job(&mut self, position: usize, job: Job) {
        if let Some(place) = self.state.jobs.get_mut(position) {
            *place = job;
        }
    }

    fn set_depth(&mut self, position: usize, depth: u8) {
        if let Some(job) = self.state.jobs.get_mut(position) {
            job.held.depth = depth;
        }
    }

    fn set_section(&mut self, position: usize, place: usize, section: Section) {
        if let Some(job) = self.state.jobs.get_mut(position)
            && let Some(room) = job.held.sections.get_mut(place)
        {
            *room = section;
        }
    }

    fn start(&mut self, rt: &impl Print, tick: Tick) -> io::Result<()> {
        let Start { verdict, state } = State::fresh(self.table, tick);
        self.state = state;
        let position = verdict::position(verdict);
        println!(rt; "fresh {} {position}", verdict::number(verdict))
    }

    // A call that is refused leaves the state as it was.
    fn go_on(&mut self, answer: &Result<Success, Refusal>)
        ensures { (self.new.table ≡ self.old.table) × (self.new.state ≡ (told self.old.state answer.now).state) }
    {
        if let Ok(success) = answer {
            self.state = success.state;
        }
    }

    fn release(&mut self, rt: &impl Print, position: usize) -> io::Result<()> {
        let now = self.state.tick.0;
        let answer = machine::release(self.table, self.state, position);
        self.go_on(&answer);
        println!(rt; "{now} release {position} {}", number(&answer))
    }

    fn choose(&mut self, rt: &impl Print) -> io::Result<()> {
        let now = self.state.tick.0;
        let answer = machine::choose(self.table, self.state);
        self.go_on(&answer);
        println!(rt; "{now} choose {} {}", number(&answer), Choice::of(&answer))
    }

    fn report(&mut self, rt: &impl Print, said: Report) -> io::Result<()> {
        let now = self.state.tick.0;
        let answer = machine::report(self.table, self.state, said);
        self.go_on(&answer);
        let choice = Choice::of(&answer);
        println!(rt;
            "{now} report {} {choice} {}",
            number(&answer),
            ending(&answer)
        )
    }

    fn tick(&mut self, rt: &impl Print, said: Report) -> io::Result<()> {
        let now = self.state.tick.0;
        let answer = tick(self.table, self.state, said);
        self.go_on(&answer);
        match &answer {
            Ok(_) => println!(rt; "{now} run {} {}", Choice::of(&answer), ending(&answer)),
            Err(refusal) => println!(rt; "{now} refused {}", refusal.number()),
        }
    }

    // Does what is commanded. An error is one of writing the answer.
    pub(crate) fn obey(&mut self, rt: &impl Print, command: Command) -> io::Result<()> {
        match command {
            Command::Blank => {}
            Command::Table { full, round, count } => self.table = table(full, round, count),
            Command::Run { first, last, task } => self.set_entries(first, last, task),
            Command::State {
                tick,
                half,
                runner,
                mark,
            } => self.set_state(tick, half, runner, mark),
            Command::Job { position, job } => self.set_job(position, job),
            Command::Depth { position, depth } => self.set_depth(position, depth),
            Command::Section {
                position,
                place,
                section,
            } => self.set_section(position, place, section),
            Command::Fresh(tick) => return self.start(rt, tick),
            Command::Release(position) => return self.release(rt, position),
            Command::Choose => return self.choose(rt),
            Command::Report(said) => return self.report(rt, said),
            Command::Tick(said) => return self.tick(rt, said),
            Command::Show => return println!(rt; "{}", StateText(&self.state)),
        }
        Ok(())
    }
}
