// What is printed of the machine's values.
ghost use Rattle.std.specs.Prelude.{◌≡◌};
ghost use Rattle.state.specs.declared.State.{State as AnyState};
ghost use Rattle.state.specs.Answers.{told, number_told};

use state::{Half, Job, Mode, Place, Refusal, Runner, Section, Stack, State, Success};
use std::fmt;

// A value, or '-' where there is none.
#[derive(Clone, Copy)]
struct OrDash<T>(Option<T>);

impl<T: fmt::Display> fmt::Display for OrDash<T> {
    fn fmt<W: fmt::Write>(&self, f: &mut fmt::Formatter<W>) -> fmt::Result {
        match &self.0 {
            Some(value) => write!(f, "{value}"),
            None => f.write_str("-"),
        }
    }
}

// A deadline and the position that it is marked for.
#[derive(Clone, Copy)]
struct PlaceText(Place);

impl fmt::Display for PlaceText {
    fn fmt<W: fmt::Write>(&self, f: &mut fmt::Formatter<W>) -> fmt::Result {
        let Place { deadline, position } = self.0;
        write!(f, "{}@{position}", deadline.0)
    }
}

// The number of an answer, 0 where it is no refusal.
pub(crate) fn number(answer: &Result<Success, Refusal>) -> u8
    ensures { result ≡ number_told answer.now }
{
    match answer {
        Ok(_) => 0,
        Err(refusal) => refusal.number(),
    }
}

// The number of its ending; a refusal ends nothing.
pub(crate) fn ending(answer: &Result<Success, Refusal>) -> u8
    ensures { (s : AnyState) → result ≡ (told s answer.now).ending }
{
    match answer {
        Ok(success) => success.ending.number(),
        Err(_) => 0,
    }
}

// Who is chosen, in which mode and at which speed.
#[derive(Clone, Copy)]
pub(crate) struct Choice {
    runner: Runner,
    mode: Mode,
    speed: u8,
}

impl Choice {
    // A refusal names no job: independent, speed 0.
    pub(crate) fn of(answer: &Result<Success, Refusal>) -> Choice
        ensures { (s : AnyState) → (result.runner ≡ (told s answer.now).runner) × ((result.mode ≡ (told s answer.now).mode) × (result.speed ≡ (told s answer.now).speed)) }
    {
        match answer {
            Ok(success) => Choice {
                runner: success.runner,
                mode: success.mode,
                speed: success.speed,
            },
            Err(_) => Choice {
                runner: None,
                mode: Mode::Independent,
                speed: 0,
            },
        }
    }
}

impl fmt::Display for Choice {
    fn fmt<W: fmt::Write>(&self, f: &mut fmt::Formatter<W>) -> fmt::Result {
        let mode = match self.mode {
            Mode::Independent => 'i',
            Mode::Synchronization => 's',
        };
        write!(f, "{} {mode} {}", OrDash(self.runner), self.speed)
    }
}

// The outermost section, if there is one.
#[derive(Clone, Copy)]
struct HeldText<'a>(&'a Stack);

impl fmt::Display for HeldText<'_> {
    fn fmt<W: fmt::Write>(&self, f: &mut fmt::Formatter<W>) -> fmt::Result {
        let [Section { resource, steps }, ..] = self.0.sections;
        match self.0.depth {
            0 => f.write_str("- 0"),
            _ => write!(f, "{resource} {}", steps.0),
        }
    }
}

// A job, as it is set by hand: by its own command, and by others for what that does not say of its stack.
#[derive(Clone, Copy)]
struct JobText<'a> {
    position: usize,
    job: &'a Job,
}

impl JobText<'_> {
    fn write_own<W: fmt::Write>(&self, f: &mut fmt::Formatter<W>) -> fmt::Result {
        let JobText { position, job } = self;
        let pending = u8::from(job.pending);
        let started = u8::from(job.started);
        let held = HeldText(&job.held);
        write!(f, ", job {position} {pending} {started} ")?;
        write!(f, "{} {} {held} {}", job.deadline.0, job.used.0, job.wait.0)
    }

    fn write_depth<W: fmt::Write>(&self, f: &mut fmt::Formatter<W>) -> fmt::Result {
        let JobText { position, job } = self;
        match job.held.depth {
            0 | 1 => Ok(()),
            depth => write!(f, ", depth {position} {depth}"),
        }
    }

    // The outermost section stands in the job's own command, where the job is in one.
    fn write_sections<W: fmt::Write>(&self, f: &mut fmt::Formatter<W>) -> fmt::Result {
        let JobText { position, job } = self;
        let told = usize::from(job.held.depth != 0);
        for (place, section) in job.held.sections.iter().enumerate().skip(told) {
            if *section != Section::NONE {
                let Section { resource, steps } = section;
                write!(f, ", section {position} {place} {resource} {}", steps.0)?;
            }
        }
        Ok(())
    }
}

impl fmt::Display for JobText<'_> {
    fn fmt<W: fmt::Write>(&self, f: &mut fmt::Formatter<W>) -> fmt::Result {
        self.write_own(f)?;
        self.write_depth(f)?;
        self.write_sections(f)
    }
}

// The whole state, but for the jobs that are all 0.
#[derive(Clone, Copy)]
pub(crate) struct StateText<'a>(pub(crate) &'a State);

impl fmt::Display for StateText<'_> {
    fn fmt<W: fmt::Write>(&self, f: &mut fmt::Formatter<W>) -> fmt::Result {
        let state = self.0;
        let half = match state.half {
            Half::First => 1,
            Half::Second => 2,
        };
        let runner = OrDash(state.runner);
        let mark = OrDash(state.mark.map(PlaceText));
        write!(f, "state {} {half} {runner} {mark}", state.tick.0)?;
        for (position, job) in state.jobs.iter().enumerate() {
            if *job != Job::NONE {
                write!(f, "{}", JobText { position, job })?;
            }
        }
        Ok(())
    }
}
