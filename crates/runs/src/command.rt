// The commands, with what each is given.
use crate::token::{NoCommand, Token};
use crate::word::Word;
use state::{Half, Job, Mark, Place, Report, Runner, Section, Stack};
use table::Task;
use units::{Steps, Tick, Ticks};

#[derive(Clone, Copy)]
pub(crate) enum Command {
    Blank,
    Table {
        full: u8,
        round: u32,
        count: usize,
    },
    Run {
        first: usize,
        last: usize,
        task: Task,
    },
    Fresh(Tick),
    State {
        tick: Tick,
        half: Half,
        runner: Runner,
        mark: Mark,
    },
    Job {
        position: usize,
        job: Job,
    },
    Depth {
        position: usize,
        depth: u8,
    },
    Section {
        position: usize,
        place: usize,
        section: Section,
    },
    Release(usize),
    Choose,
    Report(Report),
    Tick(Report),
    Show,
}

// What follows a word or a bar, if it is so much.
fn exactly<const N: usize>(given: &[Token]) -> Result<[Token; N], NoCommand> {
    <[Token; N]>::try_from(given).map_err(|_| NoCommand)
}

fn ticks(token: Token) -> Result<Ticks, NoCommand> {
    token.number().map(Ticks)
}

fn steps(token: Token) -> Result<Steps, NoCommand> {
    token.number().map(Steps)
}

fn tick(token: Token) -> Result<Tick, NoCommand> {
    token.number().map(Tick)
}

fn table(given: &[Token]) -> Result<Command, NoCommand> {
    let [full, round, count] = exactly::<3>(given)?;
    Ok(Command::Table {
        full: full.number()?,
        round: round.number()?,
        count: count.number()?,
    })
}

fn run(given: &[Token], limits: [Steps; 8]) -> Result<Command, NoCommand> {
    let [
        first,
        last,
        period,
        deadline,
        budget,
        independent,
        synchronization,
    ] = exactly::<7>(given)?;
    let task = Task {
        period: ticks(period)?,
        deadline: ticks(deadline)?,
        budget: steps(budget)?,
        independent: independent.number()?,
        synchronization: synchronization.number()?,
        limits,
    };
    Ok(Command::Run {
        first: first.below(16)?,
        last: last.below(16)?,
        task,
    })
}

fn fresh(given: &[Token]) -> Result<Command, NoCommand> {
    let [now] = exactly::<1>(given)?;
    Ok(Command::Fresh(tick(now)?))
}

fn half(token: Token) -> Result<Half, NoCommand> {
    match token {
        Token::Number(1) => Ok(Half::First),
        Token::Number(2) => Ok(Half::Second),
        _ => Err(NoCommand),
    }
}

fn runner(token: Token) -> Result<Runner, NoCommand> {
    token.number_or_none()
}

fn mark(given: &[Token]) -> Result<Mark, NoCommand> {
    if let [Token::Dash] = given {
        return Ok(None);
    }
    let [deadline, position] = exactly::<2>(given)?;
    Ok(Some(Place {
        deadline: tick(deadline)?,
        position: position.number()?,
    }))
}

fn state(given: &[Token]) -> Result<Command, NoCommand> {
    let [now, next, job, place @ ..] = given else {
        return Err(NoCommand);
    };
    Ok(Command::State {
        tick: tick(*now)?,
        half: half(*next)?,
        runner: runner(*job)?,
        mark: mark(place)?,
    })
}

// One section at the most. Where nothing is held, the steps are not looked at.
fn held(resource: Token, spent: Token) -> Result<Stack, NoCommand> {
    let steps = steps(spent)?;
    let mut stack = Stack::EMPTY;
    if let Some(resource) = resource.number_or_none()? {
        stack.depth = 1;
        stack.sections[0] = Section { resource, steps };
    }
    Ok(stack)
}

fn job(given: &[Token]) -> Result<Command, NoCommand> {
    let [
        position,
        pending,
        started,
        deadline,
        used,
        resource,
        spent,
        wait,
    ] = exactly::<8>(given)?;
    let job = Job {
        pending: pending.flag()?,
        started: started.flag()?,
        deadline: tick(deadline)?,
        used: steps(used)?,
        held: held(resource, spent)?,
        wait: ticks(wait)?,
    };
    Ok(Command::Job {
        position: position.below(16)?,
        job,
    })
}

fn depth(given: &[Token]) -> Result<Command, NoCommand> {
    let [position, depth] = exactly::<2>(given)?;
    Ok(Command::Depth {
        position: position.below(16)?,
        depth: depth.number()?,
    })
}

fn section(given: &[Token]) -> Result<Command, NoCommand> {
    let [position, place, resource, spent] = exactly::<4>(given)?;
    let section = Section {
        resource: resource.number()?,
        steps: steps(spent)?,
    };
    Ok(Command::Section {
        position: position.below(16)?,
        place: place.below(4)?,
        section,
    })
}

fn release(given: &[Token]) -> Result<Command, NoCommand> {
    let [position] = exactly::<1>(given)?;
    Ok(Command::Release(position.number()?))
}

fn said(given: &[Token]) -> Result<Report, NoCommand> {
    match given {
        [Token::Word(Word::Carry)] => Ok(Report::CarryOn),
        [Token::Word(Word::Done)] => Ok(Report::Done),
        [Token::Word(Word::Give)] => Ok(Report::Give),
        [Token::Word(Word::Take), resource] => Ok(Report::Take(resource.number()?)),
        _ => Err(NoCommand),
    }
}

fn alone(command: Command, given: &[Token]) -> Result<Command, NoCommand> {
    let [] = exactly::<0>(given)?;
    Ok(command)
}

// The command of this word, given what follows it.
fn named(word: Word, given: &[Token]) -> Result<Command, NoCommand> {
    match word {
        Word::Table => table(given),
        Word::Fresh => fresh(given),
        Word::State => state(given),
        Word::Job => job(given),
        Word::Depth => depth(given),
        Word::Section => section(given),
        Word::Release => release(given),
        Word::Choose => alone(Command::Choose, given),
        Word::Report => said(given).map(Command::Report),
        Word::Tick => said(given).map(Command::Tick),
        Word::Show => alone(Command::Show, given),
        Word::Carry | Word::Done | Word::Give | Word::Take => Err(NoCommand),
    }
}

impl Command {
    // What the tokens of a line say. The limits are those of a run.
    pub(crate) fn of(tokens: &[Token], limits: [Steps; 8]) -> Result<Command, NoCommand> {
        match tokens {
            [] => Ok(Command::Blank),
            [Token::Bar, given @ ..] => run(given, limits),
            [Token::Word(word), given @ ..] => named(*word, given),
            [Token::Number(_) | Token::Dash, ..] => Err(NoCommand),
        }
    }
}
