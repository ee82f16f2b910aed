// The answer about a table.
#![tactic(auto)]

ghost use Rattle.std.specs.Prelude.{◌≡◌};
ghost use Rattle.verdict.specs.Verdict.{answer};

// Why a table does not pass, with the position where one is concerned.
#[derive(Clone, Copy, Debug, PartialEq, Eq)]
pub enum Fault {
    Count,
    Setting,
    Range(usize),
    Divisor(usize),
    Order(usize),
    Independent,
    Synchronization(usize),
}

// What the admission test finds: that the table passes, or its fault.
pub type Verdict = Result<(), Fault>;

// The number that document 01 gives it; 0 where the table passes.
pub fn number(verdict: Verdict) -> u8
    ensures { result ≡ (answer verdict).0 }
{
    match verdict {
        Ok(()) => 0,
        Err(Fault::Count) => 2,
        Err(Fault::Setting) => 3,
        Err(Fault::Range(_)) => 4,
        Err(Fault::Divisor(_)) => 5,
        Err(Fault::Order(_)) => 6,
        Err(Fault::Independent) => 7,
        Err(Fault::Synchronization(_)) => 8,
    }
}

// The position that it names; 0 where none is concerned, as document 01 has it.
pub fn position(verdict: Verdict) -> usize
    ensures { result ≡ (answer verdict).1 }
{
    match verdict {
        Err(Fault::Range(k) | Fault::Divisor(k) | Fault::Order(k) | Fault::Synchronization(k)) => k,
        _ => 0,
    }
}
