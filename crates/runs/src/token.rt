// What the line of a command is made of.
use crate::word::{Letters, Word};
use std::error::Error;
use std::fmt;

// The line is no command.
#[derive(Clone, Copy, Debug, PartialEq, Eq)]
pub(crate) struct NoCommand;

impl fmt::Display for NoCommand {
    fn fmt<W: fmt::Write>(&self, f: &mut fmt::Formatter<W>) -> fmt::Result {
        f.write_str("no command")
    }
}

impl Error for NoCommand {}

// A bar begins a run of equal entries. A dash says that there is none.
#[derive(Clone, Copy, Debug, PartialEq, Eq)]
pub(crate) enum Token {
    Bar,
    Word(Word),
    Number(u64),
    Dash,
}

impl Token {
    // The number, if it fits.
    pub(crate) fn number<T: TryFrom<u64>>(self) -> Result<T, NoCommand>
    where
        T::Error: Drop,
    {
        let Token::Number(value) = self else {
            return Err(NoCommand);
        };
        T::try_from(value).map_err(|_| NoCommand)
    }

    // The number, if it is below a bound.
    pub(crate) fn below(self, bound: usize) -> Result<usize, NoCommand> {
        let value: usize = self.number()?;
        if value < bound {
            Ok(value)
        } else {
            Err(NoCommand)
        }
    }

    // No for 0, yes for 1.
    pub(crate) fn flag(self) -> Result<bool, NoCommand> {
        Ok(self.below(2)? == 1)
    }

    // The number, if there is one.
    pub(crate) fn number_or_none<T: TryFrom<u64>>(self) -> Result<Option<T>, NoCommand>
    where
        T::Error: Drop,
    {
        match self {
            Token::Dash => Ok(None),
            _ => Ok(Some(self.number()?)),
        }
    }
}

// A word or a number that is being read.
#[derive(Clone, Copy, Debug)]
pub(crate) enum Begun {
    Word(Letters),
    Number(u64),
}

impl Begun {
    pub(crate) fn token(self) -> Result<Token, NoCommand> {
        match self {
            Begun::Word(letters) => Ok(Token::Word(letters.word()?)),
            Begun::Number(value) => Ok(Token::Number(value)),
        }
    }
}
