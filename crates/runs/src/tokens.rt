// A command in text: a word, for a report a second one, and then numbers. Between two numbers stand spaces, '-', '=' or '@'; a '-' that follows no digit
// says that there is none.
ghost use Rattle.std.specs.Prelude.{◌≤◌};

use crate::command::Command;
use crate::token::{Begun, NoCommand, Token};
use crate::word::Letters;
use units::Steps;

// The tokens of a line, and the one that is being read. Only a run may have more: its resources and limits are taken out as they come.
#[derive(Clone, Copy)]
pub(crate) struct Tokens {
    all: [Token; 10],
    count: usize,
    begun: Option<Begun>,
    limits: [Steps; 8],
    ghost fits: { count ≤ 10 },
}

impl Tokens {
    // Those of a line that has not begun.
    pub(crate) const NONE: Tokens = Tokens {
        all: [Token::Bar; 10],
        count: 0,
        begun: None,
        limits: [Steps(0); 8],
    };

    // Those of a run whose bar was read.
    pub(crate) const BAR: Tokens = Tokens {
        all: [Token::Bar; 10],
        count: 1,
        begun: None,
        limits: [Steps(0); 8],
    };

    pub(crate) fn is_empty(&self) -> bool {
        self.count == 0 && self.begun.is_none()
    }

    // After the bar and seven numbers a run may have resources, each with its limit.
    fn take_limit(&mut self) -> Result<(), NoCommand> {
        if let (10, [Token::Bar, .., resource, limit]) = (self.count, self.all) {
            let place: usize = resource.number()?;
            *self.limits.get_mut(place).ok_or(NoCommand)? = Steps(limit.number()?);
            self.count = 8;
        }
        Ok(())
    }

    fn push(&mut self, token: Token) -> Result<(), NoCommand> {
        *self.all.get_mut(self.count).ok_or(NoCommand)? = token;
        self.count += 1;
        self.take_limit()
    }

    // The word or the number that was read, if any, is a token.
    fn close(&mut self) -> Result<(), NoCommand> {
        match self.begun.take() {
            None => Ok(()),
            Some(begun) => self.push(begun.token()?),
        }
    }

    fn letter(&mut self, letter: u8) -> Result<(), NoCommand> {
        match self.begun.get_or_insert(Begun::Word(Letters::NONE)) {
            Begun::Word(letters) => letters.push(letter),
            Begun::Number(_) => Err(NoCommand),
        }
    }

    // A number past 18,446,744,073,709,551,615 is none.
    fn digit(&mut self, digit: u8) -> Result<(), NoCommand> {
        let Begun::Number(value) = self.begun.get_or_insert(Begun::Number(0)) else {
            return Err(NoCommand);
        };
        let tens = value.checked_mul(10).ok_or(NoCommand)?;
        *value = tens.checked_add(u64::from(digit)).ok_or(NoCommand)?;
        Ok(())
    }

    fn dash(&mut self) -> Result<(), NoCommand> {
        match self.begun {
            None => self.push(Token::Dash),
            Some(Begun::Number(_)) => self.close(),
            Some(Begun::Word(_)) => Err(NoCommand),
        }
    }

    // One byte more.
    pub(crate) fn read(&mut self, byte: u8) -> Result<(), NoCommand> {
        match byte {
            b'0'..=b'9' => self.digit(byte - b'0'),
            b'a'..=b'z' => self.letter(byte),
            b' ' | b'=' | b'@' => self.close(),
            b'-' => self.dash(),
            _ => Err(NoCommand),
        }
    }

    // What the line commands, if no byte more comes.
    pub(crate) fn command(mut self) -> Result<Command, NoCommand> {
        self.close()?;
        Command::of(&self.all[..self.count], self.limits)
    }
}
