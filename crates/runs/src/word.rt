// The words of the commands.
ghost use Rattle.std.specs.Prelude.{◌≤◌};

use crate::token::NoCommand;

#[derive(Clone, Copy, Debug, PartialEq, Eq)]
pub(crate) enum Word {
    Table,
    Fresh,
    State,
    Job,
    Depth,
    Section,
    Release,
    Choose,
    Report,
    Tick,
    Show,
    Carry,
    Done,
    Give,
    Take,
}

impl TryFrom<&[u8]> for Word {
    type Error = NoCommand;

    fn try_from(letters: &[u8]) -> Result<Word, NoCommand> {
        match letters {
            b"table" => Ok(Word::Table),
            b"fresh" => Ok(Word::Fresh),
            b"state" => Ok(Word::State),
            b"job" => Ok(Word::Job),
            b"depth" => Ok(Word::Depth),
            b"section" => Ok(Word::Section),
            b"release" => Ok(Word::Release),
            b"choose" => Ok(Word::Choose),
            b"report" => Ok(Word::Report),
            b"tick" => Ok(Word::Tick),
            b"show" => Ok(Word::Show),
            b"carry" => Ok(Word::Carry),
            b"done" => Ok(Word::Done),
            b"give" => Ok(Word::Give),
            b"take" => Ok(Word::Take),
            _ => Err(NoCommand),
        }
    }
}

// The letters of a word that is being read: at most seven.
#[derive(Clone, Copy, Debug)]
pub(crate) struct Letters {
    all: [u8; 7],
    count: usize,
    ghost fits: { count ≤ 7 },
}

impl Letters {
    pub(crate) const NONE: Letters = Letters {
        all: [0; 7],
        count: 0,
    };

    pub(crate) fn push(&mut self, letter: u8) -> Result<(), NoCommand> {
        *self.all.get_mut(self.count).ok_or(NoCommand)? = letter;
        self.count += 1;
        Ok(())
    }

    pub(crate) fn word(&self) -> Result<Word, NoCommand> {
        Word::try_from(&self.all[..self.count])
    }
}
