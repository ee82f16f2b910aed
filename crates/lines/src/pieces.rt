// The pieces of a line, each written behind those before it.
ghost use Rattle.std.specs.Prelude.{◌≡◌, [], ◌∷◌, ◌+◌, ◌≤◌, ◌<◌, length};
ghost use Rattle.lines.specs.Lines.{decimal, field, runner, mode};
ghost use Rattle.lines.specs.Writing.{Wrote};

use state::{Mode, Runner};

// The lent part of the output, and where its next byte goes. Each piece asks for its own room, so that it is no invariant of the part;
// and no Formatter, whose `fmt` promises nothing of the bytes.
#[derive(Drop)]
pub(crate) struct Part<'a> {
    pub(crate) out: &'a mut [u8],
    pub(crate) at: usize,
}

impl Part<'_> {
    pub(crate) fn byte(&mut self, value: u8)
        requires { self.old.at < length self.old.out.now }
        ensures { Wrote self.old self.new (value ∷ []) }
    {
        self.out[self.at] = value;
        self.at += 1;
    }

    pub(crate) fn text(&mut self, word: &[u8])
        requires { self.old.at + length word.now ≤ length self.old.out.now }
        ensures { Wrote self.old self.new word.now }
    {
        let end = self.at + word.len();
        self.out[self.at..end].copy_from_slice(word);
        self.at = end;
    }

    // The first digit comes out of the deepest call, so that each is written in its own place. No `write!`: it would have to answer where a
    // text does not fit, and here each has room.
    pub(crate) fn number(&mut self, n: u32)
        requires { self.old.at + 10 ≤ length self.old.out.now }
        ensures wrote { Wrote self.old self.new (decimal n) }
        ensures upper_bound { self.new.at ≤ self.old.at + 10 }
    {
        if n >= 10 {
            self.number(n / 10);
        }
        self.byte(b'0' + (n % 10) as u8);
    }

    #[tactic(auto, using(crate::proofs::Laws::Pieces::wrote_more), unfolding(crate::specs::Lines::field))]
    pub(crate) fn field(&mut self, n: u8)
        requires { self.old.at + 11 ≤ length self.old.out.now }
        ensures wrote { Wrote self.old self.new (field (decimal n)) }
        ensures upper_bound { self.new.at ≤ self.old.at + 11 }
    {
        self.byte(b' ');
        self.number(u32::from(n));
    }

    #[tactic(auto, using(crate::proofs::Laws::Pieces::wrote_more), unfolding(crate::specs::Lines::field, crate::specs::Lines::runner))]
    pub(crate) fn runner(&mut self, who: Runner)
        requires { self.old.at + 11 ≤ length self.old.out.now }
        ensures wrote { Wrote self.old self.new (field (runner who)) }
        ensures upper_bound { self.new.at ≤ self.old.at + 11 }
    {
        match who {
            None => self.text(b" -"),
            Some(position) => self.field(position),
        }
    }

    #[tactic(auto, using(crate::proofs::Laws::Pieces::wrote_more), unfolding(crate::specs::Lines::field, crate::specs::Lines::mode))]
    pub(crate) fn mode(&mut self, how: Mode)
        requires { self.old.at + 2 ≤ length self.old.out.now }
        ensures wrote { Wrote self.old self.new (field (mode how)) }
        ensures upper_bound { self.new.at ≤ self.old.at + 2 }
    {
        match how {
            Mode::Independent => self.text(b" i"),
            Mode::Synchronization => self.text(b" s"),
        }
    }
}
