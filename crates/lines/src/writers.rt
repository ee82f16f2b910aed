// Each line at the start of a part that has room for the longest.
ghost use Rattle.std.specs.Prelude.{◌≡◌, ◌≤◌, length};
ghost use Rattle.lines.specs.Lines.{text};
ghost use Rattle.lines.specs.Writing.{Wrote};
ghost use Rattle.lines.specs.declared.Line.TheVariants.{Table, Release, Run, Refused};

use crate::pieces::Part;
use state::{Mode, Runner};
use units::Tick;

impl Part<'_> {
    pub(crate) fn table(&mut self, number: u8)
        requires start { self.old.at ≡ 0 }
        requires room { 64 ≤ length self.old.out.now }
        ensures { Wrote self.old self.new (text (Table number)) }
    {
        self.text(b"table");
        self.field(number);
        self.byte(b'\n');
    }

    pub(crate) fn release(&mut self, tick: Tick, position: u8, number: u8)
        requires start { self.old.at ≡ 0 }
        requires room { 64 ≤ length self.old.out.now }
        ensures { Wrote self.old self.new (text (Release tick position number)) }
    {
        self.number(tick.0);
        self.text(b" release");
        self.field(position);
        self.field(number);
        self.byte(b'\n');
    }

    pub(crate) fn run(&mut self, tick: Tick, runner: Runner, mode: Mode, speed: u8, ending: u8)
        requires start { self.old.at ≡ 0 }
        requires room { 64 ≤ length self.old.out.now }
        ensures { Wrote self.old self.new (text (Run tick runner mode speed ending)) }
    {
        self.number(tick.0);
        self.text(b" run");
        self.runner(runner);
        self.mode(mode);
        self.field(speed);
        self.field(ending);
        self.byte(b'\n');
    }

    pub(crate) fn refused(&mut self, tick: Tick, number: u8)
        requires start { self.old.at ≡ 0 }
        requires room { 64 ≤ length self.old.out.now }
        ensures { Wrote self.old self.new (text (Refused tick number)) }
    {
        self.number(tick.0);
        self.text(b" refused");
        self.field(number);
        self.byte(b'\n');
    }
}
