// Runs the machine on the commands of standard input, one to a line, and writes what it answers.
#![tactic(auto)]

use desk::Desk;
use std::io::Read;
use std::{io, mem};
use token::NoCommand;
use tokens::Tokens;

mod command;
mod desk;
mod text;
mod token;
mod tokens;
mod word;

// A line, as far as it was read.
#[derive(Clone, Copy)]
enum Line {
    Note,
    Command(Tokens),
    Wrong,
}

#[derive(Drop)]
struct Reader {
    desk: Desk,
    line: Line,
}

impl Reader {
    // The line is obeyed, and another begins.
    fn end(&mut self, rt: &impl Print, next: Tokens) -> io::Result<()> {
        let command = match mem::replace(&mut self.line, Line::Command(next)) {
            Line::Note => return println!(rt),
            Line::Command(tokens) => tokens.command(),
            Line::Wrong => Err(NoCommand),
        };
        match command {
            Ok(command) => self.desk.obey(rt, command),
            Err(error) => println!(rt; "{error}"),
        }
    }

    // One byte more. A command ends at the end of its line or of the text, and where a run of equal entries begins. A line that starts with '#' is a note:
    // it is written as it stands, from its '#' on, to say what the answers below it are about.
    fn read(&mut self, rt: &impl Print, byte: u8) -> io::Result<()> {
        match (byte, &mut self.line) {
            (b'\n', _) => self.end(rt, Tokens::NONE),
            (_, Line::Note) => rt.write_all(&[byte]),
            (b'|', _) => self.end(rt, Tokens::BAR),
            (_, Line::Wrong) => Ok(()),
            (b'#', Line::Command(tokens)) if tokens.is_empty() => {
                self.line = Line::Note;
                rt.write_all(b"#")
            }
            (_, Line::Command(tokens)) => {
                if tokens.read(byte).is_err() {
                    self.line = Line::Wrong;
                }
                Ok(())
            }
        }
    }
}

// The text ends at a byte 0, or where no more comes. It is read to its end, also where an answer can't be written.
fn main(rt: HostRuntime) {
    let mut reader = Reader {
        desk: Desk::new(),
        line: Line::Command(Tokens::NONE),
    };
    let bytes = rt.stdin().bytes().map_while(|byte| byte.ok());
    for byte in bytes.take_while(|byte| *byte != 0) {
        let _ = reader.read(&rt, byte);
    }
    let _ = reader.end(&rt, Tokens::NONE);
}
