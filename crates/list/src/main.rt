// Lists the record file that its argument names, or standard input without one.
#![tactic(auto)]

ghost use Rattle.std.specs.Io.{ReadsAtMost};

use std::env::FillError;
use std::io::{Read, Write};
use std::rt::{Env, Files};
use std::{fs, io};
use verdict::Fault;

// The system's numbers for an argument that there is not, and for one that is too long.
const INVALID: i32 = 22;

const TOO_LONG: i32 = 36;

// Reads until the buffer is full or the input ends, and answers how many bytes came, or the error where a read failed. read_exact
// does not tell how many came before the end. A read that does not end the input moves a byte, so that a turn for each byte is
// enough.
fn read(input: &mut impl Read, buffer: &mut [u8]) -> io::Result<usize>
    ensures { ReadsAtMost result buffer.new }
{
    let mut end = 0;
    for _turn in 0..buffer.len() {
        let more = input.read(&mut buffer[end..])?;
        if more == 0 {
            return Ok(end);
        }
        end += more;
    }
    Ok(end)
}

// Writes a line to standard error: what failed, as the caller names it, a colon and the system's words for why, without the
// number that std writes after them.
fn fail(rt: &impl Eprint, what: &str, error: io::Error) {
    let mut room = [0u8; 300];
    let mut rest: &mut [u8] = &mut room;
    let _ = write!(rest, "{error}");
    let end = 300usize.saturating_sub(rest.len());
    let text = str::from_utf8(&room[..end]).unwrap_or("");
    let words = text
        .split_once(" (os error ")
        .map_or(text, |(words, _)| words);
    let _ = eprintln!(rt; "{what}: {words}");
}

// Names the task that a table's number is about, on standard error, since the listing has the number alone.
fn name_position(rt: &impl Eprint, file: &[u8]) {
    if let Err(
        Fault::Range(position)
        | Fault::Divisor(position)
        | Fault::Order(position)
        | Fault::Synchronization(position),
    ) = admission::verdict_of(records::table(file))
        && records::well_formed(file)
    {
        let _ = eprintln!(rt; "list: the number is that of position {position}, counted from 0");
    }
}

fn print_listing(rt: &(impl Print + Eprint), file: &[u8]) {
    let mut out = [0u8; listing::ROOM];
    let end = listing::list(file, &mut out);
    if let Err(error) = rt.write_all(&out[..end]) {
        fail(rt, "standard output", error);
    }
}

// Lists what stands in an open file, or says why it can't be read. One byte more than a file may have is read, so that a file
// that is too long is seen to be.
fn list(rt: &(impl Print + Eprint), input: &mut impl Read, name: &str) {
    let mut space = [0u8; 65537];
    match read(input, &mut space) {
        Ok(end) => {
            let file = &space[..end];
            print_listing(rt, file);
            name_position(rt, file);
        }
        Err(error) => fail(rt, name, error),
    }
}

// The system's error for an argument that did not come into its buffer.
fn no_argument(why: FillError) -> io::Error {
    let number = match why {
        FillError::NotPresent => INVALID,
        FillError::TooLong => TOO_LONG,
    };
    io::Error::from_raw_os_error(number)
}

// The name that the program was given. One that is not UTF-8 is refused, since the names that std opens are text.
fn name_in<'a>(rt: &impl Env, path: &'a mut [u8]) -> io::Result<&'a str> {
    let length = rt.arg(1, path).map_err(no_argument)?;
    str::from_utf8(&path[..length]).map_err(|_| io::Error::other("not UTF-8"))
}

fn list_named(rt: &(impl Files + Print + Eprint), name: &str) {
    match fs::open(rt, name) {
        Ok(mut file) => list(rt, &mut file, name),
        Err(error) => fail(rt, name, error),
    }
}

// How many arguments the program was started with, its own name among them. No more than three are counted.
fn arg_count(rt: &impl Env) -> usize {
    let is_there = |k: &usize| !matches!(rt.arg(*k, &mut [0u8; 1]), Err(FillError::NotPresent));
    (0..3).take_while(is_there).count()
}

fn main(rt: HostRuntime) {
    match arg_count(&rt) {
        0 | 1 => list(&rt, &mut rt.stdin(), "standard input"),
        2 => match name_in(&rt, &mut [0u8; 4096]) {
            Ok(name) => list_named(&rt, name),
            Err(error) => fail(&rt, "the file's name", error),
        },
        _ => {
            let _ = eprintln!(rt;
                "list: one file at a time, or none and the records on standard input"
            );
        }
    }
}
