// Lists many record files in one process, for the tests: standard input is a pack, that is, for each file its length in four
// bytes, the lowest first, and its bytes. An empty line follows each listing.
// Three files stand in its stored run: that of the paper's whole listing, an empty one, and a setting without tasks.
#![tactic(auto)]

use std::io;
use std::io::Read;

// Why no file more is listed.
#[derive(Clone, Copy, Debug, PartialEq, Eq)]
enum Stop {
    AtEnd,
    TooLong,
    CutShort,
    Unwritten,
}

// The length of the next file, if there is one.
fn next_length(input: &mut impl Read) -> Option<usize> {
    let mut four = [0u8; 4];
    input.read_exact(&mut four).ok()?;
    usize::try_from(u32::from_le_bytes(four)).ok()
}

fn list(rt: &impl Print, file: &[u8]) -> io::Result<()> {
    let mut out = [0u8; listing::ROOM];
    let end = listing::list(file, &mut out);
    rt.write_all(&out[..end])?;
    rt.write_all(b"\n")
}

// Lists the next file, in the space for one.
fn list_next(rt: &impl Print, input: &mut impl Read, space: &mut [u8]) -> Result<(), Stop> {
    let length = next_length(input).ok_or(Stop::AtEnd)?;
    let file = space.get_mut(..length).ok_or(Stop::TooLong)?;
    input.read_exact(file).map_err(|_| Stop::CutShort)?;
    list(rt, file).map_err(|_| Stop::Unwritten)
}

fn say(rt: &impl Eprint, stop: Stop) {
    let words = match stop {
        Stop::TooLong => "a file is longer than the space for one",
        Stop::CutShort => "it ends within a file",
        Stop::AtEnd | Stop::Unwritten => return,
    };
    let _ = eprintln!(rt; "pack: {words}");
}

// A loop that is proved has to end: this one's turns are more than the files of any pack.
fn main(rt: HostRuntime) {
    let mut input = rt.stdin();
    let mut space = [0u8; 131072];
    for _file in 0..u64::MAX {
        if let Err(stop) = list_next(&rt, &mut input, &mut space) {
            say(&rt, stop);
            return;
        }
    }
}
