// The listing of a record file.
#![tactic(auto)]

ghost use Rattle.std.specs.Prelude.{◌≡◌, ◌+◌, ◌*◌, ◌≤◌, length, take};
ghost use Rattle.lines.specs.Lines.{laid, leaves, answers};
ghost use Rattle.records.specs.Records.{event_count};
ghost use Rattle.listing.specs.Listing.{page, listed, listing};

use lines::Line;
use state::State;
use table::Table;

mod steps;

#[derive(Clone, Copy)]
pub struct Step {
    pub line: Line,
    pub state: State,
}

// As many lines as a file has records, each as long as a line may be.
pub const ROOM: usize = 131072;

// Writes a line for each event, from the start of the part that it is lent on, and answers how long they are.
fn write_events(file: &[u8], table: Table, start: State, out: &mut [u8]) -> usize
    requires { 64 * event_count file.now ≤ length out.old }
    ensures { (out.new ≡ laid out.old (page file.now table start (event_count file.now)).text) × (result ≡ length (page file.now table start (event_count file.now)).text) }
{
    let first = records::first_event(file);
    let mut state = start;
    let mut at = 0;
    // An index: an event is asked for by its place in the file.
    for k in 0..records::event_count(file) {
        let step = steps::step(table, state, records::event_at(file, first + k));
        at += step.line.write(&mut out[at..]);
        state = step.state;
    }
    at
}

// Writes the listing of a well-formed file at the start of the output, and answers how long it is.
#[tactic(auto, using(crate::proofs::Laws::alone_text, crate::proofs::Laws::alone_count))]
fn write_listed(file: &[u8], out: &mut [u8]) -> usize
    requires { 64 + 64 * event_count file.now ≤ length out.old }
    ensures { (out.new ≡ laid out.old (listed file.now)) × (result ≡ length (listed file.now)) }
{
    let table = records::table(file);
    let start = State::fresh(table, records::start(file));
    let number = verdict::number(start.verdict);
    let at = Line::Table(number).write(out);
    if number != 0 {
        return at;
    }
    at + write_events(file, table, start.state, &mut out[at..])
}

// Writes the whole listing at the start of the output, and answers how long it is. Output of less than ROOM bytes is not written to.
// The second promise follows from the first: with it a caller can take the listing out without a proof of its own.
pub fn list(file: &[u8], out: &mut [u8]) -> usize
    ensures out_after { (out.new ≡ leaves 131072 out.old (listing file.now)) × (result ≡ answers 131072 out.old (listing file.now)) }
    ensures upper_bound { (result ≤ length out.new) × (result ≡ length (take result out.new)) }
{
    if out.len() < ROOM {
        return 0;
    }
    if !records::well_formed(file) {
        return Line::Table(1).write(out);
    }
    write_listed(file, out)
}
