// What kind of record it is, and whether all are in their places. Every byte that a record's kind does not name is zero.
ghost use Rattle.std.specs.Prelude.{◌≡◌, ℕ, ◌+◌, ◌-◌, [], length, get_or};
ghost use Rattle.units.specs.Folds.{all};
ghost use Rattle.records.specs.Bytes.{record_count, record_at};
ghost use Rattle.records.specs.Records.{sized, is_setting, is_task, event_fits, is_event, task_count};
ghost use Rattle.records.specs.Contents.{task_record};

use crate::MOST_BYTES;
use crate::bytes::{byte, records, zeros};

// What a record's first byte says that it is.
#[derive(Clone, Copy, Debug, PartialEq, Eq)]
enum Kind {
    Setting = 1,
    Task = 2,
    Event = 3,
}

// Whether so many bytes are whole records, one or more, and no more than a file has.
#[tactic(auto, using(std::proofs::lemmas::Bool::Decides::nat_tests), unfolding(crate::specs::Records::sized))]
pub(crate) fn sized(n: usize) -> bool
    ensures { result ≡ sized n }
{
    (1..=MOST_BYTES).contains(&n) && n.is_multiple_of(32)
}

// A function for each kind, as document 01 has them: one for both would take the kind and two ranges, which are all that they say.
#[tactic(auto, using(std::proofs::lemmas::Bool::Decides::nat_tests), unfolding(crate::specs::Records::is_setting))]
pub(crate) fn is_setting(bytes: &[u8]) -> bool
    ensures { result ≡ is_setting bytes.now }
{
    byte(bytes, 0) == Kind::Setting as u8 && zeros(bytes, 2..4) && zeros(bytes, 12..32)
}

#[tactic(auto, using(std::proofs::lemmas::Bool::Decides::nat_tests), unfolding(crate::specs::Records::is_task))]
fn is_task(bytes: &[u8]) -> bool
    ensures { result ≡ is_task bytes.now }
{
    byte(bytes, 0) == Kind::Task as u8 && zeros(bytes, 3..4) && zeros(bytes, 10..16)
}

// Whether three bytes are a release, or a tick with its report. Byte 3 names a resource at a take alone.
// The bytes stay numbers, since the rule is of any three.
#[tactic(auto, unfolding(crate::specs::Records::event_fits))]
fn event_fits(kind: u8, said: u8, resource: u8) -> bool
    ensures { result ≡ event_fits kind said resource }
{
    match (kind, said) {
        (1, _) | (2, 0 | 1 | 3) => resource == 0,
        (2, 2) => true,
        _ => false,
    }
}

#[tactic(auto, using(std::proofs::lemmas::Bool::Decides::nat_tests), unfolding(crate::specs::Records::is_event))]
fn is_event(bytes: &[u8]) -> bool
    ensures { result ≡ is_event bytes.now }
{
    byte(bytes, 0) == Kind::Event as u8
        && zeros(bytes, 4..32)
        && event_fits(byte(bytes, 1), byte(bytes, 2), byte(bytes, 3))
}

// The records of the tasks: those behind the setting, up to the first that is none.
pub(crate) fn tasks(file: &[u8]) -> &[[u8; 32]]
    ensures len { length result.now ≡ task_count file.now }
    ensures each { (k : ℕ) → get_or result.now k [] ≡ task_record file.now k }
{
    let behind = records(file).get(1..).unwrap_or(&[]);
    let count = behind
        .iter()
        .take_while(|record| is_task(record.as_slice()))
        .count();
    &behind[..count]
}

// Whether each record from the first on is an event.
pub(crate) fn all_events(file: &[u8], first: usize) -> bool
    ensures { result ≡ all (λ k. is_event (record_at file.now (first + k))) (record_count file.now - first) }
{
    records(file)
        .iter()
        .skip(first)
        .all(|record| is_event(record))
}
