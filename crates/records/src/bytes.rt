// A file's records, their bytes, and numbers of several bytes, the lowest first.
ghost use Rattle.std.specs.Prelude.{◌≡◌, ℕ, ◌-◌, ◌<◌, [], length, get_or};
ghost use Rattle.records.specs.Bytes.{record_count, record_at, word, long, zeros};

use std::ops::Range;

// The byte at i, and 0 past the end.
pub(crate) fn byte(bytes: &[u8], i: usize) -> u8
    ensures { result ≡ get_or bytes.now i 0 }
{
    bytes.get(i).copied().unwrap_or(0)
}

// The number of two bytes from i on.
#[tactic(auto, unfolding(crate::specs::Bytes::word))]
pub(crate) fn word(bytes: &[u8], i: usize) -> u16
    requires { i < 32 }
    ensures { result ≡ word bytes.now i }
{
    u16::from_le_bytes([byte(bytes, i), byte(bytes, i + 1)])
}

// The number of four bytes from i on.
#[tactic(auto, unfolding(crate::specs::Bytes::long, crate::specs::Bytes::word))]
pub(crate) fn long(bytes: &[u8], i: usize) -> u32
    requires { i < 30 }
    ensures { result ≡ long bytes.now i }
{
    u32::from_le_bytes([
        byte(bytes, i),
        byte(bytes, i + 1),
        byte(bytes, i + 2),
        byte(bytes, i + 3),
    ])
}

// Whether the bytes at these places are zero.
pub(crate) fn zeros(bytes: &[u8], mut places: Range<usize>) -> bool
    ensures { result ≡ zeros bytes.now places.start (places.end - places.start) }
{
    places.all(|i| byte(bytes, i) == 0)
}

// The whole records. Past the last, `get_or` finds no bytes, as `record_at` does.
pub(crate) fn records(file: &[u8]) -> &[[u8; 32]]
    ensures len { length result.now ≡ record_count file.now }
    ensures each { (k : ℕ) → get_or result.now k [] ≡ record_at file.now k }
{
    let (records, _rest) = file.as_chunks();
    records
}

// One of some records, and no bytes where there is none.
pub(crate) fn at(records: &[[u8; 32]], k: usize) -> &[u8]
    ensures { result.now ≡ get_or records.now k [] }
{
    match records.get(k) {
        Some(record) => record,
        None => &[],
    }
}

// The record at k, and no bytes where there is none.
pub(crate) fn record(file: &[u8], k: usize) -> &[u8]
    ensures { result.now ≡ record_at file.now k }
{
    at(records(file), k)
}
