//! The comparison of what was wanted with what came.

ghost use Rattle.som_test_report.specs.Same.{Same};
ghost use Rattle.std.specs.Prelude.{◌≡◌, ◌↔◌, IsTrue};

use som_model::List;

/// What a command printed, and its status.
#[derive(Drop)]
pub struct Answer {
    pub printed: List<u8>,
    pub status: u8,
}

/// Something that is compared: what was wanted, or what came.
#[derive(Clone, Copy)]
pub enum Value<'a> {
    Bytes(&'a [u8]),
    /// There is no such file.
    Absent,
    Status(u8),
}

/// Whether what came is what was wanted.
pub fn same(wanted: Value<'_>, got: Value<'_>) -> bool
    ensures { IsTrue result ↔ Same wanted.entry got.entry }
{
    match (wanted, got) {
        (Value::Bytes(wanted), Value::Bytes(got)) => same_bytes(wanted, got),
        (Value::Status(wanted), Value::Status(got)) => wanted == got,
        (Value::Absent, Value::Absent) => true,
        _ => false,
    }
}

// Whether two lists of bytes are equal.
fn same_bytes(wanted: &[u8], got: &[u8]) -> bool
    ensures { IsTrue result ↔ (wanted.now ≡ got.now) }
{
    wanted == got
}

/// The place from which on two values are told: where they differ first.
pub fn first_difference(wanted: Value<'_>, got: Value<'_>) -> usize {
    let (Value::Bytes(wanted), Value::Bytes(got)) = (wanted, got) else {
        return 0;
    };
    for (place, (left, right)) in wanted.iter().zip(got).enumerate() {
        if *left != *right {
            return place;
        }
    }
    wanted.len().min(got.len())
}
