//! The report of a table: counts, and a line for each difference.

ghost use Rattle.som_test_report.specs.Same.{Same};
ghost use Rattle.std.specs.Prelude.{◌≡◌, ◌≢◌, ◌<◌, OnOk};

use crate::compare::{Answer, Value, first_difference, same};
use crate::variable::Variable;
use som_model::NoMemory;
use std::alloc::Global;
use std::fmt;

/// Where a comparison stands in a table: the number of its line, what is compared, and the variables of its row.
#[derive(Clone, Copy)]
pub struct Place<'a> {
    pub line: usize,
    pub what: &'a [u8],
    pub variables: &'a [Variable],
}

/// What is told of a table.
#[derive(Drop)]
pub struct Report {
    table: String,
    /// All lines of the report.
    pub text: String,
    pub sums: Sums,
}

/// How many cases there were, how many differences, and how many lines that weren't understood.
#[derive(Clone, Copy)]
pub struct Sums {
    pub cases: u64,
    pub differences: u64,
    pub unclear: u64,
}

impl Sums {
    pub const NONE: Sums = Sums {
        cases: 0,
        differences: 0,
        unclear: 0,
    };

    pub fn add(&mut self, other: Sums) {
        self.cases = self.cases.saturating_add(other.cases);
        self.differences = self.differences.saturating_add(other.differences);
        self.unclear = self.unclear.saturating_add(other.unclear);
    }
}

impl fmt::Display for Sums {
    fn fmt<W: fmt::Write>(&self, f: &mut fmt::Formatter<W>) -> fmt::Result {
        let Sums {
            cases,
            differences,
            unclear,
        } = *self;
        write!(
            f,
            "{cases} cases, {differences} differences, {unclear} lines not understood"
        )
    }
}

impl Report {
    /// The report of a table, of which nothing is told yet.
    pub fn new(alloc: Global, table: &str) -> Result<Report, NoMemory> {
        Ok(Report {
            table: String::from_str(alloc, table)?,
            text: String::new(alloc),
            sums: Sums::NONE,
        })
    }

    pub fn count_case(&mut self) {
        self.sums.cases = self.sums.cases.saturating_add(1);
    }

    /// Tells of a line that it isn't understood.
    pub fn tell_unclear(&mut self, line: usize) -> Result<(), NoMemory> {
        self.sums.unclear = self.sums.unclear.saturating_add(1);
        let table = self.table.as_str();
        writeln!(self.text, "{table}:{line}: not understood")?;
        Ok(())
    }

    /// Compares what came with what was wanted, and tells where they differ.
    pub fn compare(
        &mut self,
        place: Place<'_>,
        wanted: Value<'_>,
        got: Value<'_>,
    ) -> Result<(), NoMemory>
        ensures counted { ¬ (Same wanted.entry got.entry) → 0 < self.new.sums.differences }
        ensures same { Same wanted.entry got.entry → self.new.sums ≡ self.old.sums }
        ensures kept { 0 < self.old.sums.differences → 0 < self.new.sums.differences }
    {
        if same(wanted, got) {
            return Ok(());
        }
        self.sums.differences = self.sums.differences.saturating_add(1);
        self.tell_difference(place, wanted, got)
    }

    // Tells what was wanted and what came.
    fn tell_difference(
        &mut self,
        place: Place<'_>,
        wanted: Value<'_>,
        got: Value<'_>,
    ) -> Result<(), NoMemory>
        ensures { self.new.sums ≡ self.old.sums }
    {
        let from = first_difference(wanted, got);
        let table = self.table.as_str();
        let line = place.line;
        let what = Shown(place.what);
        let wanted = ValueFrom(wanted, from);
        let got = ValueFrom(got, from);
        write!(
            self.text,
            "{table}:{line}: {what}: wanted {wanted}, got {got}"
        )?;
        for variable in place.variables {
            let name = Shown(variable.name.as_slice());
            let value = ValueFrom(Value::Bytes(variable.value.as_slice()), 0);
            write!(self.text, ", {name} = {value}")?;
        }
        writeln!(self.text)?;
        Ok(())
    }

    /// Compares what a command printed and answered with what was wanted.
    pub fn compare_answers(
        &mut self,
        line: usize,
        status_line: usize,
        variables: &[Variable],
        wanted: &Answer,
        got: &Answer,
    ) -> Result<(), NoMemory>
        ensures { OnOk result (wanted.now ≢ got.now → 0 < self.new.sums.differences) }
    {
        let printed = Place {
            line,
            what: b"printed",
            variables,
        };
        let status = Place {
            line: status_line,
            what: b"status",
            variables,
        };
        self.compare(
            printed,
            Value::Bytes(wanted.printed.as_slice()),
            Value::Bytes(got.printed.as_slice()),
        )?;
        self.compare(
            status,
            Value::Status(wanted.status),
            Value::Status(got.status),
        )
    }
}

// Bytes as they are told: those that can't be printed in hexadecimal.
#[derive(Clone, Copy)]
struct Shown<'a>(&'a [u8]);

impl fmt::Display for Shown<'_> {
    fn fmt<W: fmt::Write>(&self, f: &mut fmt::Formatter<W>) -> fmt::Result {
        for byte in self.0 {
            match *byte {
                b'\\' => f.write_str("\\\\")?,
                b'"' => f.write_str("\\\"")?,
                b' '..=b'~' => f.write_char(char::from(*byte))?,
                other => write!(f, "\\x{other:02x}")?,
            }
        }
        Ok(())
    }
}

/// How many bytes of a value are told at most.
const MAX_SHOWN: usize = 200;

/// How many of them stand before the first difference.
const BEFORE: usize = 60;

// A value as it is told, around its first difference.
#[derive(Clone, Copy)]
struct ValueFrom<'a>(Value<'a>, usize);

impl fmt::Display for ValueFrom<'_> {
    fn fmt<W: fmt::Write>(&self, f: &mut fmt::Formatter<W>) -> fmt::Result {
        let bytes = match self.0 {
            Value::Absent => return f.write_str("absent"),
            Value::Status(status) => return write!(f, "{status}"),
            Value::Bytes(bytes) => bytes,
        };
        let from = if bytes.len() > MAX_SHOWN {
            self.1.saturating_sub(BEFORE)
        } else {
            0
        };
        let part = bytes.get(from..).unwrap_or(&[]);
        let (dots, shown) = (if from > 0 { ".." } else { "" }, Shown(cut(part)));
        let end = if part.len() > MAX_SHOWN { ".." } else { "" };
        write!(f, "{dots}\"{shown}\"{end}")
    }
}

// At most as many bytes as are told.
fn cut(bytes: &[u8]) -> &[u8] {
    bytes.get(..MAX_SHOWN).unwrap_or(bytes)
}
