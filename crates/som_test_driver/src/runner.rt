//! The runner of cases: it keeps files, runs commands, and compares what comes.

use crate::commands::Commands;
use crate::outcome::{Failing, FailingCall, Outcome, outcome_of};
use som_io::Leaves;
use som_model::{List, NoMemory, Text};
use som_test_dump::shown;
use som_test_format::{
    Contents, File, Files, Kind, Line, Wrong, add_variables, case_len, first_word, number_of,
    single_bytes, status_of, wanted_status, words_in,
};
use som_test_report::{Answer, Place, Report, Value, Variable};
use std::alloc::Global;

/// Files that later cases can use by a name.
#[derive(Drop)]
pub struct Fixture {
    name: Text,
    files: Vec<File>,
}

// What is known of the last command of a case.
#[derive(Clone, Copy)]
struct Last {
    // How many files there were before it.
    before: usize,
    // Whether no line has told its status yet.
    open: bool,
}

/// Runs the cases of tables, one table after the other; the fixtures of one stay for the next.
#[derive(Drop)]
pub struct Runner {
    alloc: Global,
    fixtures: Vec<Fixture>,
    /// What is told of the last table.
    pub report: Report,
    files: Files,
    variables: Vec<Variable>,
    failing: Failing,
    last: Option<Last>,
}

impl Runner {
    pub fn new(alloc: Global) -> Result<Runner, NoMemory> {
        let report = Report::new(alloc, "")?;
        Ok(Runner {
            alloc,
            fixtures: Vec::new(alloc),
            report,
            files: Files::new(alloc),
            variables: Vec::new(alloc),
            failing: Failing::new(alloc),
            last: None,
        })
    }

    /// Runs the cases of a table.
    pub fn run_table<C: Commands>(
        &mut self,
        commands: &C,
        name: &str,
        lines: &[Line<'_>],
    ) -> Result<(), NoMemory> {
        self.report = Report::new(self.alloc, name)?;
        let mut begun = false;
        for (place, line) in lines.iter().enumerate() {
            if line.kind == Kind::Case {
                begun = true;
                let after = &lines[place + 1..];
                self.run_case(commands, line.rest, &after[..case_len(after)])?;
            } else if !begun {
                self.report.tell_unclear(line.number)?;
            }
        }
        Ok(())
    }

    // Runs a case, from its name and its lines.
    fn run_case<C: Commands>(
        &mut self,
        commands: &C,
        name: &[u8],
        lines: &[Line<'_>],
    ) -> Result<(), NoMemory> {
        self.go_back(0);
        self.run(commands, lines)?;
        if let (b"fixture", name) = first_word(name) {
            let name = Text::from_slice(self.alloc, name)?;
            let files = self.files.take_all(self.alloc);
            self.fixtures.push(Fixture { name, files })?;
        }
        Ok(())
    }

    // Goes back to the first so many files.
    fn go_back(&mut self, files: usize) {
        self.files.back_to(files);
        self.failing = Failing::new(self.alloc);
        self.last = None;
    }

    // Runs the lines of a case, those after an `each` once for each row.
    #[cycle(lines)]
    fn run<C: Commands>(&mut self, commands: &C, lines: &[Line<'_>]) -> Result<(), NoMemory> {
        let mut rest = lines;
        while let [line, after @ ..] = rest {
            if line.kind == Kind::Each {
                return self.run_rows(commands, line, after);
            }
            match self.run_line(commands, line, after) {
                Ok(()) => {}
                Err(Wrong::Unclear) => self.report.tell_unclear(line.number)?,
                Err(Wrong::Memory) => return Err(NoMemory),
            }
            rest = after;
        }
        self.report.count_case();
        Ok(())
    }

    // Runs the lines after an `each` once for each of its rows.
    #[cycle(lines)]
    fn run_rows<C: Commands>(
        &mut self,
        commands: &C,
        line: &Line<'_>,
        after: &[Line<'_>],
    ) -> Result<(), NoMemory> {
        let rows = match self.contents().rows(line.rest, line.block.as_slice()) {
            Ok(rows) => rows,
            Err(Wrong::Unclear) => return self.report.tell_unclear(line.number),
            Err(Wrong::Memory) => return Err(NoMemory),
        };
        let files = self.files.as_slice().len();
        let variables = self.variables.len();
        for row in rows.rows {
            add_variables(self.alloc, &mut self.variables, rows.names.as_slice(), row)?;
            self.run(commands, after)?;
            self.variables.truncate(variables);
            self.go_back(files);
        }
        Ok(())
    }

    // Does what a line of a case says. The lines after it tell the status of a command.
    fn run_line<C: Commands>(
        &mut self,
        commands: &C,
        line: &Line<'_>,
        after: &[Line<'_>],
    ) -> Result<(), Wrong> {
        match line.kind {
            Kind::Use => self.use_fixtures(line.rest),
            Kind::Given => self.give(line),
            Kind::Failing => self.add_failing(line.rest),
            Kind::Command => self.run_command(commands, line, after),
            Kind::Status => self.pass_status(line.rest),
            Kind::Wanted => self.check_file(line),
            Kind::Shown => self.check_shown(line),
            Kind::Each | Kind::Case | Kind::Unclear => Err(Wrong::Unclear),
        }
    }

    fn contents(&self) -> Contents<'_> {
        Contents {
            alloc: self.alloc,
            files: &self.files,
            variables: self.variables.as_slice(),
        }
    }

    fn use_fixtures(&mut self, rest: &[u8]) -> Result<(), Wrong> {
        for name in words_in(self.alloc, rest)? {
            let fixture = find_fixture(self.fixtures.as_slice(), name).ok_or(Wrong::Unclear)?;
            for file in &fixture.files {
                self.files.put(file.copy(self.alloc)?)?;
            }
        }
        Ok(())
    }

    fn give(&mut self, line: &Line<'_>) -> Result<(), Wrong> {
        let head = self.contents().expanded(line.rest)?;
        let (name, rest) = first_word(head.as_slice());
        let bytes = self.contents().file(rest, line.block.as_slice())?;
        let name = Text::from_vec(single_bytes(self.alloc, name)?);
        let bytes = Some(List::from_vec(bytes));
        self.files.put(File { name, bytes })?;
        Ok(())
    }

    fn add_failing(&mut self, rest: &[u8]) -> Result<(), Wrong> {
        let head = self.contents().expanded(rest)?;
        let (side, rest) = first_word(head.as_slice());
        let (call, leaves) = first_word(rest);
        let call = number_of(call).ok_or(Wrong::Unclear)?;
        let leaves = match (side, leaves) {
            (b"sink", b"") => return Ok(self.failing.sink.push(call)?),
            (b"store", b"" | b"leaves old") => Leaves::Old,
            (b"store", b"leaves new") => Leaves::New,
            (b"store", b"leaves nothing") => Leaves::Nothing,
            _ => return Err(Wrong::Unclear),
        };
        self.failing.store.push(FailingCall { call, leaves })?;
        Ok(())
    }

    fn run_command<C: Commands>(
        &mut self,
        commands: &C,
        line: &Line<'_>,
        after: &[Line<'_>],
    ) -> Result<(), Wrong> {
        let Outcome { answer, changed } = self.outcome(commands, line.rest)?;
        self.compare_answers(line, after, &answer)?;
        self.put_changed(changed)?;
        Ok(())
    }

    fn outcome<C: Commands>(&self, commands: &C, rest: &[u8]) -> Result<Outcome, Wrong> {
        let words = self.command_words(rest)?;
        Ok(outcome_of(self.alloc, commands, &words, &self.files, &self.failing)?)
    }

    // Compares what a command printed and its status with what its lines say.
    fn compare_answers(
        &mut self,
        line: &Line<'_>,
        after: &[Line<'_>],
        got: &Answer,
    ) -> Result<(), Wrong> {
        let printed = self.contents().filled(line.block.as_slice())?;
        let (status_line, status) = wanted_status(after).unwrap_or((line.number, 0));
        let wanted = Answer {
            printed: List::from_vec(printed),
            status,
        };
        let variables = self.variables.as_slice();
        self.report
            .compare_answers(line.number, status_line, variables, &wanted, got)?;
        Ok(())
    }

    // Puts what a command changed. The next command begins with no call that fails.
    fn put_changed(&mut self, changed: Vec<File>) -> Result<(), NoMemory> {
        self.last = Some(Last {
            before: self.files.as_slice().len(),
            open: true,
        });
        self.failing = Failing::new(self.alloc);
        for file in changed {
            self.files.put(file)?;
        }
        Ok(())
    }

    fn command_words(&self, rest: &[u8]) -> Result<List<Text>, Wrong> {
        let head = self.contents().expanded(rest)?;
        let mut words = List::new(self.alloc);
        for word in words_in(self.alloc, head.as_slice())? {
            let bytes = if matches!(word, b"\"\"") {
                Vec::new(self.alloc)
            } else {
                single_bytes(self.alloc, word)?
            };
            words.push(Text::from_vec(bytes))?;
        }
        Ok(words)
    }

    // A line of a status, which was compared when the command was run.
    fn pass_status(&mut self, rest: &[u8]) -> Result<(), Wrong> {
        match &mut self.last {
            Some(last) if last.open && status_of(rest).is_some() => {
                last.open = false;
                Ok(())
            }
            _ => Err(Wrong::Unclear),
        }
    }

    fn check_file(&mut self, line: &Line<'_>) -> Result<(), Wrong> {
        let head = self.contents().expanded(line.rest)?;
        let (name, rest) = first_word(head.as_slice());
        let name = single_bytes(self.alloc, name)?;
        let wanted = self.wanted_file(name.as_slice(), rest, line.block.as_slice())?;
        let place = Place {
            line: line.number,
            what: name.as_slice(),
            variables: self.variables.as_slice(),
        };
        let got = value_of(self.files.get(name.as_slice()));
        self.report.compare(place, value_of(wanted.as_ref()), got)?;
        Ok(())
    }

    // What a file is to hold, by what stands after its name, and by the block.
    fn wanted_file(
        &self,
        name: &[u8],
        rest: &[u8],
        block: &[u8],
    ) -> Result<Option<List<u8>>, Wrong> {
        if rest == b"absent".as_slice() {
            return Ok(None);
        }
        if rest != b"same".as_slice() {
            return Ok(Some(List::from_vec(self.contents().file(rest, block)?)));
        }
        let last = self.last.ok_or(Wrong::Unclear)?;
        match self.files.get_among(last.before, name) {
            Some(before) => Ok(Some(before.copy(self.alloc)?)),
            None => Ok(None),
        }
    }

    // Compares the tokens or the tree of a file.
    fn check_shown(&mut self, line: &Line<'_>) -> Result<(), Wrong> {
        let head = self.contents().expanded(line.rest)?;
        let (kind, name) = first_word(head.as_slice());
        let got = self.lines_shown(kind, name)?;
        let wanted = self.contents().filled(line.block.as_slice())?;
        let wanted = Value::Bytes(wanted.as_slice());
        self.compare(line.number, kind, wanted, Value::Bytes(got.as_slice()))?;
        Ok(())
    }

    fn lines_shown(&self, kind: &[u8], name: &[u8]) -> Result<List<u8>, Wrong> {
        let name = single_bytes(self.alloc, name)?;
        let bytes = self.files.get(name.as_slice()).ok_or(Wrong::Unclear)?;
        shown(self.alloc, kind, bytes)?.ok_or(Wrong::Unclear)
    }

    fn compare(
        &mut self,
        line: usize,
        what: &[u8],
        wanted: Value,
        got: Value,
    ) -> Result<(), NoMemory> {
        let place = Place {
            line,
            what,
            variables: self.variables.as_slice(),
        };
        self.report.compare(place, wanted, got)
    }
}

fn value_of(bytes: Option<&List<u8>>) -> Value<'_> {
    match bytes {
        Some(bytes) => Value::Bytes(bytes.as_slice()),
        None => Value::Absent,
    }
}

fn find_fixture<'a>(fixtures: &'a [Fixture], name: &[u8]) -> Option<&'a Fixture> {
    for fixture in fixtures.iter().rev() {
        if fixture.name.is(name) {
            return Some(fixture);
        }
    }
    None
}
