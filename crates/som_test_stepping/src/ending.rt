//! How far main has come, with the word for it.

use crate::not_taken::NotTaken;
use som_interp_task::{Advanced, Outcome};

/// How far main has come: its units are spent, or it is over, or it has a fault.
#[derive(Clone, Copy, Debug, PartialEq, Eq)]
pub enum Ending {
    Going,
    Done,
    Fault,
}

/// The word that a line tells for an ending.
pub fn word_of(ending: Ending) -> &'static str {
    match ending {
        Ending::Going => "going",
        Ending::Done => "done",
        Ending::Fault => "fault",
    }
}

/// How far an advance has come.
pub fn after_advance(answer: &Advanced) -> Result<Ending, NotTaken> {
    match answer {
        Advanced::Going => Ok(Ending::Going),
        Advanced::Done => Ok(Ending::Done),
        Advanced::SourceFault { .. } => Ok(Ending::Fault),
        Advanced::SinkFailed => Err(NotTaken::Sink),
        Advanced::NoMemory => Err(NotTaken::NoMemory),
    }
}

/// How far a whole run has come.
pub fn after_run(outcome: &Outcome) -> Result<Ending, NotTaken> {
    match outcome {
        Outcome::Spent => Ok(Ending::Going),
        Outcome::Done => Ok(Ending::Done),
        Outcome::SourceFault { .. } => Ok(Ending::Fault),
        Outcome::SinkFailed => Err(NotTaken::Sink),
        Outcome::NoMemory => Err(NotTaken::NoMemory),
    }
}
