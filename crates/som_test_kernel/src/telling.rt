//! What is printed.

use som_interp_task::Task;
use som_io::MemSink;
use som_test_stepping::{Ending, NotTaken, word_of};
use std::io;
use std::io::Write;

/// Prints bytes.
pub fn tell_bytes(rt: &HostRuntime, bytes: &[u8]) -> io::Result<()> {
    io::writer(rt).write_all(bytes)
}

/// Prints the text of a sink.
pub fn tell_text(rt: &HostRuntime, text: &MemSink) -> Result<(), NotTaken> {
    tell_bytes(rt, text.bytes().as_slice())?;
    Ok(())
}

// Prints the serials of the objects that a task made.
fn tell_serials(rt: &HostRuntime, serials: &[u32]) -> Result<(), NotTaken> {
    if serials.is_empty() {
        print!(rt; " none")?;
    }
    for serial in serials {
        print!(rt; " {serial}")?;
    }
    println!(rt; "")?;
    Ok(())
}

/// Prints how far a task of this name has come, and what it was granted and has made.
pub fn tell_task(
    rt: &HostRuntime,
    name: &str,
    ending: Ending,
    task: &Task,
) -> Result<(), NotTaken> {
    let begun = if task.begun() { "begun" } else { "not begun" };
    let word = word_of(ending);
    print!(rt;
        "- {name}{word}, {begun}, granted {}, serials",
        task.granted()
    )?;
    tell_serials(rt, task.serials().as_slice())
}
