//! Makes the lines that refuse texts: a fault of the parser, a broken rule, or a limit that is passed.

ghost use Rattle.som_sources.specs.declared.fault.TextFault.TheVariants as texts;
ghost use Rattle.som_cmd_sources.specs.Compiled.{Refuses};
ghost use Rattle.som_cmd_sources.specs.Texts.{reading_name, text_refused, too_many};
ghost use Rattle.std.specs.Prelude.{IfOk, ◌≡◌};

use som_cmd_steps::{CommandStop, Refusal, Why};
use som_model::{NoMemory, Text};
use som_show::add_number;
use som_sources::{CompileFault, ReadingFault, TextFault};
use som_verify_classes::Broken;
use std::alloc::Global;

fn reading_name(fault: ReadingFault) -> &'static [u8]
    ensures { result.now ≡ reading_name fault }
{
    match fault {
        ReadingFault::BadByte => b"L1",
        ReadingFault::OpenText => b"L2",
        ReadingFault::OpenComment => b"L3",
        ReadingFault::NumberTooLarge => b"L4",
        ReadingFault::Syntax => b"P1",
        ReadingFault::NotInProfile => b"P2",
    }
}

// The refusal of a text that can't be read, with the place of its fault.
fn refuse_reading(
    alloc: Global,
    fault: ReadingFault,
    name: &Text,
    place: usize,
) -> Result<Refusal, NoMemory>
    ensures { IfOk result (λ r. r ≡ text_refused (texts.Unread fault name.now place)) }
{
    let mut line = Vec::new(alloc);
    line.extend_from_slice(b"refused ")?;
    line.extend_from_slice(reading_name(fault))?;
    line.push(b' ')?;
    line.extend_from_slice(name.as_slice())?;
    line.push(b' ')?;
    add_number(&mut line, place as u64)?;
    line.push(b'\n')?;
    Ok(Refusal {
        line: Text::from_vec(line),
        why: Why::Texts,
    })
}

// The refusal of texts that break a rule.
fn refuse_rule(alloc: Global, rule: &Broken) -> Result<Refusal, NoMemory>
    ensures { IfOk result (λ r. r ≡ text_refused (texts.Rule rule.now)) }
{
    let mut line = Vec::new(alloc);
    line.extend_from_slice(b"refused S")?;
    add_number(&mut line, u64::from(rule.rule))?;
    line.push(b' ')?;
    line.extend_from_slice(rule.class.as_slice())?;
    line.push(b' ')?;
    line.extend_from_slice(rule.member.as_slice())?;
    line.push(b'\n')?;
    Ok(Refusal {
        line: Text::from_vec(line),
        why: Why::Texts,
    })
}

/// The refusal of a quantity that passes its limit.
pub fn refuse_limit(alloc: Global, quantity: &[u8], number: u32) -> Result<Refusal, NoMemory>
    ensures { IfOk result (λ r. r ≡ too_many quantity.now number) }
{
    let mut line = Vec::new(alloc);
    line.extend_from_slice(b"limit ")?;
    line.extend_from_slice(quantity)?;
    line.push(b' ')?;
    add_number(&mut line, u64::from(number))?;
    line.push(b'\n')?;
    Ok(Refusal {
        line: Text::from_vec(line),
        why: Why::Limit,
    })
}

/// The refusal that tells what is wrong with texts.
pub fn refuse_texts(alloc: Global, fault: &TextFault) -> Result<Refusal, NoMemory>
    ensures { IfOk result (λ r. r ≡ text_refused fault.now) }
{
    match fault {
        TextFault::Unread { fault, name, place } => refuse_reading(alloc, *fault, name, *place),
        TextFault::Rule(rule) => refuse_rule(alloc, rule),
        TextFault::Limit { quantity, number } => {
            refuse_limit(alloc, quantity.as_slice(), *number)
        }
    }
}

/// What stops a command whose texts aren't compiled.
pub fn stop_of(alloc: Global, fault: &CompileFault) -> CommandStop
    ensures { Refuses fault.now result }
{
    match fault {
        CompileFault::Text(fault) => match refuse_texts(alloc, fault) {
            Ok(refusal) => CommandStop::Refused(refusal),
            Err(_) => CommandStop::NoMemory,
        },
        CompileFault::NoMemory => CommandStop::NoMemory,
    }
}
