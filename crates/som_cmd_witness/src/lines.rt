//! Makes the lines that tell a verdict.

ghost use Rattle.som_cmd_steps.specs.Lines.{or_dash};
ghost use Rattle.som_cmd_witness.specs.Lines.{bodies_lines, breach_line, files_lines, line, texts_lines};
ghost use Rattle.som_cmd_witness.specs.WitnessSteps.{verdict_lines};
ghost use Rattle.std.specs.Prelude.{IfOk, option_copied, [], ◌++◌, ◌∷◌, ◌≡◌};

use som_cmd_steps::line_of;
use som_model::{List, NoMemory, Text};
use som_show::add_number;
use som_witness::{Texts, Verdict};
use std::alloc::Global;

// The line that tells a breach.
fn breach_line(
    alloc: Global,
    rule: u8,
    class: &Text,
    name: &[u8],
    place: u32,
) -> Result<Text, NoMemory>
    ensures { IfOk result (λ l. l ≡ breach_line rule class.now name.now place) }
{
    let mut line = Vec::new(alloc);
    line.extend_from_slice(b"breach K")?;
    add_number(&mut line, u64::from(rule))?;
    line.push(b' ')?;
    line.extend_from_slice(class.as_slice())?;
    line.push(b' ')?;
    line.extend_from_slice(name)?;
    line.push(b' ')?;
    add_number(&mut line, u64::from(place))?;
    line.push(b'\n')?;
    Ok(Text::from_vec(line))
}

// A name, or a dash where it doesn't apply.
fn or_dash(name: &Option<Text>) -> &[u8]
    ensures { result.now ≡ or_dash name.now }
{
    match name {
        Some(name) => name.as_slice(),
        None => b"-",
    }
}

// Adds the lines of the file of a name with this text.
fn add_file(alloc: Global, lines: &mut List<Text>, name: &[u8], text: &Text) -> Result<(), NoMemory>
    ensures { IfOk result (λ _. lines.new ≡ lines.old ++ line name.now ∷ line text.now ∷ []) }
{
    lines.push(line_of(alloc, name)?)?;
    lines.push(line_of(alloc, text.as_slice())?)?;
    Ok(())
}

// Adds the lines of the file of the bodies. The class of a client that shows a lost class has none.
fn add_bodies(
    alloc: Global,
    lines: &mut List<Text>,
    rule: u8,
    bodies: &Text,
) -> Result<(), NoMemory>
    ensures { IfOk result (λ _. lines.new ≡ lines.old ++ bodies_lines rule bodies.now) }
{
    if rule == 1 {
        Ok(())
    } else {
        add_file(alloc, lines, b"file w.bod", bodies)
    }
}

// Adds the lines of the files of a client's texts.
fn add_files(alloc: Global, lines: &mut List<Text>, rule: u8, texts: &Texts) -> Result<(), NoMemory>
    ensures { IfOk result (λ _. lines.new ≡ lines.old ++ files_lines rule texts.now) }
{
    add_file(alloc, lines, b"file w.idl", &texts.idl)?;
    add_bodies(alloc, lines, rule, &texts.bodies)?;
    add_file(alloc, lines, b"file w.main", &texts.main)
}

// Adds the lines of a client's texts, or the line that it has none.
fn add_texts(
    alloc: Global,
    lines: &mut List<Text>,
    rule: u8,
    texts: &Option<Texts>,
) -> Result<(), NoMemory>
    ensures { IfOk result (λ _. lines.new ≡ lines.old ++ texts_lines rule texts.now) }
{
    match texts {
        Some(texts) => add_files(alloc, lines, rule, texts),
        None => Ok(lines.push(line_of(alloc, b"no text")?)?),
    }
}

// One line.
fn one(alloc: Global, line: Text) -> Result<List<Text>, NoMemory>
    ensures { IfOk result (λ lines. lines ≡ line ∷ []) }
{
    let mut lines = List::new(alloc);
    lines.push(line)?;
    Ok(lines)
}

// The lines that tell a breach which a client shows, and its texts.
fn shown_lines(
    alloc: Global,
    rule: u8,
    class: &Text,
    name: &Option<Text>,
    place: u32,
    texts: &Option<Texts>,
) -> Result<List<Text>, NoMemory>
    ensures { IfOk result (λ lines. lines ≡ breach_line rule class.now (or_dash name.now) place ∷ texts_lines rule texts.now) }
{
    let mut lines = one(
        alloc,
        breach_line(alloc, rule, class, or_dash(name), place)?,
    )?;
    add_texts(alloc, &mut lines, rule, texts)?;
    Ok(lines)
}

/// The lines that tell a verdict.
pub fn verdict_lines(alloc: Global, verdict: &Verdict) -> Result<List<Text>, NoMemory>
    ensures { IfOk result (λ lines. lines ≡ verdict_lines verdict.now) }
{
    match verdict {
        Verdict::Accepted => one(alloc, line_of(alloc, b"accepted")?),
        Verdict::VersionOnly { class } => one(alloc, breach_line(alloc, 2, class, b"-", 0)?),
        Verdict::Shown {
            rule,
            class,
            name,
            place,
            program: _,
            texts,
        } => shown_lines(alloc, *rule, class, name, *place, texts),
    }
}
