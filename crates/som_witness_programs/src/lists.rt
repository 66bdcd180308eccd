//! The lists in the texts: parameters and zero values, with a comma and a blank between.

ghost use Rattle.som_witness.specs.Wording.{listed, parameters, zero_text, zero_texts, zero_texts_with};
ghost use Rattle.std.specs.Fmt.{decimal};
ghost use Rattle.std.specs.Prelude.{◌≡◌, ◌++◌, ◌∷◌, IfOk, codes, if◌then◌else◌};

use crate::words::{add_number, zero_text};
use som_model::{List, NoMemory, Text, ValueType};
use std::alloc::Global;

/// One after the other, with a comma and a blank between.
pub fn listed(alloc: Global, words: &[Text]) -> Result<Vec<u8>, NoMemory>
    ensures { IfOk result (λ text. text.items ≡ listed words.now) }
{
    match words {
        [] => Ok(Vec::new(alloc)),
        [first, others @ ..] => listed_after(alloc, first, others),
    }
}

// The first, and then each of the others after a comma and a blank.
fn listed_after(alloc: Global, first: &Text, others: &[Text]) -> Result<Vec<u8>, NoMemory>
    ensures { IfOk result (λ text. text.items ≡ listed (first.now ∷ others.now)) }
{
    let mut text = Vec::from_slice(alloc, first.as_slice())?;
    for word in others {
        text.extend_from_slice(b", ")?;
        text.extend_from_slice(word.as_slice())?;
    }
    Ok(text)
}

// The name of the parameter of this number.
fn parameter(alloc: Global, number: usize) -> Result<Text, NoMemory>
    ensures { IfOk result (λ name. name ≡ codes "p" ++ decimal number) }
{
    let mut name = Vec::new(alloc);
    name.push(b'p')?;
    add_number(&mut name, number as u64)?;
    Ok(Text::from_vec(name))
}

/// The names of the parameters, from p0 on.
pub fn parameters(alloc: Global, params: &[ValueType]) -> Result<List<Text>, NoMemory>
    ensures { IfOk result (λ names. names ≡ parameters 0 params.now) }
{
    let mut names = List::new(alloc);
    for number in 0..params.len() {
        names.push(parameter(alloc, number)?)?;
    }
    Ok(names)
}

/// The zero values as literals.
pub fn zero_texts(alloc: Global, params: &[ValueType]) -> Result<List<Text>, NoMemory>
    ensures { IfOk result (λ values. values ≡ zero_texts params.now) }
{
    let mut values = List::new(alloc);
    for kind in params {
        values.push(Text::from_slice(alloc, zero_text(kind))?)?;
    }
    Ok(values)
}

// The parameter x at its place, and else a zero value.
fn value_text(is_x: bool, kind: &ValueType) -> &'static [u8]
    ensures { result.now ≡ (if is_x then codes "x" else zero_text kind.now) }
{
    if is_x { b"x" } else { zero_text(kind) }
}

/// The zero values, but for the parameter x at this place.
pub fn zero_texts_with(
    alloc: Global,
    place: u16,
    params: &[ValueType],
) -> Result<List<Text>, NoMemory>
    ensures { IfOk result (λ values. values ≡ zero_texts_with place params.now) }
{
    let mut values = List::new(alloc);
    for (at, kind) in params.iter().enumerate() {
        let value = Text::from_slice(alloc, value_text(at == place as usize, kind))?;
        values.push(value)?;
    }
    Ok(values)
}
