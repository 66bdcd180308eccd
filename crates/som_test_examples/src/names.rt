//! An index of names over a diamond, and a search in it.

ghost use Rattle.som_names.specs.Index.{KeepsOthers, named_at};
ghost use Rattle.som_test_examples.specs.Names.{IsIndex, named};
ghost use Rattle.std.specs.Prelude.{◌≡◌, ◌+◌, ◌∷◌, [], None, Some, IfOk, OnOk, length, map};

use som_model::{List, NoMemory, Text};
use som_names::NameIndex;
use som_tables::{ClassNo, MToken, Steps, Token};
use std::alloc::Global;
use std::sync::ledger::Ledger;

/// The classes with these numbers.
fn classes(alloc: Global, numbers: &[u32]) -> Result<List<ClassNo>, NoMemory>
    ensures { IfOk result (λ classes. classes ≡ numbers.now) }
{
    let mut classes = List::new(alloc);
    for number in numbers {
        classes.push(ClassNo::new(*number))?;
    }
    Ok(classes)
}

/// Names of one letter each.
fn names(alloc: Global, letters: &[u8]) -> Result<List<Text>, NoMemory>
    ensures { IfOk result (λ names. names ≡ map (λ letter. letter ∷ []) letters.now) }
{
    let mut names = List::new(alloc);
    for letter in letters {
        names.push(Text::from_slice(alloc, &[*letter])?)?;
    }
    Ok(names)
}

/// The tokens of a class at these places.
fn tokens(alloc: Global, class: u32, places: &[u16]) -> Result<List<MToken>, NoMemory>
    ensures { IfOk result (λ tokens. tokens ≡ map (λ place. (class, place)) places.now) }
{
    let mut tokens = List::new(alloc);
    for place in places {
        tokens.push(Token::new(ClassNo::new(class), *place))?;
    }
    Ok(tokens)
}

/// Adds a class with these ancestors, which introduces these names at these places.
fn add(
    alloc: Global,
    index: &mut NameIndex,
    class: u32,
    ancestors: &[u32],
    letters: &[u8],
    places: &[u16],
) -> Result<(), NoMemory>
    requires new { named_at index.old class ≡ None }
    requires long { length places.now ≡ length letters.now }
    ensures added { OnOk result (named_at index.new class ≡ Some (named class ancestors.now letters.now places.now)) }
    ensures others { KeepsOthers index.old index.new class }
{
    let ancestors = classes(alloc, ancestors)?;
    let names = names(alloc, letters)?;
    let tokens = tokens(alloc, class, places)?;
    index.add(alloc, ClassNo::new(class), &ancestors, &names, &tokens)
}

/// An index of a diamond: class 3 is under 1 and 2, both under 0. Class 1 introduces b, and class 2 introduces b and c.
pub fn diamond(alloc: Global) -> Result<NameIndex, NoMemory>
    ensures { IfOk result (λ index. IsIndex index) }
{
    let mut index = NameIndex::new(alloc);
    add(alloc, &mut index, 0, &[0], &[], &[])?;
    add(alloc, &mut index, 1, &[1, 0], b"b", &[0])?;
    add(alloc, &mut index, 2, &[2, 0], b"bc", &[0, 1])?;
    add(alloc, &mut index, 3, &[3, 1, 0, 2], &[], &[])?;
    Ok(index)
}

/// Looks for a name of one letter in class 3: b is the method of class 1, the first ancestor that introduces it, c is found last, and others nowhere.
pub fn find<L: Ledger>(
    alloc: Global,
    index: &NameIndex,
    letter: u8,
    steps: &mut Steps<L>,
) -> Result<Option<MToken>, NoMemory>
    requires { IsIndex index.now }
    ensures first { letter ≡ 98 → IfOk result (λ token. token ≡ Some (1, 0)) }
    ensures first_cost { letter ≡ 98 → OnOk result (steps.new ≡ steps.old + 2) }
    ensures last { letter ≡ 99 → IfOk result (λ token. token ≡ Some (2, 1)) }
    ensures last_cost { letter ≡ 99 → OnOk result (steps.new ≡ steps.old + 4) }
    ensures none { letter ≡ 100 → IfOk result (λ token. token ≡ None) }
    ensures none_cost { letter ≡ 100 → OnOk result (steps.new ≡ steps.old + 4) }
{
    let name = Text::from_slice(alloc, &[letter])?;
    Ok(index.find(ClassNo::new(3), &name, steps))
}
