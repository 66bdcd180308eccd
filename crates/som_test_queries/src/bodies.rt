//! Questions on bodies: which class answers for a method, itself or a parent.

ghost use Rattle.som_class_kernel.specs.Linked.{IsMadeIn};
ghost use Rattle.som_meta.specs.Numbering.{IsNumbered};
ghost use Rattle.std.specs.Prelude.{◌≡◌, ◌<◌, IfSome};

use crate::lines::{first_word, number_of};
use crate::making::made_called;
use crate::telling::{told, told_class};
use crate::unasked::Unasked;
use som_classmgr::{Held, Kernel, Linked};
use som_model::{List, NoMemory, Text};
use som_tables::{ClassNo, Steps};
use std::alloc::Global;
use std::marker::Brand;
use std::sync::ledger::{Blank, Ledger};

/// What a class has for a method.
#[derive(Clone, Copy)]
enum Holds {
    Block,
    Reads,
    Writes,
    Kernel,
    Forward,
    Nothing,
}

fn in_short(held: Held<'_>) -> Holds {
    match held {
        Held::User(_) => Holds::Block,
        Held::Get(_) => Holds::Reads,
        Held::Set(_) => Holds::Writes,
        Held::Kernel => Holds::Kernel,
        Held::Forward => Holds::Forward,
        Held::Nothing => Holds::Nothing,
    }
}

fn word_of(holds: Holds) -> &'static [u8] {
    match holds {
        Holds::Block => b": block",
        Holds::Reads => b": reads",
        Holds::Writes => b": writes",
        Holds::Kernel => b": kernel",
        Holds::Forward => b": forward",
        Holds::Nothing => b": nothing",
    }
}

// The class whose body a class has for the method that a name means in a class, the same or another, and what that is.
fn counted_body<L: Ledger>(
    kernel: &Kernel<Linked>,
    class: ClassNo,
    meant_in: ClassNo,
    name: &Text,
    blank: Blank,
) -> Option<(ClassNo, Holds)>
    requires made { IsMadeIn kernel.now class }
    requires numbered { IsNumbered kernel.now.classes class }
    requires meant_in { IsMadeIn kernel.now meant_in }
    requires name { blank.name ≡ L.name }
    requires parts { blank.parts ≡ L.parts }
    requires some { 0 < blank.parts }
    ensures { IfSome result (λ found. IsNumbered kernel.now.classes found.0) }
{
    kernel.know();
    let mut steps: Steps<L> = Steps::new(blank);
    let method = kernel.find(meant_in, name, &mut steps)?;
    if kernel.is_a(class, method.class()) {
        let body = kernel.resolve(class, method, &mut steps);
        let view = kernel.body(body);
        Some((view.class, in_short(view.held)))
    } else {
        None
    }
}

// The class whose body the parent at a place has for the method that the name means in the class, and what that is.
fn counted_above<L: Ledger>(
    kernel: &Kernel<Linked>,
    class: ClassNo,
    parent: u8,
    name: &Text,
    blank: Blank,
) -> Option<(ClassNo, Holds)>
    requires made { IsMadeIn kernel.now class }
    requires numbered { IsNumbered kernel.now.classes class }
    requires name { blank.name ≡ L.name }
    requires parts { blank.parts ≡ L.parts }
    requires some { 0 < blank.parts }
    ensures { IfSome result (λ found. IsNumbered kernel.now.classes found.0) }
{
    kernel.know();
    let mut steps: Steps<L> = Steps::new(blank);
    let method = kernel.find(class, name, &mut steps)?;
    let parents = kernel.parents(class).as_slice();
    if usize::from(parent) < parents.len()
        && kernel.is_a(parents[usize::from(parent)], method.class())
    {
        let body = kernel.parent_resolve(class, parent, method, &mut steps);
        let view = kernel.body(body);
        Some((view.class, in_short(view.held)))
    } else {
        None
    }
}

fn tell_held(
    alloc: Global,
    kernel: &Kernel<Linked>,
    answer: Option<(ClassNo, Holds)>,
    out: &mut List<u8>,
) -> Result<(), NoMemory>
    requires { IfSome answer (λ found. IsNumbered kernel.now.classes found.0) }
{
    match answer {
        Some((class, holds)) => {
            told_class(alloc, out, kernel, class)?;
            told(out, word_of(holds))
        }
        None => told(out, b"none"),
    }
}

/// Tells whose body a class that is made has for a method.
pub fn tell_body(
    alloc: Global,
    kernel: &Kernel<Linked>,
    rest: &[u8],
    out: &mut List<u8>,
) -> Result<(), Unasked> {
    let (class, method) = first_word(rest);
    let class = made_called(alloc, kernel, class)?;
    let method = Text::from_slice(alloc, method)?;
    let answer = counted_body::<Brand>(kernel, class, class, &method, Blank::new(1));
    tell_held(alloc, kernel, answer, out)?;
    Ok(())
}

/// Tells whose body a class that is made has for the method that a name means in another.
pub fn tell_body_of(
    alloc: Global,
    kernel: &Kernel<Linked>,
    rest: &[u8],
    out: &mut List<u8>,
) -> Result<(), Unasked> {
    let (class, rest) = first_word(rest);
    let (other, method) = first_word(rest);
    let class = made_called(alloc, kernel, class)?;
    let other = made_called(alloc, kernel, other)?;
    let method = Text::from_slice(alloc, method)?;
    let answer = counted_body::<Brand>(kernel, class, other, &method, Blank::new(1));
    tell_held(alloc, kernel, answer, out)?;
    Ok(())
}

/// Tells whose body the parent at a place of a class that is made has for a method.
pub fn tell_body_above(
    alloc: Global,
    kernel: &Kernel<Linked>,
    rest: &[u8],
    out: &mut List<u8>,
) -> Result<(), Unasked> {
    let (class, rest) = first_word(rest);
    let (parent, method) = first_word(rest);
    let class = made_called(alloc, kernel, class)?;
    let parent = u8::try_from(number_of(parent)?)?;
    let method = Text::from_slice(alloc, method)?;
    let answer = counted_above::<Brand>(kernel, class, parent, &method, Blank::new(1));
    tell_held(alloc, kernel, answer, out)?;
    Ok(())
}
