//! The modifiers of an implementation section, each beside the method that it is given to.

ghost use Rattle.som_sema_drafts.specs.Items as spec;
ghost use Rattle.som_sema_drafts.specs.Items.{given_by, given_in};
ghost use Rattle.std.specs.Prelude.{◌≡◌, ◌++◌, map, IfOk, OnOk};

use som_ast::{Item, Modifier};
use som_model::NoMemory;
use std::alloc::Global;

/// One modifier of an implementation section, beside the name of the method that it is given to.
#[derive(Clone, Copy)]
pub struct Mark<'a> {
    pub method: &'a [u8],
    pub modifier: &'a Modifier,
}

/// The modifiers that are given, in the order of the text.
pub fn marks(alloc: Global, items: &[Item]) -> Result<Vec<Mark<'_>>, NoMemory>
    ensures { IfOk result (λ marks. map given_by marks.items ≡ spec.given items.now) }
{
    let mut marks = Vec::new(alloc);
    for item in items {
        add_marks(&mut marks, item)?;
    }
    Ok(marks)
}

fn add_marks<'a>(marks: &mut Vec<Mark<'a>>, item: &'a Item) -> Result<(), NoMemory>
    ensures { OnOk result (map given_by marks.new.items ≡ map given_by marks.old.items ++ given_in item.now) }
{
    match item {
        Item::Method { name, modifiers } => {
            mark_each(marks, name.text.as_slice(), modifiers.as_slice())
        }
        Item::ReleaseOrder { .. } => Ok(()),
        Item::Metaclass { .. } => Ok(()),
        Item::Major { .. } => Ok(()),
        Item::Minor { .. } => Ok(()),
        Item::Variables { .. } => Ok(()),
    }
}

fn mark_each<'a>(
    marks: &mut Vec<Mark<'a>>,
    method: &'a [u8],
    modifiers: &'a [Modifier],
) -> Result<(), NoMemory>
    ensures { OnOk result (map given_by marks.new.items ≡
        map given_by marks.old.items ++ map (λ m. record { method = method.now; modifier = m }) modifiers.now) }
{
    for modifier in modifiers {
        marks.push(Mark { method, modifier })?;
    }
    Ok(())
}
