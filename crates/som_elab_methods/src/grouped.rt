//! `ModuleTexts`, the bodies of a module indexed by class.

ghost use Rattle.som_ast.specs.declared.body.BodyText.{BodyText as Given};
ghost use Rattle.som_elab_methods.specs.Grouped.{AreGrouped, groups_of, more_at};
ghost use Rattle.som_elab_methods.specs.Texts as spec;
ghost use Rattle.som_elab_methods.specs.Texts.{given};
ghost use Rattle.som_order.specs.Names.{texts};
ghost use Rattle.std.specs.Prelude.{◌≡◌, ◌<◌, ◌++◌, ◌∷◌, [], length, List as Seq, IfOk, OnOk};

use indexmap::IndexSet;
use som_ast::BodyText;
use som_model::{List, NoMemory};
use som_order::{find_name, note_name};
use std::alloc::Global;

/// The bodies of a module's texts, which are put together by classes, so that a class looks at its own alone.
#[derive(Drop)]
pub struct ModuleTexts<'t, 'a> {
    pub all: &'t [&'a BodyText],
    classes: IndexSet<&'a [u8]>,
    groups: Vec<List<&'a BodyText>>,
    ghost by_classes: { AreGrouped (given all.now) (texts classes.keys) (groups_of groups.items) },
}

impl<'t, 'a> ModuleTexts<'t, 'a> {
    /// Indexes these bodies by class, in one pass.
    pub fn grouped(alloc: Global, all: &'t [&'a BodyText]) -> Result<ModuleTexts<'t, 'a>, NoMemory>
        ensures { IfOk result (λ t. given t.all.now ≡ given all.now) }
    {
        let mut classes = IndexSet::new(alloc);
        let mut groups = Vec::new(alloc);
        for text in all {
            add_text(alloc, &mut classes, &mut groups, *text)?;
        }
        Ok(ModuleTexts {
            all,
            classes,
            groups,
        })
    }

    /// The bodies of one class, in the order of the texts; none where the class has none.
    pub fn of_class(&self, class: &[u8]) -> &[&'a BodyText]
        ensures { given result.now ≡ spec.of_class (given self.now.all.now) class.now }
    {
        match find_name(&self.classes, class) {
            Some(place) => self.groups[place].as_slice(),
            None => &[],
        }
    }
}

fn add_text<'a>(
    alloc: Global,
    classes: &mut IndexSet<&'a [u8]>,
    groups: &mut Vec<List<&'a BodyText>>,
    text: &'a BodyText,
) -> Result<(), NoMemory>
    requires { length (groups_of groups.old.items) ≡ length (texts classes.old.keys) }
    ensures { (bs : Seq Given) → AreGrouped bs (texts classes.old.keys) (groups_of groups.old.items)
        → OnOk result (AreGrouped (bs ++ text.now ∷ []) (texts classes.new.keys) (groups_of groups.new.items)) }
{
    let class = text.class.text.as_slice();
    match find_name(classes, class) {
        Some(place) => add_to(groups, place, text),
        None => {
            let _is_new = note_name(classes, class)?;
            add_group(alloc, groups, text)
        }
    }
}

fn add_to<'a>(
    groups: &mut Vec<List<&'a BodyText>>,
    place: usize,
    text: &'a BodyText,
) -> Result<(), NoMemory>
    requires { place < length groups.old.items }
    ensures { OnOk result (groups_of groups.new.items ≡ more_at (groups_of groups.old.items) place text.now) }
{
    groups[place].push(text)?;
    Ok(())
}

fn add_group<'a>(
    alloc: Global,
    groups: &mut Vec<List<&'a BodyText>>,
    text: &'a BodyText,
) -> Result<(), NoMemory>
    ensures { OnOk result (groups_of groups.new.items ≡ groups_of groups.old.items ++ (text.now ∷ []) ∷ []) }
{
    let mut group = List::new(alloc);
    group.push(text)?;
    groups.push(group)?;
    Ok(())
}
