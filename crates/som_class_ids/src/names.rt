//! Declared classes by their names, where one name has at most a class in each module.

ghost use Rattle.som_model.specs.Keys.{same_key};
ghost use Rattle.som_model.specs.declared.key.ClassKey.TheVariants as keys;
ghost use Rattle.som_class_ids.specs.Names.{AreNoted, face_names, last_of};
ghost use Rattle.som_class_ids.specs.declared.keyed.Keyed.{Keyed as Class};
ghost use Rattle.std.specs.Prelude.{◌≡◌, ◌<◌, ◌++◌, ◌∷◌, [], ℕ, IfNone, IfOk, IfSome, List as Seq, OnOk, None, Some, length, slice_get, slice_index_or, true};

use crate::keyed::{Keyed, class_at};
use som_model::{ClassKey, List, Module, NoMemory, Text};
use som_tables::ClassNo;
use std::alloc::Global;
use std::collections::BTreeMap;

/// Classes by their names: the last class of each name, and for each class the one of its name that stands before it, so that all classes of a name are
/// found from the last one. One name has at most a class in each module.
#[derive(Drop)]
pub(crate) struct Names {
    last: BTreeMap<Text, ClassNo>,
    earlier: List<Option<ClassNo>>,
}

impl Names {
    /// Nothing is noted.
    fn new(alloc: Global) -> Names
        ensures { AreNoted [] result }
    {
        Names {
            last: BTreeMap::new(alloc),
            earlier: List::new(alloc),
        }
    }

    /// Notes the name of the class that comes next.
    fn note(&mut self, name: Text) -> Result<(), NoMemory>
        requires { length self.old.earlier < 4294967295 }
        ensures { OnOk result ((names : Seq (Seq ℕ)) → AreNoted names self.old → AreNoted (names ++ name ∷ []) self.new) }
    {
        let class = ClassNo::new(self.earlier.len() as u32);
        let before = match self.last.insert(name, class) {
            Ok(before) => before,
            Err(_) => return Err(NoMemory),
        };
        self.earlier.push(before)?;
        Ok(())
    }

    /// The last class of a name.
    fn last(&self, name: &Text) -> Option<ClassNo>
        ensures { result ≡ last_of self.now name.now }
    {
        self.last.get(name).copied()
    }

    /// The class before this one that has its name.
    fn before(&self, class: ClassNo) -> Option<ClassNo>
        requires { class < length self.now.earlier }
        ensures { result ≡ slice_index_or self.now.earlier class None }
    {
        self.earlier.as_slice()[class.number() as usize]
    }
}

/// The classes by the names of their faces.
pub(crate) fn names_of(alloc: Global, classes: &[Keyed]) -> Result<Names, NoMemory>
    requires { length classes.now < 4294967295 }
    ensures { IfOk result (λ names. AreNoted (face_names classes.now) names) }
{
    let mut names = Names::new(alloc);
    for class in classes {
        names.note(class.decl.face.name.copy(alloc)?)?;
    }
    Ok(names)
}

fn is_named(class: &Keyed, home: Module, name: &Text) -> bool
    ensures { result ≡ same_key class.now.key (keys.Named home name.now) }
{
    match &class.key {
        ClassKey::Named {
            module: own_home,
            name: own,
        } => *own_home == home && own.is(name.as_slice()),
        ClassKey::Derived { .. } => false,
        ClassKey::Proxy { .. } => false,
    }
}

/// The class of a name in a module: the classes of that name are asked, from the last one back.
pub(crate) fn find_named(
    names: &Names,
    classes: &[Keyed],
    home: Module,
    name: &Text,
) -> Option<ClassNo>
    requires { AreNoted (face_names classes.now) names.now }
    ensures some { IfSome result (λ n. (class : Class) × (slice_get classes.now n ≡ Some class) × (same_key class.key (keys.Named home name.now) ≡ true)) }
    ensures none { IfNone result ((n : ℕ) (class : Class) → slice_get classes.now n ≡ Some class → class.decl.face.name ≡ name.now → same_key class.key (keys.Named home name.now) ≡ true → ⊥) }
{
    let mut next = names.last(name);
    while let Some(class) = next {
        if is_named(class_at(classes, class), home, name) {
            return Some(class);
        }
        next = names.before(class);
    }
    None
}
