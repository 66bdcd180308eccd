//! The methods that declared classes introduce, with their places among the entries.

ghost use Rattle.som_class_kernel.specs.Entries.{AreMethods, entries_from};
ghost use Rattle.std.specs.Prelude.{◌≡◌, ◌<◌, ◌++◌, ◌∷◌, [], IfOk, OnOk, length};

use som_class_table::Classes;
use som_model::{ClassKey, Entry, List, MethodRef, NoMemory};
use som_tables::ClassNo;
use std::alloc::Global;

/// A method that a class introduces: its reference, and its place among the entries of the class.
#[derive(Drop)]
pub(crate) struct MethodEntry {
    pub(crate) place: u16,
    pub(crate) method: MethodRef,
}

/// Adds the method of an entry at a place, where the entry introduces one.
fn add_method(
    alloc: Global,
    class: &ClassKey,
    place: u16,
    entry: &Entry,
    methods: &mut List<MethodEntry>,
) -> Result<(), NoMemory>
    ensures { OnOk result (methods.new ≡ methods.old ++ entries_from class.now place (entry.now ∷ [])) }
{
    match entry {
        Entry::Introduced { name, .. } => {
            let name = name.copy(alloc)?;
            let class = class.copy(alloc)?;
            methods.push(MethodEntry {
                place,
                method: MethodRef { class, name },
            })
        }
        Entry::Moved { .. } => Ok(()),
    }
}

/// The methods that a class introduces by these entries, in order.
#[tactic(auto, using(crate::proofs::Entering::entries_step))]
fn introduced_methods(
    alloc: Global,
    class: &ClassKey,
    entries: &[Entry],
) -> Result<List<MethodEntry>, NoMemory>
    requires { length entries.now < 65536 }
    ensures { IfOk result (λ methods. methods ≡ entries_from class.now 0 entries.now) }
{
    let mut methods = List::new(alloc);
    for (place, entry) in entries.iter().enumerate() {
        add_method(alloc, class, place as u16, entry, &mut methods)?;
    }
    Ok(methods)
}

/// Of each declared class the methods that it introduces.
pub(crate) fn methods_of(
    alloc: Global,
    classes: &Classes,
) -> Result<List<List<MethodEntry>>, NoMemory>
    ensures { IfOk result (λ all. AreMethods classes.now all) }
{
    let _count = classes.count();
    let mut all = List::new(alloc);
    for number in 0..classes.declared_count() {
        let class = classes.declared(ClassNo::new(number));
        all.push(introduced_methods(alloc, &class.key, class.decl.face.entries.as_slice())?)?;
    }
    Ok(all)
}
