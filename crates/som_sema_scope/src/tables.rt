//! Symbol tables of class names, each name at its first place.

ghost use Rattle.som_order.specs.Names.{texts};
ghost use Rattle.som_sema_scope.specs.ClassNames as names_of_classes;
ghost use Rattle.som_sema_scope.specs.Words as words;
ghost use Rattle.som_sema_scope.specs.Words.{lent, once};
ghost use Rattle.std.specs.Prelude.{◌≡◌, ◌++◌, ◌∷◌, [], IfOk, OnErr, OnOk};

use indexmap::IndexSet;
use som_ast::IdlInterface;
use som_model::{ClassFace, NoMemory};
use som_order::note_name;
use std::alloc::Global;

/// Adds a name at the end; where memory runs out the list is as it was.
pub fn add<'a>(names: &mut Vec<&'a [u8]>, name: &'a [u8]) -> Result<(), NoMemory>
    ensures ok { OnOk result (texts names.new.items ≡ texts names.old.items ++ name.now ∷ []) }
    ensures err { OnErr result (names.new.items ≡ names.old.items) }
{
    names.push(name)?;
    Ok(())
}

/// A table of names, each at its first place.
pub fn table_of<'a>(alloc: Global, names: &[&'a [u8]]) -> Result<IndexSet<&'a [u8]>, NoMemory>
    ensures { IfOk result (λ known. texts known.keys ≡ once (texts names.now)) }
{
    let mut known = IndexSet::new(alloc);
    for name in names {
        let _is_new = note_name(&mut known, *name)?;
    }
    Ok(known)
}

/// A table of the names of faces.
pub fn face_names(alloc: Global, faces: &[ClassFace]) -> Result<IndexSet<&[u8]>, NoMemory>
    ensures { IfOk result (λ known. texts known.keys ≡ once (names_of_classes.face_names faces.now)) }
{
    let mut names = Vec::new(alloc);
    for face in faces {
        add(&mut names, face.name.as_slice())?;
    }
    table_of(alloc, &names)
}

/// A table of the names of interfaces.
pub fn interface_names<'a>(
    alloc: Global,
    interfaces: &[&'a IdlInterface],
) -> Result<IndexSet<&'a [u8]>, NoMemory>
    ensures { IfOk result (λ known. texts known.keys ≡ once (words.interface_names (lent interfaces.now))) }
{
    let mut names = Vec::new(alloc);
    for interface in interfaces {
        let interface: &'a IdlInterface = *interface;
        add(&mut names, interface.name.text.as_slice())?;
    }
    table_of(alloc, &names)
}
