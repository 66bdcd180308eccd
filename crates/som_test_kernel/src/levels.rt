//! Classes that have nothing of their own, each of a module, as rows declare them; and their kernel.

ghost use Rattle.som_class_ids.specs.Classes.{class_of, classes_of};
ghost use Rattle.som_model.specs.Keys.{same_key};
ghost use Rattle.som_model.specs.Lists.{some};
ghost use Rattle.som_test_kernel.specs.Plain.{ArePlain, face_of, is_outside, plain};
ghost use Rattle.std.specs.Prelude.{◌≡◌, IfOk, OnOk, true};

use crate::kernels::query_kernel;
use crate::queries::Query;
use crate::query_fault::QueryFault;
use som_classmgr::{Kernel, Keyed};
use som_model::{
    Block, ClassDecl, ClassFace, ClassKey, List, MAX_LAID_CLASSES, MAX_TEXT, Module, NoMemory, Text,
};
use som_test_queries::{Unasked, first_word, number_of};
use std::alloc::Global;

// The module of a class: the client, the library, or a library above it.
fn home_of(word: &[u8]) -> Result<Module, Unasked>
    ensures { IfOk result (λ home. is_outside home ≡ true) }
{
    match word {
        b"client" => Ok(Module::Client),
        b"library" => Ok(Module::Library),
        _ => match word.strip_prefix(b"upper".as_slice()) {
            Some(level) => Ok(Module::Upper(u8::try_from(number_of(level)?)?)),
            None => Err(Unasked::Line),
        },
    }
}

// The face of a class that has nothing of its own, under SOMObject.
fn plain_face(alloc: Global, name: &[u8], major: u32, minor: u32) -> Result<ClassFace, NoMemory>
    ensures { IfOk result (λ face. face ≡ face_of name.now major minor) }
{
    let above = ClassKey::Named {
        module: Module::Kernel,
        name: Text::from_slice(alloc, b"SOMObject")?,
    };
    let mut parents = List::new(alloc);
    parents.push(above)?;
    Ok(ClassFace {
        name: Text::from_slice(alloc, name)?,
        major,
        minor,
        parents,
        metaclass: None,
        entries: List::new(alloc),
    })
}

// The class of a module that has nothing of its own.
fn plain_class(
    alloc: Global,
    home: Module,
    name: &[u8],
    major: u32,
    minor: u32,
) -> Result<Keyed, NoMemory>
    ensures { IfOk result (λ class. class_of class ≡ plain home name.now major minor) }
{
    let key = ClassKey::Named {
        module: home,
        name: Text::from_slice(alloc, name)?,
    };
    let decl = ClassDecl {
        face: plain_face(alloc, name, major, minor)?,
        variables: List::new(alloc),
        bodies: List::new(alloc),
        overrides: List::new(alloc),
        selects: List::new(alloc),
    };
    Ok(Keyed { key, decl })
}

// Whether one of the classes has this key.
fn is_there(classes: &[Keyed], key: &ClassKey) -> bool
    ensures { result ≡ some (λ c. same_key key.now c.key) classes.now }
{
    for class in classes {
        if key.is(&class.key) {
            return true;
        }
    }
    false
}

// Adds the class that a row declares: its module, its name, and the two numbers of its version.
fn declare(alloc: Global, row: &[u8], classes: &mut List<Keyed>) -> Result<(), Unasked>
    requires { ArePlain (classes_of classes.old) }
    ensures { OnOk result (ArePlain (classes_of classes.new)) }
{
    let (home, row) = first_word(row);
    let (name, row) = first_word(row);
    let (major, minor) = first_word(row);
    let home = home_of(home)?;
    if name.len() > MAX_TEXT as usize {
        return Err(Unasked::Line);
    }
    let class = plain_class(alloc, home, name, number_of(major)?, number_of(minor)?)?;
    if is_there(classes.as_slice(), &class.key) {
        return Err(Unasked::Line);
    }
    classes.push(class)?;
    Ok(())
}

// The classes that rows declare.
fn declared(alloc: Global, rows: &[u8]) -> Result<List<Keyed>, Unasked>
    ensures { IfOk result (λ classes. ArePlain (classes_of classes)) }
{
    let mut classes = List::new(alloc);
    for row in rows.split(|byte| *byte == b',') {
        declare(alloc, row, &mut classes)?;
    }
    Ok(classes)
}

// Lays classes with an empty main, and does what is asked of their kernel.
fn query_classes(
    rt: &HostRuntime,
    classes: &List<Keyed>,
    query: &Query<'_>,
) -> Result<(), QueryFault>
    requires { ArePlain (classes_of classes.now) }
{
    if classes.len() > MAX_LAID_CLASSES as usize {
        return Err(QueryFault::Word);
    }
    let alloc = rt.alloc();
    let main = Block {
        statements: List::new(alloc),
    };
    let kernel = Kernel::new()?.lay(alloc, classes, &main)?;
    query_kernel(rt, kernel, query)
}

/// Lays the classes that rows declare, with commas between, and does what is asked of their kernel.
pub fn query_rows(rt: &HostRuntime, rows: &[u8], query: &Query<'_>) -> Result<(), QueryFault> {
    let classes = declared(rt.alloc(), rows)?;
    query_classes(rt, &classes, query)
}
