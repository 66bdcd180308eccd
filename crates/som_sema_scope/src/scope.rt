//! The scope of class names: which module, key and type a name of a text stands for.

ghost use Rattle.som_model.specs.Kernel.{kernel_interface};
ghost use Rattle.som_order.specs.Names.{texts};
ghost use Rattle.som_sema_scope.specs.ClassNames as names_of_classes;
ghost use Rattle.som_sema_scope.specs.ClassNames.{kernel_names, module_in_scope};
ghost use Rattle.som_sema_scope.specs.Words as words;
ghost use Rattle.som_sema_scope.specs.Words.{lent, once};
ghost use Rattle.std.specs.Prelude.{◌≡◌, map, IfOk};

use crate::tables::{face_names, interface_names};
use indexmap::IndexSet;
use som_ast::{IdlInterface, TypeName};
use som_model::{ClassFace, ClassKey, List, Module, NoMemory, Text, ValueType};
use som_order::find_name;
use std::alloc::Global;

/// The names of the classes that texts may speak of: the module's own, the base's and the kernel's. Locals are no part of it.
#[derive(Drop)]
pub struct Scope<'a, 'b, 'k> {
    pub module: Module,
    pub own: IndexSet<&'a [u8]>,
    pub base: IndexSet<&'b [u8]>,
    pub kernel: IndexSet<&'k [u8]>,
}

/// What names may stand for in texts of a module that is compiled against a base.
pub fn scope_of<'a, 'b, 'k>(
    alloc: Global,
    own_module: Module,
    base: &'b [ClassFace],
    kernel: &'k [ClassFace],
    interfaces: &[&'a IdlInterface],
) -> Result<Scope<'a, 'b, 'k>, NoMemory>
    requires { kernel.now ≡ kernel_interface.classes }
    ensures own { IfOk result (λ scope. scope.module ≡ own_module) }
    ensures names { IfOk result (λ scope. module_in_scope scope ≡ names_of_classes.module_by_names own_module (once (words.interface_names (lent interfaces.now)))
        (once (names_of_classes.face_names base.now)) kernel_names) }
{
    Ok(Scope {
        module: own_module,
        own: interface_names(alloc, interfaces)?,
        base: face_names(alloc, base)?,
        kernel: face_names(alloc, kernel)?,
    })
}

/// The module of the class that a name stands for.
pub fn module_of(scope: &Scope, name: &[u8]) -> Module
    ensures { result ≡ module_in_scope scope.now name.now }
{
    if find_name(&scope.own, name).is_some() {
        scope.module
    } else if find_name(&scope.base, name).is_some() {
        Module::Library
    } else if find_name(&scope.kernel, name).is_some() {
        Module::Kernel
    } else {
        scope.module
    }
}

/// The key of the class that a name stands for.
pub fn key_of(alloc: Global, scope: &Scope, name: &[u8]) -> Result<ClassKey, NoMemory>
    ensures { IfOk result (λ key. key ≡ names_of_classes.key_of (module_in_scope scope.now) name.now) }
{
    Ok(ClassKey::Named {
        module: module_of(scope, name),
        name: Text::from_slice(alloc, name)?,
    })
}

/// The keys of the classes that names stand for.
pub fn keys_of(alloc: Global, scope: &Scope, names: &[&[u8]]) -> Result<List<ClassKey>, NoMemory>
    ensures { IfOk result (λ keys. keys ≡ map (names_of_classes.key_of (module_in_scope scope.now)) (texts names.now)) }
{
    let mut keys = List::new(alloc);
    for name in names {
        keys.push(key_of(alloc, scope, *name)?)?;
    }
    Ok(keys)
}

/// The value type of a written type; a name becomes the key of its class, whether or not there is such a class.
pub fn type_of(alloc: Global, scope: &Scope, kind: &TypeName) -> Result<ValueType, NoMemory>
    ensures { IfOk result (λ t. t ≡ names_of_classes.type_of (module_in_scope scope.now) kind.now) }
{
    match kind {
        TypeName::Long => Ok(ValueType::Long),
        TypeName::Boolean => Ok(ValueType::Boolean),
        TypeName::Str => Ok(ValueType::Str),
        TypeName::Class(word) => Ok(ValueType::Class(key_of(alloc, scope, word.text.as_slice())?)),
    }
}

/// The type of a result, which is void where none is written.
pub fn result_of(
    alloc: Global,
    scope: &Scope,
    kind: &Option<TypeName>,
) -> Result<ValueType, NoMemory>
    ensures { IfOk result (λ t. t ≡ names_of_classes.result_of (module_in_scope scope.now) kind.now) }
{
    match kind {
        None => Ok(ValueType::Void),
        Some(kind) => type_of(alloc, scope, kind),
    }
}
