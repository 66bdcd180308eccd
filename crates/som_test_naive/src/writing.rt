//! Names, keys and classes written in short.

ghost use Rattle.som_model.specs.Kernel.{som_object};
ghost use Rattle.std.specs.Prelude.{◌≡◌, ◌∷◌, [], IfOk, map};

use som_model::{Body, ClassDecl, ClassFace, ClassKey, List, Module, NoMemory, Text};
use std::alloc::Global;

/// The names as texts.
pub fn texts(alloc: Global, names: &[&[u8]]) -> Result<List<Text>, NoMemory>
    ensures { IfOk result (λ texts. texts ≡ map (λ name. name.now) names.now) }
{
    let mut texts = List::new(alloc);
    for name in names {
        texts.push(Text::from_slice(alloc, *name)?)?;
    }
    Ok(texts)
}

/// The class of a name in a module.
pub fn named(alloc: Global, module: Module, name: &[u8]) -> Result<ClassKey, NoMemory>
    ensures { IfOk result (λ key. key ≡ ClassKey.Named «module» name.now) }
{
    let name = Text::from_slice(alloc, name)?;
    Ok(ClassKey::Named { module, name })
}

/// SOMObject as the only parent.
pub fn under_object(alloc: Global) -> Result<List<ClassKey>, NoMemory>
    ensures { IfOk result (λ parents. parents ≡ som_object ∷ []) }
{
    let mut parents = List::new(alloc);
    parents.push(named(alloc, Module::Kernel, b"SOMObject")?)?;
    Ok(parents)
}

/// A class of this face and these bodies, with neither variables, overrides nor selects.
pub fn plain_class(alloc: Global, face: ClassFace, bodies: List<Body>) -> ClassDecl
    ensures face { result.face ≡ face }
    ensures bodies { result.bodies ≡ bodies }
    ensures variables { result.variables ≡ [] }
    ensures overrides { result.overrides ≡ [] }
    ensures selects { result.selects ≡ [] }
{
    ClassDecl {
        face,
        variables: List::new(alloc),
        bodies,
        overrides: List::new(alloc),
        selects: List::new(alloc),
    }
}
