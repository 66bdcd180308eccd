//! A program's own classes and its main by levels.

ghost use Rattle.som_class_ids.specs.Classes.{class_of, classes_of};
ghost use Rattle.som_level_programs.specs.ByLevels.{level_change, main_by_level as main_of, own_by_level, own_module};
ghost use Rattle.som_model.specs.Class.{class_in};
ghost use Rattle.som_rekey_laws.specs.Rekeying.{rekey_decl};
ghost use Rattle.std.specs.Prelude.{◌≡◌, ◌++◌, IfOk, OnOk, length};

use crate::LevelModules;
use som_class_ids::Keyed;
use som_model::{Block, ClassDecl, ClassKey, ClientProgram, List, NoMemory};
use som_rekey::{rekey_block, rekey_class};
use std::alloc::Global;

// A class of the program's own by levels, with its key.
fn keyed(alloc: Global, modules: &LevelModules, class: &ClassDecl) -> Result<Keyed, NoMemory>
    ensures { IfOk result (λ k. class_of k ≡ class_in (own_module (length modules.now.sizes) modules.now.client) (rekey_decl (level_change modules.now.sizes modules.now.client modules.now.base) class.now)) }
{
    let name = class.face.name.copy(alloc)?;
    let decl = rekey_class(alloc, modules, class)?;
    Ok(Keyed {
        key: ClassKey::Named {
            module: modules.own(),
            name,
        },
        decl,
    })
}

/// Adds the program's own classes by levels, with their keys.
pub fn note_own(
    alloc: Global,
    modules: &LevelModules,
    program: &ClientProgram,
    all: &mut List<Keyed>,
) -> Result<(), NoMemory>
    requires { modules.now.base ≡ program.now.base }
    ensures { OnOk result (classes_of all.new ≡ classes_of all.old ++ own_by_level modules.now.sizes modules.now.client program.now) }
{
    for class in program.classes.as_slice() {
        all.push(keyed(alloc, modules, class)?)?;
    }
    Ok(())
}

/// The program's main by levels.
pub fn main_by_level(
    alloc: Global,
    modules: &LevelModules,
    program: &ClientProgram,
) -> Result<Block, NoMemory>
    requires { modules.now.base ≡ program.now.base }
    ensures { IfOk result (λ main. main ≡ main_of modules.now.sizes modules.now.client program.now) }
{
    rekey_block(alloc, modules, &program.main)
}
