//! The classes of all levels in one list: the kernel's first, then those of each level, the lowest first.

ghost use Rattle.som_compat_levels.specs.Standing.{classes_of};
ghost use Rattle.som_level_laws.specs.Levels.{all_levels, level_classes, level_module as module_of_level};
ghost use Rattle.som_model.specs.Class.{bare, class_in};
ghost use Rattle.som_model.specs.Kernel.{kernel_interface};
ghost use Rattle.std.specs.Prelude.{◌≡◌, ◌++◌, ◌<◌, ◌≤◌, length, map, IfOk, OnOk};

use som_model::{ClassFace, Interface, Module, NoMemory};
use std::alloc::Global;

/// A class by its face, and the module that it stands in.
#[derive(Drop)]
pub struct PlacedClass<'a> {
    pub module: Module,
    pub face: &'a ClassFace,
}

/// The kernel's classes and those of all levels.
pub fn all_classes<'a>(
    alloc: Global,
    kernel: &'a [ClassFace],
    levels: &'a [Interface],
) -> Result<Vec<PlacedClass<'a>>, NoMemory>
    requires kernel { kernel.now ≡ kernel_interface.classes }
    requires few { length levels.now ≤ 8 }
    ensures { IfOk result (λ all. classes_of all.items ≡ all_levels levels.now) }
{
    let mut all = Vec::new(alloc);
    add_faces(&mut all, Module::Kernel, kernel)?;
    add_levels(&mut all, levels)?;
    Ok(all)
}

fn add_levels<'a>(all: &mut Vec<PlacedClass<'a>>, levels: &'a [Interface]) -> Result<(), NoMemory>
    requires { length levels.now ≤ 8 }
    ensures { OnOk result (classes_of all.new.items ≡ classes_of all.old.items ++ level_classes levels.now) }
{
    for level in 0..levels.len() {
        add_faces(all, level_module(level), levels[level].classes.as_slice())?;
    }
    Ok(())
}

// The module of the classes of a level.
fn level_module(level: usize) -> Module
    requires { level < 8 }
    ensures { result ≡ module_of_level level }
{
    if level == 0 {
        Module::Library
    } else {
        Module::Upper(level as u8)
    }
}

fn add_faces<'a>(
    all: &mut Vec<PlacedClass<'a>>,
    home: Module,
    faces: &'a [ClassFace],
) -> Result<(), NoMemory>
    ensures { OnOk result (classes_of all.new.items ≡ classes_of all.old.items ++ map (λ f. class_in home (bare f)) faces.now) }
{
    for face in faces {
        all.push(PlacedClass { module: home, face })?;
    }
    Ok(())
}
