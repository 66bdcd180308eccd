//! Faces, keys and ranks of ancestors by the place of a class in the class table.

ghost use Rattle.som_sema_names.specs.Introducers.{AreIntroducers};
ghost use Rattle.som_sema_names.specs.Ranking.{IsRanking};
ghost use Rattle.som_model.specs.Kernel.{kernel_interface};
ghost use Rattle.som_verify_classes.specs.Modules.{classes_of};
ghost use Rattle.som_verify_classes.specs.Places.{face_at, key_at as key_at_place, module_at, with_kernel};
ghost use Rattle.som_verify_classes.specs.Walk.{AreLists};
ghost use Rattle.std.specs.Prelude.{◌≡◌, ◌<◌, [], length, slice_index_or, IfOk};

use som_model::{ClassFace, ClassKey, List, Module, NoMemory};
use som_sema_names::{Introducers, Ranking, ranking_of};
use som_verify_classes::{Declared, KERNEL_CLASSES};
use std::alloc::Global;

/// The face of the class at a place.
pub fn face_of<'a>(kernel: &'a [ClassFace], classes: &[Declared<'a>], place: usize) -> &'a ClassFace
    requires kernel { kernel.now ≡ kernel_interface.classes }
    requires place { place < length (with_kernel (classes_of classes.now)) }
    ensures { result.now ≡ face_at (with_kernel (classes_of classes.now)) place }
{
    if place < KERNEL_CLASSES {
        &kernel[place]
    } else {
        let decl = classes[place - KERNEL_CLASSES].decl;
        &decl.face
    }
}

fn module_of(classes: &[Declared], place: usize) -> Module
    requires { place < length (with_kernel (classes_of classes.now)) }
    ensures { result ≡ module_at (with_kernel (classes_of classes.now)) place }
{
    if place < KERNEL_CLASSES {
        Module::Kernel
    } else {
        classes[place - KERNEL_CLASSES].module
    }
}

/// The key of the class at a place.
pub fn key_at(
    alloc: Global,
    kernel: &[ClassFace],
    classes: &[Declared],
    place: usize,
) -> Result<ClassKey, NoMemory>
    requires kernel { kernel.now ≡ kernel_interface.classes }
    requires place { place < length (with_kernel (classes_of classes.now)) }
    ensures { IfOk result (λ key. key ≡ key_at_place (with_kernel (classes_of classes.now)) place) }
{
    let class_module = module_of(classes, place);
    let face = face_of(kernel, classes, place);
    let name = face.name.copy(alloc)?;
    Ok(ClassKey::Named {
        module: class_module,
        name,
    })
}

/// The classes that introduce each name, with the ranks of the ancestors of the class at a place.
pub fn ranking_above<'r, 'a>(
    alloc: Global,
    introducers: &'r Introducers<'a>,
    classes: &[Declared],
    lists: &'r [List<usize>],
    place: usize,
) -> Result<Ranking<'r, 'a>, NoMemory>
    requires introducers { AreIntroducers (with_kernel (classes_of classes.now)) introducers.now }
    requires lists { AreLists (with_kernel (classes_of classes.now)) lists.now }
    requires place { place < length (with_kernel (classes_of classes.now)) }
    ensures { IfOk result (IsRanking (with_kernel (classes_of classes.now)) (slice_index_or lists.now place [])) }
{
    let list = list_at(lists, place);
    ranking_of(alloc, introducers, list, classes.len() + KERNEL_CLASSES)
}

// The ancestors of the class at a place.
fn list_at(lists: &[List<usize>], place: usize) -> &[usize]
    requires { place < length lists.now }
    ensures { result.now ≡ slice_index_or lists.now place [] }
{
    lists[place].as_slice()
}
