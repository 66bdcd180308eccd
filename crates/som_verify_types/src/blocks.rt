//! Types the blocks of declared classes and the main of a client, and makes what the type checker is to know.

ghost use Rattle.som_model.specs.Conforming.{class_typed as typed_class, first_of_names, main_typed as typed_main};
ghost use Rattle.som_model.specs.Kernel.{kernel};
ghost use Rattle.som_model.specs.Lists.{first};
ghost use Rattle.som_verify_classes.specs.Faces.{rules_breach};
ghost use Rattle.som_verify_classes.specs.Modules.{classes_of};
ghost use Rattle.som_verify_classes.specs.Places.{with_kernel};
ghost use Rattle.som_verify_classes.specs.Told.{Tells};
ghost use Rattle.som_verify_classes.specs.Walk.{AreLists};
ghost use Rattle.som_verify_classes.specs.declared.types.VerifyFault.TheVariants as faults;
ghost use Rattle.som_verify_types.specs.Bodies.{AllSigsKnown, AreParts};
ghost use Rattle.som_verify_forms.specs.Knowing.{IsKnowledge, all_of};
ghost use Rattle.std.specs.Prelude.{◌≡◌, ◌≤◌, ◌++◌, drop, length, flat_map, IfErr, IfOk, None};

use crate::typed_bodies::{bodies_typed, main_typed};
use indexmap::IndexSet;
use som_builtins::kernel_faces;
use som_model::{Block, Interface, List};
use som_verify_classes::{Declared, VerifyFault, class_names};
use som_verify_forms::{Knowledge, know};
use som_verify_parents::declared_ancestors;
use std::alloc::Global;

/// What typing is to know of classes: their names, the kernel's faces, and the ancestors of each by places.
#[derive(Drop)]
pub struct Parts<'a> {
    pub table: IndexSet<&'a [u8]>,
    pub kernel: Interface,
    pub lists: Vec<List<usize>>,
}

/// The parts of classes whose names and parents break no rule.
pub fn parts_of<'a>(alloc: Global, classes: &[Declared<'a>]) -> Result<Parts<'a>, VerifyFault>
    requires { first_of_names kernel (classes_of classes.now) ≡ None }
    ensures parts { IfOk result (AreParts (classes_of classes.now)) }
    ensures fault { IfErr result (λ e. e ≡ faults.NoMemory) }
{
    let lists = declared_ancestors(alloc, classes)?;
    parts_with(alloc, classes, lists)
}

// The parts of classes whose ancestors are known.
fn parts_with<'a>(
    alloc: Global,
    classes: &[Declared<'a>],
    lists: Vec<List<usize>>,
) -> Result<Parts<'a>, VerifyFault>
    requires names { first_of_names kernel (classes_of classes.now) ≡ None }
    requires lists { AreLists (with_kernel (classes_of classes.now)) lists.items }
    ensures parts { IfOk result (AreParts (classes_of classes.now)) }
    ensures fault { IfErr result (λ e. e ≡ faults.NoMemory) }
{
    let kernel = kernel_faces(alloc)?;
    let table = class_names(alloc, classes)?;
    Ok(Parts {
        table,
        kernel,
        lists,
    })
}

/// The blocks of the classes after the first `base` are well typed, where no rule is broken that looks into no block. The
/// lists are the ancestors of the kernel's classes and of these, by places.
pub fn blocks_typed(
    alloc: Global,
    classes: &[Declared],
    base: usize,
    lists: Vec<List<usize>>,
) -> Result<(), VerifyFault>
    requires base { base ≤ length classes.now }
    requires rules { rules_breach base (classes_of classes.now) ≡ None }
    requires lists { AreLists (with_kernel (classes_of classes.now)) lists.items }
    ensures { Tells (first (flat_map (typed_class (with_kernel (classes_of classes.now))) (classes_of (drop base classes.now)))) result }
{
    let parts = parts_with(alloc, classes, lists)?;
    classes_typed(alloc, &parts, classes, base)
}

fn classes_typed(
    alloc: Global,
    parts: &Parts,
    classes: &[Declared],
    base: usize,
) -> Result<(), VerifyFault>
    requires parts { AreParts (classes_of classes.now) parts.now }
    requires rules { rules_breach base (classes_of classes.now) ≡ None }
    ensures { Tells (first (flat_map (typed_class (with_kernel (classes_of classes.now))) (classes_of (drop base classes.now)))) result }
{
    let known = know(
        &parts.table,
        parts.kernel.classes.as_slice(),
        classes,
        parts.lists.as_slice(),
    );
    bodies_typed(alloc, &known, base)
}

/// The blocks of the classes after the first `base`, and then main, are well typed, where no rule is broken that looks into
/// no block. The lists are as in `blocks_typed`.
pub fn program_typed(
    alloc: Global,
    classes: &[Declared],
    base: usize,
    lists: Vec<List<usize>>,
    main: &Block,
) -> Result<(), VerifyFault>
    requires base { base ≤ length classes.now }
    requires rules { rules_breach base (classes_of classes.now) ≡ None }
    requires lists { AreLists (with_kernel (classes_of classes.now)) lists.items }
    ensures { Tells (first (flat_map (typed_class (with_kernel (classes_of classes.now))) (classes_of (drop base classes.now))
        ++ typed_main (with_kernel (classes_of classes.now)) main.now)) result }
{
    let parts = parts_with(alloc, classes, lists)?;
    classes_and_main_typed(alloc, &parts, classes, base, main)
}

fn classes_and_main_typed(
    alloc: Global,
    parts: &Parts,
    classes: &[Declared],
    base: usize,
    main: &Block,
) -> Result<(), VerifyFault>
    requires parts { AreParts (classes_of classes.now) parts.now }
    requires rules { rules_breach base (classes_of classes.now) ≡ None }
    ensures { Tells (first (flat_map (typed_class (with_kernel (classes_of classes.now))) (classes_of (drop base classes.now))
        ++ typed_main (with_kernel (classes_of classes.now)) main.now)) result }
{
    let known = know(
        &parts.table,
        parts.kernel.classes.as_slice(),
        classes,
        parts.lists.as_slice(),
    );
    all_typed(alloc, &known, base, main)
}

fn all_typed(alloc: Global, known: &Knowledge, base: usize, main: &Block) -> Result<(), VerifyFault>
    requires known { IsKnowledge known.now }
    requires signatures { AllSigsKnown (all_of known.now) (classes_of known.now.classes.now) }
    ensures { Tells (first (flat_map (typed_class (all_of known.now)) (classes_of (drop base known.now.classes.now))
        ++ typed_main (all_of known.now) main.now)) result }
{
    bodies_typed(alloc, known, base)?;
    main_typed(alloc, known, main)
}
