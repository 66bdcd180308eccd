//! Checks a client program: its base by the faces, its own classes, and main last.

ghost use Rattle.som_model.specs.Class.{bare};
ghost use Rattle.som_model.specs.Conforming.{ProgramOk, declared_program_breach, program_breach};
ghost use Rattle.som_verify_classes.specs.Modules.{classes_of};
ghost use Rattle.som_verify_classes.specs.Plainly.{program_classes};
ghost use Rattle.som_verify_classes.specs.Told.{Tells};
ghost use Rattle.som_verify_classes.specs.declared.types.Broken.{Broken};
ghost use Rattle.som_verify_classes.specs.declared.types.VerifyFault.TheVariants as faults;
ghost use Rattle.std.specs.Prelude.{◌≡◌, map, Err, IfOk};

use som_model::{ClassDecl, ClientProgram, Module, NoMemory};
use som_verify_classes::{Declared, VerifyFault};
use som_verify_parents::{bare_classes, declare};
use som_verify_rules::{ancestors_where_rules_hold, rules_hold};
use som_verify_types::program_typed;
use std::alloc::Global;

/// Whether a client program breaks no rule that looks at no block, and else the first, with its class and member.
/// The faces that it was compiled against come first.
pub fn program_rules(alloc: Global, program: &ClientProgram) -> Result<(), VerifyFault>
    ensures { Tells (declared_program_breach program.now) result }
{
    let base = bare_classes(alloc, program.base.classes.as_slice())?;
    let declared = declare_program(alloc, base.as_slice(), program)?;
    let declared = declared.as_slice();
    let number = program.base.classes.as_slice().len();
    rules_hold(alloc, declared, number)
}

/// Whether a client program conforms, and else the first rule that it breaks, with its class and member. The faces
/// that it was compiled against come first, and main comes last.
pub fn program_ok(alloc: Global, program: &ClientProgram) -> Result<(), VerifyFault>
    ensures tells { Tells (program_breach program.now) result }
    ensures conforms { IfOk result (λ _. ProgramOk program.now) }
    ensures refuses { (b : Broken) → result ≡ Err (faults.Rule b) → ProgramOk program.now → ⊥ }
{
    all_rules_hold(alloc, program)
}

fn all_rules_hold(alloc: Global, program: &ClientProgram) -> Result<(), VerifyFault>
    ensures { Tells (program_breach program.now) result }
{
    let base = bare_classes(alloc, program.base.classes.as_slice())?;
    let declared = declare_program(alloc, base.as_slice(), program)?;
    let declared = declared.as_slice();
    let number = program.base.classes.as_slice().len();
    let ancestors = ancestors_where_rules_hold(alloc, declared, number)?;
    program_typed(alloc, declared, number, ancestors, &program.main)
}

/// The classes that a client program knows, of which those of its base are given as bare ones.
pub fn declare_program<'a>(
    alloc: Global,
    base: &'a [ClassDecl],
    program: &'a ClientProgram,
) -> Result<Vec<Declared<'a>>, NoMemory>
    requires { base.now ≡ map bare program.now.base.classes }
    ensures { IfOk result (λ declared. classes_of declared.items ≡ program_classes program.now) }
{
    let known = declare(Vec::new(alloc), Module::Library, base)?;
    declare(known, Module::Client, program.classes.as_slice())
}
