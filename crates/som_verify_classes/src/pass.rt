//! Makes the fault of a pass of the checker, which names a rule, a class and a member.

ghost use Rattle.som_verify_classes.specs.Told.{Refuses};
ghost use Rattle.som_verify_classes.specs.declared.types.VerifyFault.TheVariants as faults;
ghost use Rattle.std.specs.Prelude.{◌≡◌, IfOk};

use crate::types::{Broken, VerifyFault};
use som_model::{ClassDecl, NoMemory, Text};
use std::alloc::Global;

/// The breach of a rule by a member of a class, as an error.
pub fn breach(
    alloc: Global,
    rule: u8,
    class: &ClassDecl,
    member: &[u8],
) -> Result<VerifyFault, NoMemory>
    ensures { IfOk result (λ e. e ≡ faults.Rule
        (record { rule = rule; class = class.now.face.name; member = member.now })) }
{
    Ok(VerifyFault::Rule(Broken {
        rule,
        class: class.face.name.copy(alloc)?,
        member: Text::from_slice(alloc, member)?,
    }))
}

/// Why a pass fails that finds a breach of a rule by a member of a class: that breach, or want of memory to tell it.
pub fn refusal(alloc: Global, rule: u8, class: &ClassDecl, member: &[u8]) -> VerifyFault
    ensures { Refuses (record { rule = rule; class = class.now.face.name; member = member.now }) result }
{
    match breach(alloc, rule, class, member) {
        Ok(fault) => fault,
        Err(NoMemory) => VerifyFault::NoMemory,
    }
}
