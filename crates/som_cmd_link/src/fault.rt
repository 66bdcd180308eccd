//! Makes the lines that refuse to link a client with a library.

ghost use Rattle.som_link_check.specs.declared.fault.LinkFault.TheVariants as faults;
ghost use Rattle.som_cmd_link.specs.Faults.{Refuses, fault_told};
ghost use Rattle.std.specs.Prelude.{IfOk, Some, ◌≡◌};

use som_cmd_steps::{CommandStop, Refusal, refuse_broken, refuse_incompatible};
use som_link_check::LinkFault;
use som_model::{NoMemory, Text};
use som_verify_classes::Broken;
use std::alloc::Global;

// The refusal that tells a rule which the client breaks, or else the library.
fn refuse_rule(
    alloc: Global,
    client: &Text,
    library: &Text,
    by_client: bool,
    rule: &Broken,
) -> Result<Refusal, NoMemory>
    ensures { IfOk result (λ r. fault_told client.now library.now (faults.NotConforming by_client rule.now) ≡ Some r) }
{
    if by_client {
        refuse_broken(alloc, client, rule)
    } else {
        refuse_broken(alloc, library, rule)
    }
}

// The refusal that tells what is in the way of linking.
fn refuse_fault(
    alloc: Global,
    client: &Text,
    library: &Text,
    fault: &LinkFault,
) -> Result<Refusal, NoMemory>
    ensures { IfOk result (λ r. fault_told client.now library.now fault.now ≡ Some r) }
{
    match fault {
        LinkFault::NotConforming {
            client: by_client,
            broken,
        } => refuse_rule(alloc, client, library, *by_client, broken),
        LinkFault::Incompatible {
            rule,
            class,
            name,
            place,
        } => refuse_incompatible(alloc, library, *rule, class, name.as_slice(), *place),
        LinkFault::NoMemory => Err(NoMemory),
    }
}

/// What stops a run whose images aren't linked.
pub fn stop_of(alloc: Global, client: &Text, library: &Text, fault: &LinkFault) -> CommandStop
    ensures { Refuses (fault_told client.now library.now fault.now) result }
{
    match refuse_fault(alloc, client, library, fault) {
        Ok(refusal) => CommandStop::Refused(refusal),
        Err(_) => CommandStop::NoMemory,
    }
}
