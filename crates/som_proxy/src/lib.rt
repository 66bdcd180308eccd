//! The methods that a proxy forwards to its target.
#![tactic(auto)]

ghost use Rattle.som_meta.specs.Numbering.{AreNumbered, AreTokens, IsNumbered, key_at, method_at};
ghost use Rattle.som_model.specs.Implementation.{forwards as forwards_at};
ghost use Rattle.som_proxy.specs.Forwards.{forwards_of};
ghost use Rattle.std.specs.Prelude.{◌≡◌, IfOk, flat_map, map};

use som_meta::Ancestry;
use som_model::{List, NoMemory};
use som_tables::{ClassNo, MToken};
use std::alloc::Global;

/// The methods that the classes outside the kernel among these introduce.
fn forwards_among<H: Ancestry>(
    alloc: Global,
    known: &H,
    classes: &[ClassNo],
) -> Result<List<MToken>, NoMemory>
    requires { AreNumbered (H.known known.now) classes.now }
    ensures tokens { IfOk result (λ tokens. AreTokens (H.known known.now) tokens) }
    ensures methods { IfOk result (λ tokens. map (method_at (H.known known.now)) tokens
        ≡ flat_map (forwards_of (H.known known.now).classes) (map (key_at (H.known known.now)) classes.now)) }
{
    let mut tokens = List::new(alloc);
    for class in classes {
        if !known.is_kernel(*class) {
            tokens.extend_from_slice(known.introduced(*class).as_slice())?;
        }
    }
    Ok(tokens)
}

/// The tokens of the methods that a proxy of a class forwards, in the order of the class's ancestors and then of their entries.
pub fn forwards<H: Ancestry>(
    alloc: Global,
    known: &H,
    of: ClassNo,
) -> Result<List<MToken>, NoMemory>
    requires { IsNumbered (H.known known.now) of }
    ensures tokens { IfOk result (λ tokens. AreTokens (H.known known.now) tokens) }
    ensures methods { IfOk result (λ tokens. map (method_at (H.known known.now)) tokens
        ≡ forwards_at (H.known known.now).classes (key_at (H.known known.now) of)) }
{
    forwards_among(alloc, known, known.ancestors(of).as_slice())
}
