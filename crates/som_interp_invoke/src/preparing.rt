//! What a body that the kernel shows begins with; its block is laid out at first use.

ghost use Rattle.som_interp_invoke.specs.Begun.{IsHeld, IsPrepared, IsWhat, held_of};
ghost use Rattle.som_code_cache.specs.Coded.{AreCodes, Coded, key_of as body_of};
ghost use Rattle.std.specs.Prelude.{◌≡◌, ◌<◌, ◌^◌, ◌++◌, IfOk, List, OnErr};

use crate::{Begun, What};
use som_code_cache::Codes;
use som_interp_builtins::kernel_body;
use som_interp_state::{BodyView, Held, Runtime};
use som_model::NoMemory;
use som_tables::{ClassNo, MToken};
use std::alloc::Global;

/// What is begun of a body that the kernel shows, for so many arguments: its block is laid out, if it has one that has
/// no code yet.
pub fn prepare<R: Runtime>(
    alloc: Global,
    runtime: &R,
    codes: &mut Codes,
    body: BodyView<'_>,
    args: usize,
) -> Result<Begun, NoMemory>
    requires args { args < 2 ^ 63 }
    requires held { IsHeld (R.linked runtime.now) body }
    ensures prepared { AreCodes (R.known runtime.now) (R.program runtime.now) codes.old → IfOk result (IsPrepared (R.linked runtime.now) codes.new body.entry args) }
    ensures kept { AreCodes (R.known runtime.now) (R.program runtime.now) codes.old → AreCodes (R.known runtime.now) (R.program runtime.now) codes.new }
    ensures more { (added : List Coded) × (codes.new ≡ codes.old ++ added) }
    ensures err { OnErr result (codes.new ≡ codes.old) }
{
    let BodyView {
        class,
        method,
        held,
    } = body;
    let what = what_of(alloc, runtime, codes, class, method, held, args)?;
    Ok(Begun {
        class,
        method,
        what,
    })
}

// What is begun of a body that a class has of its own for a method.
fn what_of<R: Runtime>(
    alloc: Global,
    runtime: &R,
    codes: &mut Codes,
    class: ClassNo,
    method: MToken,
    held: Held<'_>,
    args: usize,
) -> Result<What, NoMemory>
    requires args { args < 2 ^ 63 }
    requires held { IsHeld (R.linked runtime.now) (record { class = class; method = method; held = held }) }
    ensures what { AreCodes (R.known runtime.now) (R.program runtime.now) codes.old
        → IfOk result (λ what. IsWhat codes.new (body_of class method args) what (held_of (R.linked runtime.now) (record { class = class; method = method; held = held.entry }))) }
    ensures kept { AreCodes (R.known runtime.now) (R.program runtime.now) codes.old → AreCodes (R.known runtime.now) (R.program runtime.now) codes.new }
    ensures more { (added : List Coded) × (codes.new ≡ codes.old ++ added) }
    ensures err { OnErr result (codes.new ≡ codes.old) }
{
    runtime.know();
    match held {
        Held::User(block) => Ok(What::Code(codes.code_for(alloc, class, method, args, block)?)),
        Held::Get(variable) => Ok(What::Get(variable)),
        Held::Set(variable) => Ok(What::Set(variable)),
        Held::Kernel => Ok(What::Kernel(kernel_body(runtime.method_name(method)))),
        Held::Forward => Ok(What::Forward),
        Held::Nothing => Ok(What::Nothing),
    }
}
