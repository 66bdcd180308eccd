//! The method that code names at an instruction which calls all parents.

ghost use Rattle.som_code.specs.declared.instruction.Instruction.TheVariants as ops;
ghost use Rattle.som_code_cache.specs.Coded.{AreCodes, codes_of};
ghost use Rattle.som_model.specs.Kernel.{som_init};
ghost use Rattle.som_interp_state.specs.Settings.{instruction_at, method_named as method_in};
ghost use Rattle.std.specs.Prelude.{◌≡◌, ℕ, IfNone, IfSome, Some, true};

use som_code::Instruction;
use som_code_cache::Codes;
use som_interp_dispatch::init_token;
use som_interp_state::Runtime;
use som_model::MethodRef;
use som_tables::MToken;

/// The token of the method that a call of all parents at this place of a code names; that of somInit where none stands
/// there.
pub(crate) fn method_named<R: Runtime>(runtime: &R, codes: &Codes, code: usize, at: usize) -> MToken
    requires { AreCodes (R.known runtime.now) (R.program runtime.now) codes.now }
    ensures token { (R.linked runtime.now).is_token result ≡ true }
    ensures method { (R.linked runtime.now).world.owner (method_in (instruction_at (codes_of codes.now) code at)) ≡ (R.linked runtime.now).method result }
{
    runtime.know();
    let Some(instruction) = codes.instruction(code, at) else {
        return init_token(runtime);
    };
    match named_by(instruction) {
        Some(method) => runtime.method_token(method),
        None => init_token(runtime),
    }
}

// The method that a call of all parents names.
fn named_by(instruction: &Instruction) -> Option<&MethodRef>
    ensures some { IfSome result (λ method. (n : ℕ) × (instruction.now ≡ ops.ParentsCall method.now n)) }
    ensures none { IfNone result (method_in (Some instruction.now) ≡ som_init) }
{
    match instruction {
        Instruction::ParentsCall { method, .. } => Some(method),
        _ => None,
    }
}
