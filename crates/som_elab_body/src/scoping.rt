//! Whether a local may be declared: its name, its type and the number of locals.

ghost use Rattle.som_elab_body.specs.Stated.{Opens, names_in};
ghost use Rattle.som_elab_body.specs.Statements.{declared};
ghost use Rattle.som_model.specs.Class.{Class};
ghost use Rattle.som_model.specs.declared.limits.TheConstants.{MAX_LOCALS};
ghost use Rattle.som_model.specs.declared.syntax.Expr.{Expr};
ghost use Rattle.som_elab_body.specs.Code.{AreLocals, IsBodyContext, among_at, classes_at, names_at};
ghost use Rattle.som_elab_body.specs.Locals.{in_scope};
ghost use Rattle.som_verify_forms.specs.Kinds.{Stands, kind_at};
ghost use Rattle.std.specs.Prelude.{◌≡◌, ◌≤◌, List as Seq, length, nat_lt};

use crate::fault::BodyFault;
use crate::{BodyContext, Local, local_of};
use som_model::{MAX_LOCALS, ValueType};
use som_verify_forms::{Kind, kind_fits, kind_of};

/// Whether a parameter or local has the name.
pub fn is_in_scope(locals: &[Local], name: &[u8]) -> bool
    requires { length locals.now ≤ MAX_LOCALS }
    ensures { (cs : Seq Class) → result ≡ in_scope (names_at cs locals.now) name.now }
{
    local_of(locals, name).is_some()
}

/// Whether there may be one more local.
pub fn has_room(locals: &[Local]) -> bool
    ensures { result ≡ nat_lt (length locals.now) MAX_LOCALS }
{
    locals.len() < MAX_LOCALS as usize
}

/// The kind of a local that may be declared: its name is not in scope, its type is known and the value fits it. The limit
/// comes last.
pub fn declared_kind(
    context: &BodyContext,
    locals: &[Local],
    name: &[u8],
    kind: &ValueType,
    given: Kind,
) -> Result<Kind, BodyFault>
    requires context { IsBodyContext context.now }
    requires locals { AreLocals (classes_at context.now) locals.now }
    requires given { Stands (classes_at context.now) given }
    ensures { (e : Expr) → Opens (classes_at context.now) (declared (among_at context.now) (names_in context.now locals.now) name.now kind.now (record { expr = e; type = kind_at (classes_at context.now) given }))
        locals.now name.now kind.now e result }
{
    if is_in_scope(locals, name) {
        return Err(BodyFault::Rule(15));
    }
    match kind_of(&context.known, kind) {
        None => Err(BodyFault::Rule(16)),
        Some(wanted) => {
            if !kind_fits(&context.known, wanted, given) {
                Err(BodyFault::Rule(17))
            } else if has_room(locals) {
                Ok(wanted)
            } else {
                Err(BodyFault::TooManyLocals)
            }
        }
    }
}
