//! The class that code names at a `new`, and the test of the object against it.

ghost use Rattle.som_code.specs.declared.instruction.Instruction.TheVariants as ops;
ghost use Rattle.som_code_cache.specs.Coded.{AreCodes, codes_of};
ghost use Rattle.som_model.specs.Kernel.{som_object};
ghost use Rattle.som_semantics.specs.State.{Heap};
ghost use Rattle.som_semantics.specs.Values.{cast as cast_in};
ghost use Rattle.som_interp_state.specs.Settings.{class_named as class_in, instruction_at};
ghost use Rattle.som_values.specs.Answers.{passed};
ghost use Rattle.som_values.specs.Shown.{IsNumbered, IsSeen, key_of, shown, showing};
ghost use Rattle.som_values.specs.Stored.{Holds, IsClassed, IsKept};
ghost use Rattle.std.specs.Prelude.{◌≡◌, ℕ, IfNone, IfSome, List, Some};

use som_code::Instruction;
use som_code_cache::Codes;
use som_interp_state::Runtime;
use som_model::{ClassKey, Fault};
use som_objects::{Cell, ObjectStore};
use som_tables::ClassNo;
use som_values::{class_of, referred};

/// The number of the class that a `new` at this place of a code names; that of SOMObject where none stands there.
pub(crate) fn class_named<R: Runtime>(runtime: &R, codes: &Codes, code: usize, at: usize) -> ClassNo
    requires { AreCodes (R.known runtime.now) (R.program runtime.now) codes.now }
    ensures numbered { IsNumbered (R.keys runtime.now) result }
    ensures key { key_of (R.keys runtime.now) result ≡ class_in (instruction_at (codes_of codes.now) code at) }
{
    runtime.know();
    let Some(instruction) = codes.instruction(code, at) else {
        return ClassNo::new(0);
    };
    match named_by(instruction) {
        Some(class) => runtime.number_of(class),
        None => ClassNo::new(0),
    }
}

// The class that a `new` names.
fn named_by(instruction: &Instruction) -> Option<&ClassKey>
    ensures some { IfSome result (λ class. instruction.now ≡ ops.New class.now) }
    ensures none { IfNone result (class_in (Some instruction.now) ≡ som_object) }
{
    match instruction {
        Instruction::New(class) => Some(class),
        _ => None,
    }
}

/// Whether a value may be taken for one of a class: what is no object may; an object has to be live and of the class
/// or of one that descends from it.
pub(crate) fn cast_to<R: Runtime>(
    runtime: &R,
    objects: &ObjectStore,
    class: ClassNo,
    cell: &Cell,
) -> Result<(), Fault>
    requires numbered { IsNumbered (R.keys runtime.now) class }
    requires kept { IsKept objects.now cell.now }
    requires classed { IsClassed (R.keys runtime.now) (R.made runtime.now) objects.now cell.now }
    ensures { (serials : List ℕ) (h : Heap) → Holds (showing (R.keys runtime.now) serials) objects.now h → IsSeen (showing (R.keys runtime.now) serials) cell.now
        → passed (shown (showing (R.keys runtime.now) serials) cell.now) result ≡ cast_in (R.world runtime.now) (key_of (R.keys runtime.now) class) h (shown (showing (R.keys runtime.now) serials) cell.now) }
{
    let Some(found) = referred(cell) else {
        return Ok(());
    };
    let of = class_of(runtime, objects, found)?;
    if runtime.inherits(of, class) {
        Ok(())
    } else {
        Err(Fault::Cast)
    }
}
