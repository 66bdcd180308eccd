//! somFindClass: a class found by name and version.

ghost use Rattle.som_semantics.specs.Invoked.{class_found};
ghost use Rattle.som_values.specs.Shown.{IsNumbered, Showing, all_shown, key_of};
ghost use Rattle.std.specs.Option.{option_map};
ghost use Rattle.std.specs.Prelude.{◌≡◌, IfOk, IfSome};

use crate::arguments::{first_number, first_text, further};
use som_interp_state::Runtime;
use som_model::NoMemory;
use som_objects::Cell;
use som_tables::ClassNo;
use std::alloc::Global;

/// somFindClass: the class that is found by the name and the version which are its arguments.
pub fn find_class<R: Runtime>(
    alloc: Global,
    runtime: &R,
    args: &[Cell],
) -> Result<Option<ClassNo>, NoMemory>
    ensures numbered { IfOk result (λ found. IfSome found (IsNumbered (R.keys runtime.now))) }
    ensures key { IfOk result (λ found. (s : Showing) → option_map (key_of (R.keys runtime.now)) found ≡ class_found (R.world runtime.now) (all_shown s args.now)) }
{
    let name = first_text(alloc, args)?;
    let versions = further(args);
    let major = first_number(versions);
    let minor = first_number(further(versions));
    Ok(runtime.find_class(&name, major, minor))
}
