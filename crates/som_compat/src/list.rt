//! Checks a list of interfaces, each against the one before it.

ghost use Rattle.som_compat.specs.Conditions.{Conforms};
ghost use Rattle.som_compat.specs.Told.{told_by_list};
ghost use Rattle.som_model.specs.Compatible.{Compatible, EachLater, list_breaks};
ghost use Rattle.som_model.specs.Lists.{Mem, first};
ghost use Rattle.som_model.specs.declared.program.Interface.{Interface as Faces};
ghost use Rattle.std.specs.Prelude.{◌≡◌, IfOk};

use crate::breach::Breach;
use crate::pair::compatible;
use som_model::{Interface, List};

/// Whether each interface of a list is compatible with the one before it, and else the first breach, with the
/// number of the newer one, counted from 0. Where each is, each is also compatible with all before it. It
/// takes no memory.
pub fn check_list(list: &List<Interface>) -> Result<(), (usize, Breach<'_>)>
    requires { (i : Faces) → Mem i list.now → Conforms i }
    ensures first { told_by_list result ≡ first (list_breaks 1 list.now) }
    ensures along { IfOk result (λ _. EachLater Compatible list.now) }
{
    check_each(list.as_slice())
}

fn check_each(list: &[Interface]) -> Result<(), (usize, Breach<'_>)>
    requires { (i : Faces) → Mem i list.now → Conforms i }
    ensures { told_by_list result ≡ first (list_breaks 1 list.now) }
{
    let mut rest = list;
    let mut number = 1usize;
    while let [older, later @ ..] = rest {
        match later {
            [] => {}
            [newer, ..] => match compatible(older, newer) {
                Ok(_) => {}
                Err(breach) => return Err((number, breach)),
            },
        }
        rest = later;
        number = number.saturating_add(1);
    }
    Ok(())
}
