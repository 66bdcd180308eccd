//! The proxy classes that blocks name, each of which gets a number.

ghost use Rattle.som_model.specs.Lists.{Mem};
ghost use Rattle.som_model.specs.Loads.{keys_of};
ghost use Rattle.som_model.specs.Made.{blocks_of, proxies_in};
ghost use Rattle.som_model.specs.declared.key.ClassKey.{ClassKey as Key};
ghost use Rattle.som_proxy_uses.specs.Proxied.{declarations, decl_proxies, proxies_of};
ghost use Rattle.som_class_ids.specs.Classes.{classes_of};
ghost use Rattle.std.specs.Prelude.{◌≡◌, ◌↔◌, ◌++◌, IfOk, OnOk, flat_map};

use som_class_ids::{Keyed, Numbers};
use som_model::{Block, ClassKey, List, NoMemory};
use som_proxy_uses::{with_block, with_class};
use std::alloc::Global;

/// The classes of which the blocks of these classes name proxies, as often as they do.
fn proxied_by_classes(alloc: Global, classes: &[Keyed]) -> Result<List<ClassKey>, NoMemory>
    ensures { IfOk result (λ named. proxies_of named ≡ flat_map decl_proxies (declarations (classes_of classes.now))) }
{
    let mut named = List::new(alloc);
    for class in classes {
        named = with_class(alloc, named, &class.decl)?;
    }
    Ok(named)
}

/// The classes of which these classes or main name proxies.
pub(crate) fn proxied(
    alloc: Global,
    classes: &[Keyed],
    main: &Block,
) -> Result<List<ClassKey>, NoMemory>
    ensures { IfOk result (λ named. proxies_of named ≡ flat_map proxies_in (blocks_of (classes_of classes.now) main.now)) }
{
    let named = proxied_by_classes(alloc, classes)?;
    with_block(alloc, named, main)
}

/// Numbers the proxies of these classes.
pub(crate) fn number_proxies(
    alloc: Global,
    numbers: &mut Numbers,
    named: &[ClassKey],
) -> Result<(), NoMemory>
    requires { (k : Key) → Mem k named.now → Mem k (keys_of numbers.old.classes) }
    ensures classes { numbers.new.classes ≡ numbers.old.classes }
    ensures keys { OnOk result ((k : Key) → Mem k numbers.new.keys ↔ Mem k (numbers.old.keys ++ proxies_of named.now)) }
{
    for key in named {
        let of = numbers.number_of(key);
        numbers.proxy(alloc, of)?;
    }
    Ok(())
}
