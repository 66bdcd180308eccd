//! The names that entries introduce, and names after a prefix, as those of accessors.

ghost use Rattle.som_model.specs.Class.{introduced};
ghost use Rattle.som_order.specs.Names.{texts};
ghost use Rattle.std.specs.Prelude.{◌≡◌, ◌++◌, IfOk};

use som_model::{Entry, NoMemory, Text};
use som_sema_scope::add;
use std::alloc::Global;

/// The names that entries introduce, in order; those of moved entries are left out.
pub fn introduced_names(alloc: Global, entries: &[Entry]) -> Result<Vec<&[u8]>, NoMemory>
    ensures { IfOk result (λ names. texts names.items ≡ introduced entries.now) }
{
    let mut names = Vec::new(alloc);
    for entry in entries {
        if let Entry::Introduced { name, .. } = entry {
            add(&mut names, name.as_slice())?;
        }
    }
    Ok(names)
}

/// The bytes of a prefix and then of a name, as one text.
pub fn prefixed(alloc: Global, prefix: &[u8], name: &[u8]) -> Result<Text, NoMemory>
    ensures { IfOk result (λ text. text ≡ prefix.now ++ name.now) }
{
    let mut bytes = Vec::from_slice(alloc, prefix)?;
    bytes.extend_from_slice(name)?;
    Ok(Text::from_vec(bytes))
}
