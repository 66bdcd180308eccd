//! Lists that grow by an item.

ghost use Rattle.std.specs.Prelude.{◌≡◌, ◌++◌, ◌∷◌, [], IfOk};

use som_model::{List, NoMemory};

/// The list with one more item. Where memory fails, it drops what was read so far, whatever that is, so that no reader has to.
pub fn with_item<T: Drop>(mut items: List<T>, item: T) -> Result<List<T>, NoMemory>
    ensures { IfOk result (λ all. all ≡ items ++ item ∷ []) }
{
    items.push(item)?;
    Ok(items)
}
