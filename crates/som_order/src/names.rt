//! Notes names in a set that keeps their order, and looks up the place of a name in it.

ghost use Rattle.som_model.specs.Lists.{among};
ghost use Rattle.som_order.specs.Names.{name_at, texts};
ghost use Rattle.std.specs.Prelude.{◌≡◌, ◌<◌, ◌++◌, ◌∷◌, [], not, if◌then◌else◌, length, is_some, IfOk, IfSome, OnErr};

use indexmap::IndexSet;
use som_model::NoMemory;

/// Notes a name, and answers whether it is new. A name's place is the number of names that were new before it.
pub fn note_name<'a>(seen: &mut IndexSet<&'a [u8]>, name: &'a [u8]) -> Result<bool, NoMemory>
    ensures is_new { IfOk result (λ is_new. is_new ≡ not (among name.now (texts seen.old.keys))) }
    ensures keys { IfOk result (λ is_new. texts seen.new.keys ≡
        (if is_new then texts seen.old.keys ++ name.now ∷ [] else texts seen.old.keys)) }
    ensures err { OnErr result (seen.new.keys ≡ seen.old.keys) }
{
    let (_, is_new) = seen.insert_full(name)?;
    Ok(is_new)
}

/// The place of a name among those that were noted.
pub fn find_name(seen: &IndexSet<&[u8]>, name: &[u8]) -> Option<usize>
    ensures some { IfSome result (λ place. (place < length (texts seen.now.keys)) ×
        (name_at (texts seen.now.keys) place ≡ name.now)) }
    ensures among { is_some result ≡ among name.now (texts seen.now.keys) }
{
    seen.get_index_of(name)
}
