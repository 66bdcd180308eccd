//! The entries of a class by name, and how many of them introduce methods.

ghost use Rattle.som_model.specs.Class.{entry_name, entry_of, introduced};
ghost use Rattle.std.specs.Str.{bytes_eq};
ghost use Rattle.std.specs.Prelude.{◌≡◌, ◌+◌, ◌<◌, ◌∷◌, [], IsSome, Some, length, map, slice_get};

use som_model::{Entry, Text};

/// The name of an entry.
fn name_of(entry: &Entry) -> &Text
    ensures { result.now ≡ entry_name entry.now }
{
    match entry {
        Entry::Introduced { name, .. } => name,
        Entry::Moved { name, .. } => name,
    }
}

fn has_name(entry: &Entry, name: &Text) -> bool
    ensures { result ≡ bytes_eq (entry_name entry.now) name.now }
{
    *name_of(entry) == *name
}

/// The place of the entry of a name.
pub(crate) fn entry_place(entries: &[Entry], name: &Text) -> usize
    requires { IsSome (entry_of entries.now name.now) }
    ensures { slice_get (map entry_name entries.now) result ≡ Some name.now }
{
    for (place, entry) in entries.iter().enumerate() {
        if has_name(entry, name) {
            return place;
        }
    }
    unreachable!()
}

/// How many methods are introduced with this entry, where so many are before it.
pub(crate) fn introduced_with(own: usize, entry: &Entry) -> usize
    requires { own < 65536 }
    ensures { result ≡ own + length (introduced (entry.now ∷ [])) }
{
    match entry {
        Entry::Introduced { .. } => own + 1,
        Entry::Moved { .. } => own,
    }
}
