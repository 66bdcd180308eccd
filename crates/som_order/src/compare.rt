//! Compares two release orders name by name, up to the first place at which the new one leaves the old.

ghost use Rattle.som_model.specs.Class.{entry_name};
ghost use Rattle.som_order.specs.Difference.{first_difference};
ghost use Rattle.std.specs.Prelude.{◌≡◌, ◌≤◌, length, map, slice_get, option_copied};

use som_model::{ClassFace, Entry, List, Text};

/// `None` where the old names begin the new ones, and else the first place at which they don't.
pub fn is_prefix(old: &List<Entry>, new: &List<Entry>) -> Option<u16>
    requires old { length old.now ≤ 65535 }
    requires new { length new.now ≤ 65535 }
    ensures { result ≡ first_difference 0 (map entry_name old.now) (map entry_name new.now) }
{
    let mut olds = old.as_slice();
    let mut news = new.as_slice();
    let mut place = 0u16;
    while let [x, later_olds @ ..] = olds {
        match news {
            [] => return Some(place),
            [y, later_news @ ..] => {
                if !name_of(x).is(name_of(y).as_slice()) {
                    return Some(place);
                }
                olds = later_olds;
                news = later_news;
                place += 1;
            }
        }
    }
    None
}

/// The name of an entry, introduced or moved.
pub fn name_of(entry: &Entry) -> &Text
    ensures { result.now ≡ entry_name entry.now }
{
    match entry {
        Entry::Introduced { name, .. } => name,
        Entry::Moved { name, .. } => name,
    }
}

/// The entry at a place of a class's release order, and `None` past its end.
pub fn entry_at(face: &ClassFace, place: u16) -> Option<&Entry>
    ensures { option_copied result ≡ slice_get face.now.entries place }
{
    face.entries.as_slice().get(place as usize)
}
