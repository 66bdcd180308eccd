//! Answers by lists of ancestors whether the class at one place descends from that at another.

ghost use Rattle.som_model.specs.Class.{Class};
ghost use Rattle.som_model.specs.Classes.{is_a};
ghost use Rattle.som_model.specs.Lists.{some};
ghost use Rattle.som_verify_classes.specs.Places.{key_at};
ghost use Rattle.som_verify_classes.specs.Walk.{AreLists};
ghost use Rattle.std.specs.Prelude.{◌≡◌, ◌==◌, ◌<◌, [], List as Seq, length, slice_index_or};

use som_model::List;

/// Whether the class at a place descends from that at another, by the lists of their ancestors.
pub fn descends_by(lists: &[List<usize>], class: usize, ancestor: usize) -> bool
    requires { class < length lists.now }
    ensures { (cs : Seq Class) → AreLists cs lists.now → ancestor < length cs →
        result ≡ is_a cs (key_at cs class) (key_at cs ancestor) }
{
    has_place(item(lists, class), ancestor)
}

/// The list at a place.
pub fn item(known: &[List<usize>], place: usize) -> &[usize]
    requires { place < length known.now }
    ensures { result.now ≡ slice_index_or known.now place [] }
{
    known[place].as_slice()
}

/// Whether a place is on a list.
pub fn has_place(list: &[usize], place: usize) -> bool
    ensures { result ≡ some (λ a. place == a) list.now }
{
    list.contains(&place)
}
