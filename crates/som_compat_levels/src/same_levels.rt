//! Whether the interfaces of two lists of levels are the same ones.

ghost use Rattle.std.specs.Prelude.{◌≡◌, true};

use som_model::{Interface, List};

/// Whether the levels are the same, interface by interface. It says no more of levels that it answers false for.
pub(crate) fn are_same(olds: &List<Interface>, news: &List<Interface>) -> bool
    ensures { result ≡ true → olds.now ≡ news.now }
{
    if olds.len() != news.len() {
        return false;
    }
    let others = news.as_slice();
    for (i, old) in olds.as_slice().iter().enumerate() {
        if !is_same(old, &others[i]) {
            return false;
        }
    }
    true
}

fn is_same(old: &Interface, new: &Interface) -> bool
    ensures { result ≡ true → old.now ≡ new.now }
{
    old.is(new)
}
