//! Numbers in lists, read and written by place.

ghost use Rattle.std.specs.Prelude.{◌≡◌, ◌<◌, length, slice_index_or, slice_set};

/// The number at a place.
pub fn number_at(list: &[usize], place: usize) -> usize
    requires { place < length list.now }
    ensures { result ≡ slice_index_or list.now place 0 }
{
    list[place]
}

/// Writes the number at a place.
pub fn set_number(list: &mut [usize], place: usize, number: usize)
    requires { place < length list.old }
    ensures { list.new ≡ slice_set list.old place number }
{
    list[place] = number;
}
