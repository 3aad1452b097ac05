// Writing where a place may lie past the end.
ghost use Rattle.std.specs.Prelude.{◌≡◌, slice_set};

/// Writes at a place; past the end nothing.
// Kept: what the library's `get_mut` lends of a slice leaves no word of the slice's items afterwards.
pub fn set_item<T: Copy>(items: &mut [T], place: usize, new: T)
    ensures only_there { items.new ≡ slice_set items.old place new }
{
    if place < items.len() {
        items[place] = new;
    }
}
