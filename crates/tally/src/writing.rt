// A place of a list written.
ghost use Rattle.std.specs.Prelude.{◌≡◌, slice_set};

/// Writes a place of the list; where the list ends before it, nothing changes.
// Not by `get_mut`: once its borrow has ended, a proof knows nothing of what the list holds.
pub(crate) fn write<X: Copy>(list: &mut [X], place: u8, written: X)
    ensures { list.new ≡ slice_set list.old place written }
{
    let place = usize::from(place);
    if place < list.len() {
        list[place] = written;
    }
}
