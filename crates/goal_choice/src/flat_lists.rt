//! Lists of numbers, by their numbers.

ghost use Rattle.std.specs.Prelude.{◌≡◌, ◌<◌, [], length, slice_index_or};

use containers::FlatLists;

/// The list with this number, counted from 0.
pub(crate) fn list_at(lists: &FlatLists<u32>, number: usize) -> &[u32]
    requires { number < length lists.now }
    ensures { result.now ≡ slice_index_or lists.now number [] }
{
    lists.at(number)
}
