//! Lists that grow while a stream is read.

ghost use Rattle.std.specs.Prelude.{◌≡◌, ◌++◌, ◌∷◌, [], if◌then◌else◌, is_ok};

use std::alloc::AllocError;

/// Appends an item to a list. Where memory is refused, the item is dropped.
pub fn append<T: Drop>(list: &mut Vec<T>, item: T) -> Result<(), AllocError>
    ensures { list.new.items
        ≡ (if is_ok result then list.old.items ++ item ∷ [] else list.old.items) }
{
    Ok(list.push(item)?)
}
