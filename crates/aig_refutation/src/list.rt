//! Lists that grow.

ghost use Rattle.std.specs.Prelude.{◌≡◌, ◌++◌, ◌∷◌, [], OnErr, OnOk};

use aig_base::MemoryError;

/// Appends an item. Where memory is refused, the list stays as it was.
pub(crate) fn push<T: Drop>(list: &mut Vec<T>, item: T) -> Result<(), MemoryError>
    ensures items { OnOk result (list.new.items ≡ list.old.items ++ item ∷ []) }
    ensures same { OnErr result (list.new.items ≡ list.old.items) }
{
    Ok(list.push(item)?)
}
