//! Memory of the caller.

ghost use Rattle.std.specs.Prelude.{◌≡◌};
ghost use Rattle.aig_giving.specs.Given.{GivesMade, IsGiven};

use crate::status::{DONE, SMALL};

/// Tells a value at its place.
pub fn tell<T: Copy>(value: T, place: &mut T) -> u32
    ensures { (result ≡ DONE) × (place.new ≡ value) }
{
    *place = value;
    DONE
}

/// Copies items to the front of the caller's memory, where they fit, and says how many there are.
pub fn give<T: Copy>(items: &[T], out: &mut [T], needed: &mut usize) -> u32
    ensures { IsGiven result items.now out.old out.new needed.new }
{
    let count = items.len();
    *needed = count;
    if out.len() < count {
        return SMALL;
    }
    out[..count].copy_from_slice(items);
    DONE
}

/// Gives the items that were made, or says by its status why there are none.
pub fn give_made<T: Copy>(made: Result<Vec<T>, u32>, out: &mut [T], needed: &mut usize) -> u32
    ensures { GivesMade made result out.old out.new needed.old needed.new }
{
    match made {
        Ok(items) => give(items.as_slice(), out, needed),
        Err(status) => status,
    }
}
