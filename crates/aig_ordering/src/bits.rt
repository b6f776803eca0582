//! Sets of variables, a bit each.

ghost use Rattle.std.specs.Prelude.{◌≡◌, ℕ, ◌/◌, ◌<◌, ◌==◌, ◌||◌, length};
ghost use Rattle.aig_ordering.specs.Bits.{bit_is_set};

/// Whether the bit of this place is set. Past the end none is.
pub fn has_bit(words: &[u64], place: usize) -> bool
    ensures { result ≡ bit_is_set words.now place }
{
    match words.get(place / 64) {
        Some(word) => word >> (place % 64) & 1 == 1,
        None => false,
    }
}

/// Sets the bit of this place.
pub fn set_bit(words: &mut [u64], place: usize)
    requires { place / 64 < length words.old }
    ensures { (v : ℕ) → bit_is_set words.new v ≡ (bit_is_set words.old v || v == place) }
{
    words[place / 64] |= 1 << (place % 64);
}
