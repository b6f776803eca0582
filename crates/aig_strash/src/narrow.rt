//! The literals of a gate's operands, where these fit 32 bits.

ghost use Rattle.std.specs.Prelude.{◌≡◌, ◌+◌, ◌*◌, ◌^◌};
ghost use Rattle.std.specs.Cmp.Rules.{comparing, hashing};
ghost use Rattle.std.specs.Hash as fed;
ghost use Rattle.std.proofs.Common.{rules};
ghost use Rattle.aig_strash.specs.Tables.{are_same};

use std::hash::{Hash, Hasher};
use std::marker::Model;

/// Two literals of 32 bits. They are hashed and compared at once.
#[derive(Clone, Copy)]
pub(crate) struct NarrowLiterals {
    /// The first one, and 2^32 times the second.
    both: u64,
}

impl Model for NarrowLiterals {
    ghost use Rattle.std.specs.Prelude.{ℕ, ◌+◌, ◌*◌, ◌/◌, ◌%◌, ◌^◌};

    ghost Value = { ℕ × ℕ };

    ghost view = { λ l. (l.both % 2 ^ 32, l.both / 2 ^ 32) };

    ghost inverse = { λ l. record { both = l.0 + l.1 * 2 ^ 32 } };
}

impl NarrowLiterals {
    /// Returns these two.
    pub(crate) fn new(first: u32, second: u32) -> NarrowLiterals
        ensures { result ≡ (first, second) }
    {
        NarrowLiterals {
            both: first as u64 + second as u64 * (1 << 32),
        }
    }
}

impl PartialEq for NarrowLiterals {
    ghost eq = { are_same };

    ghost laws = { Prim.search (comparing, rules) };

    fn eq(&self, other: &NarrowLiterals) -> bool {
        self.both == other.both
    }
}

impl Eq for NarrowLiterals {
    ghost laws = { Prim.search (comparing, rules) };
}

impl Hash for NarrowLiterals {
    ghost hash_input = { λ l. fed.u64 (l.0 + l.1 * 2 ^ 32) };

    ghost respects_eq = { Prim.search (hashing, rules) };

    fn hash<H: Hasher>(&self, state: &mut H) {
        state.write_u64(self.both);
    }
}
