//! New numbers of nodes.

ghost use Rattle.std.specs.Prelude.{◌≡◌, ◌<◌, ℕ, length, slice_index};

/// New numbers of nodes; some may have none.
pub trait Numbering {
    /// The node has a new number.
    ghost has: { Self → ℕ → Type 0 };

    /// The new number of a node that has one.
    ghost number_of: { Self → ℕ → ℕ };

    /// The new number of node `n`.
    fn number(&self, n: usize) -> usize
        requires { has self.now n }
        ensures { result ≡ number_of self.now n };
}

/// The numbers of a table, which has that of node `n` at place `n`.
#[derive(Drop)]
pub(crate) struct Table<'a> {
    /// The table.
    pub(crate) numbers: &'a [usize],
}

impl Numbering for Table<'_> {
    ghost has = { λ table n. n < length table.numbers.now };

    ghost number_of = { λ table. slice_index table.numbers.now };

    fn number(&self, n: usize) -> usize {
        self.numbers[n]
    }
}
