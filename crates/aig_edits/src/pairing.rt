//! How two circuits become one.

use aig_join::Comparison;

/// How two circuits become one.
#[derive(Clone, Copy, Debug, PartialEq, Eq)]
pub enum Pairing {
    /// The miter: both over the same inputs, bad where a pair of outputs or of bad edges differs. How registers start, and what
    /// constraints say, is as the comparison says.
    Miter(Comparison),
    /// The first beside the second, its witness circuit: bad where the first one is, where the second one is, and where a
    /// constraint of the second one doesn't hold.
    Certificate,
    /// Both side by side, with no node shared but false: each list of the first, and then that of the second.
    Merge,
}
