//! How two circuits are compared.

use crate::starts::Starts;

/// What the constraints of two circuits say where they are compared.
#[derive(Clone, Copy, Debug, PartialEq, Eq)]
pub enum Constraints {
    /// Runs meet those of both.
    OfBoth,
    /// Runs meet those of the first circuit alone; those of the second say nothing.
    OfFirst,
    /// They are compared, too: on runs that meet those of both at every step before, both circuits
    /// meet theirs at a step, or neither does, and all else is compared where both do.
    Compared,
}

/// How two circuits are compared.
#[derive(Clone, Copy, Debug, PartialEq, Eq)]
pub struct Comparison {
    /// How registers with open start begin.
    pub starts: Starts,
    /// What the constraints say.
    pub constraints: Constraints,
}
