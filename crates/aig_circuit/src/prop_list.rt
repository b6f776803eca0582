//! The four lists of property edges.

/// One of the four lists of property edges (AIGER 1.9, "Properties").
#[derive(Clone, Copy, Debug, PartialEq, Eq)]
pub enum PropList {
    /// The outputs.
    Outputs,
    /// The bad state properties.
    Bads,
    /// The invariant constraints.
    Constraints,
    /// The fairness constraints.
    Fairness,
}
