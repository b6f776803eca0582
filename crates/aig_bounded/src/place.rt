//! Where the inputs of a question stand.

/// Where an input of a question stands: at a step, and there at a leaf of the circuit that is asked.
#[derive(Clone, Copy, Debug, PartialEq, Eq)]
pub struct Place {
    /// The step.
    pub step: usize,
    /// The number of the leaf's node.
    pub leaf: usize,
}
