//! The forms of induction over windows of steps.

/// Which runs an induction step looks at.
#[derive(Clone, Copy, Debug, PartialEq, Eq)]
pub enum Window {
    /// All runs of so many steps.
    Plain,
    /// Those on which no state comes twice.
    Distinct,
}
