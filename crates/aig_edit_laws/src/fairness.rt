//! What is asked for again and again.

/// Which literals of a file, or edges of a circuit, a fair run makes true again and again.
#[derive(Clone, Copy, Debug, PartialEq, Eq)]
pub enum Fairness {
    /// Those of a justice property, from 0 on, and those of fairness.
    Justice(usize),
    /// Those of fairness alone. Without any, each run without end is fair.
    Alone,
}
