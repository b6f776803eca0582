//! What is asked of a circuit.

use aig_runs::Window;

/// What is asked of a circuit.
#[derive(Clone, Copy, Debug, PartialEq, Eq)]
pub enum Ask {
    /// That no bad state is reached at step `k` from an initial state.
    Step(usize),
    /// That none is at the steps 0 to `k`.
    UpTo(usize),
    /// That no window of `k + 2` steps, from any state, reaches one first at its end.
    Window(usize, Window),
}

/// What is asked, and how its clauses are made. A plan is a list of questions.
#[derive(Clone, Copy, Debug, PartialEq, Eq)]
pub struct Question {
    /// What is asked.
    pub ask: Ask,
    /// Whether gates that are an exclusive or or an if-then-else are encoded as such.
    pub optimize: bool,
}
