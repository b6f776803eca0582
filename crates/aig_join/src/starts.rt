//! How registers with open start begin in two circuits that are compared.

/// By what a register of the second circuit finds that of the first which it starts like.
#[derive(Clone, Copy, Debug, PartialEq, Eq)]
pub enum Matching {
    /// Of those with open start the first one's first is the second one's first, and so on.
    ByOrder,
    /// It has the same name, and an open start, too.
    ByName,
}

/// How registers with open start begin: latches without an initial edge.
#[derive(Clone, Copy, Debug, PartialEq, Eq)]
pub enum Starts {
    /// Each with a value of its own.
    Apart,
    /// Those that are matched with the same value.
    Alike(Matching),
}
