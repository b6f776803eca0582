//! Witnesses of bad states, and of properties of either kind.

use aig_base::Lbool;

/// A witness of a bad state: which bad state property is reached, the state in which a run begins, and the inputs at each
/// of its steps. A value that is unknown may be either. (AIGER 1.9, "Witness format".)
#[derive(Drop)]
pub struct Witness {
    /// The number of the bad state property, from 0 on.
    pub bad: u32,
    /// The values of the latches at step 0, in their order.
    pub state: Vec<Lbool>,
    /// For each step the values of the inputs, in their order.
    pub steps: Vec<Vec<Lbool>>,
}

/// A kind of property that a witness can be of. (AIGER 1.9, "Witness format".)
#[derive(Clone, Copy, Debug, PartialEq, Eq)]
pub enum PropertyKind {
    /// A bad state property: `b`.
    Bad,
    /// A justice property: `j`.
    Justice,
}

/// A witness of a property of either kind.
#[derive(Drop)]
pub struct Claim {
    /// The kind of property.
    pub kind: PropertyKind,
    /// The witness, whose number is that of a property of this kind.
    pub witness: Witness,
}
