//! Edges of an And-Inverter Graph (crate aig).

ghost use Rattle.std.specs.Prelude.{◌≡◌, ◌↔◌, ◌<◌, ◌^◌, IsTrue, false, not, IfSome, IsSome};
ghost use Rattle.std.specs.Ordering.{nat_cmp};
ghost use Rattle.aig_base.specs.Clauses.{number_of_lit};
ghost use Rattle.aig_circuit.specs.Edge.{edge_from_lit, edge_to, inverse, inverted_if, lit_of, literal_of};

use aig_base::{Lit, Var};
use std::ops::Not;

/// An edge: the number of a node, and whether its value is inverted.
///
/// Edges are ordered, compared and hashed as their literals are: by the number, and of one number the inverted one
/// last. An edge is not tied to a circuit: `Aig::has_edge` tells whether it is of one.
#[derive(Clone, Copy, Debug, PartialEq, Eq, PartialOrd, Ord, Hash)]
pub struct AigEdge {
    node_id: usize,
    compl: bool,
}

impl Not for AigEdge {
    type Output = AigEdge;

    fn not(self) -> AigEdge
        ensures { result ≡ record { node_id = self.node_id; compl = not self.compl } }
    {
        AigEdge {
            node_id: self.node_id,
            compl: !self.compl,
        }
    }
}

impl From<usize> for AigEdge {
    ghost from_gives = { λ id e. e ≡ record { node_id = id; compl = false } };

    fn from(id: usize) -> AigEdge {
        AigEdge {
            node_id: id,
            compl: false,
        }
    }
}

impl AigEdge {
    /// Returns the edge to node `id`, inverted where `compl` is true.
    pub fn new(id: usize, compl: bool) -> AigEdge
        ensures { result ≡ record { node_id = id; compl = compl } }
    {
        AigEdge { node_id: id, compl }
    }

    /// Returns the number of its node.
    pub fn node_id(&self) -> usize
        ensures { result ≡ self.now.node_id }
    {
        self.node_id
    }

    /// Returns whether it is inverted.
    pub fn compl(&self) -> bool
        ensures { result ≡ self.now.compl }
    {
        self.compl
    }

    /// Sets the number of its node.
    pub fn set_nodeid(&mut self, nodeid: usize)
        ensures { self.new ≡ record self.old { node_id = nodeid } }
    {
        self.node_id = nodeid;
    }

    /// Sets whether it is inverted.
    pub fn set_compl(&mut self, compl: bool)
        ensures { self.new ≡ record self.old { compl = compl } }
    {
        self.compl = compl;
    }

    /// Returns the inverse where `x` is true, and else the edge.
    pub fn not_if(self, x: bool) -> AigEdge
        ensures { result ≡ edge_to self.node_id (inverted_if x self.compl) }
    {
        if x { !self } else { self }
    }

    /// Returns the edge that is always of this value: to node 0, inverted where it is true.
    pub fn constant(polarity: bool) -> AigEdge
        ensures { result ≡ record { node_id = 0; compl = polarity } }
    {
        AigEdge {
            node_id: 0,
            compl: polarity,
        }
    }

    /// Returns whether it is one of the two constants.
    pub fn is_const(&self) -> bool
        ensures { IsTrue result ↔ (self.now.node_id ≡ 0) }
    {
        self.node_id == 0
    }

    /// Returns whether it is the constant of this value.
    pub fn is_constant(&self, polarity: bool) -> bool
        ensures { IsTrue result ↔ (self.now ≡ record { node_id = 0; compl = polarity }) }
    {
        *self == AigEdge::constant(polarity)
    }

    /// Returns the value of the constant that it is, or `None` where it is none.
    pub fn try_to_constant(self) -> Option<bool>
        ensures constant { IsSome result ↔ (self.node_id ≡ 0) }
        ensures value { IfSome result (λ polarity. polarity ≡ self.compl) }
    {
        if self.node_id == 0 {
            Some(self.compl)
        } else {
            None
        }
    }

    /// Returns the value of the constant that it is.
    ///
    /// # Requirements
    ///
    /// - It is a constant (`is_const`).
    pub fn to_constant(self) -> bool
        requires { self.node_id ≡ 0 }
        ensures { result ≡ self.compl }
    {
        self.compl
    }

    /// Returns the edge to the node of the number of a literal's variable, inverted as the literal is.
    pub fn from_lit(lit: Lit) -> AigEdge
        ensures { result ≡ edge_from_lit lit }
    {
        AigEdge {
            node_id: usize::from(lit.var()),
            compl: !lit.polarity(),
        }
    }

    /// Returns the literal of the variable of its node's number, inverted as the edge is.
    ///
    /// # Requirements
    ///
    /// - Its node's number is below 2^31, as it is in a circuit that has at most 2^31 nodes (`Aig::fits_lits`).
    pub fn to_lit(&self) -> Lit
        requires { self.now.node_id < 2 ^ 31 }
        ensures { result ≡ lit_of self.now }
    {
        Lit::new(Var::new(self.node_id), !self.compl)
    }

    /// Returns the edge to the node that `map` gives for its node, inverted as it is.
    ///
    /// # Requirements
    ///
    /// - `map` may be called with its node's number.
    pub fn map<M: Fn(usize) -> usize>(&self, map: &M) -> AigEdge
        requires { M.pre map.now self.now.node_id }
        ensures node { M.post map.now self.now.node_id result.node_id }
        ensures same { result.compl ≡ self.now.compl }
    {
        AigEdge {
            node_id: map(self.node_id),
            compl: self.compl,
        }
    }
}

/// Law: edges are ordered as their literals are, and equal exactly where they are the same.
pub fn orders_by_literal()
    ensures order { (a b : AigEdge) →
        ⟦<AigEdge as Ord>⟧.cmp a b ≡ nat_cmp (literal_of a) (literal_of b) }
    ensures equality { (a b : AigEdge) → IsTrue (⟦<AigEdge as PartialEq>⟧.eq a b) ↔ (a ≡ b) }
{}

/// Law: the edge of an edge's literal is the edge itself, and the literal's number is that by which edges are ordered.
pub fn keeps_edges_by_literal()
    ensures edge { (e : AigEdge) → edge_from_lit (lit_of e) ≡ e }
    ensures number { (e : AigEdge) → number_of_lit (lit_of e) ≡ literal_of e }
{}

/// Law: the inverse of an edge's inverse is the edge itself.
pub fn inverts_back()
    ensures { (e : AigEdge) → inverse (inverse e) ≡ e }
{}
