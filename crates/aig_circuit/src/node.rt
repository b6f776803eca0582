//! Nodes and latches of an And-Inverter Graph (crate aig).

ghost use Rattle.std.specs.Prelude.{◌≡◌, ◌↔◌, IsTrue, Option};
ghost use Rattle.aig_circuit.specs.Node.{IsAnd, IfAnd, MapsKind, and_of};

use crate::edge::AigEdge;

/// A latch: its leaf, its next edge, and its initial edge or none.
#[derive(Clone, Copy, Debug)]
pub struct AigLatch {
    input: usize,
    next: AigEdge,
    init: Option<AigEdge>,
}

impl AigLatch {
    /// Returns the latch of a leaf, given by its number, with a next edge and perhaps an initial edge.
    pub fn new(input: usize, next: AigEdge, init: Option<AigEdge>) -> AigLatch
        ensures { result ≡ record { input = input; next = next; init = init } }
    {
        AigLatch { input, next, init }
    }

    /// Returns the number of its leaf.
    pub fn input(&self) -> usize
        ensures { result ≡ self.now.input }
    {
        self.input
    }

    /// Returns the edge whose value it has at the next step.
    pub fn next(&self) -> AigEdge
        ensures { result ≡ self.now.next }
    {
        self.next
    }

    /// Returns the edge whose value it has in an initial state, or `None` where it may have either value.
    pub fn init(&self) -> Option<AigEdge>
        ensures { result ≡ self.now.init }
    {
        self.init
    }
}

/// What a node is: false, a leaf, or the and of two edges.
#[derive(Clone, Copy, Debug)]
pub enum AigNodeType {
    /// Constant false: node 0 of a circuit, and no other.
    False,
    /// A variable: an input, a latch's leaf, or a free leaf.
    Leaf,
    /// A gate: the and of two edges, its operands, of which the first is not greater than the second in a circuit.
    And(AigEdge, AigEdge),
}

/// A node with its number.
///
/// It is a value of its own: a changed one is put into a circuit by `Aig::set_node`.
#[derive(Clone, Copy, Debug)]
pub struct AigNode {
    node_id: usize,
    typ: AigNodeType,
}

/// Returns the false node.
pub fn false_node() -> AigNode
    ensures { result ≡ record { node_id = 0; typ = AigNodeType.False } }
{
    AigNode {
        node_id: 0,
        typ: AigNodeType::False,
    }
}

/// Returns a leaf of this number.
pub fn leaf_node(id: usize) -> AigNode
    ensures { result ≡ record { node_id = id; typ = AigNodeType.Leaf } }
{
    AigNode {
        node_id: id,
        typ: AigNodeType::Leaf,
    }
}

/// Returns a gate of this number, with its operands put in order.
pub fn gate_node(id: usize, fanin0: AigEdge, fanin1: AigEdge) -> AigNode
    ensures { result ≡ record { node_id = id; typ = and_of fanin0 fanin1 } }
{
    let (first, second) = if fanin1 < fanin0 {
        (fanin1, fanin0)
    } else {
        (fanin0, fanin1)
    };
    AigNode {
        node_id: id,
        typ: AigNodeType::And(first, second),
    }
}

impl AigNode {
    /// Returns its number.
    pub fn node_id(&self) -> usize
        ensures { result ≡ self.now.node_id }
    {
        self.node_id
    }

    /// Returns what it is.
    pub fn typ(&self) -> &AigNodeType
        ensures { result.now ≡ self.now.typ }
    {
        &self.typ
    }

    /// Returns whether it is a gate.
    pub fn is_and(&self) -> bool
        ensures { IsTrue result ↔ IsAnd self.now }
    {
        matches!(self.typ, AigNodeType::And(_, _))
    }

    /// Returns whether it is a leaf.
    pub fn is_leaf(&self) -> bool
        ensures { IsTrue result ↔ (self.now.typ ≡ AigNodeType.Leaf) }
    {
        matches!(self.typ, AigNodeType::Leaf)
    }

    /// Returns the operands of a gate, which in a circuit are in order.
    ///
    /// # Requirements
    ///
    /// - It is a gate (`is_and`).
    pub fn fanin(&self) -> (AigEdge, AigEdge)
        requires { IsAnd self.now }
        ensures { self.now.typ ≡ AigNodeType.And result.0 result.1 }
    {
        match self.typ {
            AigNodeType::And(fanin0, fanin1) => (fanin0, fanin1),
            _ => unreachable!(),
        }
    }

    /// Returns the first operand of a gate.
    ///
    /// # Requirements
    ///
    /// - It is a gate (`is_and`).
    pub fn fanin0(&self) -> AigEdge
        requires { IsAnd self.now }
        ensures { (other : AigEdge) × (self.now.typ ≡ AigNodeType.And result other) }
    {
        self.fanin().0
    }

    /// Returns the second operand of a gate.
    ///
    /// # Requirements
    ///
    /// - It is a gate (`is_and`).
    pub fn fanin1(&self) -> AigEdge
        requires { IsAnd self.now }
        ensures { (other : AigEdge) × (self.now.typ ≡ AigNodeType.And other result) }
    {
        self.fanin().1
    }

    /// Replaces the first operand of a gate, and leaves the two in their places.
    ///
    /// # Requirements
    ///
    /// - It is a gate (`is_and`).
    pub fn set_fanin0(&mut self, fanin: AigEdge)
        requires { IsAnd self.old }
        ensures { (a b : AigEdge) → self.old.typ ≡ AigNodeType.And a b
            → self.new ≡ record self.old { typ = AigNodeType.And fanin b } }
    {
        self.typ = AigNodeType::And(fanin, self.fanin1());
    }

    /// Replaces the second operand of a gate, and leaves the two in their places.
    ///
    /// # Requirements
    ///
    /// - It is a gate (`is_and`).
    pub fn set_fanin1(&mut self, fanin: AigEdge)
        requires { IsAnd self.old }
        ensures { (a b : AigEdge) → self.old.typ ≡ AigNodeType.And a b
            → self.new ≡ record self.old { typ = AigNodeType.And a fanin } }
    {
        self.typ = AigNodeType::And(self.fanin0(), fanin);
    }

    /// Returns the node of the number that `map` gives for its number. A gate's operands go through `map` too, and stay
    /// in their places.
    ///
    /// # Requirements
    ///
    /// - `map` may be called with its number, and with those of its operands' nodes.
    pub fn map<M: Fn(usize) -> usize>(&self, map: &M) -> AigNode
        requires number { M.pre map.now self.now.node_id }
        requires operands { IfAnd self.now.typ (M.pre map.now) }
        ensures number { M.post map.now self.now.node_id result.node_id }
        ensures kind { MapsKind (M.post map.now) self.now.typ result.typ }
    {
        let node_id = map(self.node_id);
        let typ = match self.typ {
            AigNodeType::And(fanin0, fanin1) => AigNodeType::And(fanin0.map(map), fanin1.map(map)),
            other => other,
        };
        AigNode { node_id, typ }
    }
}
