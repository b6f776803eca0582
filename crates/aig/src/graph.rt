//! Circuits: their nodes, inputs, latches, properties and names.

ghost use Rattle.std.specs.Prelude.{◌≡◌, ◌↔◌, ◌<◌, ◌≤◌, ◌^◌, ◌++◌, ◌∷◌, [], Some, false, IsTrue, All, IfOk, IfSome, OnOk, OnErr, length, map, slice_get};
ghost use Rattle.aig_circuit.specs.declared.node.AigNodeType.TheVariants.{Leaf};
ghost use Rattle.aig_circuit.specs.Node.{Admits, gates_of};
ghost use Rattle.aig_circuit.specs.Build.{with_node};
ghost use Rattle.aig_circuit.specs.Circuit.{BeginsWith, HasFreeLeaf, IsCircuit, IsClosed, IsInRange, IsLeaf, IsFree, only_false};
ghost use Rattle.aig_circuit.specs.Reach.{IsFanin, IsReached, MarksExactly};
ghost use Rattle.aig_circuit.specs.View.{lists_circuit, names_of};
ghost use Rattle.aig_format.specs.Writable.{AreTexts};
ghost use Rattle.aig.specs.Gates.{IsGateOf};

mod builders;
mod names;
mod setters;

use aig_base::MemoryError;
use aig_circuit::{
    AigEdge, AigLatch, AigNode, AndsIter, CircuitLists, CircuitView, Properties, checks,
    false_node, gates_among, leaves,
};
use std::alloc::{AllocError, Global};
use std::collections::HashMap;
use std::marker::Model;
use std::ops::{Index, Range};

/// The most nodes whose edges have literals.
pub(crate) const MOST_NODES: usize = 1 << 31;

/// A sequential circuit, kept as an And-Inverter Graph.
///
/// It is a list of nodes: node 0 is false, and every other node is a leaf or the and of two edges to nodes before it. A
/// node's number is its place in the list. Inputs and the leaves of latches are leaves, and distinct. A leaf that is
/// neither is free. Latches have a next edge and perhaps an initial edge. Beside them stand four lists of property
/// edges, a list of justice sets, and names of nodes (AIGER 1.9, "Properties" and "Reset logic").
///
/// An edge is of a circuit where the circuit has a node of its number (`has_edge`). Calls that take memory take it from
/// the allocator that `new`, `from_aiger` or `from_file` was given. A call that returns an error leaves the circuit as
/// it was.
pub struct Aig {
    pub(crate) lists: CircuitLists,
}

impl Drop for Aig {
    fn drop(self) {
        let Aig { lists: _ } = self;
    }
}

impl Model for Aig {
    ghost use Rattle.aig_circuit.specs.Circuit.{Circuit, IsCircuit};

    ghost Value = { Circuit };

    ghost use Rattle.std.specs.Coded.{codes, coded_ℕ, coded_list};
    ghost use Rattle.std.specs.FinMap as finite_map;
    ghost use Rattle.std.specs.Ordering.{nat_cmp};

    ghost coded = { Prim.hlevel
        (codes, finite_map.code {R = nat_cmp} coded_ℕ (coded_list coded_ℕ)) };

    ghost use Rattle.aig.specs.View.{circuit_of_lists};

    ghost view = { circuit_of_lists };

    ghost invariant = { λ a. IsCircuit (circuit_of_lists a) };
}

impl Aig {
    /// Returns the circuit of node 0 alone, whose allocator is `alloc`.
    ///
    /// # Errors
    ///
    /// - `Memory`: memory was refused.
    pub fn new(alloc: Global) -> Result<Aig, MemoryError>
        ensures { IfOk result (λ aig. aig ≡ only_false) }
    {
        let mut nodes = Vec::new(alloc);
        nodes.push(false_node())?;
        Ok(Aig {
            lists: CircuitLists {
                nodes,
                inputs: Vec::new(alloc),
                latchs: Vec::new(alloc),
                properties: Properties::new(alloc),
                names: HashMap::new(alloc),
            },
        })
    }

    /// The circuit of these lists.
    pub(crate) fn from_lists(lists: CircuitLists) -> Aig
        requires { IsCircuit (lists_circuit lists) }
        ensures { result ≡ lists_circuit lists }
    {
        Aig { lists }
    }

    /// The allocator of its lists.
    pub(crate) fn allocator(&self) -> Global {
        *self.lists.nodes.allocator()
    }

    /// The circuit, borrowed.
    pub(crate) fn view(&self) -> CircuitView<'_>
        ensures value { result ≡ self.now }
        ensures circuit { IsCircuit self.now }
        ensures texts { AreTexts self.now.names }
    {
        CircuitView::new(&self.lists)
    }

    /// Adds a free leaf, and returns its number.
    ///
    /// `add_input` makes it an input, and `add_latch` a latch's.
    ///
    /// # Errors
    ///
    /// - `Memory`: memory was refused. The circuit stays as it was.
    pub fn new_leaf_node(&mut self) -> Result<usize, MemoryError>
        ensures number { IfOk result (λ id. id ≡ length self.old.nodes) }
        ensures ok { OnOk result
            (self.new ≡ record self.old { nodes = with_node self.old.nodes Leaf }) }
        ensures err { OnErr result (self.new ≡ self.old) }
    {
        aig_build::new_leaf_node(&mut self.lists.nodes)
    }

    /// Adds a leaf that is the last input, and returns its number.
    ///
    /// # Errors
    ///
    /// - `Memory`: memory was refused. The circuit stays as it was.
    pub fn new_input(&mut self) -> Result<usize, MemoryError>
        ensures number { IfOk result (λ id. id ≡ length self.old.nodes) }
        ensures ok { IfOk result (λ id. self.new ≡ record self.old
            { nodes = with_node self.old.nodes Leaf; inputs = self.old.inputs ++ id ∷ [] }) }
        ensures err { OnErr result (self.new ≡ self.old) }
    {
        self.lists.inputs.reserve(1)?;
        let id = aig_build::new_leaf_node(&mut self.lists.nodes)?;
        self.lists.inputs.push(id)?;
        Ok(id)
    }

    /// Makes a free leaf, given by its number, the last input.
    ///
    /// # Requirements
    ///
    /// - Node `id` is a free leaf (`is_free_leaf`).
    ///
    /// # Errors
    ///
    /// - `Memory`: memory was refused. The circuit stays as it was.
    pub fn add_input(&mut self, id: usize) -> Result<(), MemoryError>
        requires leaf { IsLeaf self.old.nodes id }
        requires free { IsFree self.old.inputs self.old.latchs id }
        ensures ok { OnOk result
            (self.new ≡ record self.old { inputs = self.old.inputs ++ id ∷ [] }) }
        ensures err { OnErr result (self.new ≡ self.old) }
    {
        self.lists.inputs.push(id)?;
        Ok(())
    }

    /// Adds a leaf with the last latch, and returns the leaf's number.
    ///
    /// At each step the latch has the value that `next` had at the step before, and in an initial state the value of
    /// `init`; without `init` it has either. An edge to a later node is set by `set_next` or `set_init`, or by
    /// `new_leaf_node` and later `add_latch` in place of this call.
    ///
    /// # Requirements
    ///
    /// - `next`, and `init` where it is there, are of this circuit before the call (`has_edge`).
    ///
    /// # Errors
    ///
    /// - `Memory`: memory was refused. The circuit stays as it was.
    pub fn new_latch(&mut self, next: AigEdge, init: Option<AigEdge>) -> Result<usize, MemoryError>
        requires next_edge { IsInRange self.old.nodes next }
        requires init_edge { IfSome init (IsInRange self.old.nodes) }
        ensures number { IfOk result (λ id. id ≡ length self.old.nodes) }
        ensures ok { IfOk result (λ id. self.new ≡ record self.old {
          nodes = with_node self.old.nodes Leaf;
          latchs = self.old.latchs ++ record { input = id; next = next; init = init } ∷ [];
        }) }
        ensures err { OnErr result (self.new ≡ self.old) }
    {
        self.lists.latchs.reserve(1)?;
        let id = aig_build::new_leaf_node(&mut self.lists.nodes)?;
        self.lists.latchs.push(AigLatch::new(id, next, init))?;
        Ok(id)
    }

    /// Makes a free leaf, given by its number, the leaf of the last latch, with the next edge `next` and the initial
    /// edge `init`, if any.
    ///
    /// # Requirements
    ///
    /// - Node `id` is a free leaf (`is_free_leaf`).
    /// - `next`, and `init` where it is there, are of this circuit (`has_edge`).
    ///
    /// # Errors
    ///
    /// - `Memory`: memory was refused. The circuit stays as it was.
    pub fn add_latch(
        &mut self,
        id: usize,
        next: AigEdge,
        init: Option<AigEdge>,
    ) -> Result<(), MemoryError>
        requires leaf { IsLeaf self.old.nodes id }
        requires free { IsFree self.old.inputs self.old.latchs id }
        requires next_edge { IsInRange self.old.nodes next }
        requires init_edge { IfSome init (IsInRange self.old.nodes) }
        ensures ok { OnOk result (self.new ≡ record self.old
            { latchs = self.old.latchs ++ record { input = id; next = next; init = init } ∷ [] }) }
        ensures err { OnErr result (self.new ≡ self.old) }
    {
        self.lists.latchs.push(AigLatch::new(id, next, init))?;
        Ok(())
    }

    /// Returns the nodes. The place of a node is its number.
    pub fn nodes(&self) -> &[AigNode]
        ensures value { result.now ≡ self.now.nodes }
        ensures circuit { IsCircuit self.now }
    {
        &self.lists.nodes
    }

    /// Returns the numbers of the inputs, in their order.
    pub fn inputs(&self) -> &[usize]
        ensures value { result.now ≡ self.now.inputs }
        ensures circuit { IsCircuit self.now }
    {
        &self.lists.inputs
    }

    /// Returns the latches, in their order.
    pub fn latchs(&self) -> &[AigLatch]
        ensures value { result.now ≡ self.now.latchs }
        ensures circuit { IsCircuit self.now }
    {
        &self.lists.latchs
    }

    /// Returns the edges of the outputs, in their order.
    pub fn outputs(&self) -> &[AigEdge]
        ensures value { result.now ≡ self.now.properties.outputs }
        ensures circuit { IsCircuit self.now }
    {
        &self.lists.properties.outputs
    }

    /// Returns the edges of the bad state properties, in their order.
    pub fn bads(&self) -> &[AigEdge]
        ensures value { result.now ≡ self.now.properties.bads }
        ensures circuit { IsCircuit self.now }
    {
        &self.lists.properties.bads
    }

    /// Returns the edges of the invariant constraints, in their order.
    pub fn constraints(&self) -> &[AigEdge]
        ensures value { result.now ≡ self.now.properties.constraints }
        ensures circuit { IsCircuit self.now }
    {
        &self.lists.properties.constraints
    }

    /// Returns the justice properties, a set of edges each, in their order.
    pub fn justice(&self) -> &[Vec<AigEdge>]
        ensures value { map (λ set. set.items) result.now ≡ self.now.properties.justice }
        ensures circuit { IsCircuit self.now }
    {
        &self.lists.properties.justice
    }

    /// Returns the edges of the fairness constraints, in their order.
    pub fn fairness(&self) -> &[AigEdge]
        ensures value { result.now ≡ self.now.properties.fairness }
        ensures circuit { IsCircuit self.now }
    {
        &self.lists.properties.fairness
    }

    /// Returns the names of nodes, by their numbers.
    ///
    /// Any node may have a name. Files keep those of inputs and latches.
    pub fn symbols(&self) -> &HashMap<usize, String>
        ensures value { names_of result.now.entries ≡ self.now.names }
        // Each name is UTF-8.
        ensures texts { AreTexts self.now.names }
        ensures circuit { IsCircuit self.now }
    {
        &self.lists.names
    }

    /// Returns how many nodes there are, node 0 among them.
    pub fn num_nodes(&self) -> usize
        ensures value { result ≡ length self.now.nodes }
        ensures circuit { IsCircuit self.now }
    {
        self.lists.nodes.len()
    }

    /// Returns the numbers of all nodes but 0.
    pub fn nodes_range(&self) -> Range<usize>
        ensures { result ≡ record { start = 1; «end» = length self.now.nodes } }
    {
        1..self.lists.nodes.len()
    }

    /// Returns the numbers of all nodes.
    pub fn nodes_range_with_false(&self) -> Range<usize>
        ensures { result ≡ record { start = 0; «end» = length self.now.nodes } }
    {
        0..self.lists.nodes.len()
    }

    /// Returns an iterator over the gates in rising number.
    pub fn ands_iter(&self) -> AndsIter<'_>
        ensures gates { result ≡ gates_of self.now.nodes }
        // Each stands at its number, and its operands come before it, in order.
        ensures items { All (IsGateOf self.now.nodes) result }
        ensures bound { length result < 2 ^ 64 }
    {
        gates_among(&self.lists.nodes)
    }

    /// Returns whether there is a node of this number.
    pub fn has_node(&self, id: usize) -> bool
        ensures { IsTrue result ↔ (id < length self.now.nodes) }
    {
        id < self.lists.nodes.len()
    }

    /// Returns whether `e` is of this circuit: whether there is a node of its number.
    pub fn has_edge(&self, e: AigEdge) -> bool
        ensures { IsTrue result ↔ IsInRange self.now.nodes e }
    {
        self.has_node(e.node_id())
    }

    /// Returns whether the node of this number is there and is a leaf that is neither an input nor a latch's.
    pub fn is_free_leaf(&self, id: usize) -> bool
        ensures { IsTrue result
            ↔ (IsLeaf self.now.nodes id × IsFree self.now.inputs self.now.latchs id) }
    {
        leaves::is_free_leaf(
            &self.lists.nodes,
            &self.lists.inputs,
            &self.lists.latchs,
            id,
        )
    }

    /// Returns whether no leaf is free.
    pub fn is_closed(&self) -> bool
        ensures closed { IsTrue result ↔ IsClosed self.now }
        ensures open { result ≡ false → HasFreeLeaf self.now.nodes self.now.inputs self.now.latchs }
    {
        leaves::is_closed(&self.lists.nodes, &self.lists.inputs, &self.lists.latchs)
    }

    /// Returns whether there are at most 2^31 nodes, so that each edge has a literal.
    pub fn fits_lits(&self) -> bool
        ensures { IsTrue result ↔ (length self.now.nodes ≤ 2 ^ 31) }
    {
        self.lists.nodes.len() <= MOST_NODES
    }

    /// Returns whether `node` may stand in place of node `i` (`set_node`).
    ///
    /// It may where node `i` is there, the number of `node` is `i`, both are of one kind, and a gate's operands are in
    /// order and have smaller numbers.
    pub fn admits(&self, i: usize, node: &AigNode) -> bool
        ensures { IsTrue result ↔ Admits self.now.nodes i node.now }
    {
        checks::admits(&self.lists.nodes, i, node)
    }

    /// Returns whether the first nodes are those of `from`, and the latches have the same leaves in the same order.
    pub fn begins_with(&self, from: &Aig) -> bool
        ensures { IsTrue result ↔ BeginsWith self.now from.now }
    {
        checks::has_first(&self.lists.nodes, &from.lists.nodes)
            && checks::have_same_leaves(&self.lists.latchs, &from.lists.latchs)
    }
}

impl Aig {
    /// Returns a mark for each node, by number: whether it is a node of the edges `logic` or one that they reach along
    /// operands.
    ///
    /// Node 0 is marked only where it is reached. Latches aren't crossed; `coi` crosses them.
    ///
    /// # Requirements
    ///
    /// - Each edge of `logic` is of this circuit (`has_edge`).
    ///
    /// # Errors
    ///
    /// - `Memory`: memory was refused.
    pub fn fanin_logic_cone(&self, logic: &[AigEdge]) -> Result<Vec<bool>, MemoryError>
        requires { All (IsInRange self.now.nodes) logic.now }
        ensures { IfOk result (λ marks. MarksExactly self.now.nodes
            (IsReached (IsFanin self.now.nodes) (map (λ e. e.node_id) logic.now)) marks.items) }
    {
        aig_cone::fanin_logic_cone(self.allocator(), self.nodes(), logic)
    }
}

impl Clone for Aig {
    ghost is_clone = { λ aig copy. copy ≡ aig };

    /// Returns a copy, which is the same circuit.
    ///
    /// # Errors
    ///
    /// - `AllocError`: memory was refused.
    fn clone(&self) -> Result<Aig, AllocError> {
        match self.view().to_lists() {
            Ok(lists) => Ok(Aig { lists }),
            Err(_) => Err(AllocError),
        }
    }
}

impl Index<usize> for Aig {
    type Output = AigNode;

    ghost can_index = { λ aig id. id < length aig.nodes };

    ghost index_gives = { λ aig id node. slice_get aig.nodes id ≡ Some node };

    /// Returns the node of this number.
    ///
    /// # Requirements
    ///
    /// - There is such a node (`has_node`).
    fn index(&self, id: usize) -> &AigNode {
        &self.lists.nodes[id]
    }
}
