//! The nodes of a question while it is made.

ghost use Rattle.std.specs.Prelude.{◌≡◌, ◌≤◌, ◌++◌, ◌∷◌, [], ◌^◌, ◌&&◌, ◌||◌, IfOk, OnOk, length};
ghost use Rattle.aig_circuit.specs.declared.node.AigNodeType.TheVariants.{False, Leaf};
ghost use Rattle.aig_circuit.specs.Build.{with_node};
ghost use Rattle.aig_circuit.specs.Circuit.{AreNodes, Circuit, IsInRange};
ghost use Rattle.aig_circuit.specs.Tree.{edge_value};
ghost use Rattle.aig_bounded.specs.Shared.{made_in, shared_and, shared_or};
ghost use Rattle.aig_bounded.specs.Frames.{AddsUpTo, AreFrames, AreShared, MakesEdge, Opens, net_of};

use crate::error::BoundedError;
use crate::gates::shared_and_node;
use crate::place::Place;
use crate::seeded::Seeded;
use aig_base::MemoryError;
use aig_build::new_leaf_node;
use aig_circuit::{AigEdge, AigNode, false_node};
use std::alloc::Global;
use std::collections::HashMap;

/// The nodes of a question while it is made, with its inputs and their places.
#[derive(Drop)]
pub(crate) struct Frames {
    /// The nodes.
    pub(crate) nodes: Vec<AigNode>,
    /// The numbers of the gates among them, by the literals of their operands.
    gates: HashMap<(u32, u32), u32, Seeded>,
    /// The leaves among them, in rising number.
    pub(crate) inputs: Vec<usize>,
    /// Their places.
    pub(crate) places: Vec<Place>,
    /// How many nodes there may be.
    pub(crate) limit: usize,
}

impl Frames {
    /// Returns the false node alone.
    pub(crate) fn new(alloc: Global, limit: usize, seeded: Seeded) -> Result<Frames, MemoryError>
        requires some { 1 ≤ limit }
        requires few { limit ≤ 2 ^ 31 }
        ensures frames { IfOk result (λ made. (c : Circuit) → AreFrames c 0 0 made) }
        ensures limit { IfOk result (λ made. made.limit ≡ limit) }
        ensures net { IfOk result (λ made. net_of made ≡ record {
          nodes = record { node_id = 0; typ = False } ∷ [];
          inputs = [];
          places = [];
        }) }
    {
        let mut nodes = Vec::new(alloc);
        nodes.push(false_node())?;
        Ok(Frames {
            nodes,
            gates: HashMap::with_hasher(alloc, seeded),
            inputs: Vec::new(alloc),
            places: Vec::new(alloc),
            limit,
        })
    }

    /// Appends a leaf, which is the input of this place, whatever the limit, and returns its number.
    fn new_input(&mut self, place: Place) -> Result<usize, MemoryError>
        requires { AreNodes self.old.nodes.items }
        ensures number { IfOk result (λ id. id ≡ length self.old.nodes.items) }
        ensures nodes { OnOk result (self.new.nodes.items ≡ with_node self.old.nodes.items Leaf) }
        ensures inputs { OnOk result (self.new.inputs.items
            ≡ self.old.inputs.items ++ length self.old.nodes.items ∷ []) }
        ensures places { OnOk result (self.new.places.items
            ≡ self.old.places.items ++ place ∷ []) }
        ensures limit { self.new.limit ≡ self.old.limit }
        ensures gates { self.new.gates ≡ self.old.gates }
    {
        let id = new_leaf_node(&mut self.nodes)?;
        self.inputs.push(id)?;
        self.places.push(place)?;
        Ok(id)
    }

    /// Adds a leaf, which is the input of this place.
    pub(crate) fn open(&mut self, place: Place) -> Result<AigEdge, BoundedError>
        requires { AreShared self.old }
        ensures opens { IfOk result (Opens self.old self.new place) }
        ensures size { AddsUpTo 1 self.old self.new result }
    {
        if self.nodes.len() >= self.limit {
            return Err(BoundedError::TooLarge);
        }
        let id = self.new_input(place)?;
        Ok(AigEdge::from(id))
    }

    /// The and of two edges: what they fold to, the gate that is there, or a new one.
    pub(crate) fn and(&mut self, fanin0: AigEdge, fanin1: AigEdge) -> Result<AigEdge, BoundedError>
        requires shared { AreShared self.old }
        requires first { IsInRange self.old.nodes.items fanin0 }
        requires second { IsInRange self.old.nodes.items fanin1 }
        ensures gives { IfOk result (MakesEdge (λ y. edge_value self.old.nodes.items y fanin0
            && edge_value self.old.nodes.items y fanin1) self.old self.new) }
        ensures exact { IfOk result
            (λ e. made_in (net_of self.new) e ≡ shared_and (net_of self.old) fanin0 fanin1) }
        ensures size { AddsUpTo 1 self.old self.new result }
    {
        let edge = shared_and_node(&mut self.nodes, &mut self.gates, fanin0, fanin1)?;
        if self.nodes.len() > self.limit {
            return Err(BoundedError::TooLarge);
        }
        Ok(edge)
    }

    /// The or of two edges.
    pub(crate) fn or(&mut self, fanin0: AigEdge, fanin1: AigEdge) -> Result<AigEdge, BoundedError>
        requires shared { AreShared self.old }
        requires first { IsInRange self.old.nodes.items fanin0 }
        requires second { IsInRange self.old.nodes.items fanin1 }
        ensures gives { IfOk result (MakesEdge (λ y. edge_value self.old.nodes.items y fanin0
            || edge_value self.old.nodes.items y fanin1) self.old self.new) }
        ensures exact { IfOk result
            (λ e. made_in (net_of self.new) e ≡ shared_or (net_of self.old) fanin0 fanin1) }
        ensures size { AddsUpTo 1 self.old self.new result }
    {
        Ok(!self.and(!fanin0, !fanin1)?)
    }
}
