//! The lists that make a circuit, owned or borrowed.

ghost use Rattle.std.specs.Prelude.{◌≡◌, IfOk, map};
ghost use Rattle.aig_circuit.specs.Circuit.{IsCircuit};
ghost use Rattle.aig_circuit.specs.PropLists.{edges_of};
ghost use Rattle.aig_circuit.specs.View.{lists_circuit, names_of, properties_of};

use crate::edge::AigEdge;
use crate::node::{AigLatch, AigNode};
use crate::prop_list::PropList;
use crate::properties::Properties;
use aig_base::MemoryError;
use std::alloc::{AllocError, Global};
use std::collections::HashMap;
use std::marker::Model;

/// The lists of a circuit.
pub struct CircuitLists {
    /// The nodes, each at the place of its number.
    pub nodes: Vec<AigNode>,
    /// The numbers of the inputs' leaves.
    pub inputs: Vec<usize>,
    /// The latches.
    pub latchs: Vec<AigLatch>,
    /// The properties.
    pub properties: Properties<AigEdge>,
    /// The names of nodes, by their numbers.
    pub names: HashMap<usize, String>,
}

impl Drop for CircuitLists {
    fn drop(self) {
        let CircuitLists {
            nodes: _,
            inputs: _,
            latchs: _,
            properties: _,
            names: _,
        } = self;
    }
}

/// A circuit that is borrowed, as the engines take it.
#[derive(Drop)]
pub struct CircuitView<'a> {
    lists: &'a CircuitLists,
}

impl<'a> Model for CircuitView<'a> {
    ghost use Rattle.aig_circuit.specs.Circuit.{Circuit, IsCircuit};

    ghost Value = { Circuit };

    ghost use Rattle.std.specs.Coded.{codes, coded_ℕ, coded_list};
    ghost use Rattle.std.specs.FinMap as finite_map;
    ghost use Rattle.std.specs.Ordering.{nat_cmp};

    ghost coded = { Prim.hlevel
        (codes, finite_map.code {R = nat_cmp} coded_ℕ (coded_list coded_ℕ)) };

    ghost use Rattle.aig_circuit.specs.View.{lists_circuit};

    ghost view = { λ v. lists_circuit v.lists.now };

    ghost invariant = { λ v. IsCircuit (lists_circuit v.lists.now) };
}

impl<'a> CircuitView<'a> {
    /// The circuit of these lists.
    pub fn new(lists: &'a CircuitLists) -> Self
        requires { IsCircuit (lists_circuit lists.now) }
        ensures { result ≡ lists_circuit lists.now }
    {
        CircuitView { lists }
    }

    /// The nodes, each at the place of its number.
    pub fn nodes(&self) -> &'a [AigNode]
        ensures value { result.now ≡ self.now.nodes }
        ensures circuit { IsCircuit self.now }
    {
        &self.lists.nodes
    }

    /// The numbers of the inputs' leaves.
    pub fn inputs(&self) -> &'a [usize]
        ensures value { result.now ≡ self.now.inputs }
        ensures circuit { IsCircuit self.now }
    {
        &self.lists.inputs
    }

    /// The latches.
    pub fn latchs(&self) -> &'a [AigLatch]
        ensures value { result.now ≡ self.now.latchs }
        ensures circuit { IsCircuit self.now }
    {
        &self.lists.latchs
    }

    /// The properties.
    pub fn properties(&self) -> &'a Properties<AigEdge>
        ensures value { properties_of result.now ≡ self.now.properties }
        ensures circuit { IsCircuit self.now }
    {
        &self.lists.properties
    }

    /// The outputs.
    pub fn outputs(&self) -> &'a [AigEdge]
        ensures value { result.now ≡ self.now.properties.outputs }
        ensures circuit { IsCircuit self.now }
    {
        &self.lists.properties.outputs
    }

    /// The bad states.
    pub fn bads(&self) -> &'a [AigEdge]
        ensures value { result.now ≡ self.now.properties.bads }
        ensures circuit { IsCircuit self.now }
    {
        &self.lists.properties.bads
    }

    /// The invariant constraints.
    pub fn constraints(&self) -> &'a [AigEdge]
        ensures value { result.now ≡ self.now.properties.constraints }
        ensures circuit { IsCircuit self.now }
    {
        &self.lists.properties.constraints
    }

    /// The justice properties, a set of edges each.
    pub fn justice(&self) -> &'a [Vec<AigEdge>]
        ensures value { map (λ set. set.items) result.now ≡ self.now.properties.justice }
        ensures circuit { IsCircuit self.now }
    {
        &self.lists.properties.justice
    }

    /// The fairness constraints.
    pub fn fairness(&self) -> &'a [AigEdge]
        ensures value { result.now ≡ self.now.properties.fairness }
        ensures circuit { IsCircuit self.now }
    {
        &self.lists.properties.fairness
    }

    /// The edges of one of the four lists of property edges.
    pub fn edges(&self, list: PropList) -> &'a [AigEdge]
        ensures value { result.now ≡ edges_of list self.now }
        ensures circuit { IsCircuit self.now }
    {
        match list {
            PropList::Outputs => self.outputs(),
            PropList::Bads => self.bads(),
            PropList::Constraints => self.constraints(),
            PropList::Fairness => self.fairness(),
        }
    }

    /// The names of nodes, by their numbers.
    pub fn names(&self) -> &'a HashMap<usize, String>
        ensures value { names_of result.now.entries ≡ self.now.names }
        ensures circuit { IsCircuit self.now }
    {
        &self.lists.names
    }

    /// The allocator of its lists.
    pub fn allocator(&self) -> Global {
        *self.lists.nodes.allocator()
    }

    /// Returns a copy of all lists, in the allocator of the lists. The one error is refused memory.
    pub fn to_lists(&self) -> Result<CircuitLists, MemoryError>
        ensures copy { IfOk result (λ lists. lists_circuit lists ≡ self.now) }
    {
        let alloc = self.allocator();
        Ok(CircuitLists {
            nodes: Vec::from_slice(alloc, self.nodes())?,
            inputs: Vec::from_slice(alloc, self.inputs())?,
            latchs: Vec::from_slice(alloc, self.latchs())?,
            properties: self.lists.properties.copied(alloc)?,
            names: copied_names(self.names())?,
        })
    }
}

/// A copy of the names.
fn copied_names(old: &HashMap<usize, String>) -> Result<HashMap<usize, String>, AllocError>
    ensures { IfOk result (λ new. names_of new.entries ≡ names_of old.now.entries) }
{
    old.clone()
}
