//! Gates that share a node.

ghost use Rattle.std.specs.Prelude.{◌≡◌, ◌+◌, ◌<◌, IfOk, OnOk, List, length, map, slice_index};
ghost use Rattle.aig_circuit.specs.declared.node.AigNode.{AigNode};
ghost use Rattle.aig_circuit.specs.Circuit.{AreNodes};
ghost use Rattle.aig_circuit.specs.Edge.{literal_of};
ghost use Rattle.aig_circuit.specs.Node.{and_of};
ghost use Rattle.aig_circuit.specs.Renumber.{renumbered_edge};
ghost use Rattle.aig_circuit.specs.View.{lists_circuit};
ghost use Rattle.aig_strash.specs.Exchange.{image_of, kept_nodes, node_numbers};
ghost use Rattle.aig_strash.specs.Numbering.{HasGates, HasNumbered, HasSmallLiteral, operand_literals};
ghost use Rattle.aig_strash.specs.Strash.{strashed};
ghost use Rattle.aig_strash.specs.Tables.{gate_table, literal_limit, number_table};

use crate::numbers::Tables;
use aig_base::MemoryError;
use aig_circuit::{AigEdge, AigNode, AigNodeType, CircuitLists, CircuitView};
use aig_renumber::renumber;
use std::alloc::Global;

/// Returns the circuit in which gates share one node exactly where their trees are equal up to exchange (crate aig,
/// `strash`). Kept are false, all leaves and the first gate of each kind, reached or not, in their order; nothing is
/// folded. Names of kept nodes stay, and those of merged gates are dropped. The one error is refused memory.
pub fn strash(circuit: &CircuitView<'_>) -> Result<CircuitLists, MemoryError>
    ensures { IfOk result (λ lists. lists_circuit lists ≡ strashed circuit.now) }
{
    let alloc = circuit.allocator();
    let (numbers, kept) = number_nodes(alloc, circuit.nodes())?;
    renumber(alloc, circuit, &numbers, &kept)
}

/// Returns the new number of each node, and the old numbers of the kept nodes.
fn number_nodes(alloc: Global, nodes: &[AigNode]) -> Result<(Vec<usize>, Vec<usize>), MemoryError>
    requires { AreNodes nodes.now }
    ensures numbers { IfOk result
        (λ tables. tables.0.items ≡ map (image_of nodes.now) (node_numbers nodes.now)) }
    ensures kept { IfOk result (λ tables. tables.1.items ≡ kept_nodes nodes.now) }
{
    let mut numbering = Numbering::with_room(alloc, nodes)?;
    for n in 0..nodes.len() {
        numbering.number_node(nodes, n)?;
    }
    let Numbering { tables, count } = numbering;
    let numbers = tables.into_numbers(alloc)?;
    let kept = kept_among(alloc, &numbers, count)?;
    Ok((numbers, kept))
}

/// Returns the old numbers of the kept nodes, of which there are `count`: those whose new number is the next one.
fn kept_among(alloc: Global, numbers: &[usize], count: usize) -> Result<Vec<usize>, MemoryError>
    ensures { IfOk result (λ kept. (nodes : List AigNode) → AreNodes nodes
        → numbers.now ≡ map (image_of nodes) (node_numbers nodes) → kept.items ≡ kept_nodes nodes) }
{
    let mut kept = Vec::with_capacity(alloc, count)?;
    for (n, number) in numbers.iter().enumerate() {
        if *number == kept.len() {
            kept.push(n)?;
        }
    }
    Ok(kept)
}

/// The nodes that were numbered so far.
#[derive(Drop)]
struct Numbering {
    /// The new numbers.
    tables: Tables,
    /// How many nodes are kept, which is the next new number.
    count: usize,
}

impl Numbering {
    /// Returns the numbering of no node so far, with room for these.
    fn with_room(alloc: Global, nodes: &[AigNode]) -> Result<Numbering, MemoryError>
        ensures { IfOk result (HasNumbered nodes.now 0) }
    {
        let tables = Tables::with_room(alloc, nodes)?;
        Ok(Numbering { tables, count: 0 })
    }

    /// Numbers node `n`, the next one, which is kept if its number is new.
    fn number_node(&mut self, nodes: &[AigNode], n: usize) -> Result<(), MemoryError>
        requires nodes { AreNodes nodes.now }
        requires there { n < length nodes.now }
        requires so_far { HasNumbered nodes.now n self.old }
        ensures { OnOk result (HasNumbered nodes.now (n + 1) self.new) }
    {
        let number = self.new_number(nodes, n)?;
        self.tables.push(number)?;
        if number == self.count {
            self.count += 1;
        }
        Ok(())
    }

    /// Returns the new number of node `n`, the next one. A gate has that of an earlier gate with its operands, and any
    /// other node the next number.
    fn new_number(&mut self, nodes: &[AigNode], n: usize) -> Result<usize, MemoryError>
        requires nodes { AreNodes nodes.now }
        requires there { n < length nodes.now }
        requires so_far { HasNumbered nodes.now n self.old }
        ensures number { IfOk result (λ number. number ≡ image_of nodes.now n) }
        ensures gates { OnOk result (HasGates nodes.now (n + 1) (gate_table self.new.tables)) }
        ensures numbers { number_table self.new.tables ≡ number_table self.old.tables }
        ensures limit { literal_limit self.new.tables ≡ literal_limit self.old.tables }
        ensures count { self.new.count ≡ self.old.count }
    {
        match *nodes[n].typ() {
            AigNodeType::And(fanin0, fanin1) => {
                let literals = new_literals(&self.tables, fanin0, fanin1);
                self.tables.number_at(literals, self.count)
            }
            AigNodeType::False | AigNodeType::Leaf => Ok(self.count),
        }
    }
}

/// Returns the literals of a gate's operands under the new numbers, in order.
fn new_literals(tables: &Tables, fanin0: AigEdge, fanin1: AigEdge) -> (usize, usize)
    requires first { HasSmallLiteral tables.now fanin0 }
    requires second { HasSmallLiteral tables.now fanin1 }
    ensures literals { let image = renumbered_edge (slice_index (number_table tables.now)) in
        result ≡ operand_literals (and_of (image fanin0) (image fanin1)) }
    ensures first { result.0 < literal_limit tables.now }
    ensures second { result.1 < literal_limit tables.now }
{
    let first = new_literal(tables, fanin0);
    let second = new_literal(tables, fanin1);
    (first.min(second), first.max(second))
}

/// Returns the literal of an edge under the new numbers: twice its node's number, and one more where it is inverted.
fn new_literal(tables: &Tables, edge: AigEdge) -> usize
    requires { HasSmallLiteral tables.now edge }
    ensures literal { result
        ≡ literal_of (renumbered_edge (slice_index (number_table tables.now)) edge) }
    ensures small { result < literal_limit tables.now }
{
    2 * tables.number(edge.node_id()) + usize::from(edge.compl())
}
