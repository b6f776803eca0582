//! Edges, latches, nodes and lists of them under new numbers.

ghost use Rattle.std.specs.Prelude.{◌≡◌, All, Some, map};
ghost use Rattle.aig_circuit.specs.declared.node.AigNodeType.TheVariants.{False};
ghost use Rattle.aig_circuit.specs.Node.{IfAnd};
ghost use Rattle.aig_circuit.specs.Properties.{AllProperties, map_properties};
ghost use Rattle.aig_circuit.specs.Renumber.{renumbered_edge, renumbered_kind, renumbered_latch};
ghost use Rattle.aig_circuit.specs.View.{properties_of};
ghost use Rattle.aig_renumber.specs.Numbers.{IsEdgeIn, IsLatchIn};

use crate::numbering::Numbering;
use aig_circuit::{
    AigEdge, AigLatch, AigNode, AigNodeType, Properties, false_node, gate_node, leaf_node,
};

/// The edge to the node's new number.
#[inline]
pub fn renumbered_edge<N: Numbering>(numbers: &N, e: AigEdge) -> AigEdge
    requires { IsEdgeIn (N.has numbers.now) e }
    ensures { result ≡ renumbered_edge (N.number_of numbers.now) e }
{
    AigEdge::new(numbers.number(e.node_id()), e.compl())
}

/// The latch with its leaf and its edges under their new numbers.
#[inline]
pub fn renumbered_latch<N: Numbering>(numbers: &N, latch: AigLatch) -> AigLatch
    requires { IsLatchIn (N.has numbers.now) latch }
    ensures { result ≡ renumbered_latch (N.number_of numbers.now) latch }
{
    let init = latch.init().map(|e| renumbered_edge(numbers, e));
    AigLatch::new(
        numbers.number(latch.input()),
        renumbered_edge(numbers, latch.next()),
        init,
    )
}

/// The node under the number `id`, with a gate's operands under their new numbers and put in order again.
pub fn renumbered_node<N: Numbering>(numbers: &N, id: usize, node: &AigNode) -> AigNode
    requires operands { IfAnd node.now.typ (N.has numbers.now) }
    requires number { node.now.typ ≡ False → id ≡ 0 }
    ensures { result ≡ record
        { node_id = id; typ = renumbered_kind (N.number_of numbers.now) (Some node.now.typ) } }
{
    match *node.typ() {
        AigNodeType::And(fanin0, fanin1) => {
            let first = renumbered_edge(numbers, fanin0);
            let second = renumbered_edge(numbers, fanin1);
            gate_node(id, first, second)
        }
        AigNodeType::Leaf => leaf_node(id),
        AigNodeType::False => false_node(),
    }
}

/// Puts nodes under their new numbers.
pub fn renumber_nodes<N: Numbering>(numbers: &N, nodes: &mut [usize])
    requires { All (N.has numbers.now) nodes.old }
    ensures { nodes.new ≡ map (N.number_of numbers.now) nodes.old }
{
    for n in nodes.iter_mut() {
        *n = numbers.number(*n);
    }
}

/// Puts edges under the nodes' new numbers.
pub fn renumber_edges<N: Numbering>(numbers: &N, edges: &mut [AigEdge])
    requires { All (IsEdgeIn (N.has numbers.now)) edges.old }
    ensures { edges.new ≡ map (renumbered_edge (N.number_of numbers.now)) edges.old }
{
    for e in edges.iter_mut() {
        *e = renumbered_edge(numbers, *e);
    }
}

/// Puts sets of edges under the nodes' new numbers.
pub fn renumber_sets<N: Numbering>(numbers: &N, sets: &mut [Vec<AigEdge>])
    requires { All (All (IsEdgeIn (N.has numbers.now))) (map (λ set. set.items) sets.old) }
    ensures { map (λ set. set.items) sets.new
        ≡ map (map (renumbered_edge (N.number_of numbers.now)))
        (map (λ set. set.items) sets.old) }
{
    for set in sets.iter_mut() {
        renumber_edges(numbers, set);
    }
}

/// Puts latches under their nodes' new numbers.
pub fn renumber_latches<N: Numbering>(numbers: &N, latchs: &mut [AigLatch])
    requires { All (IsLatchIn (N.has numbers.now)) latchs.old }
    ensures { latchs.new ≡ map (renumbered_latch (N.number_of numbers.now)) latchs.old }
{
    for latch in latchs.iter_mut() {
        *latch = renumbered_latch(numbers, *latch);
    }
}

/// Puts the edges of properties under the nodes' new numbers.
pub fn renumber_properties<N: Numbering>(numbers: &N, properties: &mut Properties<AigEdge>)
    requires { AllProperties (IsEdgeIn (N.has numbers.now)) (properties_of properties.old) }
    ensures { properties_of properties.new
        ≡ map_properties (renumbered_edge (N.number_of numbers.now))
        (properties_of properties.old) }
{
    renumber_edges(numbers, &mut properties.outputs);
    renumber_edges(numbers, &mut properties.bads);
    renumber_edges(numbers, &mut properties.constraints);
    renumber_sets(numbers, &mut properties.justice);
    renumber_edges(numbers, &mut properties.fairness);
}
