//! The gates of a circuit, one after another.

ghost use Rattle.std.specs.Prelude.{◌≡◌};
ghost use Rattle.std.specs.Iterator.{YieldsFirstRef, item_count};
ghost use Rattle.aig_circuit.specs.Node.{gates_of};

use crate::node::AigNode;
use std::marker::Model;

/// An iterator over the gates of a circuit in rising number (`Aig::ands_iter`).
#[derive(Drop)]
pub struct AndsIter<'a> {
    nodes: &'a [AigNode],
}

impl<'a> Model for AndsIter<'a> {
    ghost use Rattle.std.specs.Prelude.{List};
    ghost use Rattle.aig_circuit.specs.declared.node.AigNode.{AigNode};
    ghost use Rattle.aig_circuit.specs.Node.{gates_of};

    ghost Value = { List AigNode };

    ghost view = { λ it. gates_of it.nodes.now };
}

impl<'a> Iterator for AndsIter<'a> {
    type Item = &'a AigNode;

    ghost next_gives = { YieldsFirstRef (λ it. it) };

    ghost remaining = { item_count (λ it. it) };

    fn next(&mut self) -> Option<&'a AigNode> {
        while let Some((node, rest)) = self.nodes.split_first() {
            self.nodes = rest;
            if node.is_and() {
                return Some(node);
            }
        }
        None
    }
}

/// The gates among the nodes, in rising number.
pub fn gates_among(nodes: &[AigNode]) -> AndsIter<'_>
    ensures { result ≡ gates_of nodes.now }
{
    AndsIter { nodes }
}
