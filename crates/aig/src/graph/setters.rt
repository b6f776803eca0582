//! Changes of single entries: property edges, latches' edges, and nodes.

ghost use Rattle.std.specs.Prelude.{◌≡◌, ◌<◌, ◌++◌, ◌∷◌, [], Some, IfSome, OnOk, OnErr, All, length, slice_get, slice_set};
ghost use Rattle.aig_circuit.specs.declared.node.AigLatch.{AigLatch};
ghost use Rattle.aig_circuit.specs.Node.{Admits};
ghost use Rattle.aig_circuit.specs.Circuit.{IsInRange};
ghost use Rattle.aig_circuit.specs.PropLists.{edges_of, with_edges};

use super::Aig;
use aig_base::MemoryError;
use aig_circuit::{AigEdge, AigLatch, AigNode, PropList};

impl Aig {
    /// Appends an edge to a list.
    ///
    /// # Requirements
    ///
    /// - `e` is of this circuit (`has_edge`).
    ///
    /// # Errors
    ///
    /// - `Memory`: memory was refused. The circuit stays as it was.
    pub fn push_edge(&mut self, list: PropList, e: AigEdge) -> Result<(), MemoryError>
        requires { IsInRange self.old.nodes e }
        ensures ok { OnOk result
            (self.new ≡ with_edges list self.old (edges_of list self.old ++ e ∷ [])) }
        ensures err { OnErr result (self.new ≡ self.old) }
    {
        match list {
            PropList::Outputs => self.lists.properties.outputs.push(e)?,
            PropList::Bads => self.lists.properties.bads.push(e)?,
            PropList::Constraints => self.lists.properties.constraints.push(e)?,
            PropList::Fairness => self.lists.properties.fairness.push(e)?,
        }
        Ok(())
    }

    /// Replaces entry `i` of a list, counted from 0.
    ///
    /// # Requirements
    ///
    /// - `i` is below the length of the list, which `outputs`, `bads`, `constraints` or `fairness` gives.
    /// - `e` is of this circuit (`has_edge`).
    pub fn set_edge(&mut self, list: PropList, i: usize, e: AigEdge)
        requires place { i < length (edges_of list self.old) }
        requires edge { IsInRange self.old.nodes e }
        ensures { self.new ≡ with_edges list self.old (slice_set (edges_of list self.old) i e) }
    {
        match list {
            PropList::Outputs => self.lists.properties.outputs[i] = e,
            PropList::Bads => self.lists.properties.bads[i] = e,
            PropList::Constraints => self.lists.properties.constraints[i] = e,
            PropList::Fairness => self.lists.properties.fairness[i] = e,
        }
    }

    /// Empties a list.
    pub fn clear_edges(&mut self, list: PropList)
        ensures { self.new ≡ with_edges list self.old [] }
    {
        match list {
            PropList::Outputs => self.lists.properties.outputs.clear(),
            PropList::Bads => self.lists.properties.bads.clear(),
            PropList::Constraints => self.lists.properties.constraints.clear(),
            PropList::Fairness => self.lists.properties.fairness.clear(),
        }
    }

    /// Appends a justice property, a set of edges.
    ///
    /// # Requirements
    ///
    /// - Each edge of `set` is of this circuit (`has_edge`).
    ///
    /// # Errors
    ///
    /// - `Memory`: memory was refused. The circuit stays as it was.
    pub fn push_justice(&mut self, set: Vec<AigEdge>) -> Result<(), MemoryError>
        requires { All (IsInRange self.old.nodes) set.items }
        ensures ok { OnOk result
            (self.new ≡ record self.old {
              properties = record self.old.properties
                  { justice = self.old.properties.justice ++ set.items ∷ [] };
            }) }
        ensures err { OnErr result (self.new ≡ self.old) }
    {
        self.lists.properties.justice.push(set)?;
        Ok(())
    }

    /// Drops all justice properties.
    pub fn clear_justice(&mut self)
        ensures { self.new ≡ record self.old
            { properties = record self.old.properties { justice = [] } } }
    {
        self.lists.properties.justice.clear();
    }

    /// Replaces the next edge of latch `i`, counted from 0.
    ///
    /// # Requirements
    ///
    /// - `i` is below the number of latches (`latchs`).
    /// - `e` is of this circuit (`has_edge`).
    pub fn set_next(&mut self, i: usize, e: AigEdge)
        requires place { i < length self.old.latchs }
        requires edge { IsInRange self.old.nodes e }
        ensures { (latch : AigLatch) → slice_get self.old.latchs i ≡ Some latch
            → self.new ≡ record self.old
            { latchs = slice_set self.old.latchs i (record latch { next = e }) } }
    {
        let latch = self.lists.latchs[i];
        self.lists.latchs[i] = AigLatch::new(latch.input(), e, latch.init());
    }

    /// Replaces the initial edge of latch `i`, counted from 0. With `None` the latch has none.
    ///
    /// # Requirements
    ///
    /// - `i` is below the number of latches (`latchs`).
    /// - `e`, where it is there, is of this circuit (`has_edge`).
    pub fn set_init(&mut self, i: usize, e: Option<AigEdge>)
        requires place { i < length self.old.latchs }
        requires edge { IfSome e (IsInRange self.old.nodes) }
        ensures { (latch : AigLatch) → slice_get self.old.latchs i ≡ Some latch
            → self.new ≡ record self.old
            { latchs = slice_set self.old.latchs i (record latch { init = e }) } }
    {
        let latch = self.lists.latchs[i];
        self.lists.latchs[i] = AigLatch::new(latch.input(), latch.next(), e);
    }

    /// Puts a node in place of node `i`.
    ///
    /// # Requirements
    ///
    /// - `node` may stand there (`admits`).
    pub fn set_node(&mut self, i: usize, node: AigNode)
        requires { Admits self.old.nodes i node }
        ensures { self.new ≡ record self.old { nodes = slice_set self.old.nodes i node } }
    {
        self.lists.nodes[i] = node;
    }
}
