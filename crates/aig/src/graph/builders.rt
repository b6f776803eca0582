//! Gates that are added for the connectives.

ghost use Rattle.std.specs.Bool.{beq};
ghost use Rattle.std.specs.Prelude.{◌≡◌, ◌&&◌, ◌||◌, not, IfOk, IsOk, OnErr, All, map};
ghost use Rattle.std.specs.Iterator.{IsFiniteIterable};
ghost use Rattle.aig_circuit.specs.Edge.{inverse};
ghost use Rattle.aig_circuit.specs.Build.{AddsGate, AddsGateForEach, AddsOneEach, AddsOnlyGates, Folds, FoldsOrAdds, FoldsOrAddsAll, FoldsOrAddsEq, GivesEdge, JoinsByAnd, JoinsByOr};
ghost use Rattle.aig_circuit.specs.Circuit.{IsInRange};
ghost use Rattle.aig_circuit.specs.Tree.{edge_value};
ghost use Rattle.aig.specs.Items.{ForItems, TakesItems};

use super::Aig;
use aig_base::MemoryError;
use aig_circuit::AigEdge;
use std::alloc::Global;

impl Aig {
    /// Adds a gate, the and of two edges, and returns the edge to it.
    ///
    /// The gate is added always, and nothing is folded.
    ///
    /// # Requirements
    ///
    /// - `fanin0` and `fanin1` are of this circuit (`has_edge`).
    ///
    /// # Errors
    ///
    /// - `Memory`: memory was refused. The circuit stays as it was.
    pub fn trivial_new_and_node(
        &mut self,
        fanin0: AigEdge,
        fanin1: AigEdge,
    ) -> Result<AigEdge, MemoryError>
        requires first { IsInRange self.old.nodes fanin0 }
        requires second { IsInRange self.old.nodes fanin1 }
        ensures gate { IfOk result (λ e. AddsGate self.old.nodes self.new.nodes fanin0 fanin1 e) }
        ensures gives { IfOk result (GivesEdge self.new.nodes (λ x.
            edge_value self.old.nodes x fanin0 && edge_value self.old.nodes x fanin1)) }
        // Gates alone are added, after the old nodes: edges to old nodes keep their values, and lists and names stay.
        ensures gates { AddsOnlyGates self.old self.new }
        ensures err { OnErr result (self.new ≡ self.old) }
    {
        aig_build::trivial_new_and_node(&mut self.lists.nodes, fanin0, fanin1)
    }

    /// Returns an edge that is the and of two edges, and adds at most one gate.
    ///
    /// In four cases it adds none and takes no memory: true with an edge is that edge, false with an edge is false, an
    /// edge with itself is that edge, and an edge with its inverse is false. Else it adds one, also where there is such
    /// a gate already (`strash` merges them).
    ///
    /// # Requirements
    ///
    /// - `fanin0` and `fanin1` are of this circuit (`has_edge`).
    ///
    /// # Errors
    ///
    /// - `Memory`: memory was refused. The circuit stays as it was. Never in the four cases.
    ///
    /// # Examples
    ///
    /// ```
    /// let mut aig = Aig::new(alloc)?;
    /// let x = AigEdge::from(aig.new_input()?);
    /// let y = AigEdge::from(aig.new_input()?);
    /// let both = aig.new_and_node(x, y)?;
    /// let again = aig.new_and_node(x, y)?;
    /// let never = aig.new_and_node(x, !x)?;
    /// let edges = (AigEdge::from(3), AigEdge::from(4), AigEdge::constant(false));
    /// assert!(rt; (both, again, never) == edges && aig.num_nodes() == 5);
    /// ```
    pub fn new_and_node(&mut self, fanin0: AigEdge, fanin1: AigEdge) -> Result<AigEdge, MemoryError>
        requires first { IsInRange self.old.nodes fanin0 }
        requires second { IsInRange self.old.nodes fanin1 }
        ensures rule { IfOk result
            (λ e. FoldsOrAdds self.old.nodes self.new.nodes fanin0 fanin1 e) }
        ensures folds { (f : AigEdge) → Folds fanin0 fanin1 f → IsOk result }
        ensures gives { IfOk result (GivesEdge self.new.nodes (λ x.
            edge_value self.old.nodes x fanin0 && edge_value self.old.nodes x fanin1)) }
        // Gates alone are added, after the old nodes: edges to old nodes keep their values, and lists and names stay.
        ensures gates { AddsOnlyGates self.old self.new }
        ensures err { OnErr result (self.new ≡ self.old) }
    {
        aig_build::new_and_node(&mut self.lists.nodes, fanin0, fanin1)
    }

    /// Adds a gate for the or of two edges, and returns the edge that is the or.
    ///
    /// It is the inverse of the `trivial_new_and_node` of their inverses.
    ///
    /// # Requirements
    ///
    /// - `fanin0` and `fanin1` are of this circuit (`has_edge`).
    ///
    /// # Errors
    ///
    /// - `Memory`: memory was refused. The circuit stays as it was.
    pub fn trivial_new_or_node(
        &mut self,
        fanin0: AigEdge,
        fanin1: AigEdge,
    ) -> Result<AigEdge, MemoryError>
        requires first { IsInRange self.old.nodes fanin0 }
        requires second { IsInRange self.old.nodes fanin1 }
        ensures gate { IfOk result (λ e. AddsGate self.old.nodes self.new.nodes
            (inverse fanin0) (inverse fanin1) (inverse e)) }
        ensures gives { IfOk result (GivesEdge self.new.nodes (λ x.
            edge_value self.old.nodes x fanin0 || edge_value self.old.nodes x fanin1)) }
        // Gates alone are added, after the old nodes: edges to old nodes keep their values, and lists and names stay.
        ensures gates { AddsOnlyGates self.old self.new }
        ensures err { OnErr result (self.new ≡ self.old) }
    {
        aig_build::trivial_new_or_node(&mut self.lists.nodes, fanin0, fanin1)
    }

    /// Returns an edge that is the or of two edges, and adds at most one gate.
    ///
    /// It is the inverse of the `new_and_node` of their inverses.
    ///
    /// # Requirements
    ///
    /// - `fanin0` and `fanin1` are of this circuit (`has_edge`).
    ///
    /// # Errors
    ///
    /// - `Memory`: memory was refused. The circuit stays as it was. Never where no gate is added.
    pub fn new_or_node(&mut self, fanin0: AigEdge, fanin1: AigEdge) -> Result<AigEdge, MemoryError>
        requires first { IsInRange self.old.nodes fanin0 }
        requires second { IsInRange self.old.nodes fanin1 }
        ensures rule { IfOk result (λ e. FoldsOrAdds self.old.nodes self.new.nodes
            (inverse fanin0) (inverse fanin1) (inverse e)) }
        ensures folds { (f : AigEdge) → Folds (inverse fanin0) (inverse fanin1) f → IsOk result }
        ensures gives { IfOk result (GivesEdge self.new.nodes (λ x.
            edge_value self.old.nodes x fanin0 || edge_value self.old.nodes x fanin1)) }
        // Gates alone are added, after the old nodes: edges to old nodes keep their values, and lists and names stay.
        ensures gates { AddsOnlyGates self.old self.new }
        ensures err { OnErr result (self.new ≡ self.old) }
    {
        aig_build::new_or_node(&mut self.lists.nodes, fanin0, fanin1)
    }

    /// Returns an edge that is true where the first edge implies the second, and adds at most one gate.
    ///
    /// It is the `new_or_node` of the first one's inverse and the second.
    ///
    /// # Requirements
    ///
    /// - `fanin0` and `fanin1` are of this circuit (`has_edge`).
    ///
    /// # Errors
    ///
    /// - `Memory`: memory was refused. The circuit stays as it was. Never where no gate is added.
    pub fn new_imply_node(
        &mut self,
        fanin0: AigEdge,
        fanin1: AigEdge,
    ) -> Result<AigEdge, MemoryError>
        requires first { IsInRange self.old.nodes fanin0 }
        requires second { IsInRange self.old.nodes fanin1 }
        ensures rule { IfOk result
            (λ e. FoldsOrAdds self.old.nodes self.new.nodes fanin0 (inverse fanin1) (inverse e)) }
        ensures folds { (f : AigEdge) → Folds fanin0 (inverse fanin1) f → IsOk result }
        ensures gives { IfOk result (GivesEdge self.new.nodes (λ x.
            not (edge_value self.old.nodes x fanin0) || edge_value self.old.nodes x fanin1)) }
        // Gates alone are added, after the old nodes: edges to old nodes keep their values, and lists and names stay.
        ensures gates { AddsOnlyGates self.old self.new }
        ensures err { OnErr result (self.new ≡ self.old) }
    {
        aig_build::new_imply_node(&mut self.lists.nodes, fanin0, fanin1)
    }

    /// Returns an edge that is true where two edges have one value, and adds at most three gates.
    ///
    /// It is the `new_or_node` of their `new_and_node` and of that of their inverses.
    ///
    /// # Requirements
    ///
    /// - `fanin0` and `fanin1` are of this circuit (`has_edge`).
    ///
    /// # Errors
    ///
    /// - `Memory`: memory was refused. The circuit stays as it was.
    pub fn new_eq_node(&mut self, fanin0: AigEdge, fanin1: AigEdge) -> Result<AigEdge, MemoryError>
        requires first { IsInRange self.old.nodes fanin0 }
        requires second { IsInRange self.old.nodes fanin1 }
        // The and of the two, the and of their inverses, and the or of these, each of which folds or adds one gate.
        ensures rule { IfOk result
            (λ e. FoldsOrAddsEq self.old.nodes self.new.nodes fanin0 fanin1 e) }
        ensures gives { IfOk result (GivesEdge self.new.nodes (λ x.
            beq (edge_value self.old.nodes x fanin0) (edge_value self.old.nodes x fanin1))) }
        // Gates alone are added, after the old nodes: edges to old nodes keep their values, and lists and names stay.
        ensures gates { AddsOnlyGates self.old self.new }
        ensures err { OnErr result (self.new ≡ self.old) }
    {
        aig_build::new_eq_node(&mut self.lists.nodes, fanin0, fanin1)
    }

    /// Returns an edge that is the and of all edges that `fanin` gives, joined from the left, and adds one gate for
    /// each edge after the first.
    ///
    /// Of no edges it is true, and of one it is that edge. All are taken before a gate is added.
    ///
    /// # Requirements
    ///
    /// - `fanin` ends.
    /// - Each edge that it gives is of this circuit (`has_edge`).
    ///
    /// # Errors
    ///
    /// - `Memory`: memory was refused. The circuit stays as it was.
    pub fn trivial_new_ands_node<I: IntoIterator<Item = AigEdge>>(
        &mut self,
        fanin: I,
    ) -> Result<AigEdge, MemoryError>
        requires ends { IsFiniteIterable I.into_iter_gives
            I.IntoIter.can_next I.IntoIter.remaining fanin }
        requires edges { ForItems I.into_iter_gives I.IntoIter.next_gives fanin
            (All (IsInRange self.old.nodes)) }
        ensures joins { IfOk result
            (λ e. TakesItems I.into_iter_gives I.IntoIter.next_gives fanin (λ es.
            AddsGateForEach self.old.nodes es self.new.nodes e
            × JoinsByAnd self.old.nodes self.new.nodes es e
            × AddsOneEach self.old.nodes self.new.nodes es)) }
        // Gates alone are added, after the old nodes: edges to old nodes keep their values, and lists and names stay.
        ensures gates { AddsOnlyGates self.old self.new }
        ensures err { OnErr result (self.new ≡ self.old) }
    {
        let edges = collect_edges(self.allocator(), fanin)?;
        aig_build::trivial_new_ands_node(&mut self.lists.nodes, &edges)
    }

    /// Returns an edge that is the and of all edges that `fanin` gives, joined from the left by `new_and_node`.
    ///
    /// Of no edges it is true, and of one it is that edge. All are taken before a gate is added.
    ///
    /// # Requirements
    ///
    /// - `fanin` ends.
    /// - Each edge that it gives is of this circuit (`has_edge`).
    ///
    /// # Errors
    ///
    /// - `Memory`: memory was refused. The circuit stays as it was.
    pub fn new_ands_node<I: IntoIterator<Item = AigEdge>>(
        &mut self,
        fanin: I,
    ) -> Result<AigEdge, MemoryError>
        requires ends { IsFiniteIterable I.into_iter_gives
            I.IntoIter.can_next I.IntoIter.remaining fanin }
        requires edges { ForItems I.into_iter_gives I.IntoIter.next_gives fanin
            (All (IsInRange self.old.nodes)) }
        ensures joins { IfOk result
            (λ e. TakesItems I.into_iter_gives I.IntoIter.next_gives fanin (λ es.
            FoldsOrAddsAll self.old.nodes es self.new.nodes e
            × JoinsByAnd self.old.nodes self.new.nodes es e)) }
        // Gates alone are added, after the old nodes: edges to old nodes keep their values, and lists and names stay.
        ensures gates { AddsOnlyGates self.old self.new }
        ensures err { OnErr result (self.new ≡ self.old) }
    {
        let edges = collect_edges(self.allocator(), fanin)?;
        aig_build::new_ands_node(&mut self.lists.nodes, &edges)
    }

    /// Returns an edge that is the or of all edges that `fanin` gives, joined from the left, and adds one gate for each
    /// edge after the first.
    ///
    /// It is the inverse of the `trivial_new_ands_node` of their inverses: of no edges it is false, and of one it is
    /// that edge. All are taken before a gate is added.
    ///
    /// # Requirements
    ///
    /// - `fanin` ends.
    /// - Each edge that it gives is of this circuit (`has_edge`).
    ///
    /// # Errors
    ///
    /// - `Memory`: memory was refused. The circuit stays as it was.
    pub fn trivial_new_ors_node<I: IntoIterator<Item = AigEdge>>(
        &mut self,
        fanin: I,
    ) -> Result<AigEdge, MemoryError>
        requires ends { IsFiniteIterable I.into_iter_gives
            I.IntoIter.can_next I.IntoIter.remaining fanin }
        requires edges { ForItems I.into_iter_gives I.IntoIter.next_gives fanin
            (All (IsInRange self.old.nodes)) }
        ensures joins { IfOk result
            (λ e. TakesItems I.into_iter_gives I.IntoIter.next_gives fanin (λ es.
            AddsGateForEach self.old.nodes (map inverse es) self.new.nodes (inverse e)
            × JoinsByOr self.old.nodes self.new.nodes es e
            × AddsOneEach self.old.nodes self.new.nodes es)) }
        // Gates alone are added, after the old nodes: edges to old nodes keep their values, and lists and names stay.
        ensures gates { AddsOnlyGates self.old self.new }
        ensures err { OnErr result (self.new ≡ self.old) }
    {
        let edges = collect_edges(self.allocator(), fanin)?;
        aig_build::trivial_new_ors_node(&mut self.lists.nodes, &edges)
    }

    /// Returns an edge that is the or of all edges that `fanin` gives, joined from the left.
    ///
    /// It is the inverse of the `new_ands_node` of their inverses: of no edges it is false, and of one it is that edge.
    /// All are taken before a gate is added.
    ///
    /// # Requirements
    ///
    /// - `fanin` ends.
    /// - Each edge that it gives is of this circuit (`has_edge`).
    ///
    /// # Errors
    ///
    /// - `Memory`: memory was refused. The circuit stays as it was.
    pub fn new_ors_node<I: IntoIterator<Item = AigEdge>>(
        &mut self,
        fanin: I,
    ) -> Result<AigEdge, MemoryError>
        requires ends { IsFiniteIterable I.into_iter_gives
            I.IntoIter.can_next I.IntoIter.remaining fanin }
        requires edges { ForItems I.into_iter_gives I.IntoIter.next_gives fanin
            (All (IsInRange self.old.nodes)) }
        ensures joins { IfOk result
            (λ e. TakesItems I.into_iter_gives I.IntoIter.next_gives fanin (λ es.
            FoldsOrAddsAll self.old.nodes (map inverse es) self.new.nodes (inverse e)
            × JoinsByOr self.old.nodes self.new.nodes es e)) }
        // Gates alone are added, after the old nodes: edges to old nodes keep their values, and lists and names stay.
        ensures gates { AddsOnlyGates self.old self.new }
        ensures err { OnErr result (self.new ≡ self.old) }
    {
        let edges = collect_edges(self.allocator(), fanin)?;
        aig_build::new_ors_node(&mut self.lists.nodes, &edges)
    }
}

/// The items of an iterator that ends.
fn collect_edges<I: IntoIterator<Item = AigEdge>>(
    alloc: Global,
    edges: I,
) -> Result<Vec<AigEdge>, MemoryError>
    requires { IsFiniteIterable I.into_iter_gives I.IntoIter.can_next I.IntoIter.remaining edges }
    ensures { IfOk result (λ items. TakesItems I.into_iter_gives I.IntoIter.next_gives edges
        (λ es. items.items ≡ es)) }
{
    let mut items = Vec::new(alloc);
    for e in edges {
        items.push(e)?;
    }
    Ok(items)
}
