//! Circuits that are made of a circuit: cones, unrolling, and changes of numbers, properties and initial edges.

ghost use Rattle.std.specs.Prelude.{◌≡◌, ◌<◌, ◌≤◌, ◌^◌, ◌↔◌, ℕ, All, Contains, IfOk, IsOk, OnErr, OnOk, length};
ghost use Rattle.aig_circuit.specs.Circuit.{BeginsWith, IsCircuit, IsClosed};
ghost use Rattle.aig_circuit.specs.Edges.{HasConstantInit};
ghost use Rattle.aig_circuit.specs.Reach.{IsInCone};
ghost use Rattle.aig_circuit.specs.Runs.{AreAsLong, KeepsRuns};
ghost use Rattle.aig_circuit.specs.Reencode.{IsReencoded, new_number, reencoded};
ghost use Rattle.aig_change.specs.Changes.{CompressesBads, ConstrainsInits, FoldsConstraints};
ghost use Rattle.aig_change.specs.Merge.{PairsRuns, merged, shifted};
ghost use Rattle.aig_unroll.specs.Unroll.{AddsExactly, UnrollsBySteps, UnrollsOnce, UnrollsTo};
ghost use Rattle.aig.specs.Others.{IsRefined};

use crate::graph::Aig;
use aig_base::{MemoryError, VarVMap};
use aig_circuit::AigEdge;
use std::collections::HashSet;

impl Aig {
    /// Returns the cone of influence of these nodes: 0, the nodes, and all that they reach along operands and, from a
    /// latch's leaf, along its next edge.
    ///
    /// Initial edges aren't followed.
    ///
    /// # Requirements
    ///
    /// - There is a node of each number in `root` (`has_node`).
    ///
    /// # Errors
    ///
    /// - `Memory`: memory was refused.
    pub fn coi(&self, root: &[usize]) -> Result<HashSet<usize>, MemoryError>
        requires { All (λ n. n < length self.now.nodes) root.now }
        ensures { IfOk result
            (λ cone. (n : ℕ) → Contains cone.keys n ↔ IsInCone self.now root.now n) }
    {
        aig_cone::coi(self.allocator(), &self.view(), root)
    }

    /// Returns the circuit cut to its cone of influence, and a map from the number of each of its nodes to the old
    /// number.
    ///
    /// Kept are false and what `coi` reaches from all properties, all latches and every initial edge that isn't
    /// constant. Kept nodes stay in their old order. Lists and names follow, and inputs that aren't kept leave the
    /// inputs.
    ///
    /// # Requirements
    ///
    /// - The circuit has at most 2^31 nodes (`fits_lits`).
    ///
    /// # Errors
    ///
    /// - `Memory`: memory was refused.
    ///
    /// # Examples
    ///
    /// Of two inputs the second is the output; `read` reads a file by `Aig::from_aiger`:
    ///
    /// ```
    /// let aig = read(alloc, b"aag 2 2 0 1 0\n2\n4\n4\n")?;
    /// let (refined, old_numbers) = aig.coi_refine()?;
    /// assert!(rt; refined.num_nodes() == 2 && refined.outputs() == [AigEdge::from(1)].as_slice());
    /// assert!(rt; old_numbers.get(Var::new(1)) == Some(Var::new(2)));
    /// ```
    pub fn coi_refine(&self) -> Result<(Aig, VarVMap), MemoryError>
        requires { length self.now.nodes ≤ 2 ^ 31 }
        // The receiver is a circuit, so that what a law says of circuits holds of it.
        ensures circuit { IsCircuit self.now }
        // Which nodes are kept, the exact circuit, the map, and that its runs are the old ones, cut to the kept leaves.
        ensures refined { IfOk result (λ made. IsRefined self.now made.0 made.1) }
    {
        let (lists, old_numbers) = aig_cone::coi_refine(self.allocator(), &self.view())?;
        Ok((Aig::from_lists(lists), old_numbers))
    }

    /// Appends the nodes of another circuit but 0, and the entries of all its lists.
    ///
    /// Its node `x > 0` becomes node `x + num_nodes - 1`, by the count of nodes before the call. Its names don't come
    /// along. No node is shared but 0.
    ///
    /// # Errors
    ///
    /// - `Memory`: memory was refused. The circuit stays as it was.
    ///
    /// # Examples
    ///
    /// Two ands of two inputs each; `read` reads a file by `Aig::from_aiger`:
    ///
    /// ```
    /// let mut both = read(alloc, b"aag 3 2 0 1 1\n2\n4\n6\n6 4 2\n")?;
    /// let copy = both.clone()?;
    /// both.merge(&copy)?;
    /// let (first, second) = (AigEdge::from(3), AigEdge::from(6));
    /// assert!(rt; both.num_nodes() == 7 && both.outputs() == [first, second].as_slice());
    /// ```
    pub fn merge(&mut self, other: &Aig) -> Result<(), MemoryError>
        ensures exact { OnOk result (self.new ≡ merged self.old other.now) }
        // A run is a pair of runs, one of each circuit, and an initial state a pair of initial states; edges keep their values.
        ensures runs { OnOk result
            (PairsRuns self.old other.now self.new (shifted (length self.old.nodes))) }
        ensures err { OnErr result (self.new ≡ self.old) }
    {
        aig_change::merge(&mut self.lists, &other.view())
    }

    /// Returns the circuit with its constraints joined to the first bad edge and the first output, and none left.
    ///
    /// A latch is added that is true in an initial state and stays so while all constraints hold. On a run from an
    /// initial state the first bad edge holds at a step exactly where the old one does and all constraints hold up to
    /// that step, and so does the first output. Other bad edges and outputs stay, and nothing constrains them.
    ///
    /// # Errors
    ///
    /// - `Memory`: memory was refused.
    pub fn aig_move(&self) -> Result<Aig, MemoryError>
        ensures { IfOk result (λ made. FoldsConstraints self.now made) }
    {
        let lists = aig_change::aig_move(&self.view())?;
        Ok(Aig::from_lists(lists))
    }

    /// Replaces the bad edges by one, their or by `new_ors_node`, and returns the old ones in their order.
    ///
    /// Without bad edges the one is false.
    ///
    /// # Errors
    ///
    /// - `Memory`: memory was refused. The circuit stays as it was.
    pub fn compress_property(&mut self) -> Result<Vec<AigEdge>, MemoryError>
        ensures compresses { OnOk result (CompressesBads self.old self.new) }
        ensures old { IfOk result (λ bads. bads.items ≡ self.old.properties.bads) }
        ensures err { OnErr result (self.new ≡ self.old) }
    {
        aig_change::compress_property(&mut self.lists)
    }

    /// Replaces initial edges that aren't constant by constraints.
    ///
    /// One latch is added that is true at step 0 alone. Each latch with such an initial edge loses it, and a constraint
    /// is appended that at step 0 the latch has the edge's value. Where every initial edge is constant or none, nothing
    /// changes and no memory is taken.
    ///
    /// # Errors
    ///
    /// - `Memory`: memory was refused. The circuit stays as it was. Never where every initial edge is constant or none.
    pub fn gate_init_to_constraint(&mut self) -> Result<(), MemoryError>
        // The runs from an initial state that meet the constraints are the old ones, one for one.
        ensures starts { OnOk result (ConstrainsInits self.old self.new) }
        ensures plain { All HasConstantInit self.old.latchs → IsOk result }
        ensures err { OnErr result (self.new ≡ self.old) }
    {
        aig_change::gate_init_to_constraint(&mut self.lists)
    }

    /// Returns the circuit in the numbering of the binary form: inputs first in their order, then the leaves of latches
    /// in theirs, then gates in rising number (AIGER format 20071012, "Binary encoding").
    ///
    /// Operands are put in order again. Lists and names follow.
    ///
    /// # Requirements
    ///
    /// - No leaf is free (`is_closed`).
    ///
    /// # Errors
    ///
    /// - `Memory`: memory was refused.
    pub fn reencode(&self) -> Result<Aig, MemoryError>
        requires { IsClosed self.now }
        // The receiver is a circuit, so that what a law says of circuits holds of it.
        ensures circuit { IsCircuit self.now }
        ensures exact { IfOk result (λ made. made ≡ reencoded self.now) }
        ensures closed { IfOk result (λ made. IsClosed made) }
        ensures long { IfOk result (λ made. AreAsLong self.now made) }
        // Runs, initial states, properties, next and initial edges stay, under the new numbers.
        ensures kept { IfOk result (λ made. KeepsRuns self.now made (new_number self.now)) }
        ensures placed { IfOk result (λ made. IsReencoded made) }
        ensures twice { IfOk result (λ made. reencoded made ≡ made) }
    {
        let circuit = self.view();
        let lists = aig_renumber::reencode(self.allocator(), &circuit)?;
        Ok(Aig::from_lists(lists))
    }

    /// Adds one step of the circuit `from`, of which this circuit holds the steps so far.
    ///
    /// A latch's leaf of the new step is the latch's present next edge. Every other leaf becomes a new input, in rising
    /// number, and each gate is rebuilt by `new_and_node`. Then all next edges are replaced at once, and an entry is
    /// appended for each property of `from`. Names and initial edges stay.
    ///
    /// # Requirements
    ///
    /// - This circuit begins with the nodes of `from`, and has latches with the same leaves (`begins_with`).
    ///
    /// # Errors
    ///
    /// - `Memory`: memory was refused. The circuit stays as it was.
    pub fn unroll(&mut self, from: &Aig) -> Result<(), MemoryError>
        requires { BeginsWith self.old from.now }
        // Old nodes, inputs, entries, names and initial edges stay, next edges are replaced, and each new edge has the
        // value of the edge of `from` in the new step.
        ensures unrolls { OnOk result (UnrollsOnce from.now self.old self.new) }
        // The added nodes are inputs and gates, and there is an entry more for each of `from`.
        ensures adds { OnOk result (AddsExactly from.now self.old self.new) }
        ensures err { OnErr result (self.new ≡ self.old) }
    {
        let circuit = from.view();
        let mut images = aig_unroll::step_table(&circuit)?;
        aig_unroll::unroll(&mut self.lists, &circuit, &mut images)
    }

    /// Returns the circuit with `k` further steps: a copy, unrolled `k` times from the circuit itself.
    ///
    /// Leaf values of the result are, by their places, exactly the runs of `k + 1` steps, from any state. A latch's
    /// leaf is itself at step 0. Of the `m` leaves that aren't latches' the one at place `r`, counted from 0 in rising
    /// number, is itself at step 0, and at a step `t >= 1` entry `i + (t - 1) * m + r` of the result's inputs, where
    /// `i` is this circuit's count of inputs. Entry `j` of a property list of length `p` is entry `t * p + j` at step
    /// `t`. The next edges are the state after step `k`.
    ///
    /// With `n` nodes and `l` latches the result has at most `n + k * (n - 1 - l)` nodes. Its lists of properties grow
    /// with `k`, too.
    ///
    /// # Errors
    ///
    /// - `Memory`: memory was refused.
    ///
    /// # Examples
    ///
    /// A latch that toggles, over two steps; `read` reads a file by `Aig::from_aiger`:
    ///
    /// ```
    /// let toggle = read(alloc, b"aag 1 0 1 1 0\n2 3\n2\n")?;
    /// let unrolled = toggle.unroll_to(1)?;
    /// let latch = AigEdge::from(1);
    /// assert!(rt; unrolled.num_nodes() == 2 && unrolled.outputs() == [latch, !latch].as_slice());
    /// ```
    pub fn unroll_to(&self, k: usize) -> Result<Aig, MemoryError>
        // The receiver is a circuit, so that what a law says of circuits holds of it.
        ensures circuit { IsCircuit self.now }
        // Its leaf values are the runs of k + 1 steps, one for one, and its edges have the values of each step.
        ensures unrolls { IfOk result (λ made. UnrollsTo self.now k made) }
        // It is made by k steps, one after another; by none it is the circuit.
        ensures steps { IfOk result (λ made. UnrollsBySteps self.now k made) }
        ensures none { IfOk result (λ made. k ≡ 0 → made ≡ self.now) }
    {
        let lists = aig_unroll::unroll_to(&self.view(), k)?;
        Ok(Aig::from_lists(lists))
    }
}
