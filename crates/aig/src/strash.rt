//! Structural hashing.

ghost use Rattle.std.specs.Prelude.{◌≡◌, IfOk};
ghost use Rattle.aig_circuit.specs.Circuit.{IsCircuit};
ghost use Rattle.aig_circuit.specs.Runs.{KeepsRuns};
ghost use Rattle.aig_format.specs.Writable.{IsWritable};
ghost use Rattle.aig_strash.specs.Exchange.{image_of};
ghost use Rattle.aig_strash.specs.Strash.{KeepsRepresentatives, MergesTrees, NumbersRepresentatives, strashed};

use crate::graph::Aig;
use aig_base::MemoryError;

impl Aig {
    /// Returns the circuit in which gates share one node exactly where their trees are equal (structural hashing).
    ///
    /// Trees are equal up to the exchange of operands, at every depth. Kept are false, all leaves and of equal gates
    /// the first, reached or not, in their old order. Lists follow, and so do the names of kept nodes; names of other
    /// gates are dropped. Nothing is folded: the and of an edge with itself stays a gate.
    ///
    /// # Errors
    ///
    /// - `Memory`: memory was refused.
    ///
    /// # Examples
    ///
    /// Gates 3 and 4 are equal, and then gates 5 and 6 are; `read` reads a file by `Aig::from_aiger`:
    ///
    /// ```
    /// let file = b"aag 6 2 0 2 4\n2\n4\n10\n12\n6 4 2\n8 4 2\n10 6 2\n12 8 2\n";
    /// let aig = read(alloc, file)?;
    /// let hashed = aig.strash()?;
    /// let gate = AigEdge::from(4);
    /// assert!(rt; aig.num_nodes() == 7 && hashed.num_nodes() == 5);
    /// assert!(rt; hashed.outputs() == [gate, gate].as_slice());
    /// ```
    pub fn strash(&self) -> Result<Aig, MemoryError>
        // The receiver is a circuit, so that what a law says of circuits holds of it.
        ensures circuit { IsCircuit self.now }
        ensures exact { IfOk result (λ made. made ≡ strashed self.now) }
        // The new number of a node is the count of kept nodes before its representative, the least node with its tree.
        ensures numbers { IfOk result
            (λ made. NumbersRepresentatives self.now.nodes (image_of self.now.nodes)) }
        // Kept nodes have their kinds and their names.
        ensures kept { IfOk result (λ made.
            KeepsRepresentatives self.now made (image_of self.now.nodes)) }
        // Gates share a node exactly where their trees are equal up to exchange, and each has its image's tree.
        ensures merges { IfOk result (λ made. MergesTrees self.now made (image_of self.now.nodes)) }
        // Runs, initial states and all values stay, both ways.
        ensures runs { IfOk result (λ made. KeepsRuns self.now made (image_of self.now.nodes)) }
        // What has a written form keeps one.
        ensures writable { IsWritable self.now → IfOk result IsWritable }
        ensures twice { IfOk result (λ made. strashed made ≡ made) }
    {
        let lists = aig_strash::strash(&self.view())?;
        Ok(Aig::from_lists(lists))
    }
}
