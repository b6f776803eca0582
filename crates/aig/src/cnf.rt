//! The clauses of a circuit.

ghost use Rattle.std.specs.Prelude.{◌≤◌, ◌^◌, IfOk, length};
ghost use Rattle.aig_circuit.specs.Circuit.{IsCircuit};
ghost use Rattle.aig_cnf.specs.Cnf.{FixesRoots, HasClauses, NodeValuesSatisfy};

use crate::graph::Aig;
use aig_base::{DagCnf, MemoryError};

impl Aig {
    /// Returns the clauses of the circuit, with one variable for each node, of the node's number (Tseitin encoding).
    ///
    /// Each assignment that satisfies them gives each property, next and initial edge its value under the assignment's
    /// leaf values, and the node values under any leaf values satisfy them. They say no more: not that a bad state is
    /// reached, that a constraint holds, or that a latch begins with its initial value.
    ///
    /// Clauses are given to the variable of the node that they define. Variable 0 has the clause that it is false, and
    /// each gate that is needed has its own: one that such an edge names, or that the clauses of a needed gate name.
    /// Without `optimize` a gate is encoded as the and of its operands. With `optimize` one that is an exclusive or or
    /// an if-then-else of gates below it is encoded as such, in four clauses, and its inner gates are needed only where
    /// something else names them.
    ///
    /// # Requirements
    ///
    /// - The circuit has at most 2^31 nodes (`fits_lits`).
    ///
    /// # Errors
    ///
    /// - `Memory`: memory was refused.
    ///
    /// # Examples
    ///
    /// The exclusive or of two inputs, with its inner gates and without; `read` reads a file by `Aig::from_aiger`:
    ///
    /// ```
    /// let aig = read(alloc, b"aag 5 2 0 1 3\n2\n4\n11\n6 4 2\n8 5 3\n10 9 7\n")?;
    /// let plain = aig.cnf(false)?.num_clauses();
    /// let optimized = aig.cnf(true)?.num_clauses();
    /// assert!(rt; plain == 10 && optimized == 5);
    /// ```
    pub fn cnf(&self, optimize: bool) -> Result<DagCnf, MemoryError>
        requires { length self.now.nodes ≤ 2 ^ 31 }
        // The receiver is a circuit, so that what a law says of circuits holds of it.
        ensures circuit { IsCircuit self.now }
        // Which variable has which clauses.
        ensures clauses { IfOk result (λ lists. HasClauses self.now optimize lists) }
        // Each satisfying assignment gives each root its value under the assignment's leaf values.
        ensures fixes { IfOk result (λ lists. FixesRoots self.now lists) }
        // The node values under any leaf values satisfy.
        ensures satisfied { IfOk result (λ lists. NodeValuesSatisfy self.now lists) }
    {
        aig_cnf::encode(self.allocator(), &self.view(), optimize)
    }
}
