//! A circuit with further steps, which is copied only where there are any.

ghost use Rattle.std.specs.Prelude.{◌≡◌, ◌≤◌, ◌^◌, IfOk, length};
ghost use Rattle.aig_base.specs.Clauses.{AreBelow};
ghost use Rattle.aig_circuit.specs.Circuit.{IsCircuit};
ghost use Rattle.aig_circuit.specs.View.{lists_circuit};
ghost use Rattle.aig_runs.specs.Queries as queries;
ghost use Rattle.aig_runs.specs.Unrolled.{IsUnrolled, Unrolls};

use crate::clauses::query_clauses;
use aig_base::{LitVvec, MemoryError};
use aig_circuit::{AigEdge, CircuitLists, CircuitView};
use aig_unroll::unroll_to;
use std::alloc::Global;
use std::marker::Model;

/// A circuit, and the circuit with further steps.
pub struct Unrolled {
    circuit: CircuitLists,
    steps: usize,
    further: Option<CircuitLists>,
}

impl Drop for Unrolled {
    fn drop(self) {
        let Unrolled {
            circuit: _,
            steps: _,
            further: _,
        } = self;
    }
}

impl Model for Unrolled {
    ghost use Rattle.aig_runs.specs.Unrolled.{UnrolledCircuit};

    ghost Value = { UnrolledCircuit };

    ghost use Rattle.std.specs.Coded.{codes, coded_ℕ, coded_list};
    ghost use Rattle.std.specs.FinMap as finite_map;
    ghost use Rattle.std.specs.Ordering.{nat_cmp};

    ghost coded = { Prim.hlevel
        (codes, finite_map.code {R = nat_cmp} coded_ℕ (coded_list coded_ℕ)) };

    ghost use Rattle.aig_runs.specs.Unrolled.{IsUnrolled, unrolled_lists};

    ghost view = { λ u. unrolled_lists u.circuit u.steps u.further };

    ghost invariant = { λ u. IsUnrolled (unrolled_lists u.circuit u.steps u.further) };
}

impl Unrolled {
    /// Gives a circuit `k` steps more, by `aig_unroll::unroll_to`. Without any it is not copied. The one error is refused memory.
    pub fn new(circuit: CircuitLists, k: usize) -> Result<Unrolled, MemoryError>
        requires { IsCircuit (lists_circuit circuit) }
        ensures { IfOk result (Unrolls (lists_circuit circuit) k) }
    {
        if k == 0 {
            return Ok(Unrolled {
                circuit,
                steps: k,
                further: None,
            });
        }
        let further = unroll_to(&CircuitView::new(&circuit), k)?;
        Ok(Unrolled {
            circuit,
            steps: k,
            further: Some(further),
        })
    }

    /// The circuit.
    pub fn circuit(&self) -> CircuitView<'_>
        ensures value { result ≡ self.now.circuit }
        ensures unrolled { IsUnrolled self.now }
    {
        CircuitView::new(&self.circuit)
    }

    /// How many further steps there are.
    pub fn steps(&self) -> usize
        ensures value { result ≡ self.now.steps }
        ensures unrolled { IsUnrolled self.now }
    {
        self.steps
    }

    /// The circuit with its further steps.
    pub fn unrolled(&self) -> CircuitView<'_>
        ensures value { result ≡ self.now.unrolled }
        ensures unrolled { IsUnrolled self.now }
    {
        match &self.further {
            Some(further) => CircuitView::new(further),
            None => CircuitView::new(&self.circuit),
        }
    }

    /// The bad edges of the last step.
    pub fn last_bads(&self) -> &[AigEdge]
        ensures value { result.now
            ≡ queries.last_bads self.now.circuit self.now.steps self.now.unrolled }
        ensures unrolled { IsUnrolled self.now }
    {
        let bads = self.unrolled().bads();
        let first = self.steps() * self.circuit().bads().len();
        &bads[first..]
    }

    /// The clauses that ask for a bad state at the last step. The one error is refused memory.
    pub fn query_clauses(&self, alloc: Global) -> Result<LitVvec, MemoryError>
        requires { length self.now.unrolled.nodes ≤ 2 ^ 31 }
        ensures exact { IfOk result (λ extra. extra
            ≡ queries.query_clauses self.now.circuit self.now.steps self.now.unrolled) }
        ensures below { IfOk result (AreBelow (length self.now.unrolled.nodes)) }
    {
        let circuit = self.circuit();
        let unrolled = self.unrolled();
        query_clauses(
            alloc,
            circuit.latchs(),
            unrolled.constraints(),
            self.last_bads(),
        )
    }
}
