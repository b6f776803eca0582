//! A circuit that is unrolled step by step.

ghost use Rattle.std.specs.Prelude.{◌≡◌, ◌+◌, ◌-◌, ◌<◌, ◌≤◌, ◌^◌, ◌++◌, ◌∷◌, [], All, Err, IfOk, IsErrOf, OnErr, OnOk, length, map, replicate, true};
ghost use Rattle.aig_base.specs.Clauses.{AreBelow};
ghost use Rattle.aig_base.specs.Formula.{IsSatisfiable};
ghost use Rattle.aig_refutation.specs.Checking.{Shows};
ghost use Rattle.aig_circuit.specs.Edge.{inverse, lit_of};
ghost use Rattle.aig_runs.specs.Queries.{asking_clauses, unit_clauses};
ghost use Rattle.aig_runs.specs.Safety.{IsCircuitSafeAt};
ghost use Rattle.aig_steps.specs.Ends.{HasVariables, all_later, constraints_at, first_clauses, first_later, later_clauses, later_nodes};
ghost use Rattle.aig_steps.specs.Induction.{IsCircuitInductive};
ghost use Rattle.aig_steps.specs.Stepwise.{bads_at, initial_clauses, step_clauses, stepwise_query, stepwise_window};
ghost use Rattle.aig_steps.specs.Unrolling.{IsStepped, StepsOr, inputs_after, next_size, unrolled_of, with_one_more};
ghost use Rattle.aig_steps.specs.declared.error.StepError.TheVariants as errors;
ghost use Rattle.aig_unroll.specs.Frame.{with_steps};

use crate::error::StepError;
use crate::frames::{entries_of, push_inverses, push_nodes};
use aig::Aig;
use aig_base::{DagCnf, LitVvec, MemoryError, Source, Var};
use aig_circuit::{AigEdge, AigNode};
use aig_refutation::{RefutationError, check_refutation};
use aig_runs::{push_any, push_starts, push_units};
use std::alloc::Global;
use std::marker::Model;

/// The largest possible number of nodes. The variable of each node has a number that the DIMACS
/// format can represent.
const MOST_NODES: usize = (1 << 31) - 1;

/// A circuit, and the same circuit with further steps, which are added one after the other.
///
/// The clauses, the bad edges and the inputs of a step depend only on the circuit and the number of
/// the step, and not on steps that are added later. So they can be requested several times. A
/// variable of the clauses has the number of its node in the unrolled circuit.
pub struct Unrolling {
    circuit: Aig,
    unrolled: Aig,
    ends: Vec<usize>,
}

impl Drop for Unrolling {
    fn drop(self) {
        let Unrolling {
            circuit: _,
            unrolled: _,
            ends: _,
        } = self;
    }
}

impl Model for Unrolling {
    ghost use Rattle.aig_steps.specs.Unrolling.{SteppedCircuit};

    ghost Value = { SteppedCircuit };

    ghost use Rattle.std.specs.Coded.{codes, coded_ℕ, coded_list};
    ghost use Rattle.std.specs.FinMap as finite_map;
    ghost use Rattle.std.specs.Ordering.{nat_cmp};

    ghost coded = { Prim.hlevel
        (codes, finite_map.code {R = nat_cmp} coded_ℕ (coded_list coded_ℕ)) };

    ghost use Rattle.std.specs.Prelude.{◌-◌, length};
    ghost use Rattle.aig_steps.specs.Kept.{IsKept};

    ghost view = { λ u. record { circuit = u.circuit; steps = length u.ends.items - 1 } };

    ghost invariant = { λ u. IsKept u.circuit u.unrolled u.ends.items };
}

impl Unrolling {
    /// Returns an unrolling without further steps. The circuit is copied twice.
    ///
    /// # Errors
    ///
    /// - `Memory`: memory was refused.
    /// - `TooLarge`: the circuit has 2^31 nodes or more.
    pub fn new(alloc: Global, circuit: &Aig) -> Result<Unrolling, StepError>
        ensures begins { IfOk result (λ u. u ≡ record { circuit = circuit.now; steps = 0 }) }
        ensures fits { IfOk result (λ u. length circuit.now.nodes < 2 ^ 31) }
        ensures large { result ≡ Err errors.TooLarge → 2 ^ 31 ≤ length circuit.now.nodes }
    {
        if circuit.num_nodes() > MOST_NODES {
            return Err(StepError::TooLarge);
        }
        Ok(Unrolling::begin(alloc, circuit)?)
    }

    /// Returns an unrolling without further steps, if the variables have DIMACS numbers.
    fn begin(alloc: Global, circuit: &Aig) -> Result<Unrolling, MemoryError>
        requires { length circuit.now.nodes < 2 ^ 31 }
        ensures { IfOk result (λ u. u ≡ record { circuit = circuit.now; steps = 0 }) }
    {
        Ok(Unrolling {
            circuit: circuit.clone()?,
            unrolled: circuit.clone()?,
            ends: vec![in alloc; circuit.num_nodes()]?,
        })
    }

    /// Returns the circuit.
    pub fn circuit(&self) -> &Aig
        ensures value { result.now ≡ self.now.circuit }
        ensures stepped { IsStepped self.now }
    {
        &self.circuit
    }

    /// Returns the number of further steps.
    pub fn steps(&self) -> usize
        ensures value { result ≡ self.now.steps }
        ensures stepped { IsStepped self.now }
    {
        self.ends.len() - 1
    }

    /// Returns the circuit with its further steps (`Aig::unroll`).
    pub fn unrolled(&self) -> &Aig
        ensures value { result.now ≡ unrolled_of self.now }
        ensures stepped { IsStepped self.now }
    {
        &self.unrolled
    }

    /// Adds a step, in time linear in the size of the circuit, however many steps there are. After
    /// an error, nothing has changed.
    ///
    /// # Errors
    ///
    /// - `Memory`: memory was refused.
    /// - `TooLarge`: with the step, there could be 2^31 nodes or more. For this test, each gate and
    ///   each leaf that doesn't belong to a latch counts as one more node.
    pub fn add_step(&mut self) -> Result<(), StepError>
        ensures { StepsOr self.old self.new result }
    {
        let nodes = self.circuit.num_nodes();
        let latchs = self.circuit.latchs().len();
        let added = nodes.saturating_sub(1).saturating_sub(latchs);
        if self.unrolled.num_nodes() > MOST_NODES - added {
            return Err(StepError::TooLarge);
        }
        Ok(self.add()?)
    }

    /// Adds a step, if its nodes have DIMACS numbers.
    fn add(&mut self) -> Result<(), MemoryError>
        requires { next_size self.old < 2 ^ 31 }
        ensures ok { OnOk result (self.new ≡ with_one_more self.old) }
        ensures err { OnErr result (self.new ≡ self.old) }
    {
        self.ends.reserve(1)?;
        self.unrolled.unroll(&self.circuit)?;
        self.ends.push_reserved(self.unrolled.num_nodes());
        Ok(())
    }

    /// Returns the bad edges of a step.
    pub fn bads(&self, step: usize) -> &[AigEdge]
        requires { step ≤ self.now.steps }
        ensures edges { result.now ≡ bads_at self.now.circuit step }
        ensures below { All (λ e. e.node_id < 2 ^ 31) result.now }
    {
        let count = self.circuit.bads().len();
        entries_of(self.unrolled.bads(), count, step)
    }

    /// Returns the inputs that a step after the first adds. The r-th of them corresponds to the
    /// r-th leaf of the circuit that doesn't belong to a latch, in increasing order.
    pub fn added_inputs(&self, step: usize) -> &[usize]
        requires first { 0 < step }
        requires last { step ≤ self.now.steps }
        ensures { result.now ≡ inputs_after self.now.circuit (step - 1) }
    {
        let own = self.circuit.inputs().len();
        let count = (self.unrolled.inputs().len() - own) / self.steps();
        let first = own + (step - 1) * count;
        &self.unrolled.inputs()[first..first + count]
    }

    /// Returns the number of the first node of a step, apart from node 0.
    fn first_node(&self, step: usize) -> usize
        requires { step ≤ self.now.steps }
        ensures { result ≡ first_later self.now.circuit step }
    {
        if step == 0 { 1 } else { self.ends[step - 1] }
    }

    /// Returns the nodes of a step, except node 0.
    fn nodes_of(&self, step: usize) -> &[AigNode]
        requires { step ≤ self.now.steps }
        ensures nodes { result.now ≡ later_nodes self.now.circuit step }
        ensures variables { All HasVariables result.now }
        ensures stepped { IsStepped self.now }
    {
        let first = self.first_node(step);
        &self.unrolled.nodes()[first..self.ends[step]]
    }

    /// Returns the constraints of a step.
    fn constraints_of(&self, step: usize) -> &[AigEdge]
        requires { step ≤ self.now.steps }
        ensures edges { result.now ≡ constraints_at self.now.circuit step }
        ensures below { All (λ e. e.node_id < 2 ^ 31) result.now }
    {
        let count = self.circuit.constraints().len();
        entries_of(self.unrolled.constraints(), count, step)
    }

    /// Appends the clauses of a step, except that of node 0.
    fn push_later(&self, clauses: &mut LitVvec, step: usize) -> Result<(), MemoryError>
        requires { step ≤ self.now.steps }
        ensures clauses { OnOk result
            (clauses.new ≡ clauses.old ++ later_clauses self.now.circuit step) }
        ensures stepped { IsStepped self.now }
    {
        push_nodes(clauses, self.nodes_of(step))?;
        push_units(clauses, self.constraints_of(step))
    }

    /// Returns the clauses of a step: those of each node that the step adds, and those which state
    /// that its constraints are true. Step 0 has the nodes of the circuit, and its first clause
    /// states that variable 0 is false. The only error is refused memory.
    pub fn step_clauses(&self, alloc: Global, step: usize) -> Result<LitVvec, MemoryError>
        requires { step ≤ self.now.steps }
        ensures clauses { IfOk result (λ clauses. clauses ≡ step_clauses self.now.circuit step) }
        ensures below { IfOk result (AreBelow (2 ^ 31 - 1)) }
    {
        let mut clauses = LitVvec::new(alloc);
        push_false(&mut clauses, step)?;
        self.push_later(&mut clauses, step)?;
        Ok(clauses)
    }

    /// Returns clauses which state that each latch with an initial edge has the value of this edge
    /// at step 0. They don't belong to any step, and aren't used for runs from any state. The only
    /// error is refused memory.
    pub fn initial_clauses(&self, alloc: Global) -> Result<LitVvec, MemoryError>
        ensures clauses { IfOk result (λ clauses. clauses ≡ initial_clauses self.now.circuit) }
        ensures below { IfOk result (AreBelow (2 ^ 31 - 1)) }
    {
        let mut clauses = LitVvec::new(alloc);
        push_starts(&mut clauses, self.circuit.latchs())?;
        Ok(clauses)
    }

    /// Appends the clauses of the steps up to a given step, except that of node 0.
    fn push_all_later(&self, clauses: &mut LitVvec, step: usize) -> Result<(), MemoryError>
        requires { step ≤ self.now.steps }
        ensures { OnOk result (clauses.new ≡ clauses.old ++ all_later self.now.circuit (step + 1)) }
    {
        for s in 0..step {
            self.push_later(clauses, s)?;
        }
        self.push_later(clauses, step)
    }

    /// Returns the clauses of the query for a bad state at a step, except that of node 0.
    fn later_query(&self, alloc: Global, step: usize) -> Result<LitVvec, MemoryError>
        requires { step ≤ self.now.steps }
        ensures { IfOk result (λ clauses. clauses ≡ all_later self.now.circuit (step + 1)
            ++ asking_clauses self.now.circuit.latchs [] (bads_at self.now.circuit step)) }
    {
        let mut clauses = LitVvec::new(alloc);
        self.push_all_later(&mut clauses, step)?;
        push_starts(&mut clauses, self.circuit.latchs())?;
        push_any(alloc, &mut clauses, self.bads(step))?;
        Ok(clauses)
    }

    /// Returns the bad edges of the steps up to a given step.
    fn bads_to(&self, step: usize) -> &[AigEdge]
        requires { step ≤ self.now.steps }
        ensures edges { result.now ≡ (with_steps self.now.circuit step).properties.bads }
        ensures below { All (λ e. e.node_id < 2 ^ 31) result.now }
    {
        let count = self.circuit.bads().len();
        &self.unrolled.bads()[..(step + 1) * count]
    }

    /// Returns the clauses of the query for a window that ends at a step, except that of node 0.
    fn later_window(&self, alloc: Global, last: usize) -> Result<LitVvec, MemoryError>
        requires first { 0 < last }
        requires last { last ≤ self.now.steps }
        ensures { IfOk result (λ clauses. clauses ≡ all_later self.now.circuit (last + 1)
            ++ unit_clauses (map inverse (with_steps self.now.circuit (last - 1)).properties.bads)
            ++ map lit_of (bads_at self.now.circuit last) ∷ []) }
    {
        let mut clauses = LitVvec::new(alloc);
        self.push_all_later(&mut clauses, last)?;
        push_inverses(&mut clauses, self.bads_to(last - 1))?;
        push_any(alloc, &mut clauses, self.bads(last))?;
        Ok(clauses)
    }

    /// Checks a proof that clauses over the nodes of the steps 0 to `last` can't be satisfied
    /// together with the clause of node 0.
    fn check<R: Source>(
        &self,
        alloc: Global,
        last: usize,
        clauses: &LitVvec,
        r: &mut R,
    ) -> Result<(), RefutationError>
        requires { last ≤ self.now.steps }
        ensures stepped { IsStepped self.now }
        ensures refuted { OnOk result (¬ IsSatisfiable (first_clauses 0 ++ clauses.now)) }
        ensures stream { IsErrOf result RefutationError.Stream → R.failed r.new ≡ true }
        ensures shown { Shows (length (with_steps self.now.circuit last).nodes)
            (first_clauses 0 ++ clauses.now) (R.left r.old) result }
    {
        let names = variables(alloc, self.ends[last])?;
        check_refutation(alloc, &names, clauses, r)
    }

    /// Checks a proof that no run from an initial state meets each constraint at the steps 0 to
    /// `step` and is bad at `step`. The proof is an LRAT or a DRAT proof, text or binary, that
    /// `aig_refutation::check_refutation` accepts. It has to refute the following clauses, numbered
    /// from 1: those of the steps 0 to `step`, in order, those of the initial values, and one
    /// clause of the bad edges. Steps that were added later don't matter.
    ///
    /// # Errors
    ///
    /// The errors are those of `check_refutation`. After `Memory`, it is possible that nothing was
    /// read.
    pub fn check_step<R: Source>(
        &self,
        alloc: Global,
        step: usize,
        r: &mut R,
    ) -> Result<(), RefutationError>
        requires { step ≤ self.now.steps }
        // There is no such run.
        ensures safe { OnOk result (IsCircuitSafeAt self.now.circuit step) }
        // Stream is returned only if a read failed in this call.
        ensures stream { IsErrOf result RefutationError.Stream → R.failed r.new ≡ true }
        // Which proofs are accepted, and which errors the others get.
        ensures shown { Shows (length (with_steps self.now.circuit step).nodes)
            (stepwise_query self.now.circuit step) (R.left r.old) result }
    {
        let clauses = self.later_query(alloc, step)?;
        self.check(alloc, step, &clauses, r)
    }

    /// Checks a proof that no run of `last + 1` steps, from any state, meets each constraint and is
    /// bad only at its last step. The proof has the format that `check_step` accepts. It has to
    /// refute the following clauses, numbered from 1: those of the steps 0 to `last`, in order, a
    /// clause for each bad edge of the steps before `last`, which states that it is false, and one
    /// clause of the bad edges of `last`. If the circuit is also safe at the steps before `last`,
    /// it is safe at every step (`inductive_circuits_are_safe`).
    ///
    /// # Errors
    ///
    /// The errors are those of `check_refutation`. After `Memory`, it is possible that nothing was
    /// read.
    pub fn check_window<R: Source>(
        &self,
        alloc: Global,
        last: usize,
        r: &mut R,
    ) -> Result<(), RefutationError>
        requires first { 0 < last }
        requires last { last ≤ self.now.steps }
        // There is no such run.
        ensures inductive { OnOk result (IsCircuitInductive self.now.circuit (last - 1)) }
        // Stream is returned only if a read failed in this call.
        ensures stream { IsErrOf result RefutationError.Stream → R.failed r.new ≡ true }
        // Which proofs are accepted, and which errors the others get.
        ensures shown { Shows (length (with_steps self.now.circuit last).nodes)
            (stepwise_window self.now.circuit (last - 1)) (R.left r.old) result }
    {
        let clauses = self.later_window(alloc, last)?;
        self.check(alloc, last, &clauses, r)
    }
}

/// Appends the clause of node 0, which belongs to step 0.
fn push_false(clauses: &mut LitVvec, step: usize) -> Result<(), MemoryError>
    ensures { OnOk result (clauses.new ≡ clauses.old ++ first_clauses step) }
{
    if step == 0 {
        return clauses.push(&[!Var::new(0).lit()]);
    }
    Ok(())
}

/// Returns clauses over the variables of the given number of nodes. The variable of node 0 is
/// false, and the others have no clauses.
fn variables(alloc: Global, nodes: usize) -> Result<DagCnf, MemoryError>
    requires some { 1 ≤ nodes }
    requires few { nodes < 2 ^ 31 }
    ensures { IfOk result (λ names. names ≡ first_clauses 0 ∷ replicate (nodes - 1) []) }
{
    let mut names = DagCnf::new(alloc)?;
    for _ in 1..nodes {
        names.new_var()?;
    }
    Ok(names)
}
