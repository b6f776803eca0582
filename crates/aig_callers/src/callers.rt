//! Small callers on circuits.

ghost use Rattle.std.specs.Prelude.{◌≡◌, ◌&&◌, ◌||◌, ◌<◌, ◌≤◌, ◌^◌, ℕ, Bool, IfOk, IfSome, length, not, true};
ghost use Rattle.aig.specs.Build.{AddsOnlyGates, GivesEdge};
ghost use Rattle.aig.specs.Circuit.{IsClosed, IsInRange};
ghost use Rattle.aig.specs.Clauses.{literal_value};
ghost use Rattle.aig.specs.Cnf.{edge_in, HasClauses};
ghost use Rattle.aig.specs.Others.{IsRefined};
ghost use Rattle.aig.specs.Reencode.{reencoded};
ghost use Rattle.aig.specs.Strash.{strashed};
ghost use Rattle.aig.specs.Tree.{edge_value};
ghost use Rattle.aig.specs.Ternary.{simulation_of, stepped, value_in};
ghost use Rattle.aig.specs.Unroll.{UnrollsTo};
ghost use Rattle.aig_callers.specs.Leaves.{LeavesFixValues};

use aig::{Aig, AigEdge, TernarySimulate};
use aig_base::{DagCnf, Lbool, Lit, MemoryError, VarVMap};
use aig_circuit::{further_gates_are_gates, inverses_have_other_values, leaves_fix_values};
use aig_cnf::literals_have_edge_values;

/// Adds gates for: one of both edges is true, and the other isn't.
pub fn exclusive_or(aig: &mut Aig, one: AigEdge, other: AigEdge) -> Result<AigEdge, MemoryError>
    requires one { IsInRange aig.old.nodes one }
    requires other { IsInRange aig.old.nodes other }
    ensures gives { IfOk result (GivesEdge aig.new.nodes (λ x.
        (edge_value aig.old.nodes x one && not (edge_value aig.old.nodes x other))
        || (not (edge_value aig.old.nodes x one) && edge_value aig.old.nodes x other))) }
    ensures gates { AddsOnlyGates aig.old aig.new }
{
    inverses_have_other_values();
    further_gates_are_gates();
    let first = aig.new_and_node(one, !other)?;
    let second = aig.new_and_node(!one, other)?;
    let either = aig.new_or_node(first, second)?;
    Ok(either)
}

/// The value that an edge has in the second of two steps, where it is an edge of the circuit.
pub fn second_value(
    aig: &Aig,
    state: Vec<Lbool>,
    first: Vec<Lbool>,
    second: Vec<Lbool>,
    e: AigEdge,
) -> Result<Option<Lbool>, MemoryError>
    requires state { length state.items ≡ length aig.now.latchs }
    requires first { length first.items ≡ length aig.now.inputs }
    requires second { length second.items ≡ length aig.now.inputs }
    ensures { IfOk result (λ known. IfSome known (λ value. value
        ≡ value_in
        (stepped (stepped (simulation_of aig.now state.items) first.items) second.items) e)) }
{
    let mut simulation = TernarySimulate::new(aig, state);
    simulation.simulate(first)?;
    simulation.simulate(second)?;
    if !simulation.has_value(e) {
        return Ok(None);
    }
    Ok(Some(simulation.value(e)))
}

/// The literal of an edge, which has the edge's value.
pub fn literal(e: AigEdge) -> Lit
    requires { e.node_id < 2 ^ 31 }
    ensures { (v : ℕ → Bool) → literal_value v result ≡ edge_in v e }
{
    literals_have_edge_values();
    e.to_lit()
}

/// A hashed circuit, and that leaves fix the values of the old one.
pub fn hashed(aig: &Aig) -> Result<Aig, MemoryError>
    ensures exact { IfOk result (λ made. made ≡ strashed aig.now) }
    ensures leaves { LeavesFixValues aig.now }
{
    leaves_fix_values();
    aig.strash()
}

/// The clauses of a circuit, and that leaves fix its values.
pub fn clauses(aig: &Aig) -> Result<DagCnf, MemoryError>
    requires { length aig.now.nodes ≤ 2 ^ 31 }
    ensures exact { IfOk result (λ lists. HasClauses aig.now true lists) }
    ensures leaves { LeavesFixValues aig.now }
{
    leaves_fix_values();
    aig.cnf(true)
}

/// A circuit with one step more, and that leaves fix the values of the old one.
pub fn with_step(aig: &Aig) -> Result<Aig, MemoryError>
    ensures exact { IfOk result (λ made. UnrollsTo aig.now 1 made) }
    ensures leaves { LeavesFixValues aig.now }
{
    leaves_fix_values();
    aig.unroll_to(1)
}

/// What of a circuit is reached, and that leaves fix the values of the old one.
pub fn reached(aig: &Aig) -> Result<(Aig, VarVMap), MemoryError>
    requires { length aig.now.nodes ≤ 2 ^ 31 }
    ensures exact { IfOk result (λ made. IsRefined aig.now made.0 made.1) }
    ensures leaves { LeavesFixValues aig.now }
{
    leaves_fix_values();
    aig.coi_refine()
}

/// A circuit under the numbers of its file, and that leaves fix the values of the old one.
pub fn renumbered(aig: &Aig) -> Result<Aig, MemoryError>
    requires { IsClosed aig.now }
    ensures exact { IfOk result (λ made. made ≡ reencoded aig.now) }
    ensures leaves { LeavesFixValues aig.now }
{
    leaves_fix_values();
    aig.reencode()
}
