//! The clauses of nodes, and the entries of one step.

ghost use Rattle.std.specs.Prelude.{◌≡◌, ◌<◌, ◌≤◌, ◌+◌, ◌*◌, ◌^◌, ◌++◌, All, OnOk, length, map};
ghost use Rattle.std.specs.List.{flat_map};
ghost use Rattle.aig_circuit.specs.Edge.{inverse};
ghost use Rattle.aig_runs.specs.Queries.{unit_clauses};
ghost use Rattle.aig_steps.specs.Ends.{HasVariables, entries_at};
ghost use Rattle.aig_steps.specs.Stepwise.{node_clauses};

use aig_base::{LitVvec, MemoryError, Var};
use aig_circuit::{AigEdge, AigNode, AigNodeType};

/// Appends the clauses of a node. They state that node 0 is false, or that a gate is the and of its
/// operands.
fn push_node(clauses: &mut LitVvec, node: &AigNode) -> Result<(), MemoryError>
    requires { HasVariables node.now }
    ensures { OnOk result (clauses.new ≡ clauses.old ++ node_clauses node.now) }
{
    let n = Var::new(node.node_id()).lit();
    match node.typ() {
        AigNodeType::False => clauses.push(&[!n]),
        AigNodeType::Leaf => Ok(()),
        AigNodeType::And(a, b) => {
            let (first, second) = (a.to_lit(), b.to_lit());
            clauses.push(&[!n, first])?;
            clauses.push(&[!n, second])?;
            clauses.push(&[n, !first, !second])
        }
    }
}

/// Appends the clauses of nodes, one after another.
pub(crate) fn push_nodes(clauses: &mut LitVvec, nodes: &[AigNode]) -> Result<(), MemoryError>
    requires { All HasVariables nodes.now }
    ensures { OnOk result (clauses.new ≡ clauses.old ++ flat_map node_clauses nodes.now) }
{
    for node in nodes {
        push_node(clauses, node)?;
    }
    Ok(())
}

/// Appends a clause for each edge, which states that the edge is false.
pub(crate) fn push_inverses(clauses: &mut LitVvec, edges: &[AigEdge]) -> Result<(), MemoryError>
    requires { All (λ e. e.node_id < 2 ^ 31) edges.now }
    ensures { OnOk result (clauses.new ≡ clauses.old ++ unit_clauses (map inverse edges.now)) }
{
    for edge in edges {
        clauses.push(&[(!*edge).to_lit()])?;
    }
    Ok(())
}

/// Returns the entries of step `step`, if each step has `count` entries.
pub(crate) fn entries_of(entries: &[AigEdge], count: usize, step: usize) -> &[AigEdge]
    requires { (step + 1) * count ≤ length entries.now }
    ensures { result.now ≡ entries_at count step entries.now }
{
    let first = step * count;
    &entries[first..first + count]
}
