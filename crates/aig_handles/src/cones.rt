//! Cones, as a mark for each node.

ghost use Rattle.std.specs.Prelude.{◌≡◌, ◌<◌, ◌↔◌, ℕ, All, Contains, IfErr, IfOk, IsTrue, length, map};
ghost use Rattle.aig_circuit.specs.Marks.{IsMarked};
ghost use Rattle.aig_circuit.specs.Reach.{IsInCone, MarksExactly};
ghost use Rattle.aig_giving.specs.Edges.{edge_of};
ghost use Rattle.aig_giving.specs.Given.{GivesOr};
ghost use Rattle.aig_handles.specs.Cones.{HasNoCone, HasNoFanin, MarksCone, MarksFanin};
ghost use Rattle.aig_handles.specs.Handles.{OnHeld, held_in};

use crate::checks::have_edges;
use crate::status::RANGE;
use aig::Aig;
use aig_base::MemoryError;
use aig_giving::{EMPTY, MEMORY, edges_of, give_made};
use aig_held::{Handle, Held};
use std::alloc::Global;
use std::collections::HashSet;

/// Marks of what edges reach along operands, or the status that says why there are none.
fn fanin_marks(alloc: Global, aig: &Aig, literals: &[u32]) -> Result<Vec<bool>, u32>
    ensures marks { IfOk result (λ v. MarksFanin (map edge_of literals.now) aig.now v.items) }
    ensures refused { IfErr result (λ status. HasNoFanin (map edge_of literals.now) status
        aig.now) }
{
    let Ok(edges) = edges_of(alloc, literals) else {
        return Err(MEMORY);
    };
    if !have_edges(aig, edges.as_slice()) {
        return Err(RANGE);
    }
    match aig.fanin_logic_cone(edges.as_slice()) {
        Ok(marks) => Ok(marks),
        Err(_) => Err(MEMORY),
    }
}

/// Marks what edges reach along operands.
fn give_fanin(alloc: Global, aig: &Aig, edges: &[u32], out: &mut [bool], needed: &mut usize) -> u32
    ensures { GivesOr (MarksFanin (map edge_of edges.now) aig.now) result out.old out.new needed.old
        needed.new (HasNoFanin (map edge_of edges.now) result aig.now) }
{
    give_made(fanin_marks(alloc, aig, edges), out, needed)
}

/// Marks what edges reach along operands.
#[unsafe(no_mangle)]
pub extern "C" fn aig_circuit_fanin_logic_cone(
    alloc: Global,
    circuit: &mut Handle,
    edges: &[u32],
    out: &mut [bool],
    needed: &mut usize,
) -> u32
    ensures kept { held_in circuit.new ≡ held_in circuit.old }
    ensures marks { OnHeld circuit.old circuit.new result
        ((out.new ≡ out.old) × (needed.new ≡ needed.old)) (λ c _. GivesOr (MarksFanin (map
        edge_of edges.now) c) result out.old out.new needed.old
        needed.new (HasNoFanin (map edge_of edges.now) result c)) }
{
    lend!(alloc, circuit, aig => give_fanin(alloc, &*aig, edges, out, needed))
}

/// Whether a circuit has these nodes.
fn have_nodes(aig: &Aig, nodes: &[usize]) -> bool
    ensures { IsTrue result ↔ All (λ n. n < length aig.now.nodes) nodes.now }
{
    nodes.iter().all(|node| aig.has_node(*node))
}

/// Whether a node is in a cone.
fn is_in(cone: &HashSet<usize>, node: usize) -> bool
    ensures { IsTrue result ↔ Contains cone.now.keys node }
{
    cone.contains(&node)
}

/// A mark for each of so many nodes: whether it is in a cone.
fn marks_of(alloc: Global, cone: &HashSet<usize>, count: usize) -> Result<Vec<bool>, MemoryError>
    ensures count { IfOk result (λ v. length v.items ≡ count) }
    ensures marks { IfOk result (λ v. (n : ℕ) → n < count → IsMarked v.items n
        ↔ Contains cone.now.keys n) }
{
    let mut marks = Vec::new(alloc);
    for node in 0..count {
        marks.push(is_in(cone, node))?;
    }
    Ok(marks)
}

/// Marks of the cone of influence of nodes.
fn cone_of(alloc: Global, aig: &Aig, roots: &[usize]) -> Result<Vec<bool>, MemoryError>
    requires { All (λ n. n < length aig.now.nodes) roots.now }
    ensures { IfOk result (λ v. MarksExactly aig.now.nodes (IsInCone aig.now roots.now) v.items) }
{
    let cone = aig.coi(roots)?;
    marks_of(alloc, &cone, aig.num_nodes())
}

/// Marks of the cone of influence of nodes, or the status that says why there are none.
fn cone_marks(alloc: Global, aig: &Aig, roots: &[usize]) -> Result<Vec<bool>, u32>
    ensures marks { IfOk result (λ v. MarksCone roots.now aig.now v.items) }
    ensures refused { IfErr result (λ status. HasNoCone roots.now status aig.now) }
{
    if !have_nodes(aig, roots) {
        return Err(RANGE);
    }
    match cone_of(alloc, aig, roots) {
        Ok(marks) => Ok(marks),
        Err(_) => Err(MEMORY),
    }
}

/// Marks the cone of influence of nodes.
fn give_cone(alloc: Global, aig: &Aig, roots: &[usize], out: &mut [bool], needed: &mut usize) -> u32
    ensures { GivesOr (MarksCone roots.now aig.now) result out.old out.new needed.old needed.new
        (HasNoCone roots.now result aig.now) }
{
    give_made(cone_marks(alloc, aig, roots), out, needed)
}

/// Marks the cone of influence of nodes.
#[unsafe(no_mangle)]
pub extern "C" fn aig_circuit_coi(
    alloc: Global,
    circuit: &mut Handle,
    roots: &[usize],
    out: &mut [bool],
    needed: &mut usize,
) -> u32
    ensures kept { held_in circuit.new ≡ held_in circuit.old }
    ensures marks { OnHeld circuit.old circuit.new result
        ((out.new ≡ out.old) × (needed.new ≡ needed.old)) (λ c _. GivesOr (MarksCone roots.now c)
        result out.old out.new needed.old needed.new (HasNoCone roots.now result c)) }
{
    lend!(alloc, circuit, aig => give_cone(alloc, &*aig, roots, out, needed))
}
