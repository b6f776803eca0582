//! The forms of gates.

ghost use Rattle.std.specs.Prelude.{◌≡◌, ◌<◌, ◌↔◌, IsTrue, length, MatchOption};
ghost use Rattle.aig_circuit.specs.Circuit.{IsInRange};
ghost use Rattle.aig_circuit.specs.Edge.{inverse};
ghost use Rattle.aig_circuit.specs.Node.{IsOrdered};
ghost use Rattle.aig_cnf.specs.Cnf.{Chooses, HasForm, Inner};
ghost use Rattle.aig_cnf.specs.Patterns.{AreApart, AreOpposite, HasPattern};

use aig_circuit::{AigEdge, AigNode, AigNodeType};

/// What the clauses of a gate say of its value.
#[derive(Clone, Copy)]
pub enum Form {
    /// It is the and of two edges.
    AndOf(AigEdge, AigEdge),
    /// It is the one or the other of two edges, and not both.
    XorOf(AigEdge, AigEdge),
    /// It is the second edge where the first is true, and else the third.
    IteOf(AigEdge, AigEdge, AigEdge),
}

/// The operands of the gate that an inverted edge names, if it is one.
fn find_inner(nodes: &[AigNode], e: AigEdge) -> Option<(AigEdge, AigEdge)>
    requires { IsInRange nodes.now e }
    ensures { MatchOption result ((p q : AigEdge) → ¬ Inner nodes.now e p q)
        (λ pair. Inner nodes.now e pair.0 pair.1) }
{
    if !e.compl() {
        return None;
    }
    match *nodes[e.node_id()].typ() {
        AigNodeType::And(p, q) => Some((p, q)),
        _ => None,
    }
}

/// Whether the first edge is the inverse of the second.
fn is_inverse(p: AigEdge, q: AigEdge) -> bool
    ensures { IsTrue result ↔ (p ≡ inverse q) }
{
    p == !q
}

/// Whether the first pair of edges is the inverse of the second, and names two nodes.
fn are_opposite(p0: AigEdge, p1: AigEdge, q0: AigEdge, q1: AigEdge) -> bool
    ensures { IsTrue result ↔ AreOpposite p0 p1 q0 q1 }
{
    is_inverse(p0, q0) && is_inverse(p1, q1) && p0.node_id() != p1.node_id()
}

/// The edge on which two pairs choose, and what they choose between, if an edge of the one is the inverse of one of the
/// other.
fn choose(p0: AigEdge, p1: AigEdge, q0: AigEdge, q1: AigEdge) -> Option<(AigEdge, AigEdge, AigEdge)>
    ensures { MatchOption result ((c t e : AigEdge) → ¬ Chooses p0 p1 q0 q1 c t e)
        (λ edges. Chooses p0 p1 q0 q1 edges.0 edges.1 edges.2) }
{
    if is_inverse(p0, q0) {
        Some((p0, !p1, !q1))
    } else if is_inverse(p0, q1) {
        Some((p0, !p1, !q0))
    } else if is_inverse(p1, q0) {
        Some((p1, !p0, !q1))
    } else if is_inverse(p1, q1) {
        Some((p1, !p0, !q0))
    } else {
        None
    }
}

/// Whether three edges name three nodes.
fn are_apart(c: AigEdge, t: AigEdge, e: AigEdge) -> bool
    ensures { IsTrue result ↔ AreApart c t e }
{
    c.node_id() != t.node_id() && c.node_id() != e.node_id() && t.node_id() != e.node_id()
}

/// The form of the and of two edges that is an exclusive or or an if-then-else, if it is one.
fn find_pattern(nodes: &[AigNode], a: AigEdge, b: AigEdge) -> Option<Form>
    requires first { IsInRange nodes.now a }
    requires second { IsInRange nodes.now b }
    ensures { MatchOption result ((form : Form) → ¬ HasPattern nodes.now a b form)
        (HasPattern nodes.now a b) }
{
    let Some((p0, p1)) = find_inner(nodes, a) else {
        return None;
    };
    let Some((q0, q1)) = find_inner(nodes, b) else {
        return None;
    };
    if are_opposite(p0, p1, q0, q1) {
        return Some(Form::XorOf(p0, p1));
    }
    match choose(p0, p1, q0, q1) {
        Some((c, t, e)) if are_apart(c, t, e) => Some(Form::IteOf(c, t, e)),
        _ => None,
    }
}

/// The form of node `id`, if it is a gate.
pub fn find_form(nodes: &[AigNode], id: usize, optimize: bool) -> Option<Form>
    requires ordered { IsOrdered nodes.now }
    requires there { id < length nodes.now }
    ensures { MatchOption result ((form : Form) → ¬ HasForm nodes.now optimize id form)
        (HasForm nodes.now optimize id) }
{
    let AigNodeType::And(fanin0, fanin1) = *nodes[id].typ() else {
        return None;
    };
    let and = Form::AndOf(fanin0, fanin1);
    if optimize {
        Some(find_pattern(nodes, fanin0, fanin1).unwrap_or(and))
    } else {
        Some(and)
    }
}
