//! What circuits have in common.

ghost use Rattle.std.specs.Prelude.{◌≡◌, ℕ, List, Bool, not};
ghost use Rattle.aig_circuit.specs.declared.edge.AigEdge.{AigEdge};
ghost use Rattle.aig_circuit.specs.Circuit.{Circuit, IsCircuit, IsInRange, IsLeaf};
ghost use Rattle.aig_circuit.specs.declared.node.AigNode.{AigNode};
ghost use Rattle.aig_circuit.specs.Build.{AddsOnlyGates};
ghost use Rattle.aig_circuit.specs.Edge.{inverse};
ghost use Rattle.aig_circuit.specs.Tree.{edge_value};

/// Law: the value of an edge of a circuit depends on the values of its leaves alone.
pub fn leaves_fix_values()
    ensures { (c : Circuit) (x y : ℕ → Bool) → IsCircuit c
        → ((n : ℕ) → IsLeaf c.nodes n → x n ≡ y n)
        → (e : AigEdge) → IsInRange c.nodes e → edge_value c.nodes x e ≡ edge_value c.nodes y e }
{}

/// Law: the inverse of an edge has the other value.
pub fn inverses_have_other_values()
    ensures { (nodes : List AigNode) (x : ℕ → Bool) (e : AigEdge)
        → edge_value nodes x (inverse e) ≡ not (edge_value nodes x e) }
{}

/// Law: what adds only gates, and then only gates again, adds only gates.
pub fn further_gates_are_gates()
    ensures { (a b c : Circuit) → AddsOnlyGates a b → AddsOnlyGates b c → AddsOnlyGates a c }
{}
