//! What the clauses say together.

ghost use Rattle.std.specs.Prelude.{◌≡◌, ℕ, List, Bool, not};
ghost use Rattle.aig_base.specs.declared.logic.literal.Lit.{Lit};
ghost use Rattle.aig_base.specs.Clauses.{literal_value};
ghost use Rattle.aig_circuit.specs.declared.edge.AigEdge.{AigEdge};
ghost use Rattle.aig_circuit.specs.Edge.{inverse, lit_of};
ghost use Rattle.aig_circuit.specs.Circuit.{Circuit, IsCircuit};
ghost use Rattle.aig_cnf.specs.Cnf.{edge_in, FixesRoots, HasClauses, NodeValuesSatisfy};

/// Law: the literal of an edge has the value that the edge has where each node has its variable's value, and an inverse
/// the other one.
pub fn literals_have_edge_values()
    ensures literal { (v : ℕ → Bool) (e : AigEdge) → literal_value v (lit_of e) ≡ edge_in v e }
    ensures inverse { (v : ℕ → Bool) (e : AigEdge) → edge_in v (inverse e) ≡ not (edge_in v e) }
{}

/// Law: the clauses of a circuit fix the value of each root by the values of leaves, and all node values satisfy them.
pub fn clauses_fix_roots()
    ensures fixes { (c : Circuit) (optimize : Bool) (lists : List (List (List Lit)))
        → IsCircuit c → HasClauses c optimize lists → FixesRoots c lists }
    ensures satisfied { (c : Circuit) (optimize : Bool) (lists : List (List (List Lit)))
        → IsCircuit c → HasClauses c optimize lists → NodeValuesSatisfy c lists }
{}

/// Law: a circuit has one list of clauses for each setting.
pub fn clauses_are_one()
    ensures { (c : Circuit) (optimize : Bool) (lists others : List (List (List Lit)))
        → HasClauses c optimize lists → HasClauses c optimize others → lists ≡ others }
{}
