//! Laws of questions.

ghost use Rattle.std.specs.Prelude.{◌≡◌, ◌↔◌, ◌≤◌, ℕ, Bool, IsTrue, List};
ghost use Rattle.aig_circuit.specs.declared.edge.AigEdge.{AigEdge};
ghost use Rattle.aig_circuit.specs.Circuit.{Circuit, IsCircuit};
ghost use Rattle.aig_circuit.specs.Tree.{edge_value};
ghost use Rattle.aig_runs.specs.CircuitQueries.{HasCircuitWitness};
ghost use Rattle.aig_bounded.specs.declared.place.Place.{Place};
ghost use Rattle.aig_bounded.specs.Question.{IsQuestion};

/// Law: the output of a question can be true exactly where the circuit has a witness of some step up to the last.
pub fn questions_ask_for_witnesses()
    ensures { (c asks : Circuit) (k : ℕ) (output : AigEdge) (places : List Place)
        → IsCircuit c → IsQuestion c k asks output places
        → ((y : ℕ → Bool) × IsTrue (edge_value asks.nodes y output))
        ↔ ((t : ℕ) × (t ≤ k) × HasCircuitWitness c t) }
{}

/// Law: a question has one circuit, one output and one list of places. So what one process makes of a circuit and a step is what
/// another makes of them.
pub fn questions_are_one()
    ensures { (c one other : Circuit) (k : ℕ) (output out : AigEdge) (places seats : List Place)
        → IsQuestion c k one output places → IsQuestion c k other out seats
        → (one ≡ other) × (output ≡ out) × (places ≡ seats) }
{}
