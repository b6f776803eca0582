//! What known values tell.

ghost use Rattle.std.specs.Prelude.{List};
ghost use Rattle.aig_base.specs.declared.logic.three.Lbool.{Lbool};
ghost use Rattle.aig_circuit.specs.declared.edge.AigEdge.{AigEdge};
ghost use Rattle.aig_circuit.specs.Circuit.{Circuit, IsCircuit, IsInRange};
ghost use Rattle.aig_ternary.specs.Ternary.{KnownValuesHold, simulation_of, values_in};

/// Law: a known value is the edge's value at that step on every filling.
pub fn known_values_hold()
    ensures { (c : Circuit) (e : AigEdge) (state : List Lbool) (steps : List (List Lbool))
        → IsCircuit c → IsInRange c.nodes e
        → KnownValuesHold c e state steps (values_in e (simulation_of c state) steps) }
{}
