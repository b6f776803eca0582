//! Laws of circuits whose size alone can keep them from a written form.

ghost use Rattle.std.specs.Prelude.{ℕ, List};
ghost use Rattle.aig_circuit.specs.declared.edge.AigEdge.{AigEdge};
ghost use Rattle.aig_circuit.specs.Circuit.{Circuit, IsCircuit};
ghost use Rattle.aig_change.specs.Changes.{CompressesBads, FoldsConstraints};
ghost use Rattle.aig_change.specs.Merge.{merged};
ghost use Rattle.aig_cone.specs.Refine.{AreKept, refined};
ghost use Rattle.aig_format.specs.Writable.{IsWritable};
ghost use Rattle.aig_edit_laws.specs.Reduction.{IsReduced};
ghost use Rattle.aig_unroll.specs.Unroll.{UnrollsTo};
ghost use Rattle.aig_edit_laws.specs.Plain.{IsPlain};
ghost use Rattle.aig_edit_laws.specs.Shown.{IsConeOf, bad_alone, outputs_as_bads};

use crate::reduction::asked_circuits_are_circuits;
use aig_cone::refining_is_circuit;

/// Law: where only its size can keep a circuit from a written form, this is so of what is made of it.
pub fn changed_circuits_are_plain()
    ensures compressed { (old new : Circuit) → IsPlain old → CompressesBads old new
        → IsPlain new }
    ensures folded { (old new : Circuit) → IsCircuit old → IsPlain old
        → FoldsConstraints old new → IsPlain new }
    ensures unrolled { (c unrolled : Circuit) (k : ℕ) → IsCircuit c → IsPlain c
        → UnrollsTo c k unrolled → IsPlain unrolled }
    ensures refined { (c : Circuit) (kept : List ℕ) → IsCircuit c → AreKept c kept → IsPlain c
        → IsPlain (refined kept c) }
    ensures cones { (c cone : Circuit) (n : ℕ) → IsCircuit c → IsPlain c → IsConeOf n c cone
        → IsPlain cone }
    ensures merged { (first second : Circuit) → IsCircuit first → IsCircuit second
        → IsPlain first → IsPlain second → IsPlain (merged first second) }
    ensures bads { (c : Circuit) → IsPlain c → IsPlain (outputs_as_bads c) }
    ensures bad { (c : Circuit) (e : AigEdge) → IsPlain c → IsPlain (bad_alone c e) }
{}

/// Law: where a circuit has a written form, its reduction has one.
pub fn reductions_are_writable()
    ensures { (old new : Circuit) → IsCircuit old → IsWritable old → IsReduced old new
        → IsWritable new }
{
    asked_circuits_are_circuits();
    refining_is_circuit();
}
