//! Initial edges that aren't constant.

ghost use Rattle.std.specs.Prelude.{◌≡◌, ◌↔◌, false, All, Any, IsTrue};
ghost use Rattle.aig_circuit.specs.Edges.{HasConstantInit, HasNonConstantInit};

use crate::node::AigLatch;

/// Whether some initial edge isn't constant.
fn has_non_constant_init(latchs: &[AigLatch]) -> bool
    ensures { IsTrue result ↔ Any HasNonConstantInit latchs.now }
{
    latchs
        .iter()
        .any(|latch| latch.init().is_some_and(|e| !e.is_const()))
}

/// Whether each latch has a constant initial edge or none.
pub fn are_inits_constant(latchs: &[AigLatch]) -> bool
    ensures plain { IsTrue result ↔ All HasConstantInit latchs.now }
    ensures variable { (result ≡ false) ↔ Any HasNonConstantInit latchs.now }
{
    !has_non_constant_init(latchs)
}
