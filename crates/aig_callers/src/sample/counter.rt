//! Builds a counter by calls, with a bad state property, and writes it, and then two of its steps.

ghost use Rattle.std.specs.Prelude.{◌≡◌, ◌<◌, ◌≤◌, IfOk, length};
ghost use Rattle.aig_circuit.specs.Circuit.{IsInRange};

use crate::sample::{SampleError, write_steps};
use aig::{Aig, AigEdge, PropList};
use aig_base::{MemoryError, Sink};
use std::alloc::Global;

/// Replaces the next edge of a latch, which leaves all nodes.
fn close(aig: &mut Aig, place: usize, next: AigEdge)
    requires place { place < length aig.old.latchs }
    requires edge { IsInRange aig.old.nodes next }
    ensures { aig.new.nodes ≡ aig.old.nodes }
{
    aig.set_next(place, next);
}

/// Adds a latch that starts with 0 and changes at the steps at which `flip` holds, and returns its edge.
fn add_bit(aig: &mut Aig, flip: AigEdge, name: &str) -> Result<AigEdge, MemoryError>
    requires { IsInRange aig.old.nodes flip }
    ensures grows { length aig.old.nodes ≤ length aig.new.nodes }
    ensures edge { IfOk result (IsInRange aig.new.nodes) }
{
    let zero = AigEdge::constant(false);
    let place = aig.latchs().len();
    let leaf = aig.new_latch(zero, Some(zero))?;
    aig.set_symbol(leaf, name)?;
    let bit = AigEdge::from(leaf);
    let same = aig.new_eq_node(bit, flip)?;
    close(aig, place, !same);
    Ok(bit)
}

/// Adds a counter of two bits that counts the steps at which its input holds, bad where it is at 3.
fn add_counter(aig: &mut Aig) -> Result<(), MemoryError> {
    let input = aig.new_input()?;
    aig.set_symbol(input, "step")?;
    let step = AigEdge::from(input);
    let low = add_bit(aig, step, "low")?;
    let carry = aig.new_and_node(step, low)?;
    let high = add_bit(aig, carry, "high")?;
    let full = aig.new_and_node(low, high)?;
    aig.push_edge(PropList::Bads, full)
}

/// Adds the counter to an empty circuit, and writes that, and then two steps of it, to `w`.
fn write_counter<W: Sink>(aig: &mut Aig, w: &mut W) -> Result<(), SampleError> {
    add_counter(aig)?;
    aig.write_text(w)?;
    write_steps(aig, w)
}

/// Writes the counter, and then two steps of it, to `w`.
pub(crate) fn show<W: Sink>(alloc: Global, w: &mut W) -> Result<(), SampleError> {
    let mut aig = Aig::new(alloc)?;
    write_counter(&mut aig, w)
}
