//! A sample of calls: writes a counter that calls build, and two of its steps; then reads an AIGER file, makes a property of its first
//! output, and writes two steps of the refined and hashed circuit.

mod counter;

ghost use Rattle.std.specs.Prelude.{◌<◌, ◌&&◌, ◌||◌, IfOk, length, not, slice_index_or};
ghost use Rattle.aig_circuit.specs.Build.{GivesEdge};
ghost use Rattle.aig_circuit.specs.Circuit.{IsInRange};
ghost use Rattle.aig_circuit.specs.Tree.{edge_value};

use aig::{Aig, AigEdge, PropList, ReadError, WriteError};
use aig_base::{MemoryError, Sink, Source};
use std::alloc::Global;
use thiserror::Error;

/// Why not all is written.
#[derive(Clone, Copy, Debug, Error)]
pub enum SampleError {
    /// The file was refused.
    #[error("{0}")]
    Read(#[from] ReadError),
    /// Memory ran out.
    #[error("{0}")]
    Memory(#[from] MemoryError),
    /// The text wasn't written.
    #[error("{0}")]
    Write(#[from] WriteError),
}

/// Adds gates for: where `enable` holds, so does the first output.
fn output_where(aig: &mut Aig, enable: AigEdge) -> Result<AigEdge, MemoryError>
    requires some { 0 < length aig.old.properties.outputs }
    requires enable { IsInRange aig.old.nodes enable }
    ensures { IfOk result (GivesEdge aig.new.nodes (λ x. not (edge_value aig.old.nodes x enable)
        || (edge_value aig.old.nodes x (slice_index_or aig.old.properties.outputs 0 enable)
        && edge_value aig.old.nodes x enable))) }
{
    let output = aig.outputs()[0];
    let both = aig.new_and_node(output, enable)?;
    aig.new_imply_node(enable, both)
}

/// Adds the bad state that the first input holds and the first output does not.
fn add_bad_state(aig: &mut Aig) -> Result<(), MemoryError> {
    let Some(input) = aig.inputs().first() else {
        return Ok(());
    };
    if aig.outputs().is_empty() {
        return Ok(());
    }
    let enable = AigEdge::from(*input);
    let holds = output_where(aig, enable)?;
    aig.push_edge(PropList::Bads, !holds)
}

/// Writes two steps of a circuit to `w`.
fn write_steps<W: Sink>(aig: &Aig, w: &mut W) -> Result<(), SampleError> {
    let steps = aig.unroll_to(1)?;
    Ok(steps.write_text(w)?)
}

/// Reads a circuit from `r`, and writes two steps of its cone of influence to `w`.
fn show<R: Source, W: Sink>(alloc: Global, r: &mut R, w: &mut W) -> Result<(), SampleError> {
    let (mut circuit, _) = Aig::from_aiger(alloc, r, 1 << 24)?.coi_refine()?;
    add_bad_state(&mut circuit)?;
    write_steps(&circuit.strash()?, w)
}

/// Writes the counter and two steps of it to `w`, and then those of the circuit of `r`. The error of a read, of a write or of memory ends it.
pub fn show_all<R: Source, W: Sink>(
    alloc: Global,
    r: &mut R,
    w: &mut W,
) -> Result<(), SampleError> {
    counter::show(alloc, w)?;
    show(alloc, r, w)
}
