//! The leaves of a witness circuit that stand for leaves of a model.

ghost use Rattle.std.specs.Prelude.{◌≡◌, ◌++◌, IfErr, IfOk, OnOk};
ghost use Rattle.std.specs.List.{zip};
ghost use Rattle.aig_circuit.specs.Circuit.{IsCircuit, latch_leaves};
ghost use Rattle.aig_reader.specs.Reading.{node_told};
ghost use Rattle.aig_witness_circuits.specs.Named.{IsFault, Shares, SharesByName, in_order};
ghost use Rattle.aig_witness_circuits.specs.Questions.{CanShareLeaves};

use crate::sharing::error::SharingError;
use crate::sharing::marks::marks_of;
use crate::sharing::naming::push_named;
use aig_base::MemoryError;
use aig_circuit::{AigLatch, CircuitView};
use aig_reader::VariableNodes;
use std::alloc::Global;

/// The leaves of latches.
fn leaves_of(alloc: Global, latchs: &[AigLatch]) -> Result<Vec<usize>, MemoryError>
    ensures { IfOk result (λ leaves. leaves.items ≡ latch_leaves latchs.now) }
{
    let mut leaves = Vec::with_capacity(alloc, latchs.len())?;
    for latch in latchs {
        leaves.push(latch.input())?;
    }
    Ok(leaves)
}

/// Appends pairs of the first leaves, as many as both lists have.
fn push_in_order(
    shared: &mut Vec<(usize, usize)>,
    model: &[usize],
    witness: &[usize],
) -> Result<(), MemoryError>
    ensures { OnOk result (shared.new.items ≡ shared.old.items ++ zip model.now witness.now) }
{
    for (i, leaf) in model.iter().enumerate() {
        if i == witness.len() {
            return Ok(());
        }
        shared.push((*leaf, witness[i]))?;
    }
    Ok(())
}

/// The pairs by names, of which there may be none.
fn pairs_by_name(
    alloc: Global,
    model: &CircuitView<'_>,
    variables: &VariableNodes,
    witness: &CircuitView<'_>,
) -> Result<Vec<(usize, usize)>, SharingError>
    ensures shares { IfOk result
        (λ shared. SharesByName (node_told variables.now) model.now witness.now shared.items) }
    ensures fault { IfErr result (IsFault (node_told variables.now) model.now witness.now) }
    ensures circuit { IfOk result (λ _. IsCircuit model.now × IsCircuit witness.now) }
{
    let count = model.nodes().len();
    let model_latches = leaves_of(alloc, model.latchs())?;
    let witness_latches = leaves_of(alloc, witness.latchs())?;
    let inputs = marks_of(alloc, count, model.inputs())?;
    let latches = marks_of(alloc, count, &model_latches)?;
    let mut taken = marks_of(alloc, count, &[])?;
    let mut shared = Vec::new(alloc);
    push_named(
        &mut shared,
        &mut taken,
        witness.names(),
        variables,
        &inputs,
        witness.inputs(),
    )?;
    push_named(
        &mut shared,
        &mut taken,
        witness.names(),
        variables,
        &latches,
        &witness_latches,
    )?;
    Ok(shared)
}

/// The pairs by order.
fn pairs_in_order(
    alloc: Global,
    model: &CircuitView<'_>,
    witness: &CircuitView<'_>,
) -> Result<Vec<(usize, usize)>, MemoryError>
    ensures { IfOk result (λ shared. shared.items ≡ in_order model.now witness.now) }
{
    let mut shared = Vec::new(alloc);
    push_in_order(&mut shared, model.inputs(), witness.inputs())?;
    push_in_order(
        &mut shared,
        &leaves_of(alloc, model.latchs())?,
        &leaves_of(alloc, witness.latchs())?,
    )?;
    Ok(shared)
}

/// Returns which leaves of a witness circuit stand for leaves of a model, as pairs of the model's leaf and the one that stands
/// for it.
///
/// A leaf of the witness circuit whose name is `= ` and a literal stands for the leaf that has this literal in the file of the model:
/// an input for an input, a latch for a latch, as in the competition's certificates. The literal is even, in decimal digits without a
/// sign, and `variables` says which node its variable is. Where no input and no latch has a name that begins so, the first inputs stand
/// for the first inputs and the first latches for the first latches, as many as both circuits have. Leaves of the model for which none
/// stands are free in what the certificate says, which shows no less.
///
/// # Errors
///
/// - `Memory`: memory was refused.
/// - `Unknown`: a name has the form, but no literal of a leaf of the kind follows: no number, an odd one, or another's.
/// - `Twice`: two leaves have the literal of one.
pub fn shared_leaves(
    alloc: Global,
    model: &CircuitView<'_>,
    variables: &VariableNodes,
    witness: &CircuitView<'_>,
) -> Result<Vec<(usize, usize)>, SharingError>
    ensures shares { IfOk result
        (λ shared. Shares (node_told variables.now) model.now witness.now shared.items) }
    ensures can { IfOk result (λ shared. CanShareLeaves shared.items model.now witness.now) }
    ensures fault { IfErr result (IsFault (node_told variables.now) model.now witness.now) }
{
    let named = pairs_by_name(alloc, model, variables, witness)?;
    if !named.is_empty() {
        return Ok(named);
    }
    let ordered = pairs_in_order(alloc, model, witness)?;
    Ok(ordered)
}
