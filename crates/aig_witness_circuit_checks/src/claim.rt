//! What is claimed by a circuit of a file and a witness circuit.

ghost use Rattle.std.specs.Prelude.{◌^◌, ◌≢◌, ◌≤◌, IfOk};
ghost use Rattle.aig_edits.specs.Edits.{IsEditOwn, ReadsFile, edit_verdict};
ghost use Rattle.aig_circuit.specs.Circuit.{IsCircuit};
ghost use Rattle.aig_circuit.specs.View.{lists_circuit};
ghost use Rattle.aig_reader.specs.Reading.{node_told};
ghost use Rattle.aig_witness_circuit_checks.specs.Conditions.{GivesModel};
ghost use Rattle.aig_witness_circuit_checks.specs.Simulated.{Claims, IsClaim, IsOfClaim, MakesClaim, file_error, refusal_of};
ghost use Rattle.aig_witness_circuit_checks.specs.Witnesses.{ReadsWitness};
ghost use Rattle.aig_subjects.specs.declared.subject.FileSubject.TheVariants.{Own};

use crate::error::SimulationError;
use aig_base::Source;
use aig_circuit::{CircuitLists, CircuitView};
use aig_edits::EditError;
use aig_format_laws::files_are_circuits;
use aig_reader::{NumberedLists, VariableNodes};
use aig_subjects::{FileSubject, read_file_subject};
use aig_witness_circuits::{is_circular, shared_leaves};
use std::alloc::Global;

/// A model and a witness circuit, and which leaves they share.
#[derive(Drop)]
pub struct Claim {
    /// The circuit of the file that is asked about.
    pub model: CircuitLists,
    /// The witness circuit.
    pub witness: CircuitLists,
    /// Pairs of a leaf of the model and the one of the witness circuit that stands for it.
    pub shared: Vec<(usize, usize)>,
}

/// What is claimed by two circuits, where a name calls a leaf of the first one by the literal of a variable.
fn claim_of(
    alloc: Global,
    file: NumberedLists,
    witness: CircuitLists,
) -> Result<Claim, SimulationError>
    requires model { IsCircuit (lists_circuit file.lists) }
    requires witness { IsCircuit (lists_circuit witness) }
    ensures makes { MakesClaim (node_told file.variables) (lists_circuit file.lists)
        (lists_circuit witness) result }
    ensures claim { IfOk result IsClaim }
{
    let NumberedLists {
        lists: model,
        variables,
    } = file;
    if model.properties.bads.is_empty() {
        return Err(SimulationError::NoBads);
    }
    let simulating = CircuitView::new(&witness);
    let shared = shared_leaves(alloc, &CircuitView::new(&model), &variables, &simulating)?;
    if is_circular(alloc, &simulating, &shared)? {
        return Err(SimulationError::Circular);
    }
    Ok(Claim {
        model,
        witness,
        shared,
    })
}

/// Reads FILE's own circuit, and which of its nodes the file's variables are.
fn read_own<R: Source>(
    alloc: Global,
    file: &mut R,
    limit: usize,
) -> Result<NumberedLists, EditError>
    requires { limit ≤ 2 ^ 31 }
    ensures reads { ReadsFile R.left R.failed limit (GivesModel Own) edit_verdict IsEditOwn
        file.old result file.new }
    ensures circuit { IfOk result (λ read. IsCircuit (lists_circuit read.lists)) }
{
    files_are_circuits();
    Ok(aig_reader::read_numbered(alloc, file, limit)?)
}

/// Reads FILE, and makes a circuit of it that isn't its own. In the circuit's text variable n is node n.
fn read_made<R: Source>(
    alloc: Global,
    own: FileSubject,
    file: &mut R,
    limit: usize,
) -> Result<NumberedLists, EditError>
    requires some { 1 ≤ limit }
    requires few { limit ≤ 2 ^ 31 }
    requires made { own ≢ Own }
    ensures reads { ReadsFile R.left R.failed limit (GivesModel own) edit_verdict IsEditOwn
        file.old result file.new }
    ensures circuit { IfOk result (λ read. IsCircuit (lists_circuit read.lists)) }
{
    let lists = read_file_subject(alloc, own, file, limit)?;
    let variables = VariableNodes::Own(lists.nodes.len() - 1);
    Ok(NumberedLists { lists, variables })
}

/// Reads FILE, and returns the circuit that is asked about, and which of its nodes a variable is by which a name calls it.
fn read_model<R: Source>(
    alloc: Global,
    own: FileSubject,
    file: &mut R,
    limit: usize,
) -> Result<NumberedLists, EditError>
    requires some { 1 ≤ limit }
    requires few { limit ≤ 2 ^ 31 }
    ensures reads { ReadsFile R.left R.failed limit (GivesModel own) edit_verdict IsEditOwn
        file.old result file.new }
    ensures circuit { IfOk result (λ read. IsCircuit (lists_circuit read.lists)) }
{
    match own {
        FileSubject::Own => read_own(alloc, file, limit),
        _ => read_made(alloc, own, file, limit),
    }
}

/// Reads two files in the AIGER format, a file and a witness circuit, and tells which leaves the circuit of the file that is asked about and
/// the witness circuit share, as `aig_witness_circuits::shared_leaves` does: by the literals of the file, or of the text of the circuit that is
/// made of it. The witness circuit is read only where the file is taken, and its resets may be functions (`aig_reader::read_with_resets`).
/// Requires `1 <= limit <= 2^31`.
///
/// # Errors
///
/// - `File`: the file is refused, or has no such circuit. The witness circuit isn't read.
/// - `Witness`: the witness circuit is refused.
/// - `NoBads`: the circuit has no bad edge.
/// - `Sharing`: it isn't told which leaves are shared.
/// - `Circular`: the resets of the witness circuit's own latches go round in a circle.
/// - `Condition`: never.
pub fn read_simulation<R: Source, S: Source>(
    alloc: Global,
    own: FileSubject,
    file: &mut R,
    witness: &mut S,
    limit: usize,
) -> Result<Claim, SimulationError>
    requires some { 1 ≤ limit }
    requires few { limit ≤ 2 ^ 31 }
    // The bytes that were read are two files, and the lists are those of their circuits. A refusal says why.
    ensures reads { ReadsWitness R.left R.failed S.left S.failed limit own (Claims own) file_error
        refusal_of IsOfClaim file.old witness.old result file.new witness.new }
    ensures claim { IfOk result IsClaim }
{
    let model = read_model(alloc, own, file, limit)?;
    let witness = match aig_reader::read_with_resets(alloc, witness, limit) {
        Ok(witness) => witness,
        Err(error) => return Err(SimulationError::Witness(error)),
    };
    claim_of(alloc, model, witness)
}
