//! Pairs of leaves by the names of the witness circuit's.

ghost use Rattle.std.specs.Prelude.{◌≡◌, ◌≢◌, ◌<◌, ◌++◌, ℕ, IfErr, OnOk, All, AllPairs, Contains, length, map};
ghost use Rattle.aig_circuit.specs.View.{names_of};
ghost use Rattle.aig_reader.specs.Reading.{node_told};
ghost use Rattle.aig_witness_circuits.specs.Marked.{AddsNamed, IsAt, IsRefused, Marks};
ghost use Rattle.aig_witness_circuits.specs.Named.{IsFor, IsNamed};
ghost use Rattle.aig_witness_circuits.specs.Simulation.{IsSharing};

use crate::sharing::error::SharingError;
use crate::sharing::named::node_for;
use aig_reader::VariableNodes;
use std::collections::HashMap;

/// Appends a pair for each of these leaves of the witness circuit whose name has the form, and marks the model's leaf as taken. `marks`
/// are those of the model's leaves of this kind.
pub(crate) fn push_named(
    shared: &mut Vec<(usize, usize)>,
    taken: &mut [bool],
    names: &HashMap<usize, String>,
    variables: &VariableNodes,
    marks: &[bool],
    leaves: &[usize],
) -> Result<(), SharingError>
    requires count { length taken.old ≡ length marks.now }
    requires taken { Marks taken.old (map (λ p. p.0) shared.old.items) }
    requires named { All (λ p. IsNamed (IsFor (node_told variables.now) p.0)
        (names_of names.now.entries) p.1) shared.old.items }
    requires once { AllPairs (λ m n. m ≢ n) (map (λ p. p.0) shared.old.items) }
    requires sharing { IsSharing shared.old.items }
    requires leaves { AllPairs (λ m n. m ≢ n) leaves.now }
    requires apart { All (λ n. ¬ Contains (map (λ p. p.1) shared.old.items) n) leaves.now }
    ensures adds { OnOk result
        (AddsNamed (node_told variables.now) (names_of names.now.entries) leaves.now
        (IsAt marks.now) shared.old.items shared.new.items taken.new) }
    ensures refused { IfErr result
        (IsRefused (node_told variables.now) (names_of names.now.entries) leaves.now
        (IsAt marks.now) shared.old.items) }
{
    for leaf in leaves {
        match node_for(names, variables, marks, *leaf)? {
            Some(node) => {
                if taken[node] {
                    return Err(SharingError::Twice(*leaf));
                }
                taken[node] = true;
                shared.push((node, *leaf))?;
            }
            None => {}
        }
    }
    Ok(())
}
