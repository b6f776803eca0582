//! What the name of a leaf says.

ghost use Rattle.std.specs.Prelude.{◌≡◌, ◌≢◌, ◌++◌, ℕ, List, MatchOption, MatchResult};
ghost use Rattle.aig_circuit.specs.View.{names_of};
ghost use Rattle.aig_reader.specs.Reading.{node_told};
ghost use Rattle.aig_witness_circuits.specs.Marked.{IsAt};
ghost use Rattle.aig_witness_circuits.specs.Named.{IsMapping, IsFor, IsLiteralOf, IsNamed, sharing_prefix};
ghost use Rattle.aig_witness_circuits.specs.declared.sharing.error.SharingError.TheVariants as errors;

use crate::sharing::error::SharingError;
use aig_command_line::steps;
use aig_reader::VariableNodes;
use std::collections::HashMap;

/// What follows the prefix of a name that says for which leaf it stands.
fn behind_prefix(name: &str) -> Option<&str>
    ensures { MatchOption result ((rest : List ℕ) → name.now ≢ sharing_prefix ++ rest)
        (λ rest. name.now ≡ sharing_prefix ++ rest.now) }
{
    match name.strip_prefix('=') {
        Some(rest) => rest.strip_prefix(' '),
        None => None,
    }
}

/// The node whose literal the text is.
fn node_of_literal(variables: &VariableNodes, text: &str) -> Option<usize>
    ensures { let node = node_told variables.now in
        MatchOption result ((m : ℕ) → ¬ IsLiteralOf node m text.now)
        (λ m. IsLiteralOf node m text.now) }
{
    // The number that a word gives is that of decimal digits, as a literal is.
    let Some(literal) = steps(text) else {
        return None;
    };
    if literal % 2 == 0 {
        variables.node(literal / 2)
    } else {
        None
    }
}

/// The marked node whose literal the text is.
fn marked_node(variables: &VariableNodes, marks: &[bool], text: &str) -> Option<usize>
    ensures { let node = node_told variables.now in
        MatchOption result ((m : ℕ) → IsAt marks.now m → ¬ IsLiteralOf node m text.now)
        (λ m. IsAt marks.now m × IsLiteralOf node m text.now) }
{
    let Some(node) = node_of_literal(variables, text) else {
        return None;
    };
    if node < marks.len() && marks[node] {
        Some(node)
    } else {
        None
    }
}

/// The marked node whose literal the name has behind the prefix.
fn node_by_name(variables: &VariableNodes, marks: &[bool], name: &str) -> Result<Option<usize>, ()>
    ensures { let node = node_told variables.now in MatchResult result
        (λ found. MatchOption found (¬ IsMapping name.now)
        (λ m. IsAt marks.now m × IsFor node m name.now))
        (λ _. IsMapping name.now × ((m : ℕ) → IsAt marks.now m → ¬ IsFor node m name.now)) }
{
    let Some(text) = behind_prefix(name) else {
        return Ok(None);
    };
    match marked_node(variables, marks, text) {
        Some(node) => Ok(Some(node)),
        None => Err(()),
    }
}

/// The marked node for which a leaf stands by its name, if its name has the form.
#[tactic(auto, using(aig_circuit::proofs::Names::get_names))]
pub(crate) fn node_for(
    names: &HashMap<usize, String>,
    variables: &VariableNodes,
    marks: &[bool],
    leaf: usize,
) -> Result<Option<usize>, SharingError>
    ensures { let known = names_of names.now.entries in
        let node = node_told variables.now in
        MatchResult result
        (λ found. MatchOption found (¬ IsNamed IsMapping known leaf)
        (λ m. IsAt marks.now m × IsNamed (IsFor node m) known leaf))
        (λ e. (e ≡ errors.Unknown leaf) × IsNamed IsMapping known leaf
        × ((m : ℕ) → IsAt marks.now m → ¬ IsNamed (IsFor node m) known leaf)) }
{
    let Some(name) = names.get(&leaf) else {
        return Ok(None);
    };
    match node_by_name(variables, marks, name.as_str()) {
        Ok(node) => Ok(node),
        Err(()) => Err(SharingError::Unknown(leaf)),
    }
}
