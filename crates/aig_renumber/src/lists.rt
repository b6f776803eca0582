//! Inputs and names of kept nodes under new numbers. A table gives the new number of node `n` at place `n`.

ghost use Rattle.std.specs.Prelude.{◌≡◌, IfOk, All, filter, map, slice_index};
ghost use Rattle.std.specs.FinMap.{retain_keys};
ghost use Rattle.aig_circuit.specs.Renumber.{is_in, renumbered_names};
ghost use Rattle.aig_circuit.specs.View.{names_of};
ghost use Rattle.aig_renumber.specs.Numbers.{HavePlaces, IsIndex};

use aig_base::MemoryError;
use std::alloc::Global;
use std::collections::HashMap;

/// Whether node `n` is kept: it is the node of its new number.
fn is_kept(numbers: &[usize], kept: &[usize], n: usize) -> bool
    requires there { IsIndex numbers.now n }
    requires places { HavePlaces numbers.now kept.now }
    ensures { result ≡ is_in kept.now n }
{
    kept[numbers[n]] == n
}

/// The new numbers of the inputs that are kept.
pub(crate) fn inputs(
    alloc: Global,
    numbers: &[usize],
    kept: &[usize],
    old: &[usize],
) -> Result<Vec<usize>, MemoryError>
    requires there { All (IsIndex numbers.now) old.now }
    requires places { HavePlaces numbers.now kept.now }
    ensures { IfOk result
        (λ new. new.items ≡ map (slice_index numbers.now) (filter (is_in kept.now) old.now)) }
{
    let mut new = Vec::with_capacity(alloc, old.len())?;
    for input in old {
        if is_kept(numbers, kept, *input) {
            new.push(numbers[*input])?;
        }
    }
    Ok(new)
}

/// The names of kept nodes, under the nodes' new numbers.
pub(crate) fn names(
    alloc: Global,
    numbers: &[usize],
    kept: &[usize],
    old: &HashMap<usize, String>,
) -> Result<HashMap<usize, String>, MemoryError>
    requires there { All (λ entry. IsIndex numbers.now entry.0) old.now.entries }
    requires places { HavePlaces numbers.now kept.now }
    ensures { IfOk result (λ new. names_of new.entries ≡ renumbered_names (slice_index numbers.now)
        (retain_keys (names_of old.now.entries) (is_in kept.now))) }
{
    let mut new = HashMap::new(alloc);
    for (id, name) in old {
        if is_kept(numbers, kept, *id) {
            let copy = name.clone()?;
            let _older = new.insert(numbers[*id], copy)?;
        }
    }
    Ok(new)
}
