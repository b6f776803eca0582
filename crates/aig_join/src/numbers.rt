//! The numbers that the nodes of the second circuit have in the joint one. A table gives the number of node `n` at place
//! `n`.

ghost use Rattle.std.specs.Prelude.{◌≡◌, ◌≢◌, ◌+◌, ◌<◌, ◌≤◌, ◌^◌, ◌++◌, ℕ, IfOk, OnOk, All, AllPairs, length, slice_index};
ghost use Rattle.aig_circuit.specs.Circuit.{AreNodes, latch_leaves};
ghost use Rattle.aig_join.specs.Joined.{first_leaves, other_numbers};
ghost use Rattle.aig_join.specs.Numbers.{AreJointNumbers, AreShared, PutsAt, unnumbered};

use aig_base::MemoryError;
use aig_circuit::{AigLatch, AigNode, CircuitView};
use aig_renumber::Numbering;
use std::alloc::Global;

/// The numbers of a table.
#[derive(Drop)]
pub(crate) struct JointNumbers<'a> {
    /// The table.
    pub(crate) table: &'a [usize],
}

impl Numbering for JointNumbers<'_> {
    ghost has = { λ numbers n. n < length numbers.table.now };

    ghost number_of = { λ numbers. slice_index numbers.table.now };

    fn number(&self, n: usize) -> usize {
        self.table[n]
    }
}

/// Appends the leaves of latches.
fn push_leaves(leaves: &mut Vec<usize>, latchs: &[AigLatch]) -> Result<(), MemoryError>
    ensures { OnOk result (leaves.new.items ≡ leaves.old.items ++ latch_leaves latchs.now) }
{
    for latch in latchs {
        leaves.push(latch.input())?;
    }
    Ok(())
}

/// The inputs, and the leaves of the latches.
pub(crate) fn leaves(
    alloc: Global,
    inputs: &[usize],
    latchs: &[AigLatch],
) -> Result<Vec<usize>, MemoryError>
    ensures { IfOk result (λ leaves. leaves.items ≡ inputs.now ++ latch_leaves latchs.now) }
{
    let mut leaves = Vec::from_slice(alloc, inputs)?;
    push_leaves(&mut leaves, latchs)?;
    Ok(leaves)
}

/// The first inputs of the circuit, so many, and the leaves of its first latches, so many.
pub(crate) fn first_leaves(
    alloc: Global,
    circuit: &CircuitView<'_>,
    inputs: usize,
    latches: usize,
) -> Result<Vec<usize>, MemoryError>
    requires inputs { inputs ≤ length circuit.now.inputs }
    requires latches { latches ≤ length circuit.now.latchs }
    ensures { IfOk result (λ leaves. leaves.items ≡ first_leaves inputs latches circuit.now) }
{
    leaves(
        alloc,
        &circuit.inputs()[..inputs],
        &circuit.latchs()[..latches],
    )
}

/// Gives each shared leaf the number at its place in the other list.
fn number_shared(table: &mut [usize], shared: &[usize], theirs: &[usize])
    requires distinct { AllPairs (λ m n. m ≢ n) shared.now }
    requires there { All (λ n. n < length table.old) shared.now }
    requires count { length shared.now ≤ length theirs.now }
    ensures { PutsAt table.old table.new shared.now (slice_index theirs.now) }
{
    for (i, n) in shared.iter().enumerate() {
        table[*n] = theirs[i];
    }
}

/// The numbers but 0 that have no number but 0 in the table.
fn unnumbered(alloc: Global, nodes: &[AigNode], table: &[usize]) -> Result<Vec<usize>, MemoryError>
    requires sound { AreNodes nodes.now }
    requires long { length table.now ≡ length nodes.now }
    ensures { IfOk result (λ others. others.items ≡ unnumbered table.now nodes.now) }
{
    let mut others = Vec::with_capacity(alloc, nodes.len())?;
    for n in 1..table.len() {
        if table[n] == 0 {
            others.push(n)?;
        }
    }
    Ok(others)
}

/// Gives the others the numbers after so many nodes, in turn.
fn number_others(table: &mut [usize], others: &[usize], count: usize)
    requires distinct { AllPairs (λ m n. m ≢ n) others.now }
    requires there { All (λ n. n < length table.old) others.now }
    requires room { count + length others.now < 2 ^ 64 }
    ensures { PutsAt table.old table.new others.now (λ i. count + i) }
{
    for (i, n) in others.iter().enumerate() {
        table[*n] = count + i;
    }
}

/// The table of the nodes' numbers after so many others, and the numbers of the nodes that are added to these.
pub(crate) fn joint_numbers(
    alloc: Global,
    count: usize,
    nodes: &[AigNode],
    shared: &[usize],
    theirs: &[usize],
) -> Result<(Vec<usize>, Vec<usize>), MemoryError>
    requires sound { AreNodes nodes.now }
    requires room { count + length nodes.now < 2 ^ 64 }
    requires shared { AreShared nodes.now shared.now theirs.now }
    ensures table { IfOk result (λ made.
        AreJointNumbers nodes.now shared.now theirs.now count made.0.items) }
    ensures others { IfOk result (λ made. made.1.items ≡ other_numbers shared.now nodes.now) }
{
    let mut table = vec![in alloc; 0; nodes.len()]?;
    number_shared(&mut table, shared, theirs);
    let others = unnumbered(alloc, nodes, &table)?;
    number_others(&mut table, &others, count);
    Ok((table, others))
}
