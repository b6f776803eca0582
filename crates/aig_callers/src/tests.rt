//! What steps of tests/scripts can't say: the examples of docstrings, readers and writers of std that fail, and what the callers give.

ghost use Rattle.std.specs.Prelude.{◌≤◌, ◌^◌, IfOk, length};

mod answers;
mod binary_proofs;
mod certificates;
mod examples;
mod goals;
mod sample;
mod simulated;
mod streams;
mod taking;

use aig::Aig;
use aig_base::FromRead;
use std::alloc::Global;
use std::test::Fail;

/// Reads a circuit, as the example of `Aig::from_aiger` does.
fn read(alloc: Global, file: &[u8]) -> Result<Aig, Fail>
    ensures { IfOk result (λ aig. length aig.nodes ≤ 2 ^ 31) }
{
    let mut source = FromRead::new(file);
    Ok(Aig::from_aiger(alloc, &mut source, 1 << 24)?)
}
