//! Clauses that are in conflict by themselves.

ghost use Rattle.std.specs.Prelude.{◌≡◌, ◌-◌, ◌<◌, ◌^◌, IfOk, length, slice_index_or, slice_set, true};
ghost use Rattle.aig_base.specs.Clauses.{number_of_lit};
ghost use Rattle.aig_refutation.specs.Checking.{are_all_in};
ghost use Rattle.aig_refutation.specs.Concluding.{FindsConflict};

use aig_base::{Lit, LitVvec, MemoryError};
use std::alloc::Global;

/// The number of the clause that has a literal alone, or 0 where there is none.
fn unit_of(units: &[u32], lit: Lit) -> u32
    ensures { result ≡ slice_index_or units.now (number_of_lit lit) 0 }
{
    let i = u32::from(lit) as usize;
    if i < units.len() { units[i] } else { 0 }
}

/// Says which clause has a literal alone.
fn set_unit(units: &mut [u32], lit: Lit, number: u32)
    ensures { units.new ≡ slice_set units.old (number_of_lit lit) number }
{
    let i = u32::from(lit) as usize;
    if i < units.len() {
        units[i] = number;
    }
}

/// The number of an empty clause, or those of two clauses of which one has a literal alone and the
/// other its inverse, and none where there are no such clauses. They are numbered from 1 on.
pub(crate) fn find_conflict(
    alloc: Global,
    clauses: &LitVvec,
    variables: usize,
) -> Result<Vec<u32>, MemoryError>
    ensures { are_all_in variables clauses.now ≡ true → length clauses.now < 2 ^ 32 - 1
        → IfOk result (λ hints. FindsConflict clauses.now hints.items) }
{
    let mut units = vec![in alloc; 0; variables.saturating_mul(2)]?;
    let mut number = 0u32;
    for i in 0..clauses.len() {
        number = number.saturating_add(1);
        match clauses.clause(i) {
            [] => return Ok(vec![in alloc; number]?),
            [lit] => {
                let inverse = unit_of(&units, !*lit);
                if inverse != 0 {
                    return Ok(vec![in alloc; inverse, number]?);
                }
                set_unit(&mut units, *lit, number);
            }
            _ => {}
        }
    }
    Ok(Vec::new(alloc))
}
