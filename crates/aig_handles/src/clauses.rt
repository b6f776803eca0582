//! The clauses of a circuit.

ghost use Rattle.std.specs.Prelude.{◌≡◌, IfErr, IfOk};
ghost use Rattle.aig_giving.specs.Given.{GivesOr};
ghost use Rattle.aig_handles.specs.Cones.{AreClauses, HasNoNumbers};
ghost use Rattle.aig_handles.specs.Handles.{OnHeld, held_in};

use crate::checks::MOST_NODES;
use crate::status::FULL;
use aig::Aig;
use aig_giving::{EMPTY, MEMORY, clause_numbers, give_made};
use aig_held::{Handle, Held};
use std::alloc::Global;

/// The numbers of the clauses, or the status that says why there are none.
fn numbers(alloc: Global, aig: &Aig, optimize: bool) -> Result<Vec<i32>, u32>
    ensures clauses { IfOk result (λ v. AreClauses optimize aig.now v.items) }
    ensures refused { IfErr result (λ status. HasNoNumbers status aig.now) }
{
    if aig.num_nodes() >= MOST_NODES {
        return Err(FULL);
    }
    let Ok(clauses) = aig.cnf(optimize) else {
        return Err(MEMORY);
    };
    match clause_numbers(alloc, &clauses) {
        Ok(numbers) => Ok(numbers),
        Err(_) => Err(MEMORY),
    }
}

/// Gives the numbers of the clauses.
fn give_clauses(
    alloc: Global,
    aig: &Aig,
    optimize: bool,
    out: &mut [i32],
    needed: &mut usize,
) -> u32
    ensures { GivesOr (AreClauses optimize aig.now) result out.old out.new needed.old needed.new
        (HasNoNumbers result aig.now) }
{
    give_made(numbers(alloc, aig, optimize), out, needed)
}

/// Gives the clauses of a circuit as DIMACS numbers, with a 0 after each clause.
#[unsafe(no_mangle)]
pub extern "C" fn aig_circuit_cnf(
    alloc: Global,
    circuit: &mut Handle,
    optimize: bool,
    out: &mut [i32],
    needed: &mut usize,
) -> u32
    ensures kept { held_in circuit.new ≡ held_in circuit.old }
    ensures clauses { OnHeld circuit.old circuit.new result
        ((out.new ≡ out.old) × (needed.new ≡ needed.old)) (λ c _. GivesOr (AreClauses optimize c)
        result out.old out.new needed.old needed.new
        (HasNoNumbers result c)) }
{
    lend!(alloc, circuit, aig => give_clauses(alloc, &*aig, optimize, out, needed))
}
