//! Clauses as DIMACS numbers.

ghost use Rattle.std.specs.Prelude.{◌≡◌, ◌-◌, ◌<◌, ◌++◌, ◌^◌, All, IfOk, OnOk, length};
ghost use Rattle.std.specs.List.{flat_map};
ghost use Rattle.aig_base.specs.Clauses.{AreBelow, variable_of};
ghost use Rattle.aig_giving.specs.Numbers.{clause_numbers, dimacs_number};

use aig_base::{DagCnf, Lit, LitVvec, MemoryError, Var};
use std::alloc::Global;

/// The DIMACS number of a literal, whose variable has a number below 2^31 - 1.
pub fn number_of(lit: Lit) -> i32
    requires { variable_of lit < 2 ^ 31 - 1 }
    ensures { result ≡ dimacs_number lit }
{
    let number = (usize::from(lit.var()) + 1) as i32;
    if lit.polarity() { number } else { -number }
}

/// Appends the numbers of a clause, and a 0.
fn push_clause(numbers: &mut Vec<i32>, clause: &[Lit]) -> Result<(), MemoryError>
    requires { All (λ lit. variable_of lit < 2 ^ 31 - 1) clause.now }
    ensures { OnOk result (numbers.new.items ≡ numbers.old.items ++ clause_numbers clause.now) }
{
    for lit in clause {
        numbers.push(number_of(*lit))?;
    }
    numbers.push(0)?;
    Ok(())
}

/// Appends the numbers of each clause of a list.
pub fn push_list(numbers: &mut Vec<i32>, clauses: &LitVvec) -> Result<(), MemoryError>
    requires { AreBelow (2 ^ 31 - 1) clauses.now }
    ensures { OnOk result (numbers.new.items ≡ numbers.old.items ++ flat_map clause_numbers
        clauses.now) }
{
    for i in 0..clauses.len() {
        push_clause(numbers, clauses.clause(i))?;
    }
    Ok(())
}

/// Appends the numbers of each clause of each variable.
pub fn push_lists(numbers: &mut Vec<i32>, clauses: &DagCnf) -> Result<(), MemoryError>
    requires { length clauses.now < 2 ^ 31 }
    ensures { OnOk result (numbers.new.items ≡ numbers.old.items ++ flat_map (flat_map
        clause_numbers) clauses.now) }
{
    for v in 0..clauses.num_vars() {
        push_list(numbers, clauses.clauses_of(Var::new(v)))?;
    }
    Ok(())
}

/// The numbers of the clauses of all variables.
pub fn clause_numbers(alloc: Global, clauses: &DagCnf) -> Result<Vec<i32>, MemoryError>
    requires { length clauses.now < 2 ^ 31 }
    ensures { IfOk result (λ v. v.items ≡ flat_map (flat_map clause_numbers) clauses.now) }
{
    let mut numbers = Vec::new(alloc);
    push_lists(&mut numbers, clauses)?;
    Ok(numbers)
}
