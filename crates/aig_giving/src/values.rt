//! Three values for C.

ghost use Rattle.std.specs.Prelude.{◌≡◌, ◌<◌, ◌↔◌, All, IfOk, IsTrue, map};
ghost use Rattle.aig_giving.specs.Values.{value_number, value_of};

use aig_base::{Lbool, MemoryError};
use std::alloc::Global;

/// The number of a value.
pub fn number_of_value(value: Lbool) -> u8
    ensures { result ≡ value_number value }
{
    match value {
        Lbool::FALSE => 0,
        Lbool::TRUE => 1,
        Lbool::NONE => 2,
    }
}

/// The value of a number.
pub fn value_of(number: u8) -> Lbool
    ensures { result ≡ value_of number }
{
    if number == 0 {
        Lbool::FALSE
    } else if number == 1 {
        Lbool::TRUE
    } else {
        Lbool::NONE
    }
}

/// Whether all are numbers of values.
pub fn are_values(numbers: &[u8]) -> bool
    ensures { IsTrue result ↔ All (λ n. n < 3) numbers.now }
{
    numbers.iter().all(|number| *number < 3)
}

/// The values of numbers.
pub fn values_of(alloc: Global, numbers: &[u8]) -> Result<Vec<Lbool>, MemoryError>
    ensures { IfOk result (λ v. v.items ≡ map value_of numbers.now) }
{
    Ok(
        numbers
            .iter()
            .map(|number| value_of(*number))
            .collect(alloc)?,
    )
}

/// The numbers of values.
pub fn numbers_of_values(alloc: Global, values: &[Lbool]) -> Result<Vec<u8>, MemoryError>
    ensures { IfOk result (λ v. v.items ≡ map value_number values.now) }
{
    Ok(
        values
            .iter()
            .map(|value| number_of_value(*value))
            .collect(alloc)?,
    )
}
