//! Steps of a binary proof that have numbers, as cadical writes those of an LRAT file.
//!
//! A step is the letter `a`, the number of the clause that it adds, the literals of that and a 0, and
//! its hints and a 0; or the letter `d`, the numbers of clauses and a 0. Letters and literals are as in
//! a binary DRAT proof. A hint is twice the number of a clause, one more where it has a minus, and so is
//! the number of a clause that is deleted.

ghost use Rattle.std.specs.Prelude.{◌≡◌, ◌<◌, ◌≤◌, ◌^◌, [], IfOk, IsErrOf, IsTrue, OnOk, ℕ, true};
ghost use Rattle.aig_lexer.specs.Takes.{feed};
ghost use Rattle.aig_refutation.specs.BinaryNumbered.{deleted_by, hint_by, numbered_steps_in};
ghost use Rattle.aig_refutation.specs.ReadingBinary.{EndsStep, GivesHints, GivesItems, GivesNext, GivesNumber, begun_by};
ghost use Rattle.aig_refutation.specs.Reading.{step_by};
ghost use Rattle.aig_refutation.specs.Tokens.{IsReadBy, said_number, said_numbers};

use crate::binary::{read_code, read_letter, read_literals};
use crate::error::RefutationError;
use crate::list::push;
use crate::step::{Step, push_number};
use crate::words::Number;
use aig_base::Source;
use aig_lexer::InputBuffer;

/// Reads the number of a clause, as it is.
fn read_clause_number<R: Source>(
    buffer: &mut InputBuffer,
    r: &mut R,
) -> Result<u32, RefutationError>
    ensures stream { IsErrOf result RefutationError.Stream → R.failed r.new ≡ true }
    ensures fewer { OnOk result ((feed R.left R.failed R.pulls buffer.new r.new).most
        < (feed R.left R.failed R.pulls buffer.old r.old).most) }
    ensures number { (variables : ℕ) → GivesNumber variables
        (feed R.left R.failed R.pulls buffer.old r.old)
        (feed R.left R.failed R.pulls buffer.new r.new) result }
{
    let number = read_code(buffer, r)?;
    if number == 0 {
        return Err(RefutationError::Binary);
    }
    Ok(number)
}

/// The hint of a code.
fn hint(code: u32) -> Result<Number, RefutationError>
    ensures no_stream { IsErrOf result RefutationError.Stream → ⊥ }
    ensures hint { IsReadBy (λ number. said_number number) (hint_by code) result }
{
    if code < 2 {
        return Err(RefutationError::Binary);
    }
    Ok(Number {
        value: code / 2,
        positive: code % 2 == 0,
    })
}

/// The number of a clause that is deleted, of a code.
fn deleted(code: u32) -> Result<u32, RefutationError>
    ensures no_stream { IsErrOf result RefutationError.Stream → ⊥ }
    ensures number { IsReadBy (λ number. number) (deleted_by code) result }
{
    let number = hint(code)?;
    if !number.positive {
        return Err(RefutationError::Binary);
    }
    Ok(number.value)
}

/// Reads hints, and groups of hints, up to a 0.
fn read_hints<R: Source>(
    buffer: &mut InputBuffer,
    r: &mut R,
    hints: &mut Vec<u32>,
    groups: &mut Vec<Number>,
) -> Result<(), RefutationError>
    ensures stream { IsErrOf result RefutationError.Stream → R.failed r.new ≡ true }
    ensures fewer { OnOk result ((feed R.left R.failed R.pulls buffer.new r.new).most
        < (feed R.left R.failed R.pulls buffer.old r.old).most) }
    ensures hints { hints.old.items ≡ [] → groups.old.items ≡ []
        → GivesHints hints.new.items (said_numbers groups.new.items)
        (feed R.left R.failed R.pulls buffer.old r.old)
        (feed R.left R.failed R.pulls buffer.new r.new) result }
{
    loop {
        let code = read_code(buffer, r)?;
        if code == 0 {
            return Ok(());
        }
        push_number(hint(code)?, hints, groups)?;
    }
}

/// Reads the numbers of clauses that are deleted, up to a 0.
fn read_deleted<R: Source>(
    buffer: &mut InputBuffer,
    r: &mut R,
    numbers: &mut Vec<u32>,
) -> Result<(), RefutationError>
    ensures stream { IsErrOf result RefutationError.Stream → R.failed r.new ≡ true }
    ensures fewer { OnOk result ((feed R.left R.failed R.pulls buffer.new r.new).most
        < (feed R.left R.failed R.pulls buffer.old r.old).most) }
    ensures numbers { GivesItems deleted_by numbers.old.items numbers.new.items
        (feed R.left R.failed R.pulls buffer.old r.old)
        (feed R.left R.failed R.pulls buffer.new r.new) result }
{
    loop {
        let code = read_code(buffer, r)?;
        if code == 0 {
            return Ok(());
        }
        push(numbers, deleted(code)?)?;
    }
}

/// Reads a step after its letter, none of whose lists is read then.
fn read_lists<R: Source>(
    buffer: &mut InputBuffer,
    r: &mut R,
    step: &mut Step,
    variables: usize,
) -> Result<(), RefutationError>
    requires { variables ≤ 2 ^ 31 }
    ensures stream { IsErrOf result RefutationError.Stream → R.failed r.new ≡ true }
    ensures fewer { OnOk result ((feed R.left R.failed R.pulls buffer.new r.new).most
        < (feed R.left R.failed R.pulls buffer.old r.old).most) }
    ensures step { step.old.clause.items ≡ [] → step.old.numbers.items ≡ []
        → step.old.groups.items ≡ []
        → EndsStep variables (begun_by step.old.deletes) (step_by step.new)
        (feed R.left R.failed R.pulls buffer.old r.old)
        (feed R.left R.failed R.pulls buffer.new r.new) result }
    ensures numbered { step.new.is_numbered ≡ step.old.is_numbered }
{
    if step.deletes {
        return read_deleted(buffer, r, &mut step.numbers);
    }
    step.number = read_clause_number(buffer, r)?;
    read_literals(buffer, r, &mut step.clause, variables)?;
    read_hints(buffer, r, &mut step.numbers, &mut step.groups)
}

/// Reads the next step, and says whether there is one. Literals are those of the variables below
/// `variables`.
pub(crate) fn read_numbered_step<R: Source>(
    buffer: &mut InputBuffer,
    r: &mut R,
    step: &mut Step,
    variables: usize,
) -> Result<bool, RefutationError>
    requires { variables ≤ 2 ^ 31 }
    ensures stream { IsErrOf result RefutationError.Stream → R.failed r.new ≡ true }
    ensures fewer { IfOk result (λ there. IsTrue there
        → (feed R.left R.failed R.pulls buffer.new r.new).most
        < (feed R.left R.failed R.pulls buffer.old r.old).most) }
    ensures step { GivesNext numbered_steps_in variables (step_by step.new)
        (feed R.left R.failed R.pulls buffer.old r.old)
        (feed R.left R.failed R.pulls buffer.new r.new) result }
    ensures numbered { step.new.is_numbered ≡ true }
{
    step.is_numbered = true;
    step.numbers.clear();
    step.groups.clear();
    if !read_letter(buffer, r, step)? {
        return Ok(false);
    }
    read_lists(buffer, r, step, variables)?;
    Ok(true)
}
