//! Steps of a binary proof.
//!
//! A step is the letter `a`, which adds a clause, or `d`, which deletes one; then each literal of the
//! clause as twice its number, one more where it is inverted; and a 0. A number is written in groups
//! of seven bits, the lowest first, each in a byte whose top bit says whether others follow.

ghost use Rattle.std.specs.Prelude.{◌≡◌, ◌<◌, ◌≤◌, ◌^◌, [], IfOk, IsErrOf, IsTrue, OnOk, true};
ghost use Rattle.aig_base.specs.Clauses.{variable_of};
ghost use Rattle.aig_lexer.specs.Takes.{feed};
ghost use Rattle.aig_refutation.specs.Binary.{binary_steps_in, literal_by};
ghost use Rattle.aig_refutation.specs.Checking.{are_in};
ghost use Rattle.aig_refutation.specs.ReadingBinary.{GivesCode, GivesItems, GivesLetter, GivesNext};
ghost use Rattle.aig_refutation.specs.Reading.{plain_by};
ghost use Rattle.aig_refutation.specs.Tokens.{IsReadBy};

use crate::error::RefutationError;
use crate::list::push;
use crate::step::Step;
use aig_base::{Lit, Source, Var};
use aig_lexer::InputBuffer;

/// How many groups of seven bits a number has at most.
const MOST_GROUPS: u32 = 5;

/// Reads a number, which is below 2^32.
pub(crate) fn read_code<R: Source>(
    buffer: &mut InputBuffer,
    r: &mut R,
) -> Result<u32, RefutationError>
    ensures stream { IsErrOf result RefutationError.Stream → R.failed r.new ≡ true }
    ensures fewer { OnOk result ((feed R.left R.failed R.pulls buffer.new r.new).most
        < (feed R.left R.failed R.pulls buffer.old r.old).most) }
    ensures code { GivesCode (feed R.left R.failed R.pulls buffer.old r.old)
        (feed R.left R.failed R.pulls buffer.new r.new) result }
{
    let mut code = 0u64;
    let mut place = 1u64;
    for _ in 0..MOST_GROUPS {
        let Some(byte) = buffer.next(r)? else {
            return Err(RefutationError::Binary);
        };
        code += place * (byte % 128) as u64;
        if byte < 128 {
            if code > u32::MAX as u64 {
                return Err(RefutationError::Binary);
            }
            return Ok(code as u32);
        }
        place *= 128;
    }
    Err(RefutationError::Binary)
}

/// The literal of a number: twice one more than its variable's number, and one more where it is
/// inverted.
fn literal(code: u32, variables: usize) -> Result<Lit, RefutationError>
    requires { variables ≤ 2 ^ 31 }
    ensures no_stream { IsErrOf result RefutationError.Stream → ⊥ }
    ensures literal { IsReadBy (λ lit. lit) (literal_by variables code) result }
    ensures inside { IfOk result (λ lit. variable_of lit < variables) }
{
    if code < 2 {
        return Err(RefutationError::Binary);
    }
    let variable = (code / 2 - 1) as usize;
    if variable >= variables {
        return Err(RefutationError::Literal);
    }
    Ok(Lit::new(Var::new(variable), code % 2 == 0))
}

/// Reads the letter of the next step, none of whose literals is read then, and says whether there is
/// one.
pub(crate) fn read_letter<R: Source>(
    buffer: &mut InputBuffer,
    r: &mut R,
    step: &mut Step,
) -> Result<bool, RefutationError>
    ensures stream { IsErrOf result RefutationError.Stream → R.failed r.new ≡ true }
    ensures fewer { IfOk result (λ there. IsTrue there
        → (feed R.left R.failed R.pulls buffer.new r.new).most
        < (feed R.left R.failed R.pulls buffer.old r.old).most) }
    ensures letter { GivesLetter step.new.deletes
        (feed R.left R.failed R.pulls buffer.old r.old)
        (feed R.left R.failed R.pulls buffer.new r.new) result }
    ensures empty { step.new.clause.items ≡ [] }
    ensures same { (step.new.is_numbered ≡ step.old.is_numbered)
        × (step.new.numbers ≡ step.old.numbers) × (step.new.groups ≡ step.old.groups) }
{
    step.clause.clear();
    match buffer.next(r)? {
        Some(b'a') => step.deletes = false,
        Some(b'd') => step.deletes = true,
        Some(_) => return Err(RefutationError::Binary),
        None => return Ok(false),
    }
    Ok(true)
}

/// Reads literals up to a 0, and appends them to a clause.
pub(crate) fn read_literals<R: Source>(
    buffer: &mut InputBuffer,
    r: &mut R,
    clause: &mut Vec<Lit>,
    variables: usize,
) -> Result<(), RefutationError>
    requires { variables ≤ 2 ^ 31 }
    ensures stream { IsErrOf result RefutationError.Stream → R.failed r.new ≡ true }
    ensures fewer { OnOk result ((feed R.left R.failed R.pulls buffer.new r.new).most
        < (feed R.left R.failed R.pulls buffer.old r.old).most) }
    ensures clause { GivesItems (literal_by variables) clause.old.items clause.new.items
        (feed R.left R.failed R.pulls buffer.old r.old)
        (feed R.left R.failed R.pulls buffer.new r.new) result }
    ensures inside { are_in variables clause.old.items ≡ true
        → OnOk result (are_in variables clause.new.items ≡ true) }
{
    loop {
        let code = read_code(buffer, r)?;
        if code == 0 {
            return Ok(());
        }
        push(clause, literal(code, variables)?)?;
    }
}

/// Reads the next step, and says whether there is one. Literals are those of the variables below
/// `variables`.
pub(crate) fn read_step<R: Source>(
    buffer: &mut InputBuffer,
    r: &mut R,
    step: &mut Step,
    variables: usize,
) -> Result<bool, RefutationError>
    requires { variables ≤ 2 ^ 31 }
    ensures stream { IsErrOf result RefutationError.Stream → R.failed r.new ≡ true }
    ensures fewer { IfOk result (λ there. IsTrue there
        → (feed R.left R.failed R.pulls buffer.new r.new).most
        < (feed R.left R.failed R.pulls buffer.old r.old).most) }
    ensures step { GivesNext binary_steps_in variables (plain_by step.new)
        (feed R.left R.failed R.pulls buffer.old r.old)
        (feed R.left R.failed R.pulls buffer.new r.new) result }
    ensures inside { IfOk result (λ there. are_in variables step.new.clause.items ≡ true) }
{
    if !read_letter(buffer, r, step)? {
        return Ok(false);
    }
    read_literals(buffer, r, &mut step.clause, variables)?;
    Ok(true)
}
