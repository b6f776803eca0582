//! Steps of a proof, as lines of text.

ghost use Rattle.std.specs.Prelude.{◌≡◌, ◌<◌, ◌≤◌, ◌^◌, ◌++◌, ◌∷◌, [], ℕ, Bool, List, Some, IfOk, IsErrOf, IsTrue, OnOk, false, true};
ghost use Rattle.aig_base.specs.Clauses.{variable_of};
ghost use Rattle.aig_refutation.specs.Checking.{are_in};
ghost use Rattle.aig_refutation.specs.Proofs.{after_clause, clause_number, groups_at, hints_at, literal_of};
ghost use Rattle.aig_refutation.specs.Reading.{GivesStep, reads_added, reads_after, reads_clause, reads_deleted, reads_dropped, reads_hints, reads_numbers, said_by};
ghost use Rattle.aig_refutation.specs.Skipping.{TakesHints, TakesNumbers};
ghost use Rattle.aig_refutation.specs.Tokens.{IsReadBy, GivesValue, IsClosed, Tries, is_last, place, rest, said_number, said_numbers};

use crate::error::RefutationError;
use crate::list::push;
use crate::words::{End, Number, Word, Words};
use aig_base::{Lit, MemoryError, Source, Var};
use std::alloc::Global;

/// A step of a proof: a line `N L.. 0 H.. 0`, where `-M H..` may stand before the last 0, for each of
/// some clauses, or `N d M.. 0` of an LRAT file, or `L.. 0` or `d L.. 0` of a DRAT file, text or
/// binary. Its lists are used again for the next one.
pub(crate) struct Step {
    /// Whether clauses are named by numbers, as in an LRAT file.
    pub(crate) is_numbered: bool,
    /// Whether clauses are deleted, and none is added.
    pub(crate) deletes: bool,
    /// The number of the clause that is added, `N`.
    pub(crate) number: u32,
    /// The literals `L` of the clause.
    pub(crate) clause: Vec<Lit>,
    /// The numbers of the hints, `H`, or of the clauses that are deleted, `M`.
    pub(crate) numbers: Vec<u32>,
    /// The numbers of a line from the first that is negative on, `-M H..`, as often as there are.
    pub(crate) groups: Vec<Number>,
}

impl Drop for Step {
    fn drop(self) {
        let Step {
            is_numbered: _,
            deletes: _,
            number: _,
            clause: _,
            numbers: _,
            groups: _,
        } = self;
    }
}

/// The number of a clause.
fn clause_number(number: Number) -> Result<u32, RefutationError>
    ensures no_stream { IsErrOf result RefutationError.Stream → ⊥ }
    ensures number { IsReadBy (λ n. n) (clause_number (said_number number)) result }
{
    if number.positive && number.value != 0 {
        Ok(number.value)
    } else {
        Err(RefutationError::Line)
    }
}

/// The literal of a number: one more than its variable's number, and negative where it is inverted.
fn literal(number: Number, variables: usize) -> Result<Lit, RefutationError>
    requires { variables ≤ 2 ^ 31 }
    ensures no_stream { IsErrOf result RefutationError.Stream → ⊥ }
    ensures literal { IsReadBy (λ lit. lit) (literal_of variables (said_number number)) result }
    ensures inside { IfOk result (λ lit. variable_of lit < variables) }
{
    let Some(variable) = number.value.checked_sub(1) else {
        return Err(RefutationError::Line);
    };
    if variable as usize >= variables {
        return Err(RefutationError::Literal);
    }
    Ok(Lit::new(Var::new(variable as usize), number.positive))
}

/// Reads literals up to a 0, the first of which is this number.
fn read_clause<R: Source>(
    words: &mut Words,
    r: &mut R,
    first: Number,
    variables: usize,
    clause: &mut Vec<Lit>,
) -> Result<(), RefutationError>
    requires { variables ≤ 2 ^ 31 }
    ensures stream { IsErrOf result RefutationError.Stream → R.failed r.new ≡ true }
    ensures fewer { OnOk result (rest R.pulls words.new r.new ≤ rest R.pulls words.old r.old) }
    ensures clause { GivesValue (λ done. clause.new.items)
        (reads_clause variables (said_number first) clause.old.items)
        (place R.left R.failed R.pulls words.old r.old)
        (place R.left R.failed R.pulls words.new r.new) result }
    ensures inside { are_in variables clause.old.items ≡ true
        → OnOk result (are_in variables clause.new.items ≡ true) }
{
    let mut number = first;
    while number.value != 0 {
        push(clause, literal(number, variables)?)?;
        number = words.number(r)?;
    }
    Ok(())
}

/// Reads numbers of clauses up to a 0, which ends the line. The first of them is this one.
fn read_numbers<R: Source>(
    words: &mut Words,
    r: &mut R,
    first: Number,
    numbers: &mut Vec<u32>,
) -> Result<(), RefutationError>
    ensures stream { IsErrOf result RefutationError.Stream → R.failed r.new ≡ true }
    ensures fewer { OnOk result (rest R.pulls words.new r.new ≤ rest R.pulls words.old r.old) }
    ensures numbers { GivesValue (λ done. numbers.new.items)
        (reads_numbers clause_number (said_number first) numbers.old.items)
        (place R.left R.failed R.pulls words.old r.old)
        (place R.left R.failed R.pulls words.new r.new) result }
    ensures closed { OnOk result (IsClosed words.new.end) }
{
    let mut number = first;
    while number.value != 0 {
        push(numbers, clause_number(number)?)?;
        number = words.number(r)?;
    }
    words.finish(r)
}

/// Appends a number of a line: to the hints, up to the first that is negative, and to the groups
/// from that on.
pub(crate) fn push_number(
    number: Number,
    hints: &mut Vec<u32>,
    groups: &mut Vec<Number>,
) -> Result<(), MemoryError>
    ensures { (numbers : List (Bool × ℕ)) → hints_at numbers ≡ hints.old.items
        → groups_at numbers ≡ said_numbers groups.old.items → OnOk result
        ((hints_at (numbers ++ said_number number ∷ []) ≡ hints.new.items)
        × (groups_at (numbers ++ said_number number ∷ []) ≡ said_numbers groups.new.items)) }
{
    let is_first = groups.as_slice().is_empty();
    if number.positive && is_first {
        push(hints, number.value)
    } else {
        push(groups, number)
    }
}

/// Appends a number of a line, as `push_number` does, and where only hints were read so far those that
/// come next and lie near.
fn push_near(
    words: &mut Words,
    number: Number,
    hints: &mut Vec<u32>,
    groups: &mut Vec<Number>,
) -> Result<(), MemoryError>
    ensures taken { OnOk result ((taken : List ℕ) × TakesNumbers words.old words.new taken) }
    ensures hints { (numbers : List (Bool × ℕ)) → hints_at numbers ≡ hints.old.items
        → groups_at numbers ≡ said_numbers groups.old.items → OnOk result
        (TakesHints words.old words.new (numbers ++ said_number number ∷ []) hints.new.items
        (said_numbers groups.new.items)) }
{
    push_number(number, hints, groups)?;
    let is_first = groups.as_slice().is_empty();
    if !is_first {
        return Ok(());
    }
    words.near_numbers(hints)
}

/// Reads hints, and groups of hints, up to a 0, which ends the line. The first number is this one.
fn read_hints<R: Source>(
    words: &mut Words,
    r: &mut R,
    first: Number,
    hints: &mut Vec<u32>,
    groups: &mut Vec<Number>,
) -> Result<(), RefutationError>
    ensures stream { IsErrOf result RefutationError.Stream → R.failed r.new ≡ true }
    ensures fewer { OnOk result (rest R.pulls words.new r.new ≤ rest R.pulls words.old r.old) }
    ensures hints { hints.old.items ≡ [] → groups.old.items ≡ []
        → GivesValue (λ done. (hints.new.items, said_numbers groups.new.items))
        (reads_hints (said_number first))
        (place R.left R.failed R.pulls words.old r.old)
        (place R.left R.failed R.pulls words.new r.new) result }
    ensures closed { OnOk result (IsClosed words.new.end) }
{
    let mut number = first;
    while number.value != 0 {
        push_near(words, number, hints, groups)?;
        number = words.number(r)?;
    }
    words.finish(r)
}

impl Step {
    /// A step to be read.
    pub(crate) fn new(alloc: Global) -> Step
        ensures { result.is_numbered ≡ false }
    {
        Step {
            is_numbered: false,
            deletes: false,
            number: 0,
            clause: Vec::new(alloc),
            numbers: Vec::new(alloc),
            groups: Vec::new(alloc),
        }
    }

    /// Reads the next step, and says whether there is one. Literals are those of the variables
    /// below `variables`.
    pub(crate) fn read<R: Source>(
        &mut self,
        words: &mut Words,
        r: &mut R,
        variables: usize,
    ) -> Result<bool, RefutationError>
        requires { variables ≤ 2 ^ 31 }
        ensures stream { IsErrOf result RefutationError.Stream → R.failed r.new ≡ true }
        ensures fewer { IfOk result (λ there. IsTrue there
            → rest R.pulls words.new r.new < rest R.pulls words.old r.old) }
        ensures step { GivesStep self.old.is_numbered variables (said_by self.new)
            (place R.left R.failed R.pulls words.old r.old)
            (place R.left R.failed R.pulls words.new r.new) result }
        ensures inside { IfOk result (λ there. are_in variables self.new.clause.items ≡ true) }
    {
        self.clause.clear();
        self.numbers.clear();
        self.groups.clear();
        match words.first(r)? {
            None => return Ok(false),
            Some(Word::Number(first)) => self.read_after(words, r, first, variables)?,
            Some(Word::Deletes) => self.read_deletion(words, r, variables)?,
            Some(Word::End(_)) => return Err(RefutationError::Line),
        }
        Ok(true)
    }

    /// Reads a line of a DRAT file after its `d`.
    fn read_deletion<R: Source>(
        &mut self,
        words: &mut Words,
        r: &mut R,
        variables: usize,
    ) -> Result<(), RefutationError>
        requires { variables ≤ 2 ^ 31 }
        ensures stream { IsErrOf result RefutationError.Stream → R.failed r.new ≡ true }
        ensures fewer { OnOk result (rest R.pulls words.new r.new ≤ rest R.pulls words.old r.old) }
        ensures step { self.old.clause.items ≡ [] → GivesValue (λ done. said_by self.new)
            (reads_dropped variables)
            (place R.left R.failed R.pulls words.old r.old)
            (place R.left R.failed R.pulls words.new r.new) result }
        ensures inside { are_in variables self.old.clause.items ≡ true
            → OnOk result (are_in variables self.new.clause.items ≡ true) }
        ensures closed { OnOk result (IsClosed words.new.end) }
    {
        self.is_numbered = false;
        self.deletes = true;
        let first = words.number(r)?;
        read_clause(words, r, first, variables, &mut self.clause)?;
        words.finish(r)
    }

    /// Reads a line after its first number.
    fn read_after<R: Source>(
        &mut self,
        words: &mut Words,
        r: &mut R,
        first: Number,
        variables: usize,
    ) -> Result<(), RefutationError>
        requires { variables ≤ 2 ^ 31 }
        ensures stream { IsErrOf result RefutationError.Stream → R.failed r.new ≡ true }
        ensures fewer { OnOk result (rest R.pulls words.new r.new ≤ rest R.pulls words.old r.old) }
        ensures step { self.old.clause.items ≡ [] → self.old.numbers.items ≡ []
            → self.old.groups.items ≡ [] → GivesValue (λ done. said_by self.new)
            (reads_after self.old.is_numbered variables (said_number first))
            (place R.left R.failed R.pulls words.old r.old)
            (place R.left R.failed R.pulls words.new r.new) result }
        ensures inside { are_in variables self.old.clause.items ≡ true
            → OnOk result (are_in variables self.new.clause.items ≡ true) }
        ensures closed { OnOk result (IsClosed words.new.end) }
    {
        self.deletes = false;
        match words.next(r)? {
            Word::Number(second) => self.read_added(words, r, first, second, variables),
            Word::Deletes => self.read_deleted(words, r, first),
            Word::End(_) if first.value == 0 => {
                self.is_numbered = false;
                Ok(())
            }
            Word::End(end) => Err(end.fault()),
        }
    }

    /// Reads a line of an LRAT file after its number and `d`.
    fn read_deleted<R: Source>(
        &mut self,
        words: &mut Words,
        r: &mut R,
        number: Number,
    ) -> Result<(), RefutationError>
        ensures stream { IsErrOf result RefutationError.Stream → R.failed r.new ≡ true }
        ensures fewer { OnOk result (rest R.pulls words.new r.new ≤ rest R.pulls words.old r.old) }
        ensures step { self.old.numbers.items ≡ []
            → GivesValue (λ done. said_by self.new) (reads_deleted (said_number number))
            (place R.left R.failed R.pulls words.old r.old)
            (place R.left R.failed R.pulls words.new r.new) result }
        ensures clause { self.new.clause ≡ self.old.clause }
        ensures closed { OnOk result (IsClosed words.new.end) }
    {
        self.is_numbered = true;
        self.deletes = true;
        self.number = clause_number(number)?;
        let first = words.number(r)?;
        read_numbers(words, r, first, &mut self.numbers)
    }

    /// Reads a line that adds a clause after its first two numbers. Where the clause ends the
    /// line, the first is a literal.
    fn read_added<R: Source>(
        &mut self,
        words: &mut Words,
        r: &mut R,
        first: Number,
        second: Number,
        variables: usize,
    ) -> Result<(), RefutationError>
        requires { variables ≤ 2 ^ 31 }
        ensures stream { IsErrOf result RefutationError.Stream → R.failed r.new ≡ true }
        ensures fewer { OnOk result (rest R.pulls words.new r.new ≤ rest R.pulls words.old r.old) }
        ensures step { self.old.deletes ≡ false → self.old.clause.items ≡ []
            → self.old.numbers.items ≡ [] → self.old.groups.items ≡ []
            → GivesValue (λ done. said_by self.new)
            (reads_added self.old.is_numbered variables (said_number first) (said_number second))
            (place R.left R.failed R.pulls words.old r.old)
            (place R.left R.failed R.pulls words.new r.new) result }
        ensures inside { are_in variables self.old.clause.items ≡ true
            → OnOk result (are_in variables self.new.clause.items ≡ true) }
        ensures closed { OnOk result (IsClosed words.new.end) }
    {
        read_clause(words, r, second, variables, &mut self.clause)?;
        match words.next(r)? {
            Word::Number(hint) => {
                self.is_numbered = true;
                self.number = clause_number(first)?;
                read_hints(words, r, hint, &mut self.numbers, &mut self.groups)
            }
            Word::Deletes => Err(RefutationError::Line),
            Word::End(end) => self.end_clause(first, end, variables),
        }
    }

    /// Ends a line that is a clause, the first literal of which is this number. Where lines have
    /// numbers and hints, it is one that was cut off, or is none.
    fn end_clause(
        &mut self,
        first: Number,
        end: End,
        variables: usize,
    ) -> Result<(), RefutationError>
        requires { variables ≤ 2 ^ 31 }
        ensures no_stream { IsErrOf result RefutationError.Stream → ⊥ }
        ensures step { self.old.deletes ≡ false → Tries (λ done. said_by self.new)
            (after_clause self.old.is_numbered variables (is_last (Some end)) (said_number first)
            self.old.clause.items []) result }
        ensures inside { are_in variables self.old.clause.items ≡ true
            → OnOk result (are_in variables self.new.clause.items ≡ true) }
    {
        if self.is_numbered {
            return Err(end.fault());
        }
        push(&mut self.clause, literal(first, variables)?)?;
        Ok(())
    }
}
