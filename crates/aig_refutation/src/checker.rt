//! Clauses that follow from those of a formula.

ghost use Rattle.std.specs.Prelude.{◌≡◌, ◌+◌, ◌<◌, ◌≤◌, ◌*◌, ◌^◌, ◌++◌, ◌∷◌, ◌||◌, [], ℕ, Bool, List, None, Ok, All, IfOk, IsErrOf, IsSome, IsTrue, OnErr, OnOk, length, max, slice_get, true};
ghost use Rattle.std.specs.List.{Contains, IsDistinct, list_all};
ghost use Rattle.aig_base.specs.declared.logic.literal.Lit.{Lit};
ghost use Rattle.aig_base.specs.Clauses.{variable_of};
ghost use Rattle.aig_refutation.specs.Ahead.{AddsAhead, IsAhead, StaysAhead};
ghost use Rattle.aig_refutation.specs.Checking.{Live, added, are_in, deleted, numbered_clause, why_not, with_clause};
ghost use Rattle.aig_refutation.specs.Kept.{Keeps, KeepsMore};
ghost use Rattle.aig_refutation.specs.Propagation.{FitsMarks, is_lit, reading_of};
ghost use Rattle.aig_refutation.specs.Steps.{Follows, without_one};
ghost use Rattle.aig_refutation.specs.Tables.{Holds, HoldsFormula, HoldsNext, RefusesClause};
ghost use Rattle.aig_refutation.specs.Taken.{KeepsLive};
ghost use Rattle.aig_refutation.specs.Tokens.{said_numbers};

use crate::closure::is_entailed;
use crate::compare::are_same;
use crate::error::RefutationError;
use crate::hints::Search;
use crate::marks::Marks;
use crate::numbered::Numbered;
use crate::standing::{Resolvent, are_named, find_hints, has, is_implied, lead};
use crate::words::Number;
use aig_base::{Lit, LitVvec, MemoryError};
use std::alloc::Global;
use std::marker::Model;

/// The clauses of a formula that are still there, and those that were found to follow.
pub(crate) struct Checker {
    numbered: Numbered,
    marks: Marks,
    /// How many variables there are, or occur in clauses that were added.
    variables: usize,
    /// The places of the hints at hand.
    hints: Vec<usize>,
    /// The literals of the clause at hand, each once.
    kept: Vec<Lit>,
    /// The literals of the clause at hand, behind its pivot.
    led: Vec<Lit>,
    /// What follows of the clause at hand and another one.
    resolvent: Resolvent,
}

impl Drop for Checker {
    fn drop(self) {
        let Checker {
            numbered: _,
            marks: _,
            variables: _,
            hints: _,
            kept: _,
            led: _,
            resolvent: _,
        } = self;
    }
}

impl Model for Checker {
    ghost use Rattle.std.specs.Prelude.{◌≡◌, ◌*◌, length};
    ghost use Rattle.aig_base.specs.Clauses.{AreBelow};
    ghost use Rattle.aig_refutation.specs.Tables.{Checked};

    ghost Value = { Checked };

    ghost view = { λ c. record { table = c.numbered; variables = c.variables } };

    ghost invariant = { λ c. (length c.marks ≡ 2 * c.variables)
        × AreBelow c.variables c.numbered.clauses };
}

/// Whether the variable of each literal is below `variables`.
fn is_below(clause: &[Lit], variables: usize) -> bool
    ensures below { IsTrue result → All (λ lit. variable_of lit < variables) clause.now }
    ensures exact { result ≡ are_in variables clause.now }
{
    for lit in clause {
        if usize::from(lit.var()) >= variables {
            return false;
        }
    }
    true
}

/// How many variables there are, with those of a clause, where there are so many without it.
fn with_variables(clause: &[Lit], variables: usize) -> usize
    ensures below { All (λ lit. variable_of lit < result) clause.now }
    ensures more { variables ≤ result }
    ensures least { (bound : ℕ) → variables ≤ bound
        → All (λ lit. variable_of lit < bound) clause.now → result ≤ bound }
    ensures most { result ≤ max variables (2 ^ 31) }
{
    let mut most = variables;
    for lit in clause {
        most = most.max(usize::from(lit.var()) + 1);
    }
    most
}

/// Appends the literals of a clause to an empty list, each of them once. The marks are used,
/// whatever they are.
fn keep_once(marks: &mut Marks, clause: &[Lit], kept: &mut Vec<Lit>) -> Result<(), MemoryError>
    requires marks { FitsMarks marks.old clause.now }
    requires empty { kept.old.items ≡ [] }
    ensures length { length marks.new ≡ length marks.old }
    ensures from { OnOk result (All (Contains clause.now) kept.new.items) }
    ensures all { OnOk result (All (Contains kept.new.items) clause.now) }
    ensures once { OnOk result (IsDistinct is_lit kept.new.items) }
    ensures same { OnOk result ((holds : Lit → Bool)
        → reading_of holds kept.new.items ≡ reading_of holds clause.now) }
{
    marks.clear();
    for lit in clause {
        if !marks.holds(*lit) {
            marks.add(*lit);
            kept.push(*lit)?;
        }
    }
    Ok(())
}

/// Why a clause isn't added that has these groups of hints.
fn refusal(groups: &[Number]) -> RefutationError
    ensures refusal { result ≡ why_not (said_numbers groups.now) }
    ensures no_stream { result ≡ RefutationError.Stream → ⊥ }
{
    if groups.is_empty() {
        RefutationError::Step
    } else {
        RefutationError::Asymmetry
    }
}

/// Lets numbers name no clause.
fn remove_all(numbered: &mut Numbered, numbers: &[u32]) -> Result<(), RefutationError>
    ensures same { numbered.new.clauses ≡ numbered.old.clauses }
    ensures no_stream { IsErrOf result RefutationError.Stream → ⊥ }
    ensures moves { (live : Live) → Holds numbered.old live
        → HoldsNext numbered.new result (deleted live numbers.now) }
{
    for number in numbers {
        numbered.remove(*number)?;
    }
    Ok(())
}

impl Checker {
    /// No clauses, of so many variables.
    pub(crate) fn new(alloc: Global, variables: usize) -> Result<Checker, MemoryError>
        requires { variables ≤ 2 ^ 31 }
        ensures { IfOk result (λ checker. checker ≡ record {
          table = record { clauses = []; numbers = []; places = []; added = 0 };
          variables = variables;
        }) }
    {
        Ok(Checker {
            numbered: Numbered::new(alloc),
            marks: Marks::new(alloc, 2 * variables)?,
            variables,
            hints: Vec::new(alloc),
            kept: Vec::new(alloc),
            led: Vec::new(alloc),
            resolvent: Resolvent::new(alloc),
        })
    }

    /// How many variables there are.
    pub(crate) fn variables(&self) -> usize
        ensures { result ≡ self.now.variables }
    {
        self.variables
    }

    /// The clauses.
    pub(crate) fn clauses(&self) -> &LitVvec
        ensures { result.now ≡ self.now.table.clauses }
    {
        self.numbered.clauses()
    }

    /// The number after as many as there were clauses. Where there is none, that counts as too much
    /// memory.
    pub(crate) fn next_number(&self) -> Result<u32, MemoryError>
        ensures { IfOk result (λ n. n ≡ self.now.table.added + 1) }
    {
        self.numbered.next_number()
    }

    /// Appends a clause of the formula, under the next number.
    pub(crate) fn assume(&mut self, clause: &[Lit]) -> Result<(), RefutationError>
        ensures assumed { OnOk result (self.new.table.clauses
            ≡ self.old.table.clauses ++ clause.now ∷ []) }
        ensures variables { self.new.variables ≡ self.old.variables }
        ensures holds { HoldsFormula self.old.table → OnOk result (HoldsFormula self.new.table) }
        ensures refused { HoldsFormula self.old.table
            → RefusesClause self.old.variables clause.now result }
        ensures no_stream { IsErrOf result RefutationError.Stream → ⊥ }
    {
        if !is_below(clause, self.variables) {
            return Err(RefutationError::Variable);
        }
        let number = self.next_number()?;
        self.numbered.add(number, clause)
    }

    /// Makes room for the variables of a clause, and for no others.
    fn fit(&mut self, clause: &[Lit]) -> Result<(), MemoryError>
        ensures same { self.new.table ≡ self.old.table }
        ensures inside { OnOk result
            (All (λ lit. variable_of lit < self.new.variables) clause.now) }
        ensures more { self.old.variables ≤ self.new.variables }
        ensures least { (bound : ℕ) → self.old.variables ≤ bound
            → All (λ lit. variable_of lit < bound) clause.now → self.new.variables ≤ bound }
        ensures err { OnErr result (self.new ≡ self.old) }
    {
        let variables = with_variables(clause, self.variables);
        if variables > self.variables {
            self.marks.grow(2 * variables)?;
            self.variables = variables;
        }
        Ok(())
    }

    /// Adds a clause, under a number. Each of its literals is kept once.
    fn put(&mut self, number: u32, clause: &[Lit]) -> Result<(), RefutationError>
        requires inside { All (λ lit. variable_of lit < self.old.variables) clause.now }
        ensures moves { (live : Live) → Holds self.old.table live → HoldsNext self.new.table result
            (numbered_clause live number clause.now) }
        ensures no_stream { IsErrOf result RefutationError.Stream → ⊥ }
    {
        self.kept.clear();
        keep_once(&mut self.marks, clause, &mut self.kept)?;
        self.numbered.add(number, &self.kept)
    }

    /// Adds a clause, under a number, if it follows by reverse unit propagation along the clauses
    /// that the hints name, or has a literal and its inverse, or has the RAT property on its first
    /// literal. Each of its literals is kept once.
    pub(crate) fn add(
        &mut self,
        number: u32,
        clause: &[Lit],
        hints: &[u32],
        groups: &[Number],
    ) -> Result<(), RefutationError>
        ensures moves { (live : Live) → Holds self.old.table live → HoldsNext self.new.table result
            (added live number clause.now hints.now (said_numbers groups.now)) }
        ensures no_stream { IsErrOf result RefutationError.Stream → ⊥ }
    {
        self.fit(clause)?;
        if !find_hints(&self.numbered, hints, &mut self.hints)?
            || !are_named(&self.numbered, groups)
        {
            return Err(RefutationError::Unnamed);
        }
        if !self.resolvent.stands(
            &self.numbered,
            &mut self.marks,
            clause,
            &self.hints,
            hints,
            groups,
        )? {
            return Err(refusal(groups));
        }
        self.put(number, clause)
    }

    /// Adds a clause under the next number, and returns that.
    fn put_next(&mut self, clause: &[Lit]) -> Result<u32, RefutationError>
        requires inside { All (λ lit. variable_of lit < self.old.variables) clause.now }
        ensures adds { (live : Live) → Holds self.old.table live → IfOk result (λ number.
            Holds self.new.table (with_clause live number clause.now)) }
        ensures ahead { (clauses : List (List Lit)) → IsAhead clauses self.old.table
            → StaysAhead (clause.now ∷ clauses) self.new.table result }
        ensures no_stream { IsErrOf result RefutationError.Stream → ⊥ }
    {
        let number = self.next_number()?;
        self.put(number, clause)?;
        Ok(number)
    }

    /// Adds a clause under the next number, and returns that, if hints are there along which it
    /// follows, or it has a literal and its inverse.
    pub(crate) fn add_next(
        &mut self,
        clause: &[Lit],
        hints: &[u32],
    ) -> Result<Option<u32>, RefutationError>
        ensures keeps { (live : Live) → Holds self.old.table live
            → KeepsMore live clause.now self.new.table result }
        ensures ahead { (clauses : List (List Lit)) → IsAhead clauses self.old.table
            → AddsAhead clauses clause.now self.new.table result }
        ensures no_stream { IsErrOf result RefutationError.Stream → ⊥ }
    {
        self.fit(clause)?;
        let are_there = find_hints(&self.numbered, hints, &mut self.hints)?;
        if !are_there
            || !is_implied(
                self.numbered.clauses(),
                &mut self.marks,
                clause,
                &self.hints,
            )
        {
            return Ok(None);
        }
        Ok(Some(self.put_next(clause)?))
    }

    /// Whether a clause has the RAT property on one of its literals, along hints that are searched
    /// for. `groups` is used, whatever it has.
    fn has_rat(
        &mut self,
        search: &mut Search,
        pivot: Lit,
        clause: &[Lit],
        groups: &mut Vec<Number>,
    ) -> Result<bool, MemoryError>
        ensures same { self.new ≡ self.old }
        ensures keeps { (live : Live) → Holds self.old.table live → IfOk result (λ is. IsTrue is
            → (n : ℕ) → KeepsLive live (with_clause live n clause.now)) }
    {
        lead(pivot, clause, &mut self.led)?;
        if !has(clause, pivot) || !is_below(&self.led, self.variables) {
            return Ok(false);
        }
        if !self.resolvent.search(
            &self.numbered,
            &mut self.marks,
            search,
            &self.led,
            pivot,
            groups,
        )? {
            return Ok(false);
        }
        if !are_named(&self.numbered, groups) {
            return Ok(false);
        }
        self.resolvent
            .is_rat(&self.numbered, &mut self.marks, &self.led, &[], groups)
    }

    /// Adds a clause under the next number, and returns that, if it has the RAT property on one of
    /// its literals, along hints that are searched for. `groups` is used, whatever it has.
    pub(crate) fn add_rat(
        &mut self,
        search: &mut Search,
        pivot: Lit,
        clause: &[Lit],
        groups: &mut Vec<Number>,
    ) -> Result<Option<u32>, RefutationError>
        ensures keeps { (live : Live) → Holds self.old.table live
            → KeepsMore live clause.now self.new.table result }
        ensures ahead { (clauses : List (List Lit)) → IsAhead clauses self.old.table
            → AddsAhead clauses clause.now self.new.table result }
        ensures no_stream { IsErrOf result RefutationError.Stream → ⊥ }
    {
        self.fit(clause)?;
        if !self.has_rat(search, pivot, clause, groups)? {
            return Ok(None);
        }
        Ok(Some(self.put_next(clause)?))
    }

    /// Adds a clause under the next number, and returns that, if it follows by unit propagation along
    /// all clauses, those of `first` first, or it has a literal and its inverse. It is for a clause
    /// that neither `add_next` nor `add_rat` added, and that mostly isn't added then either.
    pub(crate) fn add_by_all(
        &mut self,
        clause: &[Lit],
        first: &[u32],
    ) -> Result<Option<u32>, RefutationError>
        ensures keeps { (live : Live) → Holds self.old.table live
            → KeepsMore live clause.now self.new.table result }
        ensures ahead { (clauses : List (List Lit)) → IsAhead clauses self.old.table
            → AddsAhead clauses clause.now self.new.table result }
        ensures refused { (clauses : List (List Lit)) → IsAhead clauses self.old.table
            → result ≡ Ok None → Follows clauses clause.now → ⊥ }
        ensures no_stream { IsErrOf result RefutationError.Stream → ⊥ }
    {
        self.fit(clause)?;
        let end = self.next_number()?;
        if !is_entailed(&self.numbered, &mut self.marks, clause, first, end) {
            return Ok(None);
        }
        Ok(Some(self.put_next(clause)?))
    }

    /// Deletes the clause of a number, if there is one and it has the same literals as this one.
    pub(crate) fn delete_same(&mut self, number: u32, clause: &[Lit]) -> Result<(), RefutationError>
        ensures keeps { (live : Live) → Holds self.old.table live
            → Keeps live self.new.table result }
        ensures ahead { (clauses : List (List Lit)) → IsAhead clauses self.old.table
            → StaysAhead (without_one clause.now clauses) self.new.table result }
        ensures no_stream { IsErrOf result RefutationError.Stream → ⊥ }
    {
        let Some(place) = self.numbered.place(number) else {
            return Ok(());
        };
        if !is_below(clause, self.variables) {
            return Ok(());
        }
        let named = self.numbered.clauses().clause(place);
        if !are_same(&mut self.marks, clause, named) {
            return Ok(());
        }
        self.delete(&[number])
    }

    /// Deletes the clauses of these numbers.
    pub(crate) fn delete(&mut self, numbers: &[u32]) -> Result<(), RefutationError>
        ensures keeps { (live : Live) → Holds self.old.table live
            → Keeps live self.new.table result }
        ensures moves { (live : Live) → Holds self.old.table live
            → HoldsNext self.new.table result (deleted live numbers.now) }
        ensures no_stream { IsErrOf result RefutationError.Stream → ⊥ }
    {
        remove_all(&mut self.numbered, numbers)?;
        self.numbered.reclaim()
    }
}
