//! Clauses that may be added to others: they follow, or keep them satisfiable.

ghost use Rattle.std.specs.Prelude.{◌≡◌, ◌<◌, ◌++◌, ◌∷◌, ◌||◌, IfOk, IsTrue, OnOk, All, false, is_some, length, slice_get, true};
ghost use Rattle.std.specs.List.{list_all};
ghost use Rattle.aig_refutation.specs.Checking.{Live, are_named, clause_at, stands};
ghost use Rattle.aig_refutation.specs.Propagation.{FitsMarks, has, is_rup, is_tautology};
ghost use Rattle.aig_refutation.specs.Rat.{hints_for, is_rat, resolvent};
ghost use Rattle.aig_refutation.specs.Starts.{AreStarts, IsStart, start_in};
ghost use Rattle.aig_refutation.specs.Tables.{FindsHints, Holds, entry_in, is_apart_if, place_in, places_of};
ghost use Rattle.aig_refutation.specs.Tokens.{said_numbers};

use crate::hints::Search;
use crate::list::push;
use crate::marks::Marks;
use crate::numbered::Numbered;
use crate::propagation::{is_rup, is_tautology};
use crate::starts::{find_starts, push_hints_for, start_at};
use crate::words::Number;
use aig_base::{Lit, LitVvec, MemoryError};
use std::alloc::Global;

/// Whether a clause follows: by reverse unit propagation along the clauses at these places, or from
/// nothing. The marks are used, whatever they are.
pub(crate) fn is_implied(
    clauses: &LitVvec,
    marks: &mut Marks,
    clause: &[Lit],
    hints: &[usize],
) -> bool
    requires clauses { All (FitsMarks marks.old) clauses.now }
    requires clause { FitsMarks marks.old clause.now }
    ensures length { length marks.new ≡ length marks.old }
    ensures exact { result
        ≡ (is_rup (slice_get clauses.now) clause.now hints.now || is_tautology clause.now) }
{
    is_rup(clauses, marks, clause, hints) || is_tautology(marks, clause)
}

/// Finds the places of the clauses that hints name, and says whether they all name one.
pub(crate) fn find_hints(
    numbered: &Numbered,
    hints: &[u32],
    places: &mut Vec<usize>,
) -> Result<bool, MemoryError>
    ensures { FindsHints numbered.now hints.now places.new.items result }
{
    places.clear();
    for hint in hints {
        match numbered.place(*hint) {
            Some(place) => places.push(place)?,
            None => return Ok(false),
        }
    }
    Ok(true)
}

/// Whether all numbers name clauses, whatever their signs.
pub(crate) fn are_named(numbered: &Numbered, numbers: &[Number]) -> bool
    ensures { result ≡ list_all (λ number. is_some (place_in numbered.now number.value))
        numbers.now }
{
    for number in numbers {
        if numbered.place(number.value).is_none() {
            return false;
        }
    }
    true
}

/// Whether a clause has a literal.
pub(crate) fn has(clause: &[Lit], lit: Lit) -> bool
    ensures { result ≡ has clause.now lit }
{
    for other in clause {
        if lit == *other {
            return true;
        }
    }
    false
}

/// Makes a list of a literal and those of a clause.
pub(crate) fn lead(pivot: Lit, clause: &[Lit], led: &mut Vec<Lit>) -> Result<(), MemoryError>
    ensures { OnOk result (led.new.items ≡ pivot ∷ clause.now) }
{
    led.clear();
    push(led, pivot)?;
    Ok(led.extend_from_slice(clause)?)
}

/// Appends a group of hints, for the clause of a number.
fn push_group(groups: &mut Vec<Number>, number: u32, hints: &[u32]) -> Result<(), MemoryError> {
    groups.push(Number {
        value: number,
        positive: false,
    })?;
    for hint in hints {
        groups.push(Number {
            value: *hint,
            positive: true,
        })?;
    }
    Ok(())
}

/// What follows of a clause and another one, and the hints for it.
pub(crate) struct Resolvent {
    /// Its literals.
    clause: Vec<Lit>,
    /// The numbers of its hints.
    hints: Vec<u32>,
    /// Their places.
    places: Vec<usize>,
    /// For each place where the hints for its clause begin, among those of a step.
    starts: Vec<usize>,
}

impl Drop for Resolvent {
    fn drop(self) {
        let Resolvent {
            clause: _,
            hints: _,
            places: _,
            starts: _,
        } = self;
    }
}

impl Resolvent {
    /// One that is to be made.
    pub(crate) fn new(alloc: Global) -> Resolvent {
        Resolvent {
            clause: Vec::new(alloc),
            hints: Vec::new(alloc),
            places: Vec::new(alloc),
            starts: Vec::new(alloc),
        }
    }

    /// Makes what follows of a clause and another one that has the pivot's inverse.
    fn resolve(&mut self, clause: &[Lit], pivot: Lit, other: &[Lit]) -> Result<(), MemoryError>
        ensures clause { OnOk result (self.new.clause.items
            ≡ resolvent pivot clause.now other.now) }
        ensures starts { self.new.starts ≡ self.old.starts }
    {
        let inverse = !pivot;
        self.clause.clear();
        self.clause.extend_from_slice(clause)?;
        for lit in other {
            if inverse != *lit {
                push(&mut self.clause, *lit)?;
            }
        }
        Ok(())
    }

    /// Finds the hints for the clause of a number, which is at a place, behind those for all clauses,
    /// and says whether they all name a clause.
    fn find(
        &mut self,
        numbered: &Numbered,
        hints: &[u32],
        groups: &[Number],
        number: u32,
        place: usize,
    ) -> Result<bool, MemoryError>
        ensures clause { self.new.clause ≡ self.old.clause }
        ensures starts { self.new.starts ≡ self.old.starts }
        ensures found { IsStart groups.now groups.now number (start_in self.old.starts.items place)
            → FindsHints numbered.now
            (hints.now ++ hints_for number false (said_numbers groups.now))
            self.new.places.items result }
    {
        self.hints.clear();
        self.hints.extend_from_slice(hints)?;
        let start = start_at(&self.starts, place);
        push_hints_for(groups, number, start, &mut self.hints)?;
        find_hints(numbered, &self.hints, &mut self.places)
    }

    /// Whether the clause at a place keeps out of the way of the pivot of a clause, if it is still
    /// there. The marks are used, whatever they are.
    fn is_apart(
        &mut self,
        numbered: &Numbered,
        marks: &mut Marks,
        clause: &[Lit],
        pivot: Lit,
        hints: &[u32],
        groups: &[Number],
        place: usize,
    ) -> Result<bool, MemoryError>
        requires clauses { All (FitsMarks marks.old) numbered.now.clauses }
        requires clause { FitsMarks marks.old clause.now }
        requires place { place < length numbered.now.clauses }
        ensures length { length marks.new ≡ length marks.old }
        ensures starts { self.new.starts ≡ self.old.starts }
        ensures apart { (live : Live) → Holds numbered.now live
            → are_named live hints.now (said_numbers groups.now) ≡ true
            → AreStarts numbered.now groups.now groups.now self.old.starts.items
            → IfOk result (λ is. is ≡ is_apart_if (clause_at live) pivot clause.now hints.now
            (said_numbers groups.now) (entry_in numbered.now place)) }
    {
        let Some(number) = numbered.name(place) else {
            return Ok(true);
        };
        let other = numbered.clauses().clause(place);
        if !has(other, !pivot) {
            return Ok(true);
        }
        self.resolve(clause, pivot, other)?;
        if !self.find(numbered, hints, groups, number, place)? {
            return Ok(false);
        }
        Ok(is_implied(numbered.clauses(), marks, &self.clause, &self.places))
    }

    /// Whether a clause has the RAT property on its first literal, along hints that all name clauses.
    /// The marks are used, whatever they are.
    pub(crate) fn is_rat(
        &mut self,
        numbered: &Numbered,
        marks: &mut Marks,
        clause: &[Lit],
        hints: &[u32],
        groups: &[Number],
    ) -> Result<bool, MemoryError>
        requires clauses { All (FitsMarks marks.old) numbered.now.clauses }
        requires clause { FitsMarks marks.old clause.now }
        ensures length { length marks.new ≡ length marks.old }
        ensures rat { (live : Live) → Holds numbered.now live
            → are_named live hints.now (said_numbers groups.now) ≡ true
            → IfOk result (λ is. is ≡ is_rat live.clauses clause.now hints.now
            (said_numbers groups.now)) }
    {
        let [pivot, ..] = clause else {
            return Ok(false);
        };
        find_starts(numbered, groups, &mut self.starts)?;
        for place in 0..numbered.clauses().len() {
            if !self.is_apart(numbered, marks, clause, *pivot, hints, groups, place)? {
                return Ok(false);
            }
        }
        Ok(true)
    }

    /// Looks for hints for the clause at a place, if that is still there and has the inverse of a
    /// clause's pivot. It says whether there are some, or none are needed. The marks are used,
    /// whatever they are.
    fn search_at(
        &mut self,
        numbered: &Numbered,
        marks: &mut Marks,
        search: &mut Search,
        clause: &[Lit],
        pivot: Lit,
        groups: &mut Vec<Number>,
        place: usize,
    ) -> Result<bool, MemoryError>
        requires clauses { All (FitsMarks marks.old) numbered.now.clauses }
        requires clause { FitsMarks marks.old clause.now }
        requires place { place < length numbered.now.clauses }
        ensures length { length marks.new ≡ length marks.old }
    {
        let Some(number) = numbered.name(place) else {
            return Ok(true);
        };
        let inverse = !pivot;
        let other = numbered.clauses().clause(place);
        if !has(other, inverse) {
            return Ok(true);
        }
        self.resolve(clause, pivot, other)?;
        if is_tautology(marks, &self.clause) {
            return Ok(true);
        }
        search.find(&self.clause, &mut self.hints)?;
        push_group(groups, number, &self.hints)?;
        Ok(!self.hints.is_empty())
    }

    /// Looks for hints by which a clause has the RAT property on a literal, and says whether there
    /// are some for each clause that needs them. What was in `groups` is lost. Nothing is said of
    /// what is found. The marks are used, whatever they are.
    pub(crate) fn search(
        &mut self,
        numbered: &Numbered,
        marks: &mut Marks,
        search: &mut Search,
        clause: &[Lit],
        pivot: Lit,
        groups: &mut Vec<Number>,
    ) -> Result<bool, MemoryError>
        requires clauses { All (FitsMarks marks.old) numbered.now.clauses }
        requires clause { FitsMarks marks.old clause.now }
        ensures length { length marks.new ≡ length marks.old }
    {
        groups.clear();
        let count = numbered.clauses().len();
        for place in 0..count {
            if !self.search_at(numbered, marks, search, clause, pivot, groups, place)? {
                return Ok(false);
            }
        }
        Ok(true)
    }

    /// Whether a clause may be added: it follows along hints, or it has the RAT property on its
    /// first literal. All hints name clauses, the first ones those at these places. The marks are
    /// used, whatever they are.
    pub(crate) fn stands(
        &mut self,
        numbered: &Numbered,
        marks: &mut Marks,
        clause: &[Lit],
        places: &[usize],
        hints: &[u32],
        groups: &[Number],
    ) -> Result<bool, MemoryError>
        requires clauses { All (FitsMarks marks.old) numbered.now.clauses }
        requires clause { FitsMarks marks.old clause.now }
        ensures length { length marks.new ≡ length marks.old }
        ensures stands { (live : Live) → Holds numbered.now live
            → are_named live hints.now (said_numbers groups.now) ≡ true
            → places.now ≡ places_of numbered.now hints.now
            → IfOk result (λ is. is ≡ stands live clause.now hints.now
            (said_numbers groups.now)) }
    {
        if is_implied(numbered.clauses(), marks, clause, places) {
            return Ok(true);
        }
        self.is_rat(numbered, marks, clause, hints, groups)
    }
}
