//! Clauses and their numbers.

ghost use Rattle.std.specs.Prelude.{◌≡◌, ◌+◌, ◌-◌, ◌*◌, ◌/◌, ◌^◌, ◌<◌, ◌==◌, ◌++◌, ◌∷◌, [], List, ℕ, Some, All, IfOk, IsErrOf, OnErr, OnOk, if◌then◌else◌, length, max, min, nat_lt, slice_index_or};
ghost use Rattle.std.specs.List.{Contains};
ghost use Rattle.aig_base.specs.declared.logic.literal.Lit.{Lit};
ghost use Rattle.aig_refutation.specs.Checking.{Live, deleted, numbered_clause};
ghost use Rattle.aig_refutation.specs.Tables.{Holds, IsInRow, IsMoved, IsNumbering, IsTable, HoldsNext, OnlyMemory, SaysSame, entry_at, name_in, place_in};

use crate::error::RefutationError;
use crate::list::push;
use aig_base::{Lit, LitVvec, MemoryError};
use std::alloc::Global;
use std::marker::Model;

/// How many numbers a proof may skip, beside four for each clause.
const FREE_NUMBERS: usize = 1 << 16;

/// What the table of numbers has for one that was never used.
const UNUSED: u32 = 0;

/// What the table of numbers has for one whose clause was deleted.
const DELETED: u32 = u32::MAX;

/// Clauses one after another, and which of them each number names, if any.
///
/// A deleted clause stays until `reclaim`, so the memory is that of the clauses that numbers name,
/// at most about twice, and four bytes for each number.
pub(crate) struct Numbered {
    alloc: Global,
    clauses: LitVvec,
    /// The number of each clause, by its place.
    numbers: Vec<u32>,
    /// For each number one more than its clause's place, or `UNUSED` or `DELETED`.
    places: Vec<u32>,
    /// How many clauses were added in all.
    added: usize,
    /// How many literals have the clauses that numbers name.
    live: usize,
    /// How many literals have those that were deleted.
    deleted: usize,
}

impl Drop for Numbered {
    fn drop(self) {
        let Numbered {
            alloc: _,
            clauses: _,
            numbers: _,
            places: _,
            added: _,
            live: _,
            deleted: _,
        } = self;
    }
}

impl Model for Numbered {
    ghost use Rattle.aig_refutation.specs.Tables.{Table};

    ghost Value = { Table };

    ghost view = { λ n. record {
      clauses = n.clauses;
      numbers = n.numbers.items;
      places = n.places.items;
      added = n.added;
    } };
}

/// Writes the entry of a number. The table grows up to it.
fn put_entry(places: &mut Vec<u32>, number: u32, entry: u32) -> Result<(), MemoryError>
    ensures entries { OnOk result ((n : ℕ) → entry_at places.new.items n
        ≡ (if n == number then entry else entry_at places.old.items n)) }
    ensures count { OnOk result (length places.new.items
        ≡ max (length places.old.items) (number + 1)) }
{
    let i = number as usize;
    if i >= places.len() {
        places.resize(i + 1, UNUSED)?;
    }
    places[i] = entry;
    Ok(())
}

/// The entry of a number.
fn entry(places: &[u32], number: u32) -> u32
    ensures { result ≡ entry_at places.now number }
{
    let i = number as usize;
    if i < places.len() { places[i] } else { UNUSED }
}

/// The number of the clause at a place.
fn number_at(numbers: &[u32], place: usize) -> u32
    ensures { result ≡ slice_index_or numbers.now place 0 }
{
    if place < numbers.len() {
        numbers[place]
    } else {
        UNUSED
    }
}

/// Appends the clauses that numbers name, and those numbers, in the order of the clauses, and lets
/// the numbers name them by their new places. `live` and `live_numbers` are empty before.
fn take_live(
    clauses: &LitVvec,
    numbers: &[u32],
    places: &mut Vec<u32>,
    live: &mut LitVvec,
    live_numbers: &mut Vec<u32>,
) -> Result<(), MemoryError>
    requires { live.old ≡ [] }
    ensures there { OnOk result (All (Contains clauses.now) live.new) }
    ensures moved { live_numbers.old.items ≡ []
        → IsNumbering clauses.now numbers.now places.old.items
        → OnOk result (IsMoved clauses.now places.old.items live.new live_numbers.new.items
        places.new.items) }
{
    for i in 0..clauses.len() {
        let number = number_at(numbers, i);
        if entry(places, number) as usize == i + 1 {
            live.push(clauses.clause(i))?;
            live_numbers.push(number)?;
            let place = u32::try_from(live.len()).unwrap_or(DELETED);
            put_entry(places, number, place)?;
        }
    }
    Ok(())
}

impl Numbered {
    /// No clauses.
    pub(crate) fn new(alloc: Global) -> Numbered
        ensures { result ≡ record { clauses = []; numbers = []; places = []; added = 0 } }
    {
        Numbered {
            alloc,
            clauses: LitVvec::new(alloc),
            numbers: Vec::new(alloc),
            places: Vec::new(alloc),
            added: 0,
            live: 0,
            deleted: 0,
        }
    }

    /// The number after as many as clauses were added. Where there is none, that counts as too much
    /// memory.
    pub(crate) fn next_number(&self) -> Result<u32, MemoryError>
        ensures { IfOk result (λ n. n ≡ self.now.added + 1) }
    {
        if self.added >= u32::MAX as usize {
            return Err(MemoryError::Memory);
        }
        Ok((self.added + 1) as u32)
    }

    /// Whether a number passes four times the clauses so far by more than `FREE_NUMBERS`. So the
    /// table is no longer than the clauses call for, whatever numbers a proof names.
    fn is_too_large(&self, number: u32) -> bool
        ensures { result ≡ nat_lt (min (self.now.added + 16384) (2 ^ 64 - 1)) (number / 4) }
    {
        (number / 4) as usize > self.added.saturating_add(FREE_NUMBERS / 4)
    }

    /// Appends a clause, which this number names from now on. `Twice` is answered where the number
    /// was used before, and `Large` where it skips too many.
    pub(crate) fn add(&mut self, number: u32, clause: &[Lit]) -> Result<(), RefutationError>
        ensures ok { OnOk result (self.new.clauses ≡ self.old.clauses ++ clause.now ∷ []) }
        ensures err { OnErr result (self.new.clauses ≡ self.old.clauses) }
        ensures no_stream { IsErrOf result RefutationError.Stream → ⊥ }
        ensures moves { (live : Live) (said : List Lit) → Holds self.old live
            → SaysSame (Some clause.now) (Some said)
            → HoldsNext self.new result (numbered_clause live number said) }
        ensures in_row { IsInRow self.old → IsTable self.old → number ≡ self.old.added + 1
            → OnOk result (IsInRow self.new) }
    {
        if entry(&self.places, number) != UNUSED {
            return Err(RefutationError::Twice);
        }
        if self.is_too_large(number) {
            return Err(RefutationError::Large);
        }
        if self.clauses.len() >= (DELETED - 1) as usize {
            return Err(RefutationError::Memory);
        }
        let place = (self.clauses.len() + 1) as u32;
        push(&mut self.numbers, number)?;
        put_entry(&mut self.places, number, place)?;
        self.clauses.push(clause)?;
        self.added = self.added.saturating_add(1);
        self.live = self.live.saturating_add(clause.len());
        Ok(())
    }

    /// The place of the clause that a number names, if any.
    pub(crate) fn place(&self, number: u32) -> Option<usize>
        ensures { result ≡ place_in self.now number }
    {
        let place = entry(&self.places, number).checked_sub(1)? as usize;
        if place < self.clauses.len() {
            Some(place)
        } else {
            None
        }
    }

    /// The number that names the clause at a place, if one does.
    pub(crate) fn name(&self, place: usize) -> Option<u32>
        requires { place < length self.now.clauses }
        ensures { result ≡ name_in self.now place }
    {
        let number = number_at(&self.numbers, place);
        if entry(&self.places, number) as usize == place.saturating_add(1) {
            Some(number)
        } else {
            None
        }
    }

    /// Deletes the clause that a number names, which names none from now on.
    pub(crate) fn remove(&mut self, number: u32) -> Result<(), RefutationError>
        ensures same { self.new.clauses ≡ self.old.clauses }
        ensures no_stream { IsErrOf result RefutationError.Stream → ⊥ }
        ensures moves { (live : Live) → Holds self.old live
            → HoldsNext self.new result (deleted live (number ∷ [])) }
    {
        let Some(place) = self.place(number) else {
            return Err(RefutationError::Unnamed);
        };
        let count = self.clauses.clause(place).len();
        put_entry(&mut self.places, number, DELETED)?;
        self.live = self.live.saturating_sub(count);
        self.deleted = self.deleted.saturating_add(count);
        Ok(())
    }

    /// Frees the memory of deleted clauses, where these have more than a quarter as many literals as
    /// the others. Each clause that is left was there.
    pub(crate) fn reclaim(&mut self) -> Result<(), RefutationError>
        ensures kept { OnOk result (All (Contains self.old.clauses) self.new.clauses) }
        ensures err { OnErr result (self.new.clauses ≡ self.old.clauses) }
        ensures holds { (live : Live) → Holds self.old live → OnOk result (Holds self.new live) }
        ensures memory { OnlyMemory result }
        ensures no_stream { IsErrOf result RefutationError.Stream → ⊥ }
    {
        if self.deleted <= self.live / 4 {
            return Ok(());
        }
        Ok(self.compact()?)
    }

    /// Moves the clauses together that numbers name.
    fn compact(&mut self) -> Result<(), MemoryError>
        ensures kept { OnOk result (All (Contains self.old.clauses) self.new.clauses) }
        ensures err { OnErr result (self.new.clauses ≡ self.old.clauses) }
        ensures holds { (live : Live) → Holds self.old live → OnOk result (Holds self.new live) }
    {
        let mut clauses = LitVvec::new(self.alloc);
        let mut numbers = Vec::new(self.alloc);
        take_live(
            &self.clauses,
            &self.numbers,
            &mut self.places,
            &mut clauses,
            &mut numbers,
        )?;
        self.clauses = clauses;
        self.numbers = numbers;
        self.deleted = 0;
        Ok(())
    }

    /// The clauses.
    pub(crate) fn clauses(&self) -> &LitVvec
        ensures { result.now ≡ self.now.clauses }
    {
        &self.clauses
    }
}
