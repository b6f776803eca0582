//! Clauses in vectors.

ghost use Rattle.std.specs.Prelude.{◌≡◌, ◌<◌, ◌≤◌, ◌+◌, ◌^◌, ◌++◌, ◌∷◌, [], Some, All, length, map, slice_get, vec_len, vec_capacity, OnOk, OnErr};
ghost use Rattle.aig_base.specs.Cut.{start_of};

use crate::logic::literal::Lit;
use crate::memory::MemoryError;
use std::alloc::{AllocError, Global};
use std::marker::Model;

/// Clauses in two vectors: their literals one after another, and where each clause ends.
///
/// A call that returns an error leaves them as they were.
pub(crate) struct FarClauses {
    literals: Vec<Lit>,
    ends: Vec<usize>,
}

impl Drop for FarClauses {
    fn drop(self) {
        let FarClauses {
            literals: _,
            ends: _,
        } = self;
    }
}

impl Model for FarClauses {
    ghost use Rattle.std.specs.Prelude.{List, length};
    ghost use Rattle.aig_base.specs.declared.logic.literal.Lit.{Lit};
    ghost use Rattle.aig_base.specs.Cut.{cut_at, AreEnds};

    ghost Value = { List (List Lit) };

    ghost view = { λ a. cut_at 0 a.ends.items a.literals.items };

    ghost invariant = { λ a. AreEnds 0 a.ends.items (length a.literals.items) };
}

impl FarClauses {
    /// Returns a list of no clauses, and takes no memory.
    pub(crate) fn new(alloc: Global) -> FarClauses
        ensures { result ≡ [] }
    {
        FarClauses {
            literals: Vec::new(alloc),
            ends: Vec::new(alloc),
        }
    }

    /// Appends one clause, which may be empty.
    pub(crate) fn push(&mut self, clause: &[Lit]) -> Result<(), MemoryError>
        ensures ok { OnOk result (self.new ≡ self.old ++ clause.now ∷ []) }
        ensures err { OnErr result (self.new ≡ self.old) }
    {
        self.ends.reserve(1)?;
        self.literals.extend_from_slice(clause)?;
        self.ends.push_reserved(self.literals.len());
        Ok(())
    }

    /// Returns how many clauses there are.
    pub(crate) fn len(&self) -> usize
        ensures count { result ≡ length self.now }
        ensures few { result < 2 ^ 63 }
    {
        self.ends.len()
    }

    /// Returns the literals of clause `i`, counted from 0.
    ///
    /// # Requirements
    ///
    /// - `i` is below the number of clauses (`len`).
    pub(crate) fn clause(&self, i: usize) -> &[Lit]
        requires { i < length self.now }
        ensures { slice_get self.now i ≡ Some result.now }
    {
        &self.literals[start(&self.ends, i)..self.ends[i]]
    }

    /// Appends the clauses of another list. An empty list takes just the memory that these need.
    pub(crate) fn append(&mut self, other: &FarClauses) -> Result<(), MemoryError>
        ensures ok { OnOk result (self.new ≡ self.old ++ other.now) }
        ensures err { OnErr result (self.new ≡ self.old) }
    {
        make_room(&mut self.ends, other.ends.len())?;
        let before = self.literals.len();
        self.literals.extend_from_slice(&other.literals)?;
        append_shifted(&mut self.ends, &other.ends, before);
        Ok(())
    }
}

/// Where the clause of this place begins.
fn start(ends: &[usize], i: usize) -> usize
    requires { i < length ends.now }
    ensures { result ≡ start_of 0 ends.now i }
{
    if i == 0 { 0 } else { ends[i - 1] }
}

/// Makes room for more ends. An empty list takes just the memory that these need.
fn make_room(ends: &mut Vec<usize>, more: usize) -> Result<(), AllocError>
    ensures items { ends.new.items ≡ ends.old.items }
    ensures room { OnOk result (vec_len ends.new + more ≤ vec_capacity ends.new) }
{
    if ends.is_empty() {
        ends.reserve_exact(more)
    } else {
        ends.reserve(more)
    }
}

/// Appends the ends of other clauses, which begin after `by` literals. There is room for them.
fn append_shifted(ends: &mut Vec<usize>, others: &[usize], by: usize)
    requires room { vec_len ends.old + length others.now ≤ vec_capacity ends.old }
    requires fits { All (λ end. by + end < 2 ^ 64) others.now }
    ensures { ends.new.items ≡ ends.old.items ++ map (λ end. by + end) others.now }
{
    for end in others {
        ends.push_reserved(by + *end);
    }
}
