//! A few short clauses in a value of fixed size.

ghost use Rattle.std.specs.Prelude.{◌≡◌, ◌<◌, ◌≤◌, ◌+◌, ◌^◌, ◌++◌, ◌∷◌, [], Some, IsTrue, if◌then◌else◌, length, take, slice_get};
ghost use Rattle.aig_base.specs.Clauses.{and_clauses, xor_clauses, ite_clauses};
ghost use Rattle.aig_base.specs.Cut.{start_of};

use crate::logic::literal::{Lit, Var};
use std::marker::Model;

/// How many clauses there are at most.
const MOST_CLAUSES: usize = 4;

/// How many literals the clauses have together at most.
const MOST_LITERALS: usize = 12;

/// Up to 4 clauses with up to 12 literals: their literals one after another, and where each clause ends.
///
/// It takes no memory beside its own value. Places without a clause or a literal hold anything.
pub(crate) struct NearClauses {
    literals: [Lit; MOST_LITERALS],
    ends: [u8; MOST_CLAUSES],
    clauses: u8,
    used: u8,
}

impl Drop for NearClauses {
    fn drop(self) {
        let NearClauses {
            literals: _,
            ends: _,
            clauses: _,
            used: _,
        } = self;
    }
}

impl Model for NearClauses {
    ghost use Rattle.std.specs.Prelude.{List, take};
    ghost use Rattle.aig_base.specs.declared.logic.literal.Lit.{Lit};
    ghost use Rattle.aig_base.specs.Cut.{cut_at, IsCut};

    ghost Value = { List (List Lit) };

    ghost view = { λ a. cut_at 0 (take a.clauses a.ends) (take a.used a.literals) };

    ghost invariant = { λ a. IsCut a.ends a.literals a.clauses a.used };
}

impl NearClauses {
    /// Returns a list of no clauses.
    pub(crate) fn new() -> NearClauses
        ensures { result ≡ [] }
    {
        NearClauses {
            literals: [Var::new(0).lit(); MOST_LITERALS],
            ends: [0; MOST_CLAUSES],
            clauses: 0,
            used: 0,
        }
    }

    /// Returns one clause of one literal.
    pub(crate) fn unit(lit: Lit) -> NearClauses
        ensures { result ≡ (lit ∷ []) ∷ [] }
    {
        NearClauses {
            literals: [lit; MOST_LITERALS],
            ends: [1; MOST_CLAUSES],
            clauses: 1,
            used: 1,
        }
    }

    /// Returns the clauses that `n` is the and of `a` and `b`.
    pub(crate) fn of_and(n: Lit, a: Lit, b: Lit) -> NearClauses
        ensures { result ≡ and_clauses n (a ∷ b ∷ []) }
    {
        NearClauses {
            literals: [!n, a, !n, b, n, !a, !b, n, n, n, n, n],
            ends: [2, 4, 7, 7],
            clauses: 3,
            used: 7,
        }
    }

    /// Returns the clauses that `n` is the exclusive or of `x` and `y`.
    pub(crate) fn of_xor(n: Lit, x: Lit, y: Lit) -> NearClauses
        ensures { result ≡ xor_clauses n x y }
    {
        NearClauses {
            literals: [!n, x, y, !n, !x, !y, n, !x, y, n, x, !y],
            ends: [3, 6, 9, 12],
            clauses: 4,
            used: 12,
        }
    }

    /// Returns the clauses that `n` is `t` if `c` is true, and else `e`.
    pub(crate) fn of_ite(n: Lit, c: Lit, t: Lit, e: Lit) -> NearClauses
        ensures { result ≡ ite_clauses n c t e }
    {
        NearClauses {
            literals: [!c, !t, n, !c, t, !n, c, !e, n, c, e, !n],
            ends: [3, 6, 9, 12],
            clauses: 4,
            used: 12,
        }
    }

    /// Returns the same clauses once more.
    pub(crate) fn copied(&self) -> NearClauses
        ensures { result ≡ self.now }
    {
        NearClauses {
            literals: self.literals,
            ends: self.ends,
            clauses: self.clauses,
            used: self.used,
        }
    }

    /// Appends one clause where there is room for it, and returns whether there was.
    pub(crate) fn push(&mut self, clause: &[Lit]) -> bool
        ensures { self.new ≡ (if result then self.old ++ clause.now ∷ [] else self.old) }
    {
        let count = self.clauses as usize;
        let used = self.used as usize;
        if count == MOST_CLAUSES || clause.len() > MOST_LITERALS - used {
            return false;
        }
        write_after(&mut self.literals, used, clause);
        self.used += clause.len() as u8;
        self.ends[count] = self.used;
        self.clauses += 1;
        true
    }

    /// Appends the clauses of another list where there is room for them all, and returns whether there was.
    pub(crate) fn append(&mut self, others: &NearClauses) -> bool
        ensures { self.new ≡ (if result then self.old ++ others.now else self.old) }
    {
        if self.clauses == 0 {
            *self = others.copied();
            return true;
        }
        let mut both = self.copied();
        for i in 0..others.len() {
            if !both.push(others.clause(i)) {
                return false;
            }
        }
        *self = both;
        true
    }

    /// Returns how many clauses there are.
    pub(crate) fn len(&self) -> usize
        ensures count { result ≡ length self.now }
        ensures few { result < 2 ^ 8 }
    {
        self.clauses as usize
    }

    /// Returns the literals of clause `i`, counted from 0.
    ///
    /// # Requirements
    ///
    /// - `i` is below the number of clauses (`len`).
    pub(crate) fn clause(&self, i: usize) -> &[Lit]
        requires { i < length self.now }
        ensures { slice_get self.now i ≡ Some result.now }
    {
        &self.literals[start(&self.ends, i)..self.ends[i] as usize]
    }
}

/// Where the clause of this place begins.
fn start(ends: &[u8], i: usize) -> usize
    requires { i < length ends.now }
    ensures { result ≡ start_of 0 ends.now i }
{
    if i == 0 { 0 } else { ends[i - 1] as usize }
}

/// Writes literals after the first `used` ones, over what stood there.
fn write_after(literals: &mut [Lit], used: usize, clause: &[Lit])
    requires { used + length clause.now ≤ length literals.old }
    ensures { take (used + length clause.now) literals.new ≡ take used literals.old ++ clause.now }
{
    for (i, lit) in clause.iter().enumerate() {
        literals[used + i] = *lit;
    }
}
