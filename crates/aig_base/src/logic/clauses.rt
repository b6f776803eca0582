//! Lists of clauses, and the relations that they say.

ghost use Rattle.std.specs.Prelude.{◌≡◌, ◌↔◌, ◌<◌, ◌^◌, ◌++◌, ◌∷◌, [], ℕ, Bool, Some, IsTrue, not, if◌then◌else◌, length, map, slice_get, IfOk, OnOk, OnErr};
ghost use Rattle.std.specs.List.{list_all};
ghost use Rattle.aig_base.specs.Clauses.{literal_value, are_true, and_clauses, xor_clauses, ite_clauses, inverse_lit};

use crate::logic::far_clauses::FarClauses;
use crate::logic::literal::Lit;
use crate::logic::near_clauses::NearClauses;
use crate::memory::MemoryError;
use std::alloc::Global;
use std::marker::Model;

/// Where the clauses of a list stand.
#[derive(Drop)]
enum Place {
    /// In the list itself.
    Near(NearClauses),
    /// In vectors.
    Far(FarClauses),
}

/// A list of clauses.
///
/// Up to 4 clauses with up to 12 literals together, as an and of two, an exclusive or and an if-then-else have, stand
/// in the list itself and take no memory. With the first clause beyond these all clauses move to memory. A call that
/// returns an error leaves the list as it was.
pub struct LitVvec {
    place: Place,
    alloc: Global,
}

impl Drop for LitVvec {
    fn drop(self) {
        let LitVvec { place: _, alloc: _ } = self;
    }
}

impl Model for LitVvec {
    ghost use Rattle.std.specs.Prelude.{List};
    ghost use Rattle.aig_base.specs.declared.logic.literal.Lit.{Lit};
    ghost use Rattle.aig_base.specs.Place.{clauses_at};

    ghost Value = { List (List Lit) };

    ghost view = { λ a. clauses_at a.place };
}

impl LitVvec {
    /// Returns a list of no clauses, and takes no memory.
    pub fn new(alloc: Global) -> LitVvec
        ensures { result ≡ [] }
    {
        LitVvec::near(alloc, NearClauses::new())
    }

    /// Returns one clause of one literal, and takes no memory.
    pub(crate) fn unit(alloc: Global, lit: Lit) -> LitVvec
        ensures { result ≡ (lit ∷ []) ∷ [] }
    {
        LitVvec::near(alloc, NearClauses::unit(lit))
    }

    /// Returns a list of clauses that stand in it.
    fn near(alloc: Global, clauses: NearClauses) -> LitVvec
        ensures { result ≡ clauses }
    {
        LitVvec {
            place: Place::Near(clauses),
            alloc,
        }
    }

    /// Appends one clause, which may be empty.
    ///
    /// # Errors
    ///
    /// - `Memory`: memory was refused. The list stays as it was.
    pub fn push(&mut self, clause: &[Lit]) -> Result<(), MemoryError>
        ensures ok { OnOk result (self.new ≡ self.old ++ clause.now ∷ []) }
        ensures err { OnErr result (self.new ≡ self.old) }
    {
        let mut far = match &mut self.place {
            Place::Far(far) => return far.push(clause),
            Place::Near(near) => {
                if near.push(clause) {
                    return Ok(());
                }
                to_far(self.alloc, near)?
            }
        };
        far.push(clause)?;
        self.place = Place::Far(far);
        Ok(())
    }

    /// Returns how many clauses there are.
    pub fn len(&self) -> usize
        ensures count { result ≡ length self.now }
        ensures few { result < 2 ^ 63 }
    {
        match &self.place {
            Place::Near(near) => near.len(),
            Place::Far(far) => far.len(),
        }
    }

    /// Returns the literals of clause `i`, counted from 0.
    ///
    /// # Requirements
    ///
    /// - `i` is below the number of clauses (`len`).
    pub fn clause(&self, i: usize) -> &[Lit]
        requires { i < length self.now }
        ensures { slice_get self.now i ≡ Some result.now }
    {
        match &self.place {
            Place::Near(near) => near.clause(i),
            Place::Far(far) => far.clause(i),
        }
    }

    /// Appends the clauses of another list. An empty list takes just the memory that these need.
    pub(crate) fn append(&mut self, other: &LitVvec) -> Result<(), MemoryError>
        ensures ok { OnOk result (self.new ≡ self.old ++ other.now) }
        ensures err { OnErr result (self.new ≡ self.old) }
    {
        match &other.place {
            Place::Near(near) => self.append_near(near),
            Place::Far(far) => self.append_far(far),
        }
    }

    /// Appends clauses that stand in another list itself.
    fn append_near(&mut self, others: &NearClauses) -> Result<(), MemoryError>
        ensures ok { OnOk result (self.new ≡ self.old ++ others.now) }
        ensures err { OnErr result (self.new ≡ self.old) }
    {
        if let Place::Near(near) = &mut self.place
            && near.append(others)
        {
            return Ok(());
        }
        self.append_far(&to_far(self.alloc, others)?)
    }

    /// Appends clauses that stand in vectors.
    fn append_far(&mut self, others: &FarClauses) -> Result<(), MemoryError>
        ensures ok { OnOk result (self.new ≡ self.old ++ others.now) }
        ensures err { OnErr result (self.new ≡ self.old) }
    {
        let mut far = match &mut self.place {
            Place::Far(far) => return far.append(others),
            Place::Near(near) => to_far(self.alloc, near)?,
        };
        far.append(others)?;
        self.place = Place::Far(far);
        Ok(())
    }

    /// Returns the clauses that hold exactly where `n` is the and of the literals: for each of them that `n` implies
    /// it, and last that all of them imply `n`.
    ///
    /// # Errors
    ///
    /// - `Memory`: memory was refused.
    pub fn cnf_and(alloc: Global, n: Lit, lits: &[Lit]) -> Result<LitVvec, MemoryError>
        ensures clauses { IfOk result (λ rel. rel ≡ and_clauses n lits.now) }
        ensures relation { IfOk result (λ rel. (v : ℕ → Bool) → IsTrue (are_true v rel)
            ↔ (literal_value v n ≡ list_all (literal_value v) lits.now)) }
    {
        if let [a, b] = lits {
            return Ok(LitVvec::near(alloc, NearClauses::of_and(n, *a, *b)));
        }
        let mut rel = LitVvec::new(alloc);
        rel.push_and(alloc, n, lits)?;
        Ok(rel)
    }

    /// Appends the clauses that `n` is the and of the literals. Where memory is refused it may have some of them.
    fn push_and(&mut self, alloc: Global, n: Lit, lits: &[Lit]) -> Result<(), MemoryError>
        ensures { OnOk result (self.new ≡ self.old ++ and_clauses n lits.now) }
    {
        for lit in lits {
            self.push(&[!n, *lit])?;
        }
        self.push(&with_inverses(alloc, n, lits)?)
    }

    /// Returns the four clauses that hold exactly where `n` is the exclusive or of `x` and `y`.
    ///
    /// # Errors
    ///
    /// - `Memory`: memory was refused.
    pub fn cnf_xor(alloc: Global, n: Lit, x: Lit, y: Lit) -> Result<LitVvec, MemoryError>
        ensures clauses { IfOk result (λ rel. rel ≡ xor_clauses n x y) }
        ensures relation { IfOk result (λ rel. (v : ℕ → Bool) → IsTrue (are_true v rel)
            ↔ (literal_value v n
            ≡ (if literal_value v x then not (literal_value v y) else literal_value v y))) }
    {
        Ok(LitVvec::near(alloc, NearClauses::of_xor(n, x, y)))
    }

    /// Returns the four clauses that hold exactly where `n` is `t` if `c` is true, and else `e`.
    ///
    /// # Errors
    ///
    /// - `Memory`: memory was refused.
    pub fn cnf_ite(alloc: Global, n: Lit, c: Lit, t: Lit, e: Lit) -> Result<LitVvec, MemoryError>
        ensures clauses { IfOk result (λ rel. rel ≡ ite_clauses n c t e) }
        ensures relation { IfOk result (λ rel. (v : ℕ → Bool) → IsTrue (are_true v rel)
            ↔ (literal_value v n
            ≡ (if literal_value v c then literal_value v t else literal_value v e))) }
    {
        Ok(LitVvec::near(alloc, NearClauses::of_ite(n, c, t, e)))
    }
}

/// Returns the same clauses in vectors.
fn to_far(alloc: Global, near: &NearClauses) -> Result<FarClauses, MemoryError>
    ensures { IfOk result (λ far. far ≡ near.now) }
{
    let mut far = FarClauses::new(alloc);
    for i in 0..near.len() {
        far.push(near.clause(i))?;
    }
    Ok(far)
}

/// Returns the clause of one literal and the inverses of others.
fn with_inverses(alloc: Global, first: Lit, others: &[Lit]) -> Result<Vec<Lit>, MemoryError>
    ensures { IfOk result (λ clause. clause.items ≡ first ∷ map inverse_lit others.now) }
{
    let mut clause = Vec::with_capacity(alloc, others.len() + 1)?;
    clause.push_reserved(first);
    for lit in others {
        clause.push_reserved(!*lit);
    }
    Ok(clause)
}
