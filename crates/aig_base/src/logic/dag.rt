//! Clauses by the variable that they are given to.

ghost use Rattle.std.specs.Prelude.{◌≡◌, ◌<◌, ◌≤◌, ◌^◌, ◌++◌, ◌∷◌, [], Some, length, false, sum_by, slice_get, slice_set, slice_index_or, IfOk, OnOk, OnErr};
ghost use Rattle.aig_base.specs.Clauses.{AreBelow, AreRelations, lit_to, var_number, var_of};

use crate::logic::clauses::LitVvec;
use crate::logic::literal::{Lit, Var};
use crate::memory::MemoryError;
use std::alloc::Global;
use std::marker::Model;

/// How many clauses all lists have together at most, which is more than memory holds.
const MOST_CLAUSES: usize = 1 << 63;

/// Clauses in one list for each variable, which are numbered from 0.
///
/// There is one variable at least, and 2^31 at most. Every literal is of a variable that is there. A call that returns
/// an error leaves the clauses as they were.
pub struct DagCnf {
    relations: Vec<LitVvec>,
    clauses: usize,
}

impl Drop for DagCnf {
    fn drop(self) {
        let DagCnf {
            relations: _,
            clauses: _,
        } = self;
    }
}

impl Model for DagCnf {
    ghost use Rattle.std.specs.Prelude.{List};
    ghost use Rattle.aig_base.specs.declared.logic.literal.Lit.{Lit};
    ghost use Rattle.aig_base.specs.Clauses.{AreRelations, IsCount};

    ghost Value = { List (List (List Lit)) };

    ghost view = { λ a. a.relations.items };

    ghost invariant = { λ a. AreRelations a.relations.items × IsCount a.relations.items a.clauses };
}

impl DagCnf {
    /// Returns variable 0 alone, with the one clause that it is false.
    ///
    /// # Errors
    ///
    /// - `Memory`: memory was refused.
    pub fn new(alloc: Global) -> Result<DagCnf, MemoryError>
        ensures { IfOk result (λ dag. dag ≡ ((lit_to 0 false ∷ []) ∷ []) ∷ []) }
    {
        let mut relations = Vec::new(alloc);
        relations.push(LitVvec::unit(alloc, !Var::new(0).lit()))?;
        Ok(DagCnf {
            relations,
            clauses: 1,
        })
    }

    /// Adds a variable without clauses, and returns it.
    ///
    /// # Requirements
    ///
    /// - There are fewer than 2^31 variables (`num_vars`).
    ///
    /// # Errors
    ///
    /// - `Memory`: memory was refused. Variables and clauses stay as they were.
    pub fn new_var(&mut self) -> Result<Var, MemoryError>
        requires { length self.old < 2 ^ 31 }
        ensures var { IfOk result (λ var. var ≡ var_of (length self.old)) }
        ensures ok { OnOk result (self.new ≡ self.old ++ [] ∷ []) }
        ensures err { OnErr result (self.new ≡ self.old) }
    {
        let number = self.relations.len();
        let alloc = *self.relations.allocator();
        self.relations.push(LitVvec::new(alloc))?;
        Ok(Var::new(number))
    }

    /// Appends clauses to the list of a variable.
    ///
    /// # Requirements
    ///
    /// - `var`, and the variable of each literal of `rel`, is there: its number is below `num_vars`.
    ///
    /// # Errors
    ///
    /// - `Memory`: memory was refused. Variables and clauses stay as they were.
    pub fn add_rel(&mut self, var: Var, rel: &LitVvec) -> Result<(), MemoryError>
        requires var { var_number var < length self.old }
        requires rel { AreBelow (length self.old) rel.now }
        ensures ok { OnOk result (self.new ≡ slice_set self.old (var_number var)
            (slice_index_or self.old (var_number var) [] ++ rel.now)) }
        ensures err { OnErr result (self.new ≡ self.old) }
    {
        let more = rel.len();
        if more > MOST_CLAUSES - self.clauses {
            return Err(MemoryError::Memory);
        }
        let i = usize::from(var);
        self.relations[i].append(rel)?;
        self.clauses += more;
        Ok(())
    }

    /// Returns how many variables there are.
    pub fn num_vars(&self) -> usize
        ensures count { result ≡ length self.now }
        ensures relations { AreRelations self.now }
    {
        self.relations.len()
    }

    /// Returns how many clauses all lists have together.
    pub fn num_clauses(&self) -> usize
        ensures count { result ≡ sum_by length self.now }
        ensures few { result ≤ 2 ^ 63 }
    {
        self.clauses
    }

    /// Returns the clauses of a variable.
    ///
    /// # Requirements
    ///
    /// - The variable is there: its number is below `num_vars`.
    pub fn clauses_of(&self, var: Var) -> &LitVvec
        requires { var_number var < length self.now }
        ensures { slice_get self.now (var_number var) ≡ Some result.now }
    {
        &self.relations[usize::from(var)]
    }
}
