//! A map from variables to variables.

ghost use Rattle.std.specs.Prelude.{◌≡◌, OnOk, OnErr, IfOk};
ghost use Rattle.std.specs.FinMap as finite_map;
ghost use Rattle.aig_base.specs.Clauses.{var_number};

use crate::logic::literal::Var;
use crate::memory::MemoryError;
use std::alloc::Global;
use std::collections::HashMap;
use std::marker::Model;

/// A map from variables to variables.
pub struct VarVMap {
    entries: HashMap<u32, Var>,
}

impl Drop for VarVMap {
    fn drop(self) {
        let VarVMap { entries: _ } = self;
    }
}

impl Model for VarVMap {
    ghost use Rattle.std.specs.Prelude.{ℕ};
    ghost use Rattle.std.specs.FinMap as finite_map;
    ghost use Rattle.std.specs.Ordering.{nat_cmp};
    ghost use Rattle.std.specs.Coded.{coded_ℕ};

    ghost Value = { finite_map.FinMap nat_cmp ℕ };

    ghost coded = { finite_map.code coded_ℕ coded_ℕ };

    ghost view = { λ a. finite_map.from_entries a.entries.entries };
}

impl VarVMap {
    /// Returns a map of no variables, and takes no memory.
    pub fn new(alloc: Global) -> VarVMap
        ensures { result ≡ finite_map.empty }
    {
        VarVMap {
            entries: HashMap::new(alloc),
        }
    }

    /// Maps a variable to a variable, and returns the one that it was mapped to before, if any.
    ///
    /// # Errors
    ///
    /// - `Memory`: memory was refused. The map stays as it was.
    pub fn insert(&mut self, k: Var, v: Var) -> Result<Option<Var>, MemoryError>
        ensures before { IfOk result (λ before. before ≡ finite_map.get self.old (var_number k)) }
        ensures ok { OnOk result
            (self.new ≡ finite_map.insert self.old (var_number k) (var_number v)) }
        ensures err { OnErr result (self.new ≡ self.old) }
    {
        Ok(self.entries.insert(k.number(), v)?)
    }

    /// Returns the variable that a variable is mapped to, if any.
    pub fn get(&self, k: Var) -> Option<Var>
        ensures { result ≡ finite_map.get self.now (var_number k) }
    {
        self.entries.get(&k.number()).copied()
    }

    /// Returns how many variables are mapped.
    pub fn len(&self) -> usize
        ensures { result ≡ finite_map.len self.now }
    {
        self.entries.len()
    }
}
