//! A set of literals.

use aig_base::{Lit, MemoryError};
use std::alloc::Global;

/// A set of literals, which is cleared at the cost of those in it.
pub(crate) struct Marked {
    /// Whether a literal is in the set, by its number.
    is: Vec<bool>,
    /// The literals in the set, in the order in which they came.
    lits: Vec<Lit>,
}

impl Drop for Marked {
    fn drop(self) {
        let Marked { is: _, lits: _ } = self;
    }
}

impl Marked {
    /// No literals, of so many.
    pub(crate) fn new(alloc: Global, count: usize) -> Result<Marked, MemoryError> {
        let is = vec![in alloc; false; count]?;
        Ok(Marked {
            is,
            lits: Vec::new(alloc),
        })
    }

    /// Makes room for further literals, so that there are so many.
    pub(crate) fn grow(&mut self, count: usize) -> Result<(), MemoryError> {
        self.is.resize(count, false)?;
        Ok(())
    }

    /// Takes all literals out.
    pub(crate) fn clear(&mut self) {
        for lit in &self.lits {
            let i = u32::from(*lit) as usize;
            if i < self.is.len() {
                self.is[i] = false;
            }
        }
        self.lits.clear();
    }

    /// Puts a literal in, and says whether it is new.
    pub(crate) fn add(&mut self, lit: Lit) -> Result<bool, MemoryError> {
        let i = u32::from(lit) as usize;
        if i >= self.is.len() || self.is[i] {
            return Ok(false);
        }
        self.lits.push(lit)?;
        self.is[i] = true;
        Ok(true)
    }

    /// Takes all literals out, and puts these in.
    pub(crate) fn set(&mut self, lits: &[Lit]) -> Result<(), MemoryError> {
        self.clear();
        for lit in lits {
            self.add(*lit)?;
        }
        Ok(())
    }

    /// Whether a literal is in the set.
    pub(crate) fn has(&self, lit: Lit) -> bool {
        let i = u32::from(lit) as usize;
        i < self.is.len() && self.is[i]
    }

    /// The literals in the set.
    pub(crate) fn lits(&self) -> &[Lit] {
        &self.lits
    }
}
