//! Which clauses are looked at once a literal is false.

use crate::hints::trail::Trail;
use aig_base::{Lit, MemoryError};
use std::alloc::Global;
use std::mem;

/// A clause in the list of one of its literals, beside another one, or others.
#[derive(Clone, Copy)]
pub(crate) struct Watch<O> {
    /// The clause's place.
    pub(crate) place: u32,
    pub(crate) others: O,
}

/// For each literal the clauses of some kind that watch it, and so are looked at once it is false.
#[derive(Drop)]
pub(crate) struct Watches<O> {
    alloc: Global,
    lists: Vec<Vec<Watch<O>>>,
    /// How many of the literals on the trail were propagated along these clauses.
    taken: usize,
}

impl<O: Copy> Watches<O> {
    /// No clauses, for so many literals.
    pub(crate) fn new(alloc: Global, count: usize) -> Result<Watches<O>, MemoryError> {
        let mut made = Watches {
            alloc,
            lists: Vec::with_capacity(alloc, count)?,
            taken: 0,
        };
        made.grow(count)?;
        Ok(made)
    }

    /// Makes room for further literals, so that there are so many.
    pub(crate) fn grow(&mut self, count: usize) -> Result<(), MemoryError> {
        for _ in self.lists.len()..count {
            self.lists.push(Vec::new(self.alloc))?;
        }
        Ok(())
    }

    /// How many literals have lists.
    pub(crate) fn size(&self) -> usize {
        self.lists.len()
    }

    /// The list of a literal, if it has one.
    #[inline(always)]
    pub(crate) fn list(&self, lit: Lit) -> Option<&Vec<Watch<O>>> {
        self.lists.get(u32::from(lit) as usize)
    }

    /// The list of a literal, if it has one.
    pub(crate) fn list_mut(&mut self, lit: Lit) -> Option<&mut Vec<Watch<O>>> {
        self.lists.get_mut(u32::from(lit) as usize)
    }

    /// Whether no clause watches a literal.
    pub(crate) fn is_unwatched(&self, lit: Lit) -> bool {
        match self.list(lit) {
            Some(list) => list.is_empty(),
            None => true,
        }
    }

    /// Lets a clause watch a literal, beside these others.
    pub(crate) fn push(&mut self, lit: Lit, place: u32, others: O) -> Result<(), MemoryError> {
        if let Some(list) = self.list_mut(lit) {
            list.push(Watch { place, others })?;
        }
        Ok(())
    }

    /// Takes the list of a literal out.
    pub(crate) fn take(&mut self, lit: Lit) -> Vec<Watch<O>> {
        let empty = Vec::new(self.alloc);
        match self.list_mut(lit) {
            Some(list) => mem::replace(list, empty),
            None => empty,
        }
    }

    /// Puts the list of a literal back.
    pub(crate) fn put(&mut self, lit: Lit, list: Vec<Watch<O>>) {
        let i = u32::from(lit) as usize;
        if i < self.lists.len() {
            self.lists[i] = list;
        }
    }

    /// Empties all lists, and frees their memory, which is else that of as many watches as each had
    /// at most.
    pub(crate) fn clear(&mut self) {
        let alloc = self.alloc;
        for list in self.lists.iter_mut() {
            *list = Vec::new(alloc);
        }
    }

    /// Takes the next literal on the trail that is to be propagated along these clauses, if any.
    pub(crate) fn next(&mut self, trail: &Trail) -> Option<Lit> {
        let lit = trail.get(self.taken)?;
        self.taken = self.taken.saturating_add(1);
        Some(lit)
    }

    /// Says that the trail has so many literals, all of which were propagated.
    pub(crate) fn rewind(&mut self, len: usize) {
        self.taken = len;
    }
}
