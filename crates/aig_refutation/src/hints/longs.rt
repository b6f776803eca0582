//! Clauses of more than three literals.

use crate::hints::clauses::{Clauses, Kind, Look};
use crate::hints::trail::Trail;
use crate::hints::watches::{Watch, Watches};
use aig_base::{Lit, MemoryError};
use std::alloc::Global;

/// What becomes of a clause's watch on a literal that is false now.
enum Visit {
    /// It stays, beside this other literal.
    Stays(Lit),
    /// It ends: the clause watches another literal now, or it is stale.
    Ends,
    /// It stays, and all literals of the clause are false.
    Conflict,
}

/// Clauses of some kind, of which two literals are watched, each beside a literal: where that is
/// true, so is the clause.
///
/// A watch may be stale: of a clause that was removed, is of another kind now or watches other
/// literals, or a second one of a clause. Where most of a list are stale they are dropped.
pub(crate) struct Longs {
    kind: Kind,
    watches: Watches<Lit>,
    /// How many watches of each literal are stale at most.
    stale: Vec<u32>,
}

impl Drop for Longs {
    fn drop(self) {
        let Longs {
            kind: _,
            watches: _,
            stale: _,
        } = self;
    }
}

impl Longs {
    /// No clauses of this kind, for so many literals.
    pub(crate) fn new(alloc: Global, count: usize, kind: Kind) -> Result<Longs, MemoryError> {
        Ok(Longs {
            kind,
            watches: Watches::new(alloc, count)?,
            stale: vec![in alloc; 0; count]?,
        })
    }

    /// Makes room for further literals, so that there are so many.
    pub(crate) fn grow(&mut self, count: usize) -> Result<(), MemoryError> {
        self.watches.grow(count)?;
        self.stale.resize(count, 0)?;
        Ok(())
    }

    /// Lets a clause watch its first two literals.
    pub(crate) fn add(&mut self, clauses: &Clauses, place: u32) -> Result<(), MemoryError> {
        let first = clauses.lit(place, 0);
        let second = clauses.lit(place, 1);
        self.watches.push(first, place, second)?;
        self.watches.push(second, place, first)
    }

    /// Whether most watches of a literal may be stale.
    fn is_sparse(&self, lit: Lit) -> bool {
        let i = u32::from(lit) as usize;
        let Some(list) = self.watches.list(lit) else {
            return false;
        };
        i < self.stale.len() && self.stale[i] as usize > list.len() / 2
    }

    /// Drops the stale watches of a literal.
    #[cold]
    fn sweep(&mut self, lit: Lit, clauses: &mut Clauses) {
        let kind = self.kind;
        let mut list = self.watches.take(lit);
        list.retain(|watch| clauses.claim(watch.place, lit, kind));
        for watch in &list {
            clauses.release(watch.place);
        }
        self.watches.put(lit, list);
        if let Some(count) = self.stale.get_mut(u32::from(lit) as usize) {
            *count = 0;
        }
    }

    /// Takes note that a watch of a literal is stale.
    fn end_one(&mut self, lit: Lit, clauses: &mut Clauses) {
        if let Some(count) = self.stale.get_mut(u32::from(lit) as usize) {
            *count = count.saturating_add(1);
        }
        if self.is_sparse(lit) {
            self.sweep(lit, clauses);
        }
    }

    /// Takes note that a stale watch of a literal is dropped.
    fn forget_one(&mut self, lit: Lit) {
        if let Some(count) = self.stale.get_mut(u32::from(lit) as usize) {
            *count = count.saturating_sub(1);
        }
    }

    /// Lets a clause that was removed, or is of another kind now, watch no literal.
    pub(crate) fn end(&mut self, clauses: &mut Clauses, place: u32) {
        self.end_one(clauses.lit(place, 0), clauses);
        self.end_one(clauses.lit(place, 1), clauses);
    }

    /// Empties all lists.
    pub(crate) fn clear(&mut self) {
        self.watches.clear();
        self.stale.fill(0);
    }

    /// Takes the next literal on the trail that is to be propagated along these clauses, if any.
    pub(crate) fn next(&mut self, trail: &Trail) -> Option<Lit> {
        self.watches.next(trail)
    }

    /// Says that the trail has so many literals, all of which were propagated.
    pub(crate) fn rewind(&mut self, len: usize) {
        self.watches.rewind(len);
    }

    /// Looks at a clause that watches a literal which is false now.
    #[inline(always)]
    fn visit(
        &mut self,
        place: u32,
        lit: Lit,
        clauses: &mut Clauses,
        trail: &mut Trail,
    ) -> Result<Visit, MemoryError> {
        match clauses.look(place, lit, self.kind, trail) {
            Look::Stale => {
                self.forget_one(lit);
                Ok(Visit::Ends)
            }
            Look::True(other) => Ok(Visit::Stays(other)),
            Look::Moved { other, next } => {
                self.watches.push(next, place, other)?;
                Ok(Visit::Ends)
            }
            Look::Last(other) if trail.is_false(other) => Ok(Visit::Conflict),
            Look::Last(other) => {
                trail.assign(other, place);
                Ok(Visit::Stays(other))
            }
        }
    }

    /// Looks at the clauses of a list, which watch a literal that is false now, up to one whose
    /// literals are all false.
    fn visit_list(
        &mut self,
        lit: Lit,
        list: &mut Vec<Watch<Lit>>,
        clauses: &mut Clauses,
        trail: &mut Trail,
    ) -> Result<Option<u32>, MemoryError> {
        let mut at = 0;
        for _ in 0..list.len() {
            if at >= list.len() {
                break;
            }
            let watch = list[at];
            if !trail.is_true(watch.others) {
                match self.visit(watch.place, lit, clauses, trail)? {
                    Visit::Stays(other) => list[at].others = other,
                    Visit::Ends => {
                        list.swap_remove(at);
                        continue;
                    }
                    Visit::Conflict => return Ok(Some(watch.place)),
                }
            }
            at += 1;
        }
        Ok(None)
    }

    /// Makes true what follows along the clauses that watch a literal which is false now, up to one
    /// whose literals are all false, and returns its place.
    pub(crate) fn visit_all(
        &mut self,
        lit: Lit,
        clauses: &mut Clauses,
        trail: &mut Trail,
    ) -> Result<Option<u32>, MemoryError> {
        if self.watches.is_unwatched(lit) {
            return Ok(None);
        }
        if self.is_sparse(lit) {
            self.sweep(lit, clauses);
        }
        let mut list = self.watches.take(lit);
        let conflict = self.visit_list(lit, &mut list, clauses, trail)?;
        self.watches.put(lit, list);
        Ok(conflict)
    }
}
