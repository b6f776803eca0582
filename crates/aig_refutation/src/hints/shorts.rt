//! Clauses of two and three literals.

use crate::hints::clauses::Clauses;
use crate::hints::trail::{Pair, Trail};
use crate::hints::watches::Watches;
use aig_base::{Lit, MemoryError};

/// Clauses of two or three literals, all of which are watched, beside the other two. Where there are
/// two, the second of these is the watched one itself.
///
/// A clause knows where its watches stand, so that they are dropped at no more cost.
pub(crate) type Shorts = Watches<[Lit; 2]>;

impl Watches<[Lit; 2]> {
    /// Lets a clause watch this one of its literals, beside these others.
    fn add_one(
        &mut self,
        clauses: &mut Clauses,
        place: u32,
        i: u32,
        others: [Lit; 2],
    ) -> Result<(), MemoryError> {
        let lit = clauses.lit(place, i);
        if let Some(list) = self.list(lit) {
            clauses.set_watch(place, i, list.len());
        }
        self.push(lit, place, others)
    }

    /// Lets a clause watch its literals.
    pub(crate) fn add(&mut self, clauses: &mut Clauses, place: u32) -> Result<(), MemoryError> {
        let first = clauses.lit(place, 0);
        let second = clauses.lit(place, 1);
        if clauses.len(place) == 2 {
            self.add_one(clauses, place, 0, [second, first])?;
            return self.add_one(clauses, place, 1, [first, second]);
        }
        let third = clauses.lit(place, 2);
        self.add_one(clauses, place, 0, [second, third])?;
        self.add_one(clauses, place, 1, [first, third])?;
        self.add_one(clauses, place, 2, [first, second])
    }

    /// Lets a clause watch this one of its literals no more. The last watch of that literal takes the
    /// place of the one that is dropped.
    fn remove_one(&mut self, clauses: &mut Clauses, place: u32, i: u32) {
        let lit = clauses.lit(place, i);
        let at = clauses.watch(place, i);
        let Some(list) = self.list_mut(lit) else {
            return;
        };
        if at >= list.len() || list[at].place != place {
            return;
        }
        list.swap_remove(at);
        if at < list.len() {
            clauses.move_watch(list[at].place, lit, at);
        }
    }

    /// Lets a clause watch its literals no more.
    pub(crate) fn remove(&mut self, clauses: &mut Clauses, place: u32) {
        for i in 0..clauses.len(place) {
            self.remove_one(clauses, place, i);
        }
    }

    /// Makes true what follows along the clauses that watch a literal which is false now, up to one
    /// whose literals are all false, and returns its place. Nothing is read of them but what stands
    /// in the list.
    pub(crate) fn visit_all(&self, lit: Lit, trail: &mut Trail) -> Option<u32> {
        for watch in self.list(lit)? {
            match trail.pair(watch.others) {
                Pair::Open => {}
                Pair::Last(lit) => trail.assign(lit, watch.place),
                Pair::False => return Some(watch.place),
            }
        }
        None
    }
}
