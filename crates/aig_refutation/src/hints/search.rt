//! The search for hints.

use crate::hints::clauses::{Clauses, MOST_OF_SHORT, RECENT, REST};
use crate::hints::index::Index;
use crate::hints::longs::Longs;
use crate::hints::marked::Marked;
use crate::hints::needed::Needed;
use crate::hints::shorts::Shorts;
use crate::hints::trail::Trail;
use aig_base::{Lit, MemoryError};
use std::alloc::Global;
use std::mem;

/// A clause that isn't used in so many searches is recent no more, which is looked at once in as
/// many.
const PERIOD: u32 = 200;

/// Finds hints by unit propagation: of each clause two literals are watched, and literals that
/// follow from the clauses alone stay true from then on (Moskewicz, Madigan, Zhao, Zhang and Malik:
/// Chaff, 2001). Of a clause of two or three literals all are watched, so that its watches stay.
///
/// What follows along these short clauses is made true before any other clause is looked at, and
/// what follows along recent ones before the rest: those that were added, or became hints, a short
/// time ago. Most hints of a clause are also hints of the clauses just before it.
///
/// After an error it isn't used any more.
pub struct Search {
    alloc: Global,
    clauses: Clauses,
    /// The short clauses.
    shorts: Shorts,
    /// Recent clauses of more literals.
    recent: Longs,
    /// The others.
    rest: Longs,
    /// The places of the recent ones, and of some that were removed.
    recent_places: Vec<u32>,
    /// How many searches there were. Clauses of the formula come before the first, and aren't recent.
    searches: u32,
    index: Index,
    trail: Trail,
    marked: Marked,
    /// The literals for whose values clauses are to be collected.
    needed: Needed,
    /// The numbers of the clauses that were collected, from the last one to be used on.
    chain: Vec<u32>,
    /// For each variable the number of the clause that has its literal alone, or 0 where there is
    /// none.
    units: Vec<u32>,
    /// How many of the first literals of the trail have such a clause.
    named: usize,
    /// The place of a clause whose literals are all false for good.
    conflict: Option<u32>,
}

impl Drop for Search {
    fn drop(self) {
        let Search {
            alloc: _,
            clauses: _,
            shorts: _,
            recent: _,
            rest: _,
            recent_places: _,
            searches: _,
            index: _,
            trail: _,
            marked: _,
            needed: _,
            chain: _,
            units: _,
            named: _,
            conflict: _,
        } = self;
    }
}

/// The number of the clause that has a variable's literal alone, or 0.
fn unit_of(units: &[u32], lit: Lit) -> u32 {
    let i = usize::from(lit.var());
    if i < units.len() { units[i] } else { 0 }
}

impl Search {
    /// No clauses, of so many variables.
    pub fn new(alloc: Global, variables: usize) -> Result<Search, MemoryError> {
        let literals = variables.saturating_mul(2);
        Ok(Search {
            alloc,
            clauses: Clauses::new(alloc)?,
            shorts: Shorts::new(alloc, literals)?,
            recent: Longs::new(alloc, literals, RECENT)?,
            rest: Longs::new(alloc, literals, REST)?,
            trail: Trail::new(alloc, variables)?,
            marked: Marked::new(alloc, literals)?,
            needed: Needed::new(alloc, variables)?,
            chain: Vec::new(alloc),
            units: vec![in alloc; 0; variables]?,
            recent_places: Vec::new(alloc),
            index: Index::new(alloc),
            searches: 0,
            named: 0,
            conflict: None,
        })
    }

    /// Makes room for further variables, so that there are so many.
    fn grow(&mut self, variables: usize) -> Result<(), MemoryError> {
        let literals = variables.saturating_mul(2);
        self.shorts.grow(literals)?;
        self.recent.grow(literals)?;
        self.rest.grow(literals)?;
        self.trail.grow(variables)?;
        self.marked.grow(literals)?;
        self.needed.grow(variables)?;
        self.units.resize(variables, 0)?;
        Ok(())
    }

    /// Makes room for the variables of a clause.
    fn fit(&mut self, clause: &[Lit]) -> Result<(), MemoryError> {
        for lit in clause {
            let variables = usize::from(lit.var()) + 1;
            if variables > self.units.len() {
                self.grow(variables)?;
            }
        }
        Ok(())
    }

    /// Says which clause has this literal alone.
    fn set_unit(&mut self, lit: Lit, number: u32) {
        let i = usize::from(lit.var());
        if i < self.units.len() {
            self.units[i] = number;
        }
    }

    /// Adds a clause of this number, which is not 0. Its variables may be new. Literals that follow
    /// from it are to be taken by `next_unit`.
    pub fn add(&mut self, number: u32, clause: &[Lit]) -> Result<(), MemoryError> {
        self.fit(clause)?;
        self.marked.set(clause)?;
        let place = self.clauses.push(number, self.marked.lits())?;
        self.index.add(&mut self.clauses, place)?;
        self.start(place, number)?;
        if self.conflict.is_none() {
            self.conflict = self.propagate()?;
        }
        Ok(())
    }

    /// Watches two literals of a new clause, or takes what follows from it where all others are
    /// false.
    fn start(&mut self, place: u32, number: u32) -> Result<(), MemoryError> {
        let open = self.clauses.bring_open(place, &self.trail);
        let first = self.clauses.lit(place, 0);
        if open >= 2 {
            self.clauses.set_used(place, self.searches);
            return self.watch(place);
        }
        if open == 0 {
            self.conflict = Some(place);
        } else if !self.trail.is_true(first) {
            self.trail.assign(first, place);
            if self.clauses.len(place) == 1 {
                self.set_unit(first, number);
            }
        }
        Ok(())
    }

    /// Watches all literals of a short clause, and the first two of another.
    fn watch(&mut self, place: u32) -> Result<(), MemoryError> {
        if self.clauses.len(place) <= MOST_OF_SHORT {
            return self.shorts.add(&mut self.clauses, place);
        }
        if self.clauses.used(place) == 0 {
            return self.rest.add(&self.clauses, place);
        }
        self.recent_places.push(place)?;
        self.recent.add(&self.clauses, place)
    }

    /// Takes note that a clause is used now.
    fn make_recent(&mut self, place: u32) -> Result<(), MemoryError> {
        if self.searches == 0 || self.clauses.len(place) <= MOST_OF_SHORT {
            return Ok(());
        }
        let was_recent = self.clauses.used(place) != 0;
        self.clauses.set_used(place, self.searches);
        if was_recent {
            return Ok(());
        }
        self.rest.end(&mut self.clauses, place);
        self.watch(place)
    }

    /// Lets a clause be recent no more that was not used for long, and says whether it still is.
    fn stays_recent(&mut self, place: u32) -> Result<bool, MemoryError> {
        if self.clauses.number(place) == 0 {
            return Ok(false);
        }
        if self.searches.saturating_sub(self.clauses.used(place)) <= PERIOD {
            return Ok(true);
        }
        self.clauses.set_used(place, 0);
        self.recent.end(&mut self.clauses, place);
        self.watch(place)?;
        Ok(false)
    }

    /// Lets all clauses be recent no more that were not used for long.
    fn end_recent(&mut self) -> Result<(), MemoryError> {
        let places = mem::replace(&mut self.recent_places, Vec::new(self.alloc));
        for place in &places {
            if self.stays_recent(*place)? {
                self.recent_places.push(*place)?;
            }
        }
        Ok(())
    }

    /// Makes true what follows along short clauses, up to one whose literals are all false, and
    /// returns its place.
    fn propagate_shorts(&mut self) -> Option<u32> {
        for _ in 0..self.units.len() {
            let lit = self.shorts.next(&self.trail)?;
            let conflict = self.shorts.visit_all(!lit, &mut self.trail);
            if conflict.is_some() {
                return conflict;
            }
        }
        None
    }

    /// The same along recent clauses too.
    fn propagate_recent(&mut self) -> Result<Option<u32>, MemoryError> {
        for _ in 0..self.units.len() {
            let conflict = self.propagate_shorts();
            if conflict.is_some() {
                return Ok(conflict);
            }
            let Some(lit) = self.recent.next(&self.trail) else {
                break;
            };
            let conflict = self
                .recent
                .visit_all(!lit, &mut self.clauses, &mut self.trail)?;
            if conflict.is_some() {
                return Ok(conflict);
            }
        }
        Ok(None)
    }

    /// The same along all clauses.
    fn propagate(&mut self) -> Result<Option<u32>, MemoryError> {
        for _ in 0..self.units.len() {
            let conflict = self.propagate_recent()?;
            if conflict.is_some() {
                return Ok(conflict);
            }
            let Some(lit) = self.rest.next(&self.trail) else {
                break;
            };
            let conflict = self
                .rest
                .visit_all(!lit, &mut self.clauses, &mut self.trail)?;
            if conflict.is_some() {
                return Ok(conflict);
            }
        }
        Ok(None)
    }

    /// Makes the inverses of a clause's literals true, the last one's first: solvers put the
    /// literals first that they assumed last. Where one of them follows from the clauses, the
    /// number of the clause that has it alone is answered.
    fn assume_false(&mut self, clause: &[Lit]) -> Result<Option<u32>, MemoryError> {
        for lit in clause.iter().rev() {
            if self.trail.is_true(*lit) {
                let unit = unit_of(&self.units, *lit);
                if unit != 0 {
                    return Ok(Some(unit));
                }
            } else if !self.trail.is_false(*lit) {
                self.trail.assign(!*lit, 0);
            }
        }
        Ok(None)
    }

    /// Collects a clause. The first `fixed` literals of the trail have clauses of their own, which
    /// become hints at once, each of them once; for the other literals clauses are needed then.
    fn collect(
        &mut self,
        place: u32,
        fixed: usize,
        hints: &mut Vec<u32>,
    ) -> Result<(), MemoryError> {
        self.make_recent(place)?;
        self.chain.push(self.clauses.number(place))?;
        for word in self.clauses.lits(place) {
            let lit = Lit::from(*word);
            let i = self.trail.order(lit);
            if i >= fixed {
                self.needed.add(i);
            } else if self.marked.add(lit)? {
                hints.push(unit_of(&self.units, lit))?;
            }
        }
        Ok(())
    }

    /// Collects the clauses from which it follows that all literals of a clause are false, and that
    /// clause after them. The first `fixed` literals of the trail have clauses of their own, which
    /// come first; the others come in the order in which their literals became true.
    fn explain(
        &mut self,
        place: u32,
        fixed: usize,
        hints: &mut Vec<u32>,
    ) -> Result<(), MemoryError> {
        self.marked.clear();
        self.chain.clear();
        self.needed.start(fixed, self.trail.len());
        self.collect(place, fixed, hints)?;
        for _ in fixed..self.trail.len() {
            let Some(i) = self.needed.last() else {
                break;
            };
            let reason = self.trail.reason(i);
            if reason != 0 {
                self.collect(reason, fixed, hints)?;
            }
            self.needed.remove(i);
        }
        self.chain.reverse();
        hints.extend_from_slice(&self.chain)?;
        Ok(())
    }

    /// Propagates from the inverses of a clause's literals, and collects hints where that ends in a
    /// conflict.
    fn refute(&mut self, clause: &[Lit], hints: &mut Vec<u32>) -> Result<(), MemoryError> {
        let fixed = self.trail.len();
        let mut conflict = self.conflict;
        if conflict.is_none() {
            if let Some(unit) = self.assume_false(clause)? {
                hints.push(unit)?;
                return Ok(());
            }
            conflict = self.propagate()?;
        }
        if let Some(place) = conflict {
            self.explain(place, fixed, hints)?;
        }
        Ok(())
    }

    /// Keeps the first `len` literals of the trail alone, all of which were propagated.
    fn undo(&mut self, len: usize) {
        self.trail.undo(len);
        self.shorts.rewind(len);
        self.recent.rewind(len);
        self.rest.rewind(len);
    }

    /// Whether unit propagation along the clauses ends in a conflict.
    pub fn is_in_conflict(&self) -> bool {
        self.conflict.is_some()
    }

    /// Looks for hints for a clause, by the numbers of clauses. What was in `hints` is lost; there
    /// are none where unit propagation ends in no conflict.
    pub fn find(&mut self, clause: &[Lit], hints: &mut Vec<u32>) -> Result<(), MemoryError> {
        hints.clear();
        let fixed = self.trail.len();
        self.searches = self.searches.saturating_add(1);
        self.refute(clause, hints)?;
        self.undo(fixed);
        if self.searches % PERIOD == 0 {
            self.end_recent()?;
        }
        Ok(())
    }

    /// The number of the clause from which the literal follows that stands here on the trail: of the
    /// first `fixed` ones the one that has it alone. It is 0 where there is none.
    fn number_of_reason(&self, i: usize, fixed: usize) -> u32 {
        if i < fixed {
            return match self.trail.get(i) {
                Some(lit) => unit_of(&self.units, lit),
                None => 0,
            };
        }
        match self.trail.reason(i) {
            0 => 0,
            reason => self.clauses.number(reason),
        }
    }

    /// Propagates from the inverses of a clause's literals, and collects all clauses along which
    /// that makes literals true, in their order, and one in conflict with them, if there is one.
    /// What was in `hints` is lost. A 0 among them stands for no clause.
    pub fn find_all(&mut self, clause: &[Lit], hints: &mut Vec<u32>) -> Result<(), MemoryError> {
        hints.clear();
        let fixed = self.trail.len();
        self.assume_false(clause)?;
        let conflict = self.propagate()?;
        for i in 0..self.trail.len() {
            hints.push(self.number_of_reason(i, fixed))?;
        }
        if let Some(place) = conflict {
            hints.push(self.clauses.number(place))?;
        }
        self.undo(fixed);
        Ok(())
    }

    /// Collects the clause that gave a literal its value, behind those that have the inverses of its
    /// other literals alone.
    fn explain_unit(&self, lit: Lit, reason: u32, hints: &mut Vec<u32>) -> Result<(), MemoryError> {
        for word in self.clauses.lits(reason) {
            let other = Lit::from(*word);
            if other != lit {
                hints.push(unit_of(&self.units, other))?;
            }
        }
        hints.push(self.clauses.number(reason))?;
        Ok(())
    }

    /// The next literal that follows from the clauses, and is not the one literal of any, with
    /// hints for the clause that has it alone. `name_unit` is to give that clause a number.
    ///
    /// Literals are answered in the order of the trail, so those from which this one follows have
    /// clauses of their own.
    pub fn next_unit(&mut self, hints: &mut Vec<u32>) -> Result<Option<Lit>, MemoryError> {
        hints.clear();
        let fixed = self.trail.len();
        for i in self.named..fixed {
            self.named = i;
            if let Some(lit) = self.trail.get(i) {
                if unit_of(&self.units, lit) == 0 {
                    self.explain_unit(lit, self.trail.reason(i), hints)?;
                    return Ok(Some(lit));
                }
            }
        }
        self.named = fixed;
        Ok(None)
    }

    /// Says which clause has the literal alone that `next_unit` answered last.
    pub fn name_unit(&mut self, number: u32) {
        if let Some(lit) = self.trail.get(self.named) {
            self.set_unit(lit, number);
        }
    }

    /// Removes a clause of these literals, if there is one, and returns its number. A clause of one
    /// literal stays, and so do all once they are in conflict.
    pub fn remove(&mut self, clause: &[Lit]) -> Result<Option<u32>, MemoryError> {
        self.fit(clause)?;
        self.marked.set(clause)?;
        if self.marked.lits().len() < 2 || self.conflict.is_some() {
            return Ok(None);
        }
        let Some(place) = self.index.take(&mut self.clauses, &self.marked) else {
            return Ok(None);
        };
        let number = self.clauses.number(place);
        self.take_out(place);
        let tables = self.shorts.size().saturating_add(self.index.size());
        if self.clauses.is_sparse(tables) {
            self.compact()?;
        }
        Ok(Some(number))
    }

    /// Removes a clause, and ends its watches.
    fn take_out(&mut self, place: u32) {
        if self.clauses.len(place) <= MOST_OF_SHORT {
            self.shorts.remove(&mut self.clauses, place);
            return self.clauses.remove(place);
        }
        let used = self.clauses.used(place);
        self.clauses.remove(place);
        if used == 0 {
            self.rest.end(&mut self.clauses, place);
        } else {
            self.recent.end(&mut self.clauses, place);
        }
    }

    /// Moves the clauses together, at a cost of their memory and the tables'. All literals on the
    /// trail have clauses of their own, and so need no others as reasons.
    fn compact(&mut self) -> Result<(), MemoryError> {
        self.clauses.compact();
        self.index.fill(&mut self.clauses);
        self.shorts.clear();
        self.recent.clear();
        self.rest.clear();
        self.recent_places.clear();
        let mut next = self.clauses.first();
        for _ in 0..self.clauses.size() {
            let Some(place) = next else {
                break;
            };
            if self.clauses.len(place) >= 2 {
                self.watch(place)?;
            }
            next = self.clauses.following(place);
        }
        Ok(())
    }
}
