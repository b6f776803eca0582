//! Clauses by their literals.

use crate::hints::clauses::Clauses;
use crate::hints::marked::Marked;
use aig_base::{Lit, MemoryError};
use std::alloc::Global;

/// How many clauses of one place in the table are looked at, to find one.
const MOST_LOOKS: usize = 64;

/// Finds clauses by their literals, in whatever order these are: for each hash the last clause that
/// has it, or 0.
#[derive(Drop)]
pub(crate) struct Index {
    last: Vec<u32>,
}

/// A number of 64 bits that is spread over all of them.
fn spread(number: u32) -> u64 {
    let x = (number as u64 + 1).wrapping_mul(0x9E37_79B9_7F4A_7C15);
    (x ^ (x >> 32)).wrapping_mul(0xD6E8_FEB8_6659_FD93)
}

/// The hash of literals, in whatever order they are.
fn hash_of(lits: &[Lit]) -> u64 {
    let mut hash = 0u64;
    for lit in lits {
        hash = hash.wrapping_add(spread(u32::from(*lit)));
    }
    hash ^ (hash >> 32)
}

/// The hash of a clause's literals.
fn hash_at(clauses: &Clauses, place: u32) -> u64 {
    let mut hash = 0u64;
    for i in 0..clauses.len(place) {
        hash = hash.wrapping_add(spread(u32::from(clauses.lit(place, i))));
    }
    hash ^ (hash >> 32)
}

/// Whether a clause has these literals and no others.
fn is_same(clauses: &Clauses, place: u32, lits: &Marked) -> bool {
    if clauses.len(place) as usize != lits.lits().len() {
        return false;
    }
    for i in 0..clauses.len(place) {
        if !lits.has(clauses.lit(place, i)) {
            return false;
        }
    }
    true
}

impl Index {
    /// No clauses.
    pub(crate) fn new(alloc: Global) -> Index {
        Index {
            last: Vec::new(alloc),
        }
    }

    /// How many hashes the table tells apart.
    pub(crate) fn size(&self) -> usize {
        self.last.len()
    }

    /// The place of a hash in the table.
    fn slot(&self, hash: u64) -> usize {
        if self.last.len() == 0 {
            return 0;
        }
        (hash % self.last.len() as u64) as usize
    }

    /// Adds a clause of this hash. There is room for it.
    fn link(&mut self, clauses: &mut Clauses, place: u32, hash: u64) {
        let slot = self.slot(hash);
        if slot < self.last.len() {
            clauses.set_next(place, self.last[slot]);
            self.last[slot] = place;
        }
    }

    /// Adds a clause.
    pub(crate) fn add(&mut self, clauses: &mut Clauses, place: u32) -> Result<(), MemoryError> {
        if clauses.count() > self.last.len() {
            let more = clauses.count().saturating_mul(2).saturating_add(1024);
            self.last.resize(more, 0)?;
            self.fill(clauses);
            return Ok(());
        }
        let hash = hash_at(clauses, place);
        self.link(clauses, place, hash);
        Ok(())
    }

    /// Finds all clauses that are there, and no others.
    pub(crate) fn fill(&mut self, clauses: &mut Clauses) {
        self.last.fill(0);
        let mut next = clauses.first();
        for _ in 0..clauses.size() {
            let Some(place) = next else {
                break;
            };
            if clauses.number(place) != 0 {
                let hash = hash_at(clauses, place);
                self.link(clauses, place, hash);
            }
            next = clauses.following(place);
        }
    }

    /// Finds a clause of these literals, and finds it no more. Of those with its place in the table
    /// the last `MOST_LOOKS` are looked at, since whoever writes a proof can choose clauses of one
    /// place: a clause behind these isn't found, and stays. Of equal ones the last is found first.
    pub(crate) fn take(&mut self, clauses: &mut Clauses, lits: &Marked) -> Option<u32> {
        let slot = self.slot(hash_of(lits.lits()));
        let mut place = *self.last.get(slot)?;
        let mut before = 0;
        for _ in 0..MOST_LOOKS {
            if place == 0 {
                break;
            }
            let next = clauses.next(place);
            if is_same(clauses, place, lits) {
                if before != 0 {
                    clauses.set_next(before, next);
                } else if slot < self.last.len() {
                    self.last[slot] = next;
                }
                return Some(place);
            }
            before = place;
            place = next;
        }
        None
    }
}
