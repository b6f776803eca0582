//! Which literals are true, and why.

use aig_base::{Lit, MemoryError};
use std::alloc::Global;

/// The weight of a false literal.
const FALSE: u8 = 0;

/// The weight of a literal that has no value.
const OPEN: u8 = 1;

/// The weight of a true literal.
const TRUE: u8 = 2;

/// Gives a literal and its inverse these weights, if they are there.
fn put(weights: &mut [u8], lit: Lit, weight: u8, of_inverse: u8) {
    let i = u32::from(lit) as usize;
    let inverse = i ^ 1;
    if i.max(inverse) < weights.len() {
        weights[i] = weight;
        weights[inverse] = of_inverse;
    }
}

/// A true literal, and the place of the clause that gave its value, or 0.
#[derive(Clone, Copy)]
struct Given {
    lit: Lit,
    reason: u32,
}

/// Room for a true literal.
fn no_literal() -> Given {
    Given {
        lit: Lit::from(0),
        reason: 0,
    }
}

/// What a clause says by two of its literals, where its others are false.
#[derive(Clone, Copy)]
pub(crate) enum Pair {
    /// Nothing: one is true, or both have no value.
    Open,
    /// This one is true, since the other is false.
    Last(Lit),
    /// Both are false.
    False,
}

/// Truth values of literals, in the order in which they came.
pub(crate) struct Trail {
    /// How far each literal is from being false, by its number.
    weights: Vec<u8>,
    /// For each variable where its literal stands in the order, if it has a value.
    orders: Vec<u32>,
    /// The true literals, and room for the others.
    given: Vec<Given>,
    /// How many literals are true.
    len: usize,
}

impl Drop for Trail {
    fn drop(self) {
        let Trail {
            weights: _,
            orders: _,
            given: _,
            len: _,
        } = self;
    }
}

impl Trail {
    /// No values, of so many variables.
    pub(crate) fn new(alloc: Global, variables: usize) -> Result<Trail, MemoryError> {
        Ok(Trail {
            weights: vec![in alloc; OPEN; variables.saturating_mul(2)]?,
            orders: vec![in alloc; 0; variables]?,
            given: vec![in alloc; no_literal(); variables]?,
            len: 0,
        })
    }

    /// Makes room for further variables, so that there are so many.
    pub(crate) fn grow(&mut self, variables: usize) -> Result<(), MemoryError> {
        self.weights.resize(variables.saturating_mul(2), OPEN)?;
        self.orders.resize(variables, 0)?;
        self.given.resize(variables, no_literal())?;
        Ok(())
    }

    /// How many literals are true.
    pub(crate) fn len(&self) -> usize {
        self.len
    }

    /// The true literal that stands here in the order, if there are so many.
    pub(crate) fn get(&self, i: usize) -> Option<Lit> {
        if i < self.len && i < self.given.len() {
            Some(self.given[i].lit)
        } else {
            None
        }
    }

    /// How far a literal is from being false.
    fn weight(&self, lit: Lit) -> u8 {
        let i = u32::from(lit) as usize;
        if i < self.weights.len() {
            self.weights[i]
        } else {
            OPEN
        }
    }

    /// Whether a literal is true.
    pub(crate) fn is_true(&self, lit: Lit) -> bool {
        self.weight(lit) == TRUE
    }

    /// Whether a literal is false.
    pub(crate) fn is_false(&self, lit: Lit) -> bool {
        self.weight(lit) == FALSE
    }

    /// What a clause says by these two of its literals, if they are there, where its others are false.
    #[inline(always)]
    pub(crate) fn pair(&self, lits: [Lit; 2]) -> Pair {
        let first = u32::from(lits[0]) as usize;
        let second = u32::from(lits[1]) as usize;
        if first.max(second) >= self.weights.len() {
            return Pair::Open;
        }
        let weight = self.weights[first];
        let both = weight as u32 + self.weights[second] as u32;
        if both > OPEN as u32 {
            return Pair::Open;
        }
        if both == FALSE as u32 {
            return Pair::False;
        }
        Pair::Last(if weight == FALSE { lits[1] } else { lits[0] })
    }

    /// The place of the clause that gave its value to the literal that stands here in the order, or
    /// 0.
    pub(crate) fn reason(&self, i: usize) -> u32 {
        if i < self.given.len() {
            self.given[i].reason
        } else {
            0
        }
    }

    /// Where a literal that has a value, or its inverse, stands in the order.
    pub(crate) fn order(&self, lit: Lit) -> usize {
        let i = usize::from(lit.var());
        if i < self.orders.len() {
            self.orders[i] as usize
        } else {
            0
        }
    }

    /// Makes a literal true that has no value, for the reason of the clause of this place, or of
    /// none where that is 0.
    pub(crate) fn assign(&mut self, lit: Lit, reason: u32) {
        let i = self.len;
        let variable = usize::from(lit.var());
        if i < self.given.len() && variable < self.orders.len() {
            self.given[i] = Given { lit, reason };
            self.orders[variable] = u32::try_from(i).unwrap_or(0);
            self.len = i + 1;
        }
        put(&mut self.weights, lit, TRUE, FALSE);
    }

    /// Keeps the first `len` literals alone.
    pub(crate) fn undo(&mut self, len: usize) {
        let end = self.len.min(self.given.len());
        for given in &self.given[len.min(end)..end] {
            put(&mut self.weights, given.lit, OPEN, OPEN);
        }
        self.len = self.len.min(len);
    }
}
