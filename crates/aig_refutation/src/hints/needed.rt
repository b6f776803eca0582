//! Which true literals need a reason.

use aig_base::MemoryError;
use std::alloc::Global;

/// How many literals one word has.
const BITS: usize = 64;

/// A set of true literals, by where they stand in their order. The last one is the first to be
/// found.
pub(crate) struct Needed {
    /// A bit for each literal.
    words: Vec<u64>,
    /// The first of the words that may have a bit.
    start: usize,
    /// How many of the words may have one, with those before it.
    end: usize,
}

impl Drop for Needed {
    fn drop(self) {
        let Needed {
            words: _,
            start: _,
            end: _,
        } = self;
    }
}

impl Needed {
    /// No literals, of so many.
    pub(crate) fn new(alloc: Global, count: usize) -> Result<Needed, MemoryError> {
        let words = vec![in alloc; 0; count / BITS + 1]?;
        Ok(Needed {
            words,
            start: 0,
            end: 0,
        })
    }

    /// Makes room for further literals, so that there are so many.
    pub(crate) fn grow(&mut self, count: usize) -> Result<(), MemoryError> {
        self.words.resize(count / BITS + 1, 0)?;
        Ok(())
    }

    /// Says that literals will be added to an empty set that stand from `first` on, of `count` true
    /// ones.
    pub(crate) fn start(&mut self, first: usize, count: usize) {
        self.start = first / BITS;
        self.end = count / BITS + 1;
    }

    /// Adds the literal that stands here.
    pub(crate) fn add(&mut self, i: usize) {
        if i / BITS < self.words.len() {
            self.words[i / BITS] |= 1 << (i % BITS);
        }
    }

    /// Removes the literal that stands here.
    pub(crate) fn remove(&mut self, i: usize) {
        if i / BITS < self.words.len() {
            self.words[i / BITS] &= !(1 << (i % BITS));
        }
    }

    /// Where the last literal stands, if there is one.
    pub(crate) fn last(&mut self) -> Option<usize> {
        for i in (self.start..self.end.min(self.words.len())).rev() {
            if let Some(bit) = self.words[i].checked_ilog2() {
                self.end = i + 1;
                return Some(i.saturating_mul(BITS).saturating_add(bit as usize));
            }
        }
        None
    }
}
