//! The numbers that the variables of a file get as nodes.

ghost use Rattle.std.specs.Prelude.{◌≡◌, IsTrue};
ghost use Rattle.std.specs.List.{list_all};
ghost use Rattle.aig_ordering.specs.Numbers.{has_number, number_in, numbered_edge};

use crate::order::entry_value;
use aig_circuit::{AigEdge, AigLatch};
use aig_renumber::Numbering;

/// The numbers that a table records: at the place of a variable stands n + 1 for number n, and 0 where it has none.
#[derive(Clone, Copy)]
pub struct Recorded<'a> {
    /// The table.
    pub table: &'a [u32],
}

impl Numbering for Recorded<'_> {
    ghost has = { λ numbers v. IsTrue (has_number numbers.table.now v) };

    ghost number_of = { λ numbers. number_in numbers.table.now };

    fn number(&self, variable: usize) -> usize {
        self.table[variable] as usize - 1
    }
}

impl Recorded<'_> {
    /// Whether the variable has a number.
    pub fn has(&self, variable: usize) -> bool
        ensures { result ≡ has_number self.now.table.now variable }
    {
        variable < self.table.len() && self.table[variable] != 0
    }

    /// Whether the variables of these edges have numbers.
    pub fn has_edges(&self, edges: &[AigEdge]) -> bool
        ensures { result ≡ list_all (λ e. has_number self.now.table.now e.node_id) edges.now }
    {
        edges.iter().all(|e| self.has(e.node_id()))
    }

    /// Whether the variables of the edges of these sets have numbers.
    pub fn has_sets(&self, sets: &[Vec<AigEdge>]) -> bool
        ensures { result ≡ list_all
            (λ set. list_all (λ e. has_number self.now.table.now e.node_id) set.items) sets.now }
    {
        sets.iter().all(|set| self.has_edges(set))
    }

    /// Whether the variables of the next edges of these latches have numbers.
    pub fn has_nexts(&self, latchs: &[AigLatch]) -> bool
        ensures { result
            ≡ list_all (λ l. has_number self.now.table.now l.next.node_id) latchs.now }
    {
        latchs.iter().all(|l| self.has(l.next().node_id()))
    }

    /// The edge of a literal under the number of its variable, if it has one.
    pub(crate) fn edge(&self, literal: u32) -> Option<AigEdge>
        ensures { result ≡ numbered_edge self.now.table.now literal }
    {
        let entry = *self.table.get(literal as usize / 2)?;
        let number = entry_value(entry)?;
        Some(AigEdge::new(number as usize, literal % 2 == 1))
    }
}
