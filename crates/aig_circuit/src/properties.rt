//! The five lists of properties.

ghost use Rattle.std.specs.Prelude.{◌≡◌, IfOk, map};
ghost use Rattle.aig_circuit.specs.Properties.{no_properties};
ghost use Rattle.aig_circuit.specs.View.{HasRoomFor, properties_of};

use aig_base::MemoryError;
use std::alloc::Global;

/// The five lists of properties, of edges or of literals (AIGER 1.9, "Properties").
pub struct Properties<E> {
    /// The outputs.
    pub outputs: Vec<E>,
    /// The bad states.
    pub bads: Vec<E>,
    /// The invariant constraints.
    pub constraints: Vec<E>,
    /// The justice properties, a set of edges each.
    pub justice: Vec<Vec<E>>,
    /// The fairness constraints.
    pub fairness: Vec<E>,
}

impl<E: Drop> Drop for Properties<E> {
    fn drop(self) {
        let Properties {
            outputs: _,
            bads: _,
            constraints: _,
            justice: _,
            fairness: _,
        } = self;
    }
}

impl<E: Copy + Drop> Properties<E> {
    /// No properties.
    pub fn new(alloc: Global) -> Self
        ensures { properties_of result ≡ no_properties }
    {
        Properties {
            outputs: Vec::new(alloc),
            bads: Vec::new(alloc),
            constraints: Vec::new(alloc),
            justice: Vec::new(alloc),
            fairness: Vec::new(alloc),
        }
    }

    /// Returns a copy of all lists. The one error is refused memory.
    pub fn copied(&self, alloc: Global) -> Result<Self, MemoryError>
        ensures { IfOk result (λ copy. properties_of copy ≡ properties_of self.now) }
    {
        Ok(Properties {
            outputs: Vec::from_slice(alloc, &self.outputs)?,
            bads: Vec::from_slice(alloc, &self.bads)?,
            constraints: Vec::from_slice(alloc, &self.constraints)?,
            justice: copied_sets(alloc, &self.justice)?,
            fairness: Vec::from_slice(alloc, &self.fairness)?,
        })
    }

    /// Makes room for the entries of the other properties, but for justice. The one error is refused memory.
    pub fn reserve(&mut self, other: &Self) -> Result<(), MemoryError>
        ensures same { properties_of self.new ≡ properties_of self.old }
        ensures room { IfOk result (λ _. HasRoomFor self.new (properties_of other.now)) }
    {
        self.outputs.reserve(other.outputs.len())?;
        self.bads.reserve(other.bads.len())?;
        self.constraints.reserve(other.constraints.len())?;
        self.fairness.reserve(other.fairness.len())?;
        Ok(())
    }
}

/// A copy of the sets.
fn copied_sets<E: Copy + Drop>(alloc: Global, old: &[Vec<E>]) -> Result<Vec<Vec<E>>, MemoryError>
    ensures { IfOk result (λ new.
        map (λ set. set.items) new.items ≡ map (λ set. set.items) old.now) }
{
    let mut new = Vec::with_capacity(alloc, old.len())?;
    for set in old {
        new.push(Vec::from_slice(alloc, set)?)?;
    }
    Ok(new)
}
