//! The tables of a pass that numbers nodes.

ghost use Rattle.std.specs.Prelude.{◌≡◌, ◌+◌, ◌*◌, ◌<◌, ◌≤◌, ◌^◌, ◌++◌, ◌∷◌, [], IfOk, OnOk, length, slice_index};
ghost use Rattle.std.specs.HashMap.{IsEmpty};
ghost use Rattle.aig_strash.specs.Tables.{PutsIfAbsent, are_same, gate_table, literal_limit, number_table};

use crate::narrow::NarrowLiterals;
use crate::seeded::Seeded;
use aig_base::MemoryError;
use aig_circuit::AigNode;
use std::alloc::Global;
use std::collections::HashMap;
use std::hash::Hash;

/// The most nodes whose literals fit 32 bits.
const MOST_NARROW: usize = 1 << 31;

/// The new number of each node so far, and that of each kept gate by the literals of its operands under the new
/// numbers. All of them take 32 bits each where every literal fits these.
#[derive(Drop)]
pub(crate) enum Tables {
    Narrow {
        numbers: Vec<u32>,
        gates: HashMap<NarrowLiterals, u32, Seeded>,
    },
    Wide {
        numbers: Vec<usize>,
        gates: HashMap<(usize, usize), usize, Seeded>,
    },
}

impl Tables {
    /// Returns the tables of no node so far, with room for these, so that none grows.
    pub(crate) fn with_room(alloc: Global, nodes: &[AigNode]) -> Result<Tables, MemoryError>
        ensures numbers { IfOk result (λ new. number_table new ≡ []) }
        ensures gates { IfOk result (λ new. IsEmpty (gate_table new)) }
        ensures limit { IfOk result (λ new. 2 * length nodes.now ≤ literal_limit new) }
    {
        let count = nodes.len();
        let (seeded, gates) = Seeded::of(nodes);
        if count <= MOST_NARROW {
            Ok(Tables::Narrow {
                numbers: Vec::with_capacity(alloc, count)?,
                gates: HashMap::with_capacity_and_hasher(alloc, gates, seeded)?,
            })
        } else {
            Ok(Tables::Wide {
                numbers: Vec::with_capacity(alloc, count)?,
                gates: HashMap::with_capacity_and_hasher(alloc, gates, seeded)?,
            })
        }
    }

    /// Returns the new number of node `n`.
    pub(crate) fn number(&self, n: usize) -> usize
        requires { n < length (number_table self.now) }
        ensures value { result ≡ slice_index (number_table self.now) n }
        ensures limit { literal_limit self.now ≤ 2 ^ 64 }
    {
        match self {
            Tables::Narrow { numbers, gates: _ } => numbers[n] as usize,
            Tables::Wide { numbers, gates: _ } => numbers[n],
        }
    }

    /// Appends the number of the next node.
    pub(crate) fn push(&mut self, number: usize) -> Result<(), MemoryError>
        requires { number < literal_limit self.old }
        ensures numbers { OnOk result
            (number_table self.new ≡ number_table self.old ++ number ∷ []) }
        ensures gates { gate_table self.new ≡ gate_table self.old }
        ensures limit { literal_limit self.new ≡ literal_limit self.old }
    {
        match self {
            Tables::Narrow { numbers, gates: _ } => numbers.push(number as u32)?,
            Tables::Wide { numbers, gates: _ } => numbers.push(number)?,
        }
        Ok(())
    }

    /// Returns the number of the gate with operands of these literals, which is `next` from now on where there was
    /// none.
    pub(crate) fn number_at(
        &mut self,
        literals: (usize, usize),
        next: usize,
    ) -> Result<usize, MemoryError>
        requires first { literals.0 < literal_limit self.old }
        requires second { literals.1 < literal_limit self.old }
        requires next { next < literal_limit self.old }
        ensures gates { IfOk result
            (PutsIfAbsent are_same (gate_table self.old) (gate_table self.new) literals next) }
        ensures numbers { number_table self.new ≡ number_table self.old }
        ensures limit { literal_limit self.new ≡ literal_limit self.old }
    {
        match self {
            Tables::Narrow { numbers: _, gates } => {
                let literals = NarrowLiterals::new(literals.0 as u32, literals.1 as u32);
                let number = value_at(gates, literals, next as u32)?;
                Ok(number as usize)
            }
            Tables::Wide { numbers: _, gates } => value_at(gates, literals, next),
        }
    }

    /// Returns the new numbers of all nodes. The gates are dropped first.
    pub(crate) fn into_numbers(self, alloc: Global) -> Result<Vec<usize>, MemoryError>
        ensures { IfOk result (λ numbers. numbers.items ≡ number_table self) }
    {
        match self {
            Tables::Narrow { numbers, gates } => {
                drop(gates);
                widened(alloc, &numbers)
            }
            Tables::Wide { numbers, gates: _ } => Ok(numbers),
        }
    }
}

/// Returns the value at the key, which is `next` from now on where there was none.
fn value_at<K: Copy + Drop + Eq + Hash, V: Copy + Drop>(
    map: &mut HashMap<K, V, Seeded>,
    key: K,
    next: V,
) -> Result<V, MemoryError>
    ensures { IfOk result (PutsIfAbsent K.eq map.old map.new key next) }
{
    Ok(*map.entry(key)?.or_insert(next))
}

/// Returns the numbers in 64 bits each.
fn widened(alloc: Global, numbers: &[u32]) -> Result<Vec<usize>, MemoryError>
    ensures { IfOk result (λ wide. wide.items ≡ numbers.now) }
{
    let mut wide = Vec::with_capacity(alloc, numbers.len())?;
    for number in numbers {
        wide.push_reserved(*number as usize);
    }
    Ok(wide)
}
