//! The levels of variables.

ghost use Rattle.std.specs.Prelude.{◌≡◌, ℕ, ◌+◌, ◌^◌, ◌<◌, ◌≤◌, false, length, slice_index_or, true, vec_capacity, vec_len, IfErr, IfOk, MatchOption, MatchResult, OnOk};
ghost use Rattle.aig_circuit.specs.Node.{IfAnd};
ghost use Rattle.aig_format.specs.File.{File};
ghost use Rattle.aig_lexer.specs.Faults.{Tells, Tested};
ghost use Rattle.aig_ordering.specs.Gates.{kind_of_operands, nodes_in};
ghost use Rattle.aig_ordering.specs.Search.{IsAt, IsAtRest, IsAtSome, IsLevelBy, IsTask, Opens, StaysOpen, work_of};
ghost use Rattle.aig_ordering.specs.Tables.{AreLevelsOf, AreNodesOf, all_have_levels, order_cause};

use crate::gates::{GateEntry, Operands};
use crate::order::entry_value;
use aig_lexer::{LineError, append};
use std::alloc::{AllocError, Global};

/// A search for levels: each variable is opened once, and gets its level when those of its operands are known.
#[derive(Drop)]
pub struct Search {
    /// The table of the levels that are known: n + 1 for level n, and 0 for none.
    pub levels: Vec<u32>,
    /// Which variables were opened.
    pub opened: Vec<bool>,
    /// The variables that wait for the levels of operands, each for that of the next one.
    pub path: Vec<usize>,
}

/// What is to be done for a variable.
pub enum Task {
    /// The level of this operand is to be found first.
    Operand(usize),
    /// This is its level.
    Level(u32),
}

/// What is to be done for a variable with this gate, or none, by the levels that are known.
fn task_of(levels: &[u32], variable: usize, gate: GateEntry) -> Task
    requires operands { IfAnd (kind_of_operands variable gate) (λ n. n < length levels.now) }
    requires small { (level : ℕ) → IsLevelBy levels.now (kind_of_operands variable gate) level
        → level < 2 ^ 32 }
    ensures { IsTask levels.now (kind_of_operands variable gate) result }
{
    let Some(Operands { rhs0, rhs1 }) = gate.operands() else {
        return Task::Level(0);
    };
    let (first, second) = (rhs0 as usize / 2, rhs1 as usize / 2);
    match (entry_value(levels[first]), entry_value(levels[second])) {
        (None, _) => Task::Operand(first),
        (_, None) => Task::Operand(second),
        (Some(a), Some(b)) => Task::Level(a.max(b) + 1),
    }
}

impl Search {
    /// A search in which no level is known.
    fn new(alloc: Global, count: usize) -> Result<Self, AllocError>
        ensures rest { IfOk result
            (λ search. (f : File) → count ≡ f.greatest + 1 → IsAtRest f search) }
        // The path takes memory as it grows.
        ensures path { IfOk result (λ search. vec_capacity search.path ≡ 0) }
    {
        Ok(Search {
            levels: vec![in alloc; 0; count]?,
            opened: vec![in alloc; false; count]?,
            path: Vec::new(alloc),
        })
    }

    /// Opens an operand of a variable, which waits for it. A variable that is open already is refused.
    fn open(&mut self, variable: usize, operand: usize) -> Result<usize, LineError>
        requires { operand < vec_len self.old.opened }
        ensures ok { IfOk result (λ at. (at ≡ operand) × Opens self.old self.new variable operand) }
        ensures err { IfErr result
            (λ e. Tells (order_cause e)
            (slice_index_or self.old.opened.items operand false ≡ true) false) }
    {
        if self.opened[operand] {
            return Err(LineError::Literal);
        }
        append(&mut self.path, variable)?;
        self.opened[operand] = true;
        Ok(operand)
    }

    /// Goes one step on from a variable: to an operand, or, once its level is known, to the variable that waits for it.
    fn step(&mut self, gates: &[GateEntry], variable: usize) -> Result<Option<usize>, LineError>
        requires nodes { (f : File) × AreNodesOf f (nodes_in gates.now) }
        requires few { length gates.now ≤ 2 ^ 31 }
        requires within { variable < length gates.now }
        requires at { (f : File) → AreNodesOf f (nodes_in gates.now) → IsAt f self.old variable }
        ensures at { (f : File) → AreNodesOf f (nodes_in gates.now) → MatchResult result
            (IsAtSome f self.new)
            (λ e. Tells (order_cause e) (all_have_levels f ≡ false) false) }
        ensures stays { OnOk result (StaysOpen self.old self.new) }
        ensures fewer { IfOk result (λ at. MatchOption at
            (work_of self.new ≤ work_of self.old)
            (λ _. work_of self.new < work_of self.old)) }
    {
        match task_of(&self.levels, variable, gates[variable]) {
            Task::Operand(operand) => Ok(Some(self.open(variable, operand)?)),
            Task::Level(level) => {
                self.levels[variable] = level + 1;
                Ok(self.path.pop())
            }
        }
    }

    /// Finds the level of a variable, with those of all that it stands on.
    fn find(&mut self, gates: &[GateEntry], start: usize) -> Result<(), LineError>
        requires nodes { (f : File) × AreNodesOf f (nodes_in gates.now) }
        requires few { length gates.now ≤ 2 ^ 31 }
        requires start { start < length gates.now }
        requires rest { (f : File) → AreNodesOf f (nodes_in gates.now) → IsAtRest f self.old }
        ensures rest { (f : File) → AreNodesOf f (nodes_in gates.now) → MatchResult result
            (λ _. IsAtRest f self.new)
            (λ e. Tells (order_cause e) (all_have_levels f ≡ false) false) }
        ensures stays { OnOk result (StaysOpen self.old self.new) }
        ensures started { OnOk result (slice_index_or self.new.opened.items start false ≡ true) }
    {
        if self.opened[start] {
            return Ok(());
        }
        self.opened[start] = true;
        let mut current = Some(start);
        while let Some(variable) = current {
            current = self.step(gates, variable)?;
        }
        Ok(())
    }
}

/// The table of the levels of the variables: n + 1 for level n. `gates` has the gate of each, or none, with literals of variables.
pub fn find_levels(alloc: Global, gates: &[GateEntry]) -> Result<Vec<u32>, LineError>
    requires nodes { (f : File) × AreNodesOf f (nodes_in gates.now) }
    requires few { length gates.now ≤ 2 ^ 31 }
    ensures { (f : File) → AreNodesOf f (nodes_in gates.now)
        → Tested order_cause (all_have_levels f) (λ levels. AreLevelsOf f levels.items) result }
{
    let mut search = Search::new(alloc, gates.len())?;
    for variable in 0..gates.len() {
        search.find(gates, variable)?;
    }
    let Search {
        levels,
        opened: _,
        path: _,
    } = search;
    Ok(levels)
}
