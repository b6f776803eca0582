//! Simulations in three values that have their circuit.

ghost use Rattle.std.specs.Prelude.{◌≡◌, ◌↔◌, ◌<◌, All, IfOk, IsTrue, OnErr, OnOk, length, map};
ghost use Rattle.aig_circuit.specs.Circuit.{IsInRange};
ghost use Rattle.aig_held.specs.Moments.{AreOf, simulation_then};
ghost use Rattle.aig_ternary.specs.Ternary.{HasValue, simulation_of, stepped, stepped_all, value_in, values_in};

use crate::stepping::{Stepped, edge_value, step, steps};
use aig::{Aig, AigEdge};
use aig_base::{Lbool, MemoryError};
use std::alloc::Global;
use std::marker::Model;

/// A circuit that is simulated in three values, with the state in which the next step begins and the values of the last
/// step (crate aig, `TernarySimulate`).
#[derive(Drop)]
pub struct Simulated {
    aig: Aig,
    state: Vec<Lbool>,
    values: Vec<Lbool>,
}

impl Model for Simulated {
    ghost use Rattle.aig_ternary.specs.Ternary.{Simulation};

    ghost Value = { Simulation };

    ghost use Rattle.std.specs.Coded.{codes, coded_ℕ, coded_list};
    ghost use Rattle.std.specs.FinMap as finite_map;
    ghost use Rattle.std.specs.Ordering.{nat_cmp};

    ghost coded = { Prim.hlevel
        (codes, finite_map.code {R = nat_cmp} coded_ℕ (coded_list coded_ℕ)) };

    ghost view = { λ s. record { circuit = s.aig; state = s.state.items; values = s.values.items } };

    ghost use Rattle.aig_held.specs.Moments.{AreOf};

    ghost invariant = { λ s. AreOf s.aig s.state.items s.values.items };
}

impl Simulated {
    /// The simulation that begins in `state`, which has a value for each latch.
    pub fn new(alloc: Global, aig: Aig, state: Vec<Lbool>) -> Simulated
        requires { length state.items ≡ length aig.latchs }
        ensures { result ≡ simulation_of aig state.items }
    {
        Simulated {
            aig,
            state,
            values: Vec::new(alloc),
        }
    }

    /// The circuit.
    pub fn aig(&self) -> &Aig
        ensures { result.now ≡ self.now.circuit }
    {
        &self.aig
    }

    /// The state in which the next step begins.
    pub fn state(&self) -> &[Lbool]
        ensures { result.now ≡ self.now.state }
    {
        self.state.as_slice()
    }

    /// Whether a step was valued and `e` is an edge of the circuit.
    pub fn has_value(&self, e: AigEdge) -> bool
        ensures { IsTrue result ↔ HasValue self.now e }
    {
        e.node_id() < self.values.len()
    }

    /// The value of `e` in the last step.
    pub fn value(&self, e: AigEdge) -> Lbool
        requires { HasValue self.now e }
        ensures { result ≡ value_in self.now e }
    {
        edge_value(self.values.as_slice(), e)
    }

    /// A copy.
    pub fn clone(&self) -> Result<Simulated, MemoryError>
        ensures { IfOk result (λ made. made ≡ self.now) }
    {
        Ok(Simulated {
            aig: self.aig.clone()?,
            state: self.state.clone()?,
            values: self.values.clone()?,
        })
    }

    /// Puts other lists in place of the state and the values.
    pub fn move_to(&mut self, last: Stepped)
        requires { AreOf self.old.circuit last.state.items last.values.items }
        ensures { self.new ≡ simulation_then self.old.circuit last }
    {
        self.values = last.values;
        self.state = last.state;
    }

    /// Values one step with these inputs, and moves the state.
    pub fn simulate(&mut self, alloc: Global, inputs: &[Lbool]) -> Result<(), MemoryError>
        requires { length inputs.now ≡ length self.old.circuit.inputs }
        ensures ok { OnOk result (self.new ≡ stepped self.old inputs.now) }
        ensures err { OnErr result (self.new ≡ self.old) }
    {
        let last = step(alloc, &self.aig, self.state.as_slice(), inputs)?;
        self.move_to(last);
        Ok(())
    }

    /// The value of `e` in each of the steps with these inputs, one after another, and the lists after them. The simulation stays as it
    /// is: `move_to` moves it there.
    pub fn simulate_all(
        &self,
        alloc: Global,
        rows: &[Vec<Lbool>],
        e: AigEdge,
    ) -> Result<(Vec<Lbool>, Stepped), MemoryError>
        requires inputs { All (λ row. length row.items ≡ length self.now.circuit.inputs) rows.now }
        requires edge { IsInRange self.now.circuit.nodes e }
        ensures values { IfOk result (λ made. made.0.items ≡ values_in e self.now
            (map (λ row. row.items) rows.now)) }
        ensures moved { IfOk result (λ made. simulation_then self.now.circuit made.1 ≡ stepped_all
            self.now (map (λ row. row.items) rows.now)) }
        ensures lists { IfOk result (λ made. AreOf self.now.circuit made.1.state.items
            made.1.values.items) }
    {
        let mut answers = Vec::new(alloc);
        let first = Stepped {
            values: self.values.clone()?,
            state: self.state.clone()?,
        };
        let last = steps(alloc, &self.aig, first, rows, e, &mut answers)?;
        Ok((answers, last))
    }
}
