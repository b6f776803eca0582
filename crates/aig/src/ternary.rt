//! Simulation in three values.

ghost use Rattle.std.specs.Prelude.{◌≡◌, ◌↔◌, [], All, IfOk, IsOk, IsTrue, OnErr, OnOk, length, map};
ghost use Rattle.aig_circuit.specs.Circuit.{IsInRange};
ghost use Rattle.aig_ternary.specs.Ternary.{HasValue, KnownValuesHold, given_values, simulation_of, stepped, stepped_all, three_values, value_in, values_in};

use crate::graph::Aig;
use aig_base::{Lbool, MemoryError};
use aig_circuit::AigEdge;
use aig_ternary::Simulator;
use std::marker::Model;

impl Aig {
    /// Returns the three-valued value of each node, by number, where inputs and latches have these values, in their
    /// order.
    ///
    /// Free leaves are unknown, and so is an unknown edge joined with its inverse.
    ///
    /// # Requirements
    ///
    /// - There are as many values in `inputs` as inputs (`inputs`).
    /// - There are as many values in `latchs` as latches (`latchs`).
    ///
    /// # Errors
    ///
    /// - `Memory`: memory was refused.
    pub fn ternary_simulate(
        &self,
        inputs: &[Lbool],
        latchs: &[Lbool],
    ) -> Result<Vec<Lbool>, MemoryError>
        requires inputs { length inputs.now ≡ length self.now.inputs }
        requires latchs { length latchs.now ≡ length self.now.latchs }
        ensures { IfOk result (λ values. values.items
            ≡ three_values self.now (given_values self.now inputs.now latchs.now)) }
    {
        aig_ternary::ternary_simulate(&self.view(), inputs, latchs)
    }
}

/// A circuit that is simulated in three values, step by step.
///
/// It has the state in which the next step begins, one value for each latch, and the values of all nodes in the last
/// step.
#[derive(Drop)]
pub struct TernarySimulate<'a> {
    simulator: Simulator<'a>,
}

impl<'a> Model for TernarySimulate<'a> {
    ghost use Rattle.aig_ternary.specs.Ternary.{Simulation};

    ghost Value = { Simulation };

    ghost use Rattle.std.specs.Coded.{codes, coded_ℕ, coded_list};
    ghost use Rattle.std.specs.FinMap as finite_map;
    ghost use Rattle.std.specs.Ordering.{nat_cmp};

    ghost coded = { Prim.hlevel
        (codes, finite_map.code {R = nat_cmp} coded_ℕ (coded_list coded_ℕ)) };

    ghost view = { λ s. s.simulator };
}

impl<'a> TernarySimulate<'a> {
    /// Returns the simulation of a circuit that begins in `state`, which has one value for each latch, in their order.
    ///
    /// It takes no memory.
    ///
    /// # Requirements
    ///
    /// - There are as many values in `state` as latches (`latchs`).
    pub fn new(aig: &'a Aig, state: Vec<Lbool>) -> Self
        requires { length state.items ≡ length aig.now.latchs }
        ensures { result ≡ simulation_of aig.now state.items }
    {
        TernarySimulate {
            simulator: Simulator::new(aig.view(), state),
        }
    }

    /// Values one step with these inputs, in their order, and moves the state.
    ///
    /// # Requirements
    ///
    /// - There are as many values in `inputs` as the circuit has inputs (`inputs`).
    ///
    /// # Errors
    ///
    /// - `Memory`: memory was refused. State and values stay as they were.
    pub fn simulate(&mut self, inputs: Vec<Lbool>) -> Result<(), MemoryError>
        requires { length inputs.items ≡ length self.old.circuit.inputs }
        ensures ok { OnOk result (self.new ≡ stepped self.old inputs.items) }
        ensures err { OnErr result (self.new ≡ self.old) }
        // The circuit stays, so a further call is about the same one.
        ensures circuit { self.new.circuit ≡ self.old.circuit }
    {
        self.simulator.simulate(&inputs)
    }

    /// Returns whether a step was valued and `e` is of the circuit.
    pub fn has_value(&self, e: AigEdge) -> bool
        ensures { IsTrue result ↔ HasValue self.now e }
    {
        self.simulator.has_value(e)
    }

    /// Returns the value of `e` in the last step.
    ///
    /// # Requirements
    ///
    /// - A step was valued, and `e` is of the circuit (`has_value`).
    pub fn value(&self, e: AigEdge) -> Lbool
        requires { HasValue self.now e }
        ensures { result ≡ value_in self.now e }
    {
        self.simulator.value(e)
    }

    /// Values steps with these inputs, one after another, and returns the value of `e` in each step.
    ///
    /// A value that is known is the edge's value at that step on every run that has the given values wherever these are
    /// known. Of no steps it changes nothing and takes no memory.
    ///
    /// # Requirements
    ///
    /// - Each list of `inputs` has as many values as the circuit has inputs (`inputs`).
    /// - `e` is of the circuit (`has_edge`).
    ///
    /// # Errors
    ///
    /// - `Memory`: memory was refused. State and values stay as they were. Never of no steps.
    ///
    /// # Examples
    ///
    /// A latch that toggles, from false; `read` reads a file by `Aig::from_aiger`:
    ///
    /// ```
    /// let state = vec![in alloc; Lbool::FALSE]?;
    /// let steps = vec![in alloc; Vec::new(alloc), Vec::new(alloc)]?;
    /// let toggle = read(alloc, b"aag 1 0 1 1 0\n2 3\n2\n")?;
    /// let latch = AigEdge::from(1);
    /// assert!(rt; toggle.latchs().len() == 1 && toggle.inputs().len() == 0 && toggle.has_edge(latch));
    /// let values = TernarySimulate::new(&toggle, state).simulate_all(steps, latch)?;
    /// assert!(rt; values.as_slice() == [Lbool::FALSE, Lbool::TRUE].as_slice());
    /// ```
    pub fn simulate_all(
        &mut self,
        inputs: Vec<Vec<Lbool>>,
        e: AigEdge,
    ) -> Result<Vec<Lbool>, MemoryError>
        requires lengths { All (λ list. length list.items ≡ length self.old.circuit.inputs)
            inputs.items }
        requires edge { IsInRange self.old.circuit.nodes e }
        // The three-valued value of the edge at each step.
        ensures values { IfOk result (λ answers.
            answers.items ≡ values_in e self.old (map (λ list. list.items) inputs.items)) }
        // A known value is the edge's value at that step on every filling.
        ensures known { let steps = map (λ list. list.items) inputs.items in
            IfOk result (λ answers.
            KnownValuesHold self.old.circuit e self.old.state steps answers.items) }
        // It leaves the values of the last step, and the state after it.
        ensures ok { OnOk result
            (self.new ≡ stepped_all self.old (map (λ list. list.items) inputs.items)) }
        ensures err { OnErr result (self.new ≡ self.old) }
        // The circuit stays, so a further call is about the same one.
        ensures circuit { self.new.circuit ≡ self.old.circuit }
        ensures none { inputs.items ≡ [] → IsOk result }
    {
        self.simulator.simulate_all(&inputs, e)
    }
}
