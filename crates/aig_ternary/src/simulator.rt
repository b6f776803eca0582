//! Simulation in three values, step by step.

ghost use Rattle.std.specs.Prelude.{◌≡◌, ◌↔◌, ◌<◌, [], All, IfOk, IsOk, IsTrue, OnErr, OnOk, length, map};
ghost use Rattle.aig_circuit.specs.Circuit.{IsInRange};
ghost use Rattle.aig_ternary.specs.Ternary.{HasValue, KnownValuesHold, simulation_of, stepped, stepped_all, value_in, values_in};

use crate::step;
use aig_base::{Lbool, MemoryError};
use aig_circuit::{AigEdge, CircuitView};
use std::marker::Model;

/// A circuit that is simulated in three values, with the state in which the next step begins and the values of the
/// last step (crate aig, `TernarySimulate`).
#[derive(Drop)]
pub struct Simulator<'a> {
    circuit: CircuitView<'a>,
    state: Vec<Lbool>,
    values: Vec<Lbool>,
}

impl<'a> Model for Simulator<'a> {
    ghost use Rattle.std.specs.Prelude.{◌≡◌, ◌⊎◌, [], length};
    ghost use Rattle.aig_ternary.specs.Ternary.{Simulation};

    ghost Value = { Simulation };

    ghost use Rattle.std.specs.Coded.{codes, coded_ℕ, coded_list};
    ghost use Rattle.std.specs.FinMap as finite_map;
    ghost use Rattle.std.specs.Ordering.{nat_cmp};

    ghost coded = { Prim.hlevel
        (codes, finite_map.code {R = nat_cmp} coded_ℕ (coded_list coded_ℕ)) };

    ghost view = { λ s.
        record { circuit = s.circuit; state = s.state.items; values = s.values.items } };

    ghost invariant = { λ s. (length s.state.items ≡ length s.circuit.latchs)
        × ((s.values.items ≡ []) ⊎ (length s.values.items ≡ length s.circuit.nodes)) };
}

impl<'a> Simulator<'a> {
    /// Returns the simulation that begins in `state`, one value a latch in their order. Takes no memory. Requires a
    /// value for each latch.
    pub fn new(circuit: CircuitView<'a>, state: Vec<Lbool>) -> Self
        requires { length state.items ≡ length circuit.latchs }
        ensures { result ≡ simulation_of circuit.entry state.items }
    {
        let values = Vec::new(circuit.allocator());
        Simulator {
            circuit,
            state,
            values,
        }
    }

    /// Values one step with these inputs, and moves the state to the next step. Requires a value for each input.
    ///
    /// # Errors
    ///
    /// Refused memory, at the first step alone; then nothing is changed.
    pub fn simulate(&mut self, inputs: &[Lbool]) -> Result<(), MemoryError>
        requires { length inputs.now ≡ length self.old.circuit.inputs }
        ensures ok { OnOk result (self.new ≡ stepped self.old inputs.now) }
        ensures err { OnErr result (self.new ≡ self.old) }
        ensures later { 0 < length self.old.values → IsOk result }
        // The circuit stays, so a further call is about the same one.
        ensures circuit { self.new.circuit ≡ self.old.circuit }
    {
        self.values.resize(self.circuit.nodes().len(), Lbool::NONE)?;
        step::step(&self.circuit, inputs, &mut self.state, &mut self.values);
        Ok(())
    }

    /// Whether a step was valued and `e` is an edge of the circuit.
    pub fn has_value(&self, e: AigEdge) -> bool
        ensures { IsTrue result ↔ HasValue self.now e }
    {
        e.node_id() < self.values.len()
    }

    /// Returns the value of `e` in the last step. Requires `has_value`.
    pub fn value(&self, e: AigEdge) -> Lbool
        requires { HasValue self.now e }
        ensures { result ≡ value_in self.now e }
    {
        step::edge_value(&self.values, e)
    }

    /// Values steps with these inputs, one after another, and returns the value of `e` in each. Of no steps it changes
    /// nothing. Requires in each list a value for each input, and an edge of the circuit.
    ///
    /// # Errors
    ///
    /// Refused memory, before anything is changed.
    pub fn simulate_all(
        &mut self,
        inputs: &[Vec<Lbool>],
        e: AigEdge,
    ) -> Result<Vec<Lbool>, MemoryError>
        requires lengths { All (λ list.
            length list.items ≡ length self.old.circuit.inputs) inputs.now }
        requires edge { IsInRange self.old.circuit.nodes e }
        ensures values { IfOk result (λ answers. answers.items
            ≡ values_in e self.old (map (λ list. list.items) inputs.now)) }
        ensures known { let steps = map (λ list. list.items) inputs.now in
            IfOk result (λ answers.
            KnownValuesHold self.old.circuit e self.old.state steps answers.items) }
        ensures ok { OnOk result (self.new
            ≡ stepped_all self.old (map (λ list. list.items) inputs.now)) }
        ensures err { OnErr result (self.new ≡ self.old) }
        ensures none { inputs.now ≡ [] → IsOk result }
        // The circuit stays, so a further call is about the same one.
        ensures circuit { self.new.circuit ≡ self.old.circuit }
    {
        let mut answers = Vec::with_capacity(self.circuit.allocator(), inputs.len())?;
        if inputs.is_empty() {
            return Ok(answers);
        }
        self.values.resize(self.circuit.nodes().len(), Lbool::NONE)?;
        step::steps(
            &self.circuit,
            inputs,
            e,
            &mut self.state,
            &mut self.values,
            &mut answers,
        );
        Ok(answers)
    }
}
