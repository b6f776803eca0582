//! Windows of steps that keep a machine safe.

ghost use Rattle.std.specs.Prelude.{◌≡◌, ◌≢◌, ◌+◌, ◌*◌, ◌≤◌, ◌<◌, ◌^◌, ◌↔◌, ◌++◌, [], IfOk, IsTrue, OnOk, false, length, map, replicate, ℕ};
ghost use Rattle.aig_answers.specs.Answers.{IsUnrolledWindow, window_size};
ghost use Rattle.aig_answers.specs.Windows.{IsSteppedWindow};
ghost use Rattle.aig_base.specs.Clauses.{AreRelations};
ghost use Rattle.aig_runs.specs.WindowClauses.{AsksWindow, count_free, states_clauses, watched, window_clauses};
ghost use Rattle.aig_circuit.specs.Circuit.{Circuit, IsCircuit, latch_leaves};
ghost use Rattle.aig_circuit.specs.Edge.{edge_to};
ghost use Rattle.aig_circuit.specs.View.{lists_circuit};
ghost use Rattle.aig_unroll.specs.Unroll.{UnrollsTo};

use crate::clauses::induction_between;
use crate::distinct::{pairs_of, push_distinct};
use aig_base::{DagCnf, LitVvec, MemoryError};
use aig_circuit::{AigEdge, AigLatch, CircuitLists, CircuitView};
use aig_cnf::{NeededGates, clauses_are_one, clauses_fix_roots, encode, find_needed};
use aig_runs::Window;
use aig_unroll::{is_size_within, unroll_to};
use std::alloc::Global;

/// The clauses that ask for a window of steps with a bad state first at its end, or for a bad state at a step.
#[derive(Drop)]
pub struct WindowClauses {
    /// The clauses of the unrolled circuit, and then free variables.
    pub clauses: DagCnf,
    /// The window clauses, or those of the query.
    pub extra: LitVvec,
}

/// A circuit with the further steps of a window, and what the clauses that ask for the window are written from beside it.
#[derive(Drop)]
pub struct UnrolledWindow {
    /// The circuit with its further steps.
    pub unrolled: CircuitLists,
    /// How many free variables come behind those of its nodes.
    pub free: usize,
    /// Which of its gates need clauses, and how many clauses these have.
    pub needed: NeededGates,
    /// The window clauses.
    pub extra: LitVvec,
}

/// A circuit with the further steps of a window, and the window clauses.
#[derive(Drop)]
struct SteppedWindow {
    /// The circuit with its further steps.
    unrolled: CircuitLists,
    /// How many free variables come behind those of its nodes.
    free: usize,
    /// The window clauses.
    extra: LitVvec,
}

/// The edges of the leaves of latches.
fn leaf_edges(alloc: Global, latchs: &[AigLatch]) -> Result<Vec<AigEdge>, MemoryError>
    ensures { IfOk result
        (λ edges. edges.items ≡ map (λ n. edge_to n false) (latch_leaves latchs.now)) }
{
    let mut edges = Vec::with_capacity(alloc, latchs.len())?;
    for latch in latchs {
        edges.push_reserved(AigEdge::from(latch.input()));
    }
    Ok(edges)
}

/// The circuit whose outputs are the leaves of latches, where states are to be told apart.
fn watch(
    alloc: Global,
    mut circuit: CircuitLists,
    form: Window,
) -> Result<CircuitLists, MemoryError>
    ensures { IfOk result (λ made. lists_circuit made ≡ watched form (lists_circuit circuit)) }
{
    if form == Window::Distinct {
        circuit.properties.outputs = leaf_edges(alloc, &circuit.latchs)?;
    }
    Ok(circuit)
}

/// Whether the bound of a window's variables is within the limit.
pub(crate) fn has_room(circuit: &CircuitView<'_>, k: usize, form: Window, limit: usize) -> bool
    requires { k < 2 ^ 32 }
    ensures { IsTrue result ↔ (window_size form circuit.now k ≤ limit) }
{
    let latchs = circuit.latchs().len();
    let pairs = match form {
        Window::Plain => 0,
        Window::Distinct => pairs_of(k + 2),
    };
    if latchs != 0 && pairs > limit / latchs {
        return false;
    }
    is_size_within(circuit.nodes().len(), latchs, k + 1, limit - pairs * latchs)
}

/// How many free variables the window clauses of a circuit have.
fn count_free(circuit: &CircuitView<'_>, k: usize, form: Window) -> usize
    requires steps { k < 2 ^ 32 }
    requires room { count_free form circuit.now k ≤ 2 ^ 31 }
    ensures { result ≡ count_free form circuit.now k }
{
    match form {
        Window::Plain => 0,
        Window::Distinct => pairs_of(k + 2) * circuit.latchs().len(),
    }
}

/// Appends the clauses that tell the states of a window apart, where the form asks for them.
fn tell_apart(
    alloc: Global,
    extra: &mut LitVvec,
    circuit: &CircuitView<'_>,
    k: usize,
    unrolled: &CircuitView<'_>,
    form: Window,
) -> Result<(), MemoryError>
    requires steps { k < 2 ^ 32 }
    requires room { length unrolled.now.nodes + count_free form circuit.now k ≤ 2 ^ 31 }
    requires states { form ≡ Window.Distinct
        → length unrolled.now.properties.outputs ≡ (k + 1 + 1) * length circuit.now.latchs }
    ensures { OnOk result (extra.new ≡ extra.old
        ++ states_clauses form (length unrolled.now.nodes) circuit.now k unrolled.now) }
{
    match form {
        Window::Plain => Ok(()),
        Window::Distinct => {
            let latchs = circuit.latchs().len();
            let mut some = Vec::with_capacity(alloc, latchs)?;
            let first = unrolled.nodes().len();
            push_distinct(extra, &mut some, first, unrolled.outputs(), latchs, k + 2)
        }
    }
}

/// The window clauses of a circuit, of which the further steps were made. Where states are to be told apart, they are outputs of it.
fn further_of(
    alloc: Global,
    circuit: &CircuitView<'_>,
    k: usize,
    unrolled: &CircuitView<'_>,
    form: Window,
) -> Result<LitVvec, MemoryError>
    requires steps { k < 2 ^ 32 }
    requires unrolls { UnrollsTo circuit.now (k + 1) unrolled.now }
    requires room { length unrolled.now.nodes + count_free form circuit.now k ≤ 2 ^ 31 }
    requires watched { (c : Circuit) × (circuit.now ≡ watched form c) }
    ensures exact { IfOk result (λ extra. extra
        ≡ window_clauses form (length unrolled.now.nodes) circuit.now k unrolled.now) }
    ensures circuit { OnOk result (IsCircuit unrolled.now) }
{
    let mut extra = induction_between(alloc, circuit, k, unrolled)?;
    tell_apart(alloc, &mut extra, circuit, k, unrolled, form)?;
    Ok(extra)
}

/// Gives a circuit the further steps of a window.
fn step_window(
    alloc: Global,
    circuit: CircuitLists,
    k: usize,
    form: Window,
) -> Result<SteppedWindow, MemoryError>
    requires steps { k < 2 ^ 32 }
    requires circuit { IsCircuit (lists_circuit circuit) }
    requires room { window_size form (lists_circuit circuit) k ≤ 2 ^ 31 }
    ensures { IfOk result (IsSteppedWindow form (lists_circuit circuit) k) }
{
    let watched = watch(alloc, circuit, form)?;
    let circuit = CircuitView::new(&watched);
    let lists = unroll_to(&circuit, k + 1)?;
    let unrolled = CircuitView::new(&lists);
    let extra = further_of(alloc, &circuit, k, &unrolled, form)?;
    let free = count_free(&circuit, k, form);
    Ok(SteppedWindow {
        unrolled: lists,
        free,
        extra,
    })
}

/// Gives a circuit `k + 1` steps more, and makes what the clauses are written from that ask for a run of `k + 2` steps, from any state,
/// on which every constraint holds at each step, no bad state is reached at the steps 0 to `k`, and one is reached at step `k + 1`; in
/// the distinct form no two of its steps have the same state. No list of the clauses of gates is made. The one error is refused memory.
///
/// The window clauses are, in order: for each constraint of each step that it holds, for each bad literal of the steps 0 to
/// `k` that it doesn't, one clause of those of step `k + 1`, and in the distinct form, for each pair of steps, that some
/// latch differs. Without latches no two steps differ, and one empty clause says so of all pairs.
pub fn unroll_window(
    alloc: Global,
    circuit: CircuitLists,
    k: usize,
    optimize: bool,
    form: Window,
) -> Result<UnrolledWindow, MemoryError>
    requires steps { k < 2 ^ 32 }
    requires circuit { IsCircuit (lists_circuit circuit) }
    requires room { window_size form (lists_circuit circuit) k ≤ 2 ^ 31 }
    ensures { IfOk result (IsUnrolledWindow form (lists_circuit circuit) k optimize) }
{
    clauses_fix_roots();
    clauses_are_one();
    let stepped = step_window(alloc, circuit, k, form)?;
    let SteppedWindow {
        unrolled,
        free,
        extra,
    } = stepped;
    let needed = find_needed(alloc, &CircuitView::new(&unrolled), optimize)?;
    Ok(UnrolledWindow {
        unrolled,
        free,
        needed,
        extra,
    })
}

/// Adds free variables behind those of clauses.
fn add_free(clauses: &mut DagCnf, count: usize) -> Result<(), MemoryError>
    requires { length clauses.old + count ≤ 2 ^ 31 }
    ensures { OnOk result (clauses.new ≡ clauses.old ++ replicate count []) }
{
    for _ in 0..count {
        clauses.new_var()?;
    }
    Ok(())
}

/// Tells that clauses that are given to variables are of those that are there.
fn tell_relations(clauses: &DagCnf)
    ensures { AreRelations clauses.now }
{
    let _variables = clauses.num_vars();
}

/// The clauses that ask for a circuit's window. The circuit is dropped before those of gates are made.
pub(crate) fn window_clauses(
    alloc: Global,
    circuit: CircuitLists,
    k: usize,
    optimize: bool,
    form: Window,
) -> Result<WindowClauses, MemoryError>
    requires circuit { IsCircuit (lists_circuit circuit) }
    requires steps { k < 2 ^ 32 }
    requires room { window_size form (lists_circuit circuit) k ≤ 2 ^ 31 }
    ensures { IfOk result
        (λ made. AsksWindow form (lists_circuit circuit) k optimize made.clauses made.extra) }
{
    let stepped = step_window(alloc, circuit, k, form)?;
    let SteppedWindow {
        unrolled,
        free,
        extra,
    } = stepped;
    let mut clauses = encode(alloc, &CircuitView::new(&unrolled), optimize)?;
    tell_relations(&clauses);
    add_free(&mut clauses, free)?;
    Ok(WindowClauses { clauses, extra })
}
