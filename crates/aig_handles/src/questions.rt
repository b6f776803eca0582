//! What is asked of a circuit.

ghost use Rattle.std.specs.Prelude.{◌≡◌, ◌↔◌, IsTrue};
ghost use Rattle.aig_circuit.specs.Circuit.{BeginsWith};
ghost use Rattle.aig_giving.specs.Edges.{edge_of};
ghost use Rattle.aig_giving.specs.declared.status.TheConstants.{DONE};
ghost use Rattle.aig_handles.specs.Handles.{OnHeld, held_in};
ghost use Rattle.aig_handles.specs.Questions.{Answers, Holds};

use aig::{Aig, AigEdge};
use aig_circuit::gate_node;
use aig_giving::{EMPTY, edge_of, tell};
use aig_held::{Handle, Held};
use std::alloc::Global;

/// What is asked of a circuit.
#[derive(Clone, Copy)]
enum Question {
    /// Whether there is a node of this number.
    HasNode(usize),
    /// Whether it has this edge.
    HasEdge(AigEdge),
    /// Whether the node is there and is a free leaf.
    IsFreeLeaf(usize),
    /// Whether no leaf is free.
    IsClosedNow,
    /// Whether there are at most 2^31 nodes.
    FitsLits,
    /// Whether the gate of these operands may stand in place of the node.
    AdmitsGate(usize, AigEdge, AigEdge),
}

/// Whether it is so of a circuit.
fn holds(aig: &Aig, question: Question) -> bool
    ensures { IsTrue result ↔ Holds question aig.now }
{
    match question {
        Question::HasNode(node) => aig.has_node(node),
        Question::HasEdge(edge) => aig.has_edge(edge),
        Question::IsFreeLeaf(node) => aig.is_free_leaf(node),
        Question::IsClosedNow => aig.is_closed(),
        Question::FitsLits => aig.fits_lits(),
        Question::AdmitsGate(node, a, b) => aig.admits(node, &gate_node(node, a, b)),
    }
}

/// Tells whether it is so of the circuit of a handle.
fn ask(alloc: Global, circuit: &mut Handle, question: Question, answer: &mut bool) -> u32
    ensures { OnHeld circuit.old circuit.new result (answer.new ≡ answer.old)
        (Answers question result answer.new) }
{
    lend!(alloc, circuit, aig => tell(holds(&*aig, question), answer))
}

/// Tells whether there is a node of this number.
#[unsafe(no_mangle)]
pub extern "C" fn aig_circuit_has_node(
    alloc: Global,
    circuit: &mut Handle,
    node: usize,
    answer: &mut bool,
) -> u32
    ensures { OnHeld circuit.old circuit.new result (answer.new ≡ answer.old)
        (Answers (Question.HasNode node) result answer.new) }
{
    ask(alloc, circuit, Question::HasNode(node), answer)
}

/// Tells whether the node of an edge is there.
#[unsafe(no_mangle)]
pub extern "C" fn aig_circuit_has_edge(
    alloc: Global,
    circuit: &mut Handle,
    edge: u32,
    answer: &mut bool,
) -> u32
    ensures { OnHeld circuit.old circuit.new result (answer.new ≡ answer.old)
        (Answers (Question.HasEdge (edge_of edge)) result answer.new) }
{
    ask(alloc, circuit, Question::HasEdge(edge_of(edge)), answer)
}

/// Tells whether a node is there and is a free leaf.
#[unsafe(no_mangle)]
pub extern "C" fn aig_circuit_is_free_leaf(
    alloc: Global,
    circuit: &mut Handle,
    node: usize,
    answer: &mut bool,
) -> u32
    ensures { OnHeld circuit.old circuit.new result (answer.new ≡ answer.old)
        (Answers (Question.IsFreeLeaf node) result answer.new) }
{
    ask(alloc, circuit, Question::IsFreeLeaf(node), answer)
}

/// Tells whether no leaf is free.
#[unsafe(no_mangle)]
pub extern "C" fn aig_circuit_is_closed(
    alloc: Global,
    circuit: &mut Handle,
    answer: &mut bool,
) -> u32
    ensures { OnHeld circuit.old circuit.new result (answer.new ≡ answer.old)
        (Answers Question.IsClosedNow result answer.new) }
{
    ask(alloc, circuit, Question::IsClosedNow, answer)
}

/// Tells whether there are at most 2^31 nodes.
#[unsafe(no_mangle)]
pub extern "C" fn aig_circuit_fits_lits(
    alloc: Global,
    circuit: &mut Handle,
    answer: &mut bool,
) -> u32
    ensures { OnHeld circuit.old circuit.new result (answer.new ≡ answer.old)
        (Answers Question.FitsLits result answer.new) }
{
    ask(alloc, circuit, Question::FitsLits, answer)
}

/// Tells whether a gate of these operands may stand in place of the node.
#[unsafe(no_mangle)]
pub extern "C" fn aig_circuit_admits(
    alloc: Global,
    circuit: &mut Handle,
    node: usize,
    a: u32,
    b: u32,
    answer: &mut bool,
) -> u32
    ensures { OnHeld circuit.old circuit.new result (answer.new ≡ answer.old)
        (Answers (Question.AdmitsGate node (edge_of a) (edge_of b)) result answer.new) }
{
    ask(
        alloc,
        circuit,
        Question::AdmitsGate(node, edge_of(a), edge_of(b)),
        answer,
    )
}

/// Tells whether a circuit begins with the one of another handle.
fn begins(alloc: Global, aig: &Aig, from: &mut Handle, answer: &mut bool) -> u32
    ensures { OnHeld from.old from.new result (answer.new ≡ answer.old) (λ first now.
        (result ≡ DONE) × (now ≡ first) × (IsTrue answer.new ↔ BeginsWith aig.now first)) }
{
    lend!(alloc, from, first => tell(aig.begins_with(&*first), answer))
}

/// Tells whether a circuit's first nodes are those of another, and both have latches on the same leaves.
#[unsafe(no_mangle)]
pub extern "C" fn aig_circuit_begins_with(
    alloc: Global,
    circuit: &mut Handle,
    from: &mut Handle,
    answer: &mut bool,
) -> u32
    ensures kept { held_in circuit.new ≡ held_in circuit.old }
    ensures other { held_in from.new ≡ held_in from.old }
    ensures begins { OnHeld circuit.old circuit.new result (answer.new ≡ answer.old) (λ aig _.
        OnHeld from.old from.new result (answer.new ≡ answer.old) (λ first _.
        (result ≡ DONE) × (IsTrue answer.new ↔ BeginsWith aig first))) }
{
    lend!(alloc, circuit, aig => begins(alloc, &*aig, from, answer))
}
