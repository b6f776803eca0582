//! The sections of a file, after its header. `numbers` is the table of the numbers under which nodes are written.

ghost use Rattle.std.specs.Prelude.{◌≡◌, ◌++◌, ℕ, length, map, option_to_list, All};
ghost use Rattle.std.specs.List.{flat_map};
ghost use Rattle.aig_circuit.specs.Edge.{literal_of};
ghost use Rattle.aig_circuit.specs.Renumber.{renumbered_edge, renumbered_latch};
ghost use Rattle.aig_format.specs.declared.FileKind.TheVariants.{Text};
ghost use Rattle.aig_format.specs.Written.{gate_text, inputs_text, latch_text, lines_text, properties_text};
ghost use Rattle.aig_format.specs.Circuit.{latch_line, gate_line};
ghost use Rattle.aig_output.specs.Writing.{WritesPieces};
ghost use Rattle.aig_writer.specs.TextParts.{edges_of_sets};
ghost use Rattle.aig_writer.specs.Numbering.{written_number, numbered_file, renumbered_node};
ghost use Rattle.aig_writer.specs.Literals.{HasSmallNumbers, IsSmallEdge, IsSmallLatch, IsSmallNode, FallsBelow};
ghost use Rattle.aig_writer.specs.Forms.{FitsForm};

use crate::line::{write_differences, write_line};
use crate::literal::{literal, node_literal, reset_literal};
use aig_circuit::{AigEdge, AigLatch, AigNode, AigNodeType, CircuitView, PropList};
use aig_format::FileKind;
use aig_output::TextOut;

/// Writes the inputs: in a text file a line each, its literal, and in a binary file nothing.
pub(crate) fn write_inputs<O: TextOut>(
    out: &mut O,
    kind: FileKind,
    numbers: &[usize],
    circuit: &CircuitView<'_>,
) -> Result<(), O::Error>
    requires { HasSmallNumbers circuit.now numbers.now }
    ensures { let file = numbered_file (written_number numbers.now) kind circuit.now in
        WritesPieces O.wrote O.stopped out.old result (inputs_text kind file.inputs) out.new }
{
    let FileKind::Text = kind else {
        return Ok(());
    };
    for n in circuit.inputs() {
        write_line(out, &[node_literal(numbers, *n)])?;
    }
    Ok(())
}

/// Writes a line for a latch: its literal, which a binary file leaves out, its next literal, and its reset if it is not 0.
fn write_latch<O: TextOut>(
    out: &mut O,
    kind: FileKind,
    numbers: &[usize],
    latch: &AigLatch,
) -> Result<(), O::Error>
    requires { IsSmallLatch numbers.now latch.now }
    ensures { let written = renumbered_latch (written_number numbers.now) latch.now in
        let text = latch_text kind (latch_line written) in
        WritesPieces O.wrote O.stopped out.old result text out.new }
{
    let own = node_literal(numbers, latch.input());
    let next = literal(numbers, latch.next());
    match (kind, reset_literal(numbers, latch)) {
        (FileKind::Text, None) => write_line(out, &[own, next]),
        (FileKind::Text, Some(reset)) => write_line(out, &[own, next, reset]),
        (FileKind::Binary, None) => write_line(out, &[next]),
        (FileKind::Binary, Some(reset)) => write_line(out, &[next, reset]),
    }
}

/// Writes a line for each latch.
pub(crate) fn write_latches<O: TextOut>(
    out: &mut O,
    kind: FileKind,
    numbers: &[usize],
    circuit: &CircuitView<'_>,
) -> Result<(), O::Error>
    requires { HasSmallNumbers circuit.now numbers.now }
    ensures { let file = numbered_file (written_number numbers.now) kind circuit.now in
        let text = flat_map (latch_text kind) file.latches in
        WritesPieces O.wrote O.stopped out.old result text out.new }
{
    for latch in circuit.latchs() {
        write_latch(out, kind, numbers, latch)?;
    }
    Ok(())
}

/// Writes a line for each edge, its literal.
fn write_edges<O: TextOut>(
    out: &mut O,
    numbers: &[usize],
    edges: &[AigEdge],
) -> Result<(), O::Error>
    requires { All (IsSmallEdge numbers.now) edges.now }
    ensures { let written = map (renumbered_edge (written_number numbers.now)) edges.now in
        let text = lines_text (map literal_of written) in
        WritesPieces O.wrote O.stopped out.old result text out.new }
{
    for e in edges {
        write_line(out, &[literal(numbers, *e)])?;
    }
    Ok(())
}

/// Writes a line for each set, how many edges it has, and then the lines of each set's edges.
fn write_sets<O: TextOut>(
    out: &mut O,
    numbers: &[usize],
    sets: &[Vec<AigEdge>],
) -> Result<(), O::Error>
    requires { All (λ set. All (IsSmallEdge numbers.now) set.items) sets.now }
    ensures { let written = map (map (renumbered_edge (written_number numbers.now)))
        (edges_of_sets sets.now) in
        let sizes = lines_text (map length (edges_of_sets sets.now)) in
        let text = sizes ++ flat_map lines_text (map (map literal_of) written) in
        WritesPieces O.wrote O.stopped out.old result text out.new }
{
    for set in sets {
        write_line(out, &[set.len()])?;
    }
    for set in sets {
        write_edges(out, numbers, set)?;
    }
    Ok(())
}

/// Writes the outputs and the properties.
pub(crate) fn write_properties<O: TextOut>(
    out: &mut O,
    numbers: &[usize],
    circuit: &CircuitView<'_>,
) -> Result<(), O::Error>
    requires { HasSmallNumbers circuit.now numbers.now }
    ensures { let file = numbered_file (written_number numbers.now) Text circuit.now in
        let text = properties_text file.properties in
        WritesPieces O.wrote O.stopped out.old result text out.new }
{
    for list in [PropList::Outputs, PropList::Bads, PropList::Constraints] {
        write_edges(out, numbers, circuit.edges(list))?;
    }
    write_sets(out, numbers, circuit.justice())?;
    write_edges(out, numbers, circuit.fairness())
}

/// Writes a node if it is a gate: in a text file a line of its literal, its greater operand and its lesser, and in a binary
/// file the differences between these.
fn write_node<O: TextOut>(
    out: &mut O,
    kind: FileKind,
    numbers: &[usize],
    node: &AigNode,
) -> Result<(), O::Error>
    requires small { IsSmallNode numbers.now node.now }
    requires falls { kind ≡ FileKind.Binary → FallsBelow numbers.now node.now }
    ensures { let written = renumbered_node (written_number numbers.now) node.now in
        let text = flat_map (gate_text kind) (option_to_list (gate_line written)) in
        WritesPieces O.wrote O.stopped out.old result text out.new }
{
    let AigNodeType::And(first, second) = *node.typ() else {
        return Ok(());
    };
    let own = node_literal(numbers, node.node_id());
    let (first, second) = (literal(numbers, first), literal(numbers, second));
    let (greater, lesser) = (first.max(second), first.min(second));
    match kind {
        FileKind::Text => write_line(out, &[own, greater, lesser]),
        FileKind::Binary => write_differences(out, own - greater, greater - lesser),
    }
}

/// Writes each node that is a gate.
pub(crate) fn write_gates<O: TextOut>(
    out: &mut O,
    kind: FileKind,
    numbers: &[usize],
    circuit: &CircuitView<'_>,
) -> Result<(), O::Error>
    requires { FitsForm kind circuit.now numbers.now }
    ensures { let file = numbered_file (written_number numbers.now) kind circuit.now in
        let text = flat_map (gate_text kind) file.gates in
        WritesPieces O.wrote O.stopped out.old result text out.new }
{
    for node in circuit.nodes() {
        write_node(out, kind, numbers, node)?;
    }
    Ok(())
}
