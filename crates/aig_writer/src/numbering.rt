//! The numbers that the binary form gives the nodes.

ghost use Rattle.std.specs.Prelude.{◌≡◌, ◌↔◌, IfOk, IsOk, IsTrue, length, slice_index};
ghost use Rattle.aig_circuit.specs.Circuit.{IsCircuit, IsClosed};
ghost use Rattle.aig_circuit.specs.Reencode.{IsReencoded};
ghost use Rattle.aig_writer.specs.Numbering.{IsBinaryNumbering};

use aig_base::MemoryError;
use aig_circuit::CircuitView;

/// Whether the inputs are the nodes 1, 2 and so on, in this order, and the leaves of latches those after them.
fn is_in_order(circuit: &CircuitView<'_>) -> bool
    ensures order { IsTrue result ↔ IsReencoded circuit.now }
    ensures circuit { IsCircuit circuit.now }
{
    let inputs = circuit.inputs();
    for (i, n) in inputs.iter().enumerate() {
        if *n != i + 1 {
            return false;
        }
    }
    for (i, latch) in circuit.latchs().iter().enumerate() {
        if latch.input() != inputs.len() + i + 1 {
            return false;
        }
    }
    true
}

/// Fills a table of zeros with the numbers that the binary form gives the nodes: inputs come first, then the leaves of
/// latches, then gates in rising number.
fn fill_table(numbers: &mut [usize], circuit: &CircuitView<'_>)
    requires closed { IsClosed circuit.now }
    requires count { length numbers.old ≡ length circuit.now.nodes }
    requires zero { slice_index numbers.old 0 ≡ 0 }
    ensures { IsBinaryNumbering circuit.now numbers.new }
{
    let mut next = 1;
    for n in circuit.inputs() {
        numbers[*n] = next;
        next += 1;
    }
    for latch in circuit.latchs() {
        numbers[latch.input()] = next;
        next += 1;
    }
    for node in circuit.nodes() {
        if node.is_and() {
            numbers[node.node_id()] = next;
            next += 1;
        }
    }
}

/// A table of the numbers that the binary form gives the nodes of a closed circuit (AIGER format 20071012, "Binary
/// encoding"). It is empty where these are the nodes' own, and else has 8 bytes a node. The one error is refused memory.
pub fn binary_numbers(circuit: &CircuitView<'_>) -> Result<Vec<usize>, MemoryError>
    requires { IsClosed circuit.now }
    ensures numbers { IfOk result (λ numbers. IsBinaryNumbering circuit.now numbers.items) }
    // No memory is asked for where the nodes keep their numbers.
    ensures no_memory { IsReencoded circuit.now → IsOk result }
{
    if is_in_order(circuit) {
        return Ok(Vec::new(circuit.allocator()));
    }
    let mut numbers = vec![in circuit.allocator(); 0; circuit.nodes().len()]?;
    fill_table(&mut numbers, circuit);
    Ok(numbers)
}
