//! The nodes of gates in the order of their variables.

ghost use Rattle.std.specs.Prelude.{◌≡◌, ◌++◌, ◌∷◌, ◌<◌, [], false, map, true, MatchOption, vec_capacity, vec_len};
ghost use Rattle.std.specs.List.{list_all};
ghost use Rattle.aig_lexer.specs.Faults.{Tested};
ghost use Rattle.aig_ordering.specs.Gates.{node_in, nodes_in};
ghost use Rattle.aig_ordering.specs.Numbers.{has_operands, with_numbers};
ghost use Rattle.aig_ordering.specs.Tables.{order_cause};

use crate::gates::{GateEntry, Operands, variable_node};
use crate::numbers::Recorded;
use aig_circuit::{AigNode, gate_node};
use aig_lexer::LineError;
use std::alloc::Global;

/// Appends the node at a place of what has this gate, or none, with operands under their numbers, or returns nothing where the
/// variable of an operand has no number. There is room. Each kind is pushed by itself: a node that may be of any kind would be
/// put together elsewhere first, and copied.
fn push_numbered(
    new: &mut Vec<AigNode>,
    numbers: &Recorded<'_>,
    place: usize,
    gate: GateEntry,
) -> Option<()>
    requires room { vec_len new.old < vec_capacity new.old }
    ensures node { let old = node_in place gate in
        let have = has_operands numbers.now.table.now old.typ in
        MatchOption result (have ≡ false) (λ _. (have ≡ true)
        × (new.new.items ≡ new.old.items ++ with_numbers numbers.now.table.now old ∷ [])) }
    ensures capacity { vec_capacity new.new ≡ vec_capacity new.old }
{
    let Some(Operands { rhs0, rhs1 }) = gate.operands() else {
        new.push_reserved(variable_node(place, None));
        return Some(());
    };
    let first = numbers.edge(rhs0)?;
    let second = numbers.edge(rhs1)?;
    new.push_reserved(gate_node(place, first, second));
    Some(())
}

/// The nodes of gates in their order, with operands under their numbers. What has no gate is a leaf, but at place 0 false.
/// An operand whose variable has no number is refused.
pub fn nodes(
    alloc: Global,
    numbers: &Recorded<'_>,
    gates: &[GateEntry],
) -> Result<Vec<AigNode>, LineError>
    ensures { let old = nodes_in gates.now in
        Tested order_cause (list_all (λ node. has_operands numbers.now.table.now node.typ) old)
        (λ new. new.items ≡ map (with_numbers numbers.now.table.now) old) result }
{
    let mut new = Vec::with_capacity(alloc, gates.len())?;
    for (i, gate) in gates.iter().enumerate() {
        let Some(()) = push_numbered(&mut new, numbers, i, *gate) else {
            return Err(LineError::Literal);
        };
    }
    Ok(new)
}
