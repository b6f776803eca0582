//! Gates in a table, by their variables.

ghost use Rattle.std.specs.Prelude.{◌≡◌, ℕ, ◌/◌, ◌^◌, ◌<◌, ◌≤◌, [], ◌∷◌, ◌++◌, All, List, IfOk, OnOk, length, max, vec_len};
ghost use Rattle.aig_circuit.specs.Edge.{literal_of};
ghost use Rattle.aig_circuit.specs.Node.{IfAnd};
ghost use Rattle.aig_format.specs.File.{GateLine};
ghost use Rattle.aig_ordering.specs.Gates.{nodes_in};
ghost use Rattle.aig_reader.specs.Gates.{AreFirstNodes, HoldsPending, gate_in, line_of, literals_of};
ghost use Rattle.aig_reader.specs.Variables.{IsNewAmong};
ghost use Rattle.aig_reader.specs.declared.table.TheConstants.{MOST_PENDING};

use aig_circuit::{AigEdge, AigNode, AigNodeType};
use aig_ordering::{GateEntry, Operands};
use std::alloc::{AllocError, Global};

/// How many gates wait for their places at most.
const MOST_PENDING: usize = 1024;

/// A gate that waits for its place.
#[derive(Clone, Copy)]
pub struct PendingGate {
    /// The literal that it defines.
    pub lhs: u32,
    /// Its operands.
    pub operands: Operands,
}

/// Gates in a table. They are put there some at a time, since then the waits for memory at their places overlap.
#[derive(Drop)]
pub struct Table {
    /// The operands of each of the first variables, from 0 on, that is a gate.
    pub entries: Vec<GateEntry>,
    /// The gates that were read last.
    pub pending: Vec<PendingGate>,
}

/// The literal of an edge.
fn literal(edge: AigEdge) -> u32
    requires { edge.node_id < 2 ^ 31 }
    ensures { result ≡ literal_of edge }
{
    2 * edge.node_id() as u32 + edge.compl() as u32
}

/// The entry of what may be a gate.
fn gate_of(kind: AigNodeType) -> GateEntry
    requires { IfAnd kind (λ id. id < 2 ^ 31) }
    ensures { result ≡ gate_in kind }
{
    match kind {
        AigNodeType::And(first, second) => GateEntry::of(Operands {
            rhs0: literal(first),
            rhs1: literal(second),
        }),
        AigNodeType::Leaf | AigNodeType::False => GateEntry::none(),
    }
}

/// Appends entries without a gate until there are so many.
fn add_entries(entries: &mut Vec<GateEntry>, len: usize) -> Result<(), AllocError>
    ensures exact { (gates : List GateLine) → AreFirstNodes gates (nodes_in entries.old.items)
        → AreFirstNodes gates (nodes_in entries.new.items) }
    ensures len { OnOk result (vec_len entries.new ≡ max (vec_len entries.old) len) }
{
    if len > entries.len() {
        entries.resize(len, GateEntry::none())?;
    }
    Ok(())
}

/// Puts a gate in the place of its variable, which is a leaf or has no place yet.
fn put_operands(
    entries: &mut Vec<GateEntry>,
    lhs: u32,
    operands: Operands,
) -> Result<(), AllocError>
    ensures { (size : ℕ) (gates : List GateLine)
        → AreFirstNodes gates (nodes_in entries.old.items) → vec_len entries.old ≤ size
        → IsNewAmong (literals_of gates) lhs → 2 ≤ lhs → lhs / 2 < size
        → OnOk result (AreFirstNodes (gates ++ line_of lhs operands ∷ [])
        (nodes_in entries.new.items) × (vec_len entries.new ≤ size)) }
{
    let variable = lhs as usize / 2;
    add_entries(entries, variable + 1)?;
    entries[variable] = GateEntry::of(operands);
    Ok(())
}

impl Table {
    /// The table of these nodes, each at the place of its variable. No gate waits.
    pub fn new(alloc: Global, nodes: &[AigNode]) -> Result<Self, AllocError>
        requires { All (λ node. IfAnd node.typ (λ id. id < 2 ^ 31)) nodes.now }
        ensures { (size : ℕ) (gates : List GateLine) → AreFirstNodes gates nodes.now
            → length nodes.now ≤ size → IfOk result (HoldsPending size gates) }
    {
        let mut entries = Vec::with_capacity(alloc, nodes.len())?;
        for node in nodes {
            entries.push_reserved(gate_of(*node.typ()));
        }
        let pending = Vec::with_capacity(alloc, MOST_PENDING)?;
        Ok(Table { entries, pending })
    }

    /// Puts the gates that wait in their places.
    // In a frame of its own, so that `push` saves no registers for its loop.
    #[inline(never)]
    fn place_pending(&mut self) -> Result<(), AllocError>
        ensures held { (size : ℕ) (gates : List GateLine) → HoldsPending size gates self.old
            → OnOk result (HoldsPending size gates self.new) }
        ensures none { OnOk result (self.new.pending.items ≡ []) }
    {
        let Table { entries, pending } = self;
        for gate in pending.iter() {
            put_operands(entries, gate.lhs, gate.operands)?;
        }
        pending.clear();
        Ok(())
    }

    /// Takes a gate, which waits for its place until there are so many that all are put in theirs.
    // Outside the loop that reads gates, most of which never come here.
    #[inline(never)]
    pub fn push(&mut self, lhs: u32, operands: Operands) -> Result<(), AllocError>
        ensures held { (size : ℕ) (gates : List GateLine) → HoldsPending size gates self.old
            → IsNewAmong (literals_of gates) lhs → 2 ≤ lhs → lhs / 2 < size
            → OnOk result (HoldsPending size (gates ++ line_of lhs operands ∷ []) self.new) }
        ensures few { OnOk result (vec_len self.new.pending < MOST_PENDING) }
    {
        self.pending.push(PendingGate { lhs, operands })?;
        if self.pending.len() < MOST_PENDING {
            return Ok(());
        }
        self.place_pending()
    }

    /// The entries of so many variables, with the gates that wait in their places.
    pub fn into_entries(mut self, len: usize) -> Result<Vec<GateEntry>, AllocError>
        ensures { (gates : List GateLine) → HoldsPending len gates self → IfOk result
            (λ entries. AreFirstNodes gates (nodes_in entries.items) × (vec_len entries ≡ len)) }
    {
        self.place_pending()?;
        let Table {
            mut entries,
            pending: _,
        } = self;
        add_entries(&mut entries, len)?;
        Ok(entries)
    }
}
