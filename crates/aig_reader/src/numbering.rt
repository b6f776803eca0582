//! The numbers of nodes. Where no variable is missing and the gates rise, each above its operands, a variable is its own number;
//! else the defined variables are numbered by level and, within a level, in rising order.

ghost use Rattle.std.specs.Prelude.{◌≡◌, ◌≤◌, ◌^◌, ◌&&◌, false, true, vec_len, MatchOption};
ghost use Rattle.std.specs.List.{list_all};
ghost use Rattle.aig_format.specs.Circuit.{circuit_of};
ghost use Rattle.aig_format.specs.File.{File};
ghost use Rattle.aig_format.specs.Levels.{has_level};
ghost use Rattle.aig_format.specs.Numbering.{is_compact};
ghost use Rattle.aig_format.specs.Fits.{uses_known};
ghost use Rattle.aig_lexer.specs.Faults.{Tested};
ghost use Rattle.aig_ordering.specs.Gates.{nodes_in};
ghost use Rattle.aig_ordering.specs.Numbers.{has_number};
ghost use Rattle.aig_ordering.specs.Tables.{AreMarksOf, AreNodesOf, order_cause};
ghost use Rattle.aig_reader.specs.Faults.{section_cause};
ghost use Rattle.aig_reader.specs.Numbered.{AreNumbersOf, AreRenumbered, AreTablesOf, HaveNumbers, IsNumberedAs, have_operands, init_passes, lists_pass, resets_pass};
ghost use Rattle.aig_reader.specs.Resets.{knows_resets};
ghost use Rattle.aig_reader.specs.Rules.{keeps};
ghost use Rattle.aig_reader.specs.Sections.{AreLinesOf, HasGoodLines};

use crate::error::{ReadError, Section};
use crate::gate_store::GateStore;
use crate::sections::{Lists, Numbered};
use crate::variable_nodes::VariableNodes;
use crate::variables::DefinedVariables;
use aig_circuit::{AigLatch, AigNode};
use aig_lexer::LineError;
use aig_ordering::{GateEntry, Ordered, Recorded, nodes, order_by_level};
use aig_renumber::{renumber_latches, renumber_nodes, renumber_properties};
use std::alloc::Global;

/// The nodes by level, and the number of each variable that is 0 or defined.
fn number_nodes(
    alloc: Global,
    gates: Vec<GateEntry>,
    marked: &[u64],
) -> Result<(Vec<AigNode>, Vec<u32>), LineError>
    requires tables { (f : File) × AreNodesOf f (nodes_in gates.items) × AreMarksOf f marked.now }
    requires few { vec_len gates ≤ 2 ^ 31 }
    ensures { (f : File) → HasGoodLines f → AreNodesOf f (nodes_in gates.items)
        → AreMarksOf f marked.now → is_compact f ≡ false
        → Tested order_cause (list_all (has_level f) f.gates && have_operands f)
        (λ x. (x.0.items ≡ (circuit_of f).nodes) × AreNumbersOf f x.1.items) result }
{
    let Ordered {
        numbers,
        gates: sorted,
    } = order_by_level(alloc, &gates, marked)?;
    // The nodes take six times the memory of this table.
    drop(gates);
    let nodes = nodes(alloc, &Recorded { table: &numbers }, &sorted)?;
    Ok((nodes, numbers))
}

/// Whether the variable of the latch's initial edge has a number, if there is one.
fn has_reset(numbers: &Recorded<'_>, latch: &AigLatch) -> bool
    ensures { result ≡ init_passes (has_number numbers.now.table.now) latch.now.init }
{
    match latch.init() {
        Some(edge) => numbers.has(edge.node_id()),
        None => true,
    }
}

/// Whether the variables of the initial edges of these latches have numbers.
fn has_resets(numbers: &Recorded<'_>, latchs: &[AigLatch]) -> bool
    ensures { result
        ≡ list_all (λ l. init_passes (has_number numbers.now.table.now) l.init) latchs.now }
{
    latchs.iter().all(|l| has_reset(numbers, l))
}

impl Lists {
    /// The first section with a variable that has no number, if there is one, resets last. Inputs and latches themselves have numbers.
    fn unnumbered(&self, numbers: &Recorded<'_>) -> Option<Section>
        ensures { let have = lists_pass (has_number numbers.now.table.now) self.now
            && resets_pass (has_number numbers.now.table.now) self.now in
            MatchOption result (have ≡ true) (λ _. have ≡ false) }
    {
        let properties = &self.properties;
        if !numbers.has_nexts(&self.latchs) {
            return Some(Section::Latches);
        }
        if !numbers.has_edges(&properties.outputs) {
            return Some(Section::Outputs);
        }
        if !numbers.has_edges(&properties.bads) {
            return Some(Section::Bads);
        }
        if !numbers.has_edges(&properties.constraints) {
            return Some(Section::Constraints);
        }
        if !numbers.has_sets(&properties.justice) {
            return Some(Section::Justice);
        }
        if !numbers.has_edges(&properties.fairness) {
            return Some(Section::Fairness);
        }
        if !has_resets(numbers, &self.latchs) {
            return Some(Section::Latches);
        }
        None
    }

    /// Puts the lists under the numbers of their variables.
    fn renumber(&mut self, numbers: &Recorded<'_>)
        requires { HaveNumbers numbers.now.table.now self.old }
        ensures { AreRenumbered numbers.now.table.now self.old self.new }
    {
        renumber_nodes(numbers, &mut self.inputs);
        renumber_latches(numbers, &mut self.latchs);
        renumber_properties(numbers, &mut self.properties);
    }

    /// Numbers the defined variables by level, and returns the nodes, and which of them the variables are. `marked` has a bit for each
    /// variable that is defined.
    fn by_level(
        &mut self,
        alloc: Global,
        gates: Vec<GateEntry>,
        marked: &[u64],
    ) -> Result<Numbered, ReadError>
        requires tables { (f : File) × AreTablesOf f gates.items marked.now self.old }
        requires few { vec_len gates ≤ 2 ^ 31 }
        ensures { (f : File) → AreTablesOf f gates.items marked.now self.old
            → Tested section_cause
            ((uses_known f && list_all (has_level f) f.gates) && knows_resets f)
            (λ numbered. IsNumberedAs f (record { numbered = numbered; lists = self.new }))
            result }
    {
        let numbered = number_nodes(alloc, gates, marked);
        let (nodes, table) = Section::Gates.result_of(numbered)?;
        let numbers = Recorded { table: &table };
        if let Some(section) = self.unnumbered(&numbers) {
            return Err(ReadError::Literal(section));
        }
        self.renumber(&numbers);
        let variables = VariableNodes::Table(table);
        Ok(Numbered { nodes, variables })
    }

    /// Puts the lists under the numbers of nodes, and returns the nodes, and which of them the variables are. Refuses what is used and
    /// not defined, and gates that stand on themselves. `greatest` is the greatest variable, and `is_complete` tells whether no variable is missing.
    pub fn number(
        &mut self,
        alloc: Global,
        gates: GateStore,
        variables: &DefinedVariables,
        greatest: u32,
        is_complete: bool,
    ) -> Result<Numbered, ReadError>
        requires { (f : File) × (greatest ≡ f.greatest)
            × AreLinesOf f is_complete self.old variables.now gates }
        ensures { (f : File) → greatest ≡ f.greatest
            → AreLinesOf f is_complete self.old variables.now gates
            → Tested section_cause (keeps f.kind f)
            (λ numbered. IsNumberedAs f (record { numbered = numbered; lists = self.new }))
            result }
    {
        let len = greatest as usize + 1;
        if is_complete && gates.is_in_order() {
            let nodes = gates.into_nodes(len)?;
            let variables = VariableNodes::Own(greatest as usize);
            return Ok(Numbered { nodes, variables });
        }
        let gates = gates.into_table(alloc, len)?;
        let marked = match variables {
            DefinedVariables::Text(marks) => &marks.marked,
            DefinedVariables::Binary(_) => unreachable!(),
        };
        self.by_level(alloc, gates, marked)
    }
}
