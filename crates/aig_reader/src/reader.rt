//! Reading a file.

ghost use Rattle.std.specs.Io.KnownBytes.{IsAtEnd};
ghost use Rattle.std.specs.Prelude.{◌≡◌, ◌+◌, ◌^◌, ◌<◌, ◌≤◌, false, true, IfErr, IfOk, IsErrOf, OnOk};
ghost use Rattle.aig_format.specs.Fits.{Accepts, has_enough};
ghost use Rattle.aig_lexer.specs.Header.{numbers_of};
ghost use Rattle.aig_lexer.specs.Takes.{Makes, feed};
ghost use Rattle.aig_reader.specs.Faults.{section_cause};
ghost use Rattle.aig_reader.specs.Reading.{AreListsOf, IsNumberedOf, IsReadAs};
ghost use Rattle.aig_reader.specs.Numbered.{AreSectionsOf};
ghost use Rattle.aig_reader.specs.Resets.{AcceptsWithResets, AreListsWithResets, SaysWhy};
ghost use Rattle.aig_reader.specs.Rules.{AcceptsBy, IsNumberedBy, parse_sections_by};
ghost use Rattle.aig_reader.specs.Verdicts.{Accepted, Judges, verdict_by, verdict_of};

use crate::error::{ReadError, names_result};
use crate::header::read_header;
use crate::latches::Resets;
use crate::lines::read_lines;
use crate::sections::{Lists, Sections};
use crate::variable_nodes::NumberedLists;
use crate::variables::DefinedVariables;
use aig_base::Source;
use aig_circuit::CircuitLists;
use aig_lexer::{Header, InputBuffer};
use aig_symbols::read_names;
use std::alloc::Global;

/// Reads a file in the AIGER format, text or binary (AIGER format 20071012, with the resets and properties of AIGER 1.9).
/// `limit` is how many variables there may be, the false one counted. Reads through a buffer of 16,384 bytes, up to the end
/// of `r`.
// The frame with the buffer is not its callers'.
#[inline(never)]
pub fn read<R: Source>(alloc: Global, r: &mut R, limit: usize) -> Result<CircuitLists, ReadError>
    requires some { 1 ≤ limit }
    requires few { limit ≤ 2 ^ 31 }
    // The bytes that were read are a file that is accepted, and the lists are those of its circuit.
    ensures circuit { IfOk result
        (IsReadAs (λ bytes. Accepts bytes limit) AreListsOf (R.left r.old) (R.left r.new)) }
    // Each file that is accepted is taken, and a refusal says why.
    ensures verdict { Judges (λ _. Accepted) limit (R.left r.old) (R.left r.new) (R.failed r.new)
        (verdict_by verdict_of result) }
    ensures never_open { IsErrOf result ReadError.Open → ⊥ }
{
    let mut buffer = InputBuffer::new();
    read_with(alloc, &mut buffer, r, limit)
}

/// Reads a file as `read` does, and also tells which of its nodes the file's variables are.
// The frame with the buffer is not its callers'.
#[inline(never)]
pub fn read_numbered<R: Source>(
    alloc: Global,
    r: &mut R,
    limit: usize,
) -> Result<NumberedLists, ReadError>
    requires { limit ≤ 2 ^ 31 }
    // The bytes that were read are a file that is accepted, the lists are those of its circuit, and the nodes those of its variables.
    ensures circuit { IfOk result
        (IsReadAs (λ bytes. Accepts bytes limit) IsNumberedOf (R.left r.old) (R.left r.new)) }
    // Each file that is accepted is taken, and a refusal says why.
    ensures verdict { Judges (λ _. Accepted) limit (R.left r.old) (R.left r.new) (R.failed r.new)
        (verdict_by verdict_of result) }
    ensures never_open { IsErrOf result ReadError.Open → ⊥ }
{
    let mut buffer = InputBuffer::new();
    read_by(alloc, &mut buffer, r, limit, Resets::Values)
}

/// Reads a file as `read` does, through the caller's buffer: first the bytes that are in it, and then those of `r`.
///
/// After an error the buffer still has the bytes that were pulled of `r` and not taken (`InputBuffer::window`): the last byte that was
/// taken, where reading stopped, is the one before them. After a failed read there are none.
pub fn read_with<R: Source>(
    alloc: Global,
    buffer: &mut InputBuffer,
    r: &mut R,
    limit: usize,
) -> Result<CircuitLists, ReadError>
    requires { limit ≤ 2 ^ 31 }
    // The bytes that came are a file that is accepted, and the lists are those of its circuit.
    ensures circuit { IfOk result
        (IsReadAs (λ bytes. Accepts bytes limit) AreListsOf
        (feed R.left R.failed R.pulls buffer.old r.old).coming
        (feed R.left R.failed R.pulls buffer.new r.new).coming) }
    // Each file that is accepted is taken, and a refusal says why.
    ensures verdict { Judges (λ _. Accepted) limit
        (feed R.left R.failed R.pulls buffer.old r.old).coming
        (feed R.left R.failed R.pulls buffer.new r.new).coming
        (R.failed r.new) (verdict_by verdict_of result) }
    ensures never_open { IsErrOf result ReadError.Open → ⊥ }
{
    let read = read_by(alloc, buffer, r, limit, Resets::Values)?;
    Ok(read.lists)
}

/// Reads a file as `read` does, where the reset of a latch may be any literal of a variable that is defined: a function of inputs and
/// latches, as certificates of the hardware model checking competition have it. Resets that depend on one another in a circle are taken too.
// The frame with the buffer is not its callers'.
#[inline(never)]
pub fn read_with_resets<R: Source>(
    alloc: Global,
    r: &mut R,
    limit: usize,
) -> Result<CircuitLists, ReadError>
    requires { limit ≤ 2 ^ 31 }
    // The bytes that were read are a file that is accepted with such resets, and the lists are those of its circuit.
    ensures circuit { IfOk result
        (IsReadAs (AcceptsWithResets limit) AreListsWithResets (R.left r.old) (R.left r.new)) }
    // Then no read failed, and the source was read to its end.
    ensures whole { OnOk result ((R.failed r.new ≡ false) × IsAtEnd (R.left r.new)) }
    // A refusal says why.
    ensures refusal { IfErr result
        (SaysWhy (AcceptsWithResets limit) limit (R.left r.old) (R.failed r.new)) }
{
    let mut buffer = InputBuffer::new();
    let read = read_by(alloc, &mut buffer, r, limit, Resets::Functions)?;
    Ok(read.lists)
}

/// Reads a file through the caller's buffer, with the resets that the rule allows.
fn read_by<R: Source>(
    alloc: Global,
    buffer: &mut InputBuffer,
    r: &mut R,
    limit: usize,
    resets: Resets,
) -> Result<NumberedLists, ReadError>
    requires { limit ≤ 2 ^ 31 }
    ensures circuit { IfOk result
        (IsReadAs (AcceptsBy resets limit) (IsNumberedBy resets)
        (feed R.left R.failed R.pulls buffer.old r.old).coming
        (feed R.left R.failed R.pulls buffer.new r.new).coming) }
    ensures whole { OnOk result ((R.failed r.new ≡ false)
        × IsAtEnd (feed R.left R.failed R.pulls buffer.new r.new).coming) }
    ensures refusal { IfErr result
        (SaysWhy (AcceptsBy resets limit) limit
        (feed R.left R.failed R.pulls buffer.old r.old).coming (R.failed r.new)) }
{
    let header = read_header(buffer, r, limit)?;
    let sections = read_sections(alloc, buffer, r, header, resets)?;
    let lists = &sections.lists;
    let names = read_names(alloc, buffer, r, &header, &lists.inputs, &lists.latchs);
    let names = names_result(names)?;
    Ok(sections.with_names(names))
}

/// Reads the sections after the header line, and numbers their nodes.
fn read_sections<R: Source>(
    alloc: Global,
    buffer: &mut InputBuffer,
    r: &mut R,
    header: Header,
    resets: Resets,
) -> Result<Sections, ReadError>
    requires few { header.greatest < 2 ^ 31 }
    requires good { has_enough header.kind (numbers_of header) ≡ true }
    requires enough { header.inputs + header.latches + header.gates ≤ header.greatest }
    ensures { Makes section_cause (AreSectionsOf header)
        (feed R.left R.failed R.pulls buffer.old r.old)
        (feed R.left R.failed R.pulls buffer.new r.new) result
        (parse_sections_by resets header.kind (numbers_of header)) }
{
    let mut variables = DefinedVariables::new(alloc, header.kind, header.greatest);
    let mut lists = Lists::new(alloc);
    let numbered = read_lines(alloc, buffer, r, header, resets, &mut variables, &mut lists)?;
    Ok(Sections { numbered, lists })
}
