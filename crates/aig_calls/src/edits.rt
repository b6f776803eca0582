//! Calls that give what is made of one file.

ghost use Rattle.aig_edits.specs.declared.editing.Edit.TheVariants as edits;
ghost use Rattle.aig_calls.specs.Calls.{GivesResult, GivesAt, MakesEdit, MakesInfo, MakesQuestion, MakesReduction, Prints};
ghost use Rattle.aig_calls.specs.Statuses.{edit_status};

use crate::buffer::put;
use crate::steps::step_of;
use aig_base::{FromRead, ToWrite};
use aig_edits::{Edit, print_info, print_question, print_reduction};
use aig_tool_commands::LIMIT;
use std::alloc::Global;

/// Gives the text form of the circuit that an edit makes of a file's circuit.
fn print_edit(alloc: Global, edit: &Edit, file: &[u8], out: &mut [u8], needed: &mut usize) -> u32
    ensures { GivesResult edit_status (Prints (MakesEdit LIMIT edit.now file.now)) result out.old
        out.new
        needed.old needed.new }
{
    let mut source = FromRead::new(file);
    let mut sink = ToWrite::new(Vec::new(alloc));
    let done = aig_edits::print_edit(alloc, edit, &mut source, LIMIT, &mut sink);
    put(done, sink, out, needed)
}

/// The text form of a file's circuit, cut to its cone of influence.
#[unsafe(no_mangle)]
pub extern "C" fn aig_refine(alloc: Global, file: &[u8], out: &mut [u8], needed: &mut usize) -> u32
    ensures { GivesResult edit_status (Prints (MakesEdit LIMIT edits.Refine file.now)) result
        out.old
        out.new needed.old needed.new }
{
    print_edit(alloc, &Edit::Refine, file, out, needed)
}

/// The text form of a file's circuit in the numbering of the binary form.
#[unsafe(no_mangle)]
pub extern "C" fn aig_reencode(
    alloc: Global,
    file: &[u8],
    out: &mut [u8],
    needed: &mut usize,
) -> u32
    ensures { GivesResult edit_status (Prints (MakesEdit LIMIT edits.Reencode file.now)) result
        out.old
        out.new needed.old needed.new }
{
    print_edit(alloc, &Edit::Reencode, file, out, needed)
}

/// The text form of a file's circuit with its constraints joined to its bad literal and the first output. A file with constraints
/// and more than one bad literal is refused.
#[unsafe(no_mangle)]
pub extern "C" fn aig_move_constraints(
    alloc: Global,
    file: &[u8],
    out: &mut [u8],
    needed: &mut usize,
) -> u32
    ensures { GivesResult edit_status (Prints (MakesEdit LIMIT edits.Move file.now)) result out.old
        out.new needed.old needed.new }
{
    print_edit(alloc, &Edit::Move, file, out, needed)
}

/// The text form of a file's circuit with its bad literals as one.
#[unsafe(no_mangle)]
pub extern "C" fn aig_compress_bads(
    alloc: Global,
    file: &[u8],
    out: &mut [u8],
    needed: &mut usize,
) -> u32
    ensures { GivesResult edit_status (Prints (MakesEdit LIMIT edits.Compress file.now)) result
        out.old
        out.new needed.old needed.new }
{
    print_edit(alloc, &Edit::Compress, file, out, needed)
}

/// The text form of a file's circuit with its outputs as its bad literals. A file with bad literals is refused.
#[unsafe(no_mangle)]
pub extern "C" fn aig_outputs_as_bads(
    alloc: Global,
    file: &[u8],
    out: &mut [u8],
    needed: &mut usize,
) -> u32
    ensures { GivesResult edit_status (Prints (MakesEdit LIMIT edits.Bads file.now)) result out.old
        out.new needed.old needed.new }
{
    print_edit(alloc, &Edit::Bads, file, out, needed)
}

/// The text form of a file's circuit with its bad literal `n`, from 0 on, as the only one.
#[unsafe(no_mangle)]
pub extern "C" fn aig_property_alone(
    alloc: Global,
    file: &[u8],
    n: usize,
    out: &mut [u8],
    needed: &mut usize,
) -> u32
    ensures { GivesResult edit_status (Prints (MakesEdit LIMIT (edits.Property n) file.now)) result
        out.old out.new needed.old needed.new }
{
    print_edit(alloc, &Edit::Property(n), file, out, needed)
}

/// The text form of a file's circuit with true as its only bad literal.
#[unsafe(no_mangle)]
pub extern "C" fn aig_possible(
    alloc: Global,
    file: &[u8],
    out: &mut [u8],
    needed: &mut usize,
) -> u32
    ensures { GivesResult edit_status (Prints (MakesEdit LIMIT edits.Possible file.now)) result
        out.old
        out.new needed.old needed.new }
{
    print_edit(alloc, &Edit::Possible, file, out, needed)
}

/// The text form of the cone of a file's output `n`, from 0 on.
#[unsafe(no_mangle)]
pub extern "C" fn aig_cone(
    alloc: Global,
    file: &[u8],
    n: usize,
    out: &mut [u8],
    needed: &mut usize,
) -> u32
    ensures { GivesResult edit_status (Prints (MakesEdit LIMIT (edits.Cone n) file.now)) result
        out.old
        out.new needed.old needed.new }
{
    print_edit(alloc, &Edit::Cone(n), file, out, needed)
}

/// The text form of a file's circuit with `k` further steps.
#[unsafe(no_mangle)]
pub extern "C" fn aig_unroll(
    alloc: Global,
    file: &[u8],
    k: u64,
    out: &mut [u8],
    needed: &mut usize,
) -> u32
    ensures { GivesAt k edit_status (Prints (MakesEdit LIMIT (edits.Unroll k) file.now)) result
        out.old out.new needed.old needed.new }
{
    match step_of(k) {
        Ok(k) => print_edit(alloc, &Edit::Unroll(k), file, out, needed),
        Err(status) => status,
    }
}

/// The text form of what of a file's circuit its query needs.
#[unsafe(no_mangle)]
pub extern "C" fn aig_reduce(alloc: Global, file: &[u8], out: &mut [u8], needed: &mut usize) -> u32
    ensures { GivesResult edit_status (Prints (MakesReduction LIMIT file.now)) result out.old
        out.new
        needed.old needed.new }
{
    let mut source = FromRead::new(file);
    let mut sink = ToWrite::new(Vec::new(alloc));
    let done = print_reduction(alloc, &mut source, LIMIT, &mut sink);
    put(done, sink, out, needed)
}

/// The text form of the question whether a bad state of a file's machine is reached up to step `k`.
#[unsafe(no_mangle)]
pub extern "C" fn aig_question(
    alloc: Global,
    file: &[u8],
    k: u64,
    out: &mut [u8],
    needed: &mut usize,
) -> u32
    ensures { GivesAt k edit_status (Prints (MakesQuestion LIMIT k file.now)) result out.old out.new
        needed.old needed.new }
{
    match step_of(k) {
        Ok(k) => {
            let mut source = FromRead::new(file);
            let mut sink = ToWrite::new(Vec::new(alloc));
            let done = print_question(alloc, k, &mut source, LIMIT, &mut sink);
            put(done, sink, out, needed)
        }
        Err(status) => status,
    }
}

/// The counts of a file's circuit, a line each.
#[unsafe(no_mangle)]
pub extern "C" fn aig_info(alloc: Global, file: &[u8], out: &mut [u8], needed: &mut usize) -> u32
    ensures { GivesResult edit_status (Prints (MakesInfo LIMIT file.now)) result out.old out.new
        needed.old needed.new }
{
    let mut source = FromRead::new(file);
    let mut sink = ToWrite::new(Vec::new(alloc));
    let done = print_info(alloc, &mut source, LIMIT, &mut sink);
    put(done, sink, out, needed)
}
