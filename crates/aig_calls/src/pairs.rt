//! Calls that give the text of a circuit made of two files, or of its clauses.

ghost use Rattle.aig_edits.specs.declared.pairing.Pairing.TheVariants.{Certificate, Merge, Miter};
ghost use Rattle.aig_calls.specs.Calls.{GivesResult, MakesJoint, Prints, RunsCertificate};
ghost use Rattle.aig_calls.specs.Statuses.{check_status, pair_status};

use crate::buffer::put;
use aig_base::{FromRead, ToWrite};
use aig_check_commands::print_obligations;
use aig_edits::{Comparison, Constraints, Pairing, Starts, print_joint};
use aig_subjects::FileSubject;
use aig_tool_commands::LIMIT;
use std::alloc::Global;

/// How calls compare two files: on runs that meet the constraints of both, whose registers with open start begin each as it likes.
pub(crate) const COMPARISON: Comparison = Comparison {
    starts: Starts::Apart,
    constraints: Constraints::OfBoth,
};

/// Gives the text form of the circuit of two files: their miter, the first one beside its certificate, or both side
/// by side.
fn print_pair(
    alloc: Global,
    pairing: Pairing,
    file: &[u8],
    other: &[u8],
    out: &mut [u8],
    needed: &mut usize,
) -> u32
    ensures { GivesResult pair_status (Prints (MakesJoint LIMIT pairing file.now other.now)) result
        out.old out.new needed.old needed.new }
{
    let mut first = FromRead::new(file);
    let mut second = FromRead::new(other);
    let mut sink = ToWrite::new(Vec::new(alloc));
    let done = print_joint(alloc, pairing, &mut first, &mut second, LIMIT, &mut sink);
    put(done, sink, out, needed)
}

/// The text form of two files' miter, which is bad where their outputs or bad state properties differ.
#[unsafe(no_mangle)]
pub extern "C" fn aig_miter(
    alloc: Global,
    file: &[u8],
    other: &[u8],
    out: &mut [u8],
    needed: &mut usize,
) -> u32
    ensures { GivesResult pair_status
        (Prints (MakesJoint LIMIT (Miter COMPARISON) file.now other.now)) result
        out.old out.new needed.old needed.new }
{
    print_pair(alloc, Pairing::Miter(COMPARISON), file, other, out, needed)
}

/// The text form of a file's circuit beside its certificate.
#[unsafe(no_mangle)]
pub extern "C" fn aig_join(
    alloc: Global,
    file: &[u8],
    certificate: &[u8],
    out: &mut [u8],
    needed: &mut usize,
) -> u32
    ensures { GivesResult pair_status (Prints (MakesJoint LIMIT Certificate file.now
        certificate.now))
        result out.old out.new needed.old needed.new }
{
    print_pair(alloc, Pairing::Certificate, file, certificate, out, needed)
}

/// The text form of two files side by side.
#[unsafe(no_mangle)]
pub extern "C" fn aig_merge(
    alloc: Global,
    file: &[u8],
    other: &[u8],
    out: &mut [u8],
    needed: &mut usize,
) -> u32
    ensures { GivesResult pair_status (Prints (MakesJoint LIMIT Merge file.now other.now)) result
        out.old
        out.new needed.old needed.new }
{
    print_pair(alloc, Pairing::Merge, file, other, out, needed)
}

/// The clauses, in DIMACS form, that the proofs of `aig_check_certified` are of, behind their title, with the SHA-256 sums of both files:
/// after the line `c base` those of the joint circuit's query for step 0, and after the line `c step` those of its window.
#[unsafe(no_mangle)]
pub extern "C" fn aig_obligations(
    alloc: Global,
    file: &[u8],
    certificate: &[u8],
    optimize: bool,
    out: &mut [u8],
    needed: &mut usize,
) -> u32
    ensures { GivesResult check_status
        (Prints (RunsCertificate LIMIT optimize file.now certificate.now)) result out.old out.new
        needed.old needed.new }
{
    let first = FromRead::new(file);
    let second = FromRead::new(certificate);
    let mut sink = ToWrite::new(Vec::new(alloc));
    let own = FileSubject::Own;
    let done = print_obligations(alloc, LIMIT, own, optimize, first, second, &mut sink);
    put(done, sink, out, needed)
}
