//! Calls that give the files whose bad states are a justice property's lasso or its rounds.

ghost use Rattle.aig_calls.specs.Calls.{GivesResult, MakesLive, MakesRounds, Prints};
ghost use Rattle.aig_calls.specs.Statuses.{edit_status};

use crate::buffer::put;
use aig_base::{FromRead, ToWrite};
use aig_edits::{Fairness, print_live, print_rounds};
use aig_tool_commands::LIMIT;
use std::alloc::Global;

/// The text form of a circuit whose bad state is reached at a step exactly where a file's justice property `j`, from 0 on, has a fair
/// lasso that ends there.
#[unsafe(no_mangle)]
pub extern "C" fn aig_live(
    alloc: Global,
    file: &[u8],
    j: usize,
    out: &mut [u8],
    needed: &mut usize,
) -> u32
    ensures { GivesResult edit_status (Prints (MakesLive LIMIT j file.now)) result out.old out.new
        needed.old needed.new }
{
    let mut source = FromRead::new(file);
    let mut sink = ToWrite::new(Vec::new(alloc));
    let done = print_live(alloc, Fairness::Justice(j), &mut source, LIMIT, &mut sink);
    put(done, sink, out, needed)
}

/// The text form of a circuit whose bad state is reached at a step exactly where `count` rounds of a file's justice property `j`, from
/// 0 on, have ended by then: in each of them each literal of the property and of fairness is true.
#[unsafe(no_mangle)]
pub extern "C" fn aig_rounds(
    alloc: Global,
    file: &[u8],
    j: usize,
    count: usize,
    out: &mut [u8],
    needed: &mut usize,
) -> u32
    ensures { GivesResult edit_status (Prints (MakesRounds LIMIT j count file.now)) result out.old
        out.new
        needed.old needed.new }
{
    let mut source = FromRead::new(file);
    let mut sink = ToWrite::new(Vec::new(alloc));
    let done = print_rounds(
        alloc,
        Fairness::Justice(j),
        count,
        &mut source,
        LIMIT,
        &mut sink,
    );
    put(done, sink, out, needed)
}
