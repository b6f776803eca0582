//! Hints of a step for other clauses, and where those for each begin.

ghost use Rattle.std.specs.Prelude.{◌≡◌, ◌++◌, OnOk, drop, false};
ghost use Rattle.aig_refutation.specs.Checking.{Live};
ghost use Rattle.aig_refutation.specs.Proofs.{hints_at};
ghost use Rattle.aig_refutation.specs.Rat.{hints_for};
ghost use Rattle.aig_refutation.specs.Starts.{AreStarts, IsStart, start_in, with_start};
ghost use Rattle.aig_refutation.specs.Tables.{Holds, place_in};
ghost use Rattle.aig_refutation.specs.Tokens.{said_numbers};

use crate::list::push;
use crate::numbered::Numbered;
use crate::words::Number;
use aig_base::MemoryError;

/// What stands for a clause for which there are no hints.
const NONE: usize = 0;

/// What stands for a clause for which there are hints at several places.
const SEVERAL: usize = usize::MAX;

/// What stands for the clause at a place.
pub(crate) fn start_at(starts: &[usize], place: usize) -> usize
    ensures { result ≡ start_in starts.now place }
{
    if place < starts.len() {
        starts[place]
    } else {
        NONE
    }
}

/// Says for the clause of a number that hints begin at an index.
fn note(numbered: &Numbered, number: u32, start: usize, starts: &mut [usize])
    ensures { starts.new ≡ with_start (place_in numbered.now number) start starts.old }
{
    let Some(place) = numbered.place(number) else {
        return;
    };
    if place < starts.len() {
        starts[place] = if starts[place] == NONE {
            start
        } else {
            SEVERAL
        };
    }
}

/// Finds where the hints for each clause begin.
pub(crate) fn find_starts(
    numbered: &Numbered,
    groups: &[Number],
    starts: &mut Vec<usize>,
) -> Result<(), MemoryError>
    ensures { (live : Live) → Holds numbered.now live
        → OnOk result (AreStarts numbered.now groups.now groups.now starts.new.items) }
{
    starts.clear();
    starts.resize(numbered.clauses().len(), NONE)?;
    for passed in 0..groups.len() {
        let i = groups.len() - 1 - passed;
        if !groups[i].positive {
            note(numbered, groups[i].value, i + 1, starts);
        }
    }
    Ok(())
}

/// Appends the hints for the clause of a number, wherever they are.
fn push_all_for(groups: &[Number], number: u32, hints: &mut Vec<u32>) -> Result<(), MemoryError>
    ensures { OnOk result (hints.new.items
        ≡ hints.old.items ++ hints_for number false (said_numbers groups.now)) }
{
    let mut is_here = false;
    for hint in groups {
        if !hint.positive {
            is_here = hint.value == number;
        } else if is_here {
            push(hints, hint.value)?;
        }
    }
    Ok(())
}

/// Appends the hints that begin at an index, up to those for the next clause.
fn push_from(groups: &[Number], start: usize, hints: &mut Vec<u32>) -> Result<(), MemoryError>
    ensures { OnOk result (hints.new.items
        ≡ hints.old.items ++ hints_at (said_numbers (drop start groups.now))) }
{
    for i in start..groups.len() {
        if !groups[i].positive {
            return Ok(());
        }
        push(hints, groups[i].value)?;
    }
    Ok(())
}

/// Appends the hints for the clause of a number, which begin at this index, if at one.
pub(crate) fn push_hints_for(
    groups: &[Number],
    number: u32,
    start: usize,
    hints: &mut Vec<u32>,
) -> Result<(), MemoryError>
    ensures { IsStart groups.now groups.now number start → OnOk result (hints.new.items
        ≡ hints.old.items ++ hints_for number false (said_numbers groups.now)) }
{
    if start == NONE {
        return Ok(());
    }
    if start == SEVERAL {
        return push_all_for(groups, number, hints);
    }
    push_from(groups, start, hints)
}
