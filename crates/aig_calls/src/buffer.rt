//! Memory of the caller.

ghost use Rattle.aig_base.specs.Wrapped.{writer_of};
ghost use Rattle.aig_calls.specs.Calls.{GivesItems};
ghost use Rattle.aig_calls.specs.Listings.{text_in};

use crate::status::HasNumber;
use aig_base::ToWrite;
use aig_giving::give;

/// Gives the text that was written, or says by the error's number why there is none.
pub(crate) fn put<E: HasNumber>(
    done: Result<(), E>,
    sink: ToWrite<Vec<u8>>,
    out: &mut [u8],
    needed: &mut usize,
) -> u32
    ensures { let text = text_in done (writer_of sink).items in
        GivesItems E.number text result out.old out.new needed.old needed.new }
{
    match done {
        Ok(()) => give(sink.into_inner().as_slice(), out, needed),
        Err(error) => error.number(),
    }
}
