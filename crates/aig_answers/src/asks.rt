//! Whether something is asked of a circuit, and whether there is room for it.

ghost use Rattle.std.specs.Prelude.{◌≡◌, IfErr, length};
ghost use Rattle.aig_answers.specs.Answers.{IsOfQuery, verdict_of};
ghost use Rattle.aig_answers.specs.CircuitVerdicts.{asks_verdict};
ghost use Rattle.aig_reader.specs.Verdicts.{verdict_by};

use crate::error::AnswerError;
use aig::{AigEdge, AigLatch, AigNode};
use aig_encode::EncodeError;
use aig_unroll::is_size_within;

/// Refuses a circuit of these lists whose `k` further steps may pass the limit, and one without bad edges, as nothing is asked of it.
pub(crate) fn check_asks(
    nodes: &[AigNode],
    latchs: &[AigLatch],
    bads: &[AigEdge],
    limit: usize,
    k: usize,
) -> Result<(), AnswerError>
    ensures said { verdict_by verdict_of result
        ≡ asks_verdict limit k (length nodes.now) (length latchs.now) (length bads.now) }
    ensures own { IfErr result IsOfQuery }
{
    if !is_size_within(nodes.len(), latchs.len(), k, limit) {
        return Err(AnswerError::Encode(EncodeError::TooLarge));
    }
    if bads.is_empty() {
        return Err(AnswerError::NoBads);
    }
    Ok(())
}
