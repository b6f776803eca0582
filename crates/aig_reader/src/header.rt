//! The header line.

ghost use Rattle.std.specs.Prelude.{◌≡◌, ◌+◌, ◌≤◌, true, IfOk};
ghost use Rattle.aig_format.specs.Fits.{has_enough};
ghost use Rattle.aig_lexer.specs.Header.{numbers_of};
ghost use Rattle.aig_lexer.specs.Takes.{feed};
ghost use Rattle.aig_reader.specs.Headers.{ReadsHeader};

use crate::error::ReadError;
use aig_base::Source;
use aig_lexer::{FileKind, Header, InputBuffer, header_line};

/// Whether the greatest variable is great enough for all that are defined: a text file may leave variables out, a binary
/// file has none but those.
fn is_great_enough(header: Header) -> bool
    ensures good { result ≡ has_enough header.kind (numbers_of header) }
    ensures enough { result ≡ true
        → header.inputs + header.latches + header.gates ≤ header.greatest }
{
    let defined = header.inputs as u64 + header.latches as u64 + header.gates as u64;
    match header.kind {
        FileKind::Text => defined <= header.greatest as u64,
        FileKind::Binary => header.greatest as u64 == defined,
    }
}

/// Reads the header line, which is good, and within the limit of `limit` variables, the false one counted.
pub fn read_header<R: Source>(
    buffer: &mut InputBuffer,
    r: &mut R,
    limit: usize,
) -> Result<Header, ReadError>
    ensures exact { ReadsHeader limit (feed R.left R.failed R.pulls buffer.old r.old)
        (feed R.left R.failed R.pulls buffer.new r.new) result }
    ensures enough { IfOk result (λ h. h.inputs + h.latches + h.gates ≤ h.greatest) }
{
    let header = header_line(buffer, r)?;
    if !is_great_enough(header) {
        return Err(ReadError::Header);
    }
    if header.greatest as usize >= limit {
        return Err(ReadError::TooMany);
    }
    Ok(header)
}
