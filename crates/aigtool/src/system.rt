//! What the system tells.

ghost use Rattle.std.specs.Prelude.{◌≡◌, ◌≢◌, IfErr, IfOk, None, Some};
ghost use Rattle.std.specs.IoError.{error_kind};

use aig_base::MemoryError;
use std::fs;
use std::io::{self, ErrorKind};
use std::rt::Files;

/// What a call gave, or nothing where it failed, unless it failed for want of memory.
pub fn told<T>(answer: io::Result<T>) -> Result<Option<T>, MemoryError>
    ensures value { IfOk answer (λ value. result ≡ Ok (Some value)) }
    ensures nothing { IfErr answer
        (λ e. error_kind e ≢ ErrorKind.OutOfMemory → result ≡ Ok None) }
    ensures memory { IfErr answer
        (λ e. error_kind e ≡ ErrorKind.OutOfMemory → result ≡ Err MemoryError.Memory) }
{
    match answer {
        Ok(value) => Ok(Some(value)),
        Err(error) if error.kind() == ErrorKind::OutOfMemory => Err(MemoryError::Memory),
        Err(_) => Ok(None),
    }
}

/// What a text of limits, as Linux writes it, says of the size of files: a number of bytes, if there is a limit.
fn file_size(text: &str) -> Option<u64> {
    for line in text.lines() {
        if let Some(limits) = line.strip_prefix("Max file size") {
            return limits.split_whitespace().next()?.parse().ok();
        }
    }
    None
}

/// The greatest size that a file of this process may grow to.
///
/// A write past it would end the program by a signal, so the program asks beforehand.
pub fn size_limit<R: Files + AllocGlobal>(rt: &R) -> Result<u64, MemoryError> {
    let size = match told(fs::read_to_string(rt, "/proc/self/limits"))? {
        Some(text) => file_size(text.as_str()),
        None => None,
    };
    Ok(size.unwrap_or(u64::MAX))
}
