//! The words of a command line.

ghost use Rattle.std.specs.Prelude.{◌≡◌, ◌≢◌, IfErr, IfOk, None, Some};
ghost use Rattle.std.specs.IoError.{error_kind};

use aig_base::MemoryError;
use std::env;
use std::io::{self, ErrorKind};
use std::rt::Env;

/// What reading words gave: none where one isn't UTF-8, and else memory ran out.
fn told(words: io::Result<Vec<String>>) -> Result<Option<Vec<String>>, MemoryError>
    ensures words { IfOk words (λ w. result ≡ Ok (Some w)) }
    ensures other { IfErr words (λ e. error_kind e ≡ ErrorKind.InvalidData → result ≡ Ok None) }
    ensures memory { IfErr words
        (λ e. error_kind e ≢ ErrorKind.InvalidData → result ≡ Err MemoryError.Memory) }
{
    match words {
        Ok(words) => Ok(Some(words)),
        Err(error) if error.kind() == ErrorKind::InvalidData => Ok(None),
        Err(_) => Err(MemoryError::Memory),
    }
}

/// The words after the program's name as the system gives them.
fn read(rt: &(impl Env + AllocGlobal)) -> io::Result<Vec<String>> {
    let mut words = Vec::new(rt.alloc());
    for word in env::args(rt)?.skip(1) {
        words.push(word)?;
    }
    Ok(words)
}

/// The words after the program's name, or none where one of them isn't UTF-8.
///
/// # Errors
///
/// - `Memory`: memory was refused.
pub fn words(rt: &(impl Env + AllocGlobal)) -> Result<Option<Vec<String>>, MemoryError> {
    told(read(rt))
}
