//! A command of `aigtool` on a file that lies in memory.

ghost use Rattle.std.specs.Prelude.{◌≡◌, ⊤, IfOk, IfSome, None, Some, [], ◌∷◌, codes, map, string_bytes, true};
ghost use Rattle.aig_format.specs.Circuit.{circuit_of, text_of};
ghost use Rattle.aig_format.specs.File.{File};
ghost use Rattle.aig_format.specs.Fits.{Accepts};

use aig::WriteError;
use aig_base::{FromRead, MemoryError, Sink, Source, StreamFault};
use aig_command_line::{Ending, FlushedWriter, OpenError, Opens};
use aig_tool_commands::{Commit, LIMIT, Outs, ToolError, act};
use std::alloc::Global;

/// The one file that there is, of the name `FILE`.
#[derive(Drop)]
struct OneFile<'a> {
    bytes: &'a [u8],
}

impl<'a> Opens for OneFile<'a> {
    type File = FromRead<&'a [u8]>;

    ghost opens = { λ one _ file. IfOk file
        (λ source. ⟦<FromRead<&'a [u8]> as Source>⟧.left source ≡ Some one.bytes.now) };

    fn open(&self, path: &str) -> Result<FromRead<&'a [u8]>, OpenError> {
        if path != "FILE" {
            return Err(OpenError::Refused);
        }
        Ok(FromRead::new(self.bytes))
    }
}

/// A sink that takes nothing.
#[derive(Drop)]
struct Closed {}

impl Sink for Closed {
    ghost held = { λ _. None };

    ghost failed = { λ _. true };

    fn put(&mut self, _piece: &[u8]) -> Result<usize, StreamFault> {
        Err(StreamFault::Failed)
    }
}

impl Commit for Closed {
    ghost committed = { λ _. true };

    ghost refused = { λ _. true };

    fn commit(self) -> Result<(), WriteError> {
        let Closed {} = self;
        Ok(())
    }

    fn discard(self) -> bool {
        let Closed {} = self;
        true
    }
}

/// No place for OUT.
#[derive(Drop)]
struct Nowhere {}

impl<'a> Outs<'a> for Nowhere {
    type Out = Closed;

    ghost leads = { λ _ _ _. ⊤ };

    fn find(&self, _path: &'a str) -> Result<Option<Closed>, ToolError> {
        Err(ToolError::Write(WriteError::Open))
    }
}

/// The words `text FILE`.
fn words(alloc: Global) -> Result<Vec<String>, MemoryError>
    ensures { IfOk result
        (λ words. map string_bytes words.items ≡ codes "text" ∷ codes "FILE" ∷ []) }
{
    let mut words = Vec::new(alloc);
    words.push(String::from_str(alloc, "text")?)?;
    words.push(String::from_str(alloc, "FILE")?)?;
    Ok(words)
}

/// What `text FILE` prints where FILE has these bytes, if the program does it.
pub fn printed(alloc: Global, bytes: &[u8]) -> Result<Option<Vec<u8>>, MemoryError>
    ensures { IfOk result (λ done. IfSome done (λ text. (f : File) × Accepts bytes.now LIMIT f
        × (text.items ≡ text_of (circuit_of f)))) }
{
    let words = Ok(Some(words(alloc)?));
    let mut out = FlushedWriter::new(Vec::new(alloc));
    match act(alloc, &words, &OneFile { bytes }, &Nowhere {}, &mut out) {
        Ending::Done => Ok(Some(out.into_inner())),
        _ => Ok(None),
    }
}
