//! The files that a command reads, in the order of the words that name them.

ghost use Rattle.std.specs.Prelude.{◌≡◌, ◌+◌, ◌≤◌, ◌++◌, List, IfErr, IfOk, length, map, string_bytes, vec_capacity};
ghost use Rattle.aig_check_commands.specs.Fits.{AreFor, AreUnlisted, Fits, LacksOne};
ghost use Rattle.aig_check_commands.specs.Opening.{AreOpened};

use crate::command::Call;
use crate::error::CheckError;
use aig_command_line::{OpenError, Opens, Reopens};
use std::alloc::Global;

/// Opens the files at paths, in order, behind those that are open, for which there is room.
fn open_beside<F: Opens>(
    files: &F,
    paths: &[String],
    opened: &mut Vec<F::File>,
) -> Result<(), CheckError>
    requires { length opened.old.items + length paths.now ≤ vec_capacity opened.old }
    ensures opens { IfOk result (λ done. (more : List F.File)
        × AreOpened (F.opens files.now) (map string_bytes paths.now) more
        × (opened.new.items ≡ opened.old.items ++ more)
        × (vec_capacity opened.new ≡ vec_capacity opened.old)) }
    ensures refused { IfErr result (LacksOne (F.opens files.now) (map string_bytes paths.now)) }
{
    for path in paths {
        opened.push_reserved(files.open(path.as_str())?);
    }
    Ok(())
}

/// Opens the files at paths, in order, and keeps none of them.
fn try_each<F: Opens>(files: &F, paths: &[String]) -> Result<(), CheckError>
    ensures opens { IfOk result (λ done. (each : List F.File)
        × AreOpened (F.opens files.now) (map string_bytes paths.now) each) }
    ensures refused { IfErr result (LacksOne (F.opens files.now) (map string_bytes paths.now)) }
{
    for path in paths {
        files.open(path.as_str())?;
    }
    Ok(())
}

/// Opens FILE, the file beside it, and then what is given beside these. Where there is no memory for a list of them, each is tried, so
/// that one that can't be opened is told all the same.
pub(crate) fn open_all<F: Opens>(
    alloc: Global,
    files: &F,
    call: &Call<'_>,
) -> Result<Vec<F::File>, CheckError>
    requires { Fits call.now }
    ensures opens { let paths = map string_bytes call.now.paths.now
        ++ map string_bytes call.now.further.now in
        IfOk result (λ all. AreOpened (F.opens files.now) paths all.items) }
    ensures refused { let paths = map string_bytes call.now.paths.now
        ++ map string_bytes call.now.further.now in
        IfErr result (AreUnlisted (F.opens files.now) paths) }
    ensures fits { IfOk result (λ all. AreFor call.now.asked.command all.items) }
{
    let Ok(mut opened) = Vec::with_capacity(alloc, call.paths.len() + call.further.len()) else {
        try_each(files, call.paths)?;
        try_each(files, call.further)?;
        return Err(CheckError::Memory);
    };
    open_beside(files, call.paths, &mut opened)?;
    open_beside(files, call.further, &mut opened)?;
    Ok(opened)
}

/// Files that are opened a second time.
#[derive(Drop)]
pub(crate) struct Again<'a, F> {
    files: &'a F,
}

impl<'a, F> Again<'a, F> {
    /// The files that were opened by these.
    pub(crate) fn new(files: &'a F) -> Self
        ensures { result.files.now ≡ files.now }
    {
        Again { files }
    }
}

impl<'a, F: Reopens> Opens for Again<'a, F> {
    type File = F::File;

    ghost use Rattle.std.specs.Prelude.{IfOk, Ok};

    ghost opens = { λ again path opened. IfOk opened
        (λ file. F.opens again.files.now path (Ok file)) };

    fn open(&self, path: &str) -> Result<F::File, OpenError> {
        match self.files.reopen(path) {
            Some(opened) => opened,
            None => Err(OpenError::Refused),
        }
    }
}
