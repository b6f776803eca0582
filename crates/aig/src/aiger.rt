//! Reading and writing AIGER.

ghost use Rattle.std.specs.Prelude.{◌≡◌, ◌≢◌, ◌⊎◌, ◌<◌, ◌≤◌, ◌^◌, ℕ, Err, List, Some, false, length, IfErr, IfOk, IsErrOf, IsOk, IsTrue, OnOk, true, if◌then◌else◌};
ghost use Rattle.std.specs.Io.KnownBytes.{Appends};
ghost use Rattle.aig_circuit.specs.Reencode.{reencoded};
ghost use Rattle.aig_format.specs.Circuit.{binary_of, circuit_of, file_of, text_of, IsReadAgain};
ghost use Rattle.aig_format.specs.declared.FileKind.TheVariants.{Binary, Text};
ghost use Rattle.aig_format.specs.File.{File};
ghost use Rattle.aig_format.specs.Fits.{Accepts};
ghost use Rattle.aig_reader.specs.Reading.{IsReadAs};
ghost use Rattle.aig_reader.specs.Verdicts.{Accepted, Judges, verdict_by, verdict_of};
ghost use Rattle.aig_writer.specs.Numbering.{IsBinaryNumbering};
ghost use Rattle.aig_output.specs.Sinks.{AppendsBeginning, WritesOrStops};
ghost use Rattle.aig_circuit.specs.Circuit.{IsClosed};
ghost use Rattle.aig_format.specs.Writable.{IsWritable};
ghost use Rattle.aig.specs.Reading.{IsFileCircuit};
ghost use Rattle.aig.specs.Writing.{IsRefusal, IsVerdictOf};
ghost use Rattle.aig.specs.Opened.{ReadsFile, WritesFile};
ghost use Rattle.aig.specs.declared.aiger.WriteError.TheVariants as errors;

use crate::files::{Makes, Opens, SystemFiles};
use crate::graph::Aig;
use aig_base::{MemoryError, Sink, Source, StreamFault};
use aig_reader::ReadError;
use std::alloc::Global;
use std::fmt;
use std::path::Path;
use std::rt::Files;
use thiserror::Error;

/// Why a circuit isn't written.
#[derive(Clone, Copy, Debug, PartialEq, Eq, Error)]
pub enum WriteError {
    /// Memory was refused.
    #[error("out of memory")]
    Memory = 1,
    /// The writer failed in this call.
    #[error("write failed")]
    Stream = 2,
    /// A leaf is neither an input nor a latch's.
    #[error("a leaf is neither input nor latch")]
    FreeLeaf = 3,
    /// An initial edge isn't constant.
    #[error("an initial edge is not constant")]
    InitialEdge = 4,
    /// The name of an input or a latch has a line feed.
    #[error("a name holds a line feed")]
    Name = 5,
    /// There are more than 2^31 nodes, or more than 2^32 - 1 entries in a list or a justice set.
    #[error("too large for the format")]
    TooLarge = 6,
    /// The file can't be made.
    #[error("cannot create")]
    Open = 7,
}

impl From<MemoryError> for WriteError {
    ghost from_gives = { λ _ r. r ≡ errors.Memory };

    fn from(_error: MemoryError) -> WriteError {
        WriteError::Memory
    }
}

impl From<StreamFault> for WriteError {
    ghost from_gives = { λ _ r. r ≡ errors.Stream };

    fn from(_fault: StreamFault) -> WriteError {
        WriteError::Stream
    }
}

impl Aig {
    /// Returns the circuit of an AIGER file, text or binary, that is read from `r` up to its end.
    ///
    /// The format is that of 20071012, with the resets and properties of AIGER 1.9 ("Reset logic", "Properties"). Lines
    /// end with a line feed, and numbers stand one space apart. Variable `v` is node `v`. Only a text file may leave
    /// out variables or have a gate before its operands: then nodes are numbered by level, the inputs and latches first
    /// and each gate after its operands, and within a level by variable. Names of inputs and latches are kept, and
    /// other names and the comment are dropped.
    ///
    /// `limit` is on variables, false among them: a file whose greatest variable is `M` has `M + 1`. It bounds the
    /// memory that is taken for the counts of the header line. All other memory is taken as lines come.
    ///
    /// # Requirements
    ///
    /// - `1 <= limit <= 2^31`.
    ///
    /// # Errors
    ///
    /// The first line, or gate of a binary file, that is wrong decides. What `r` has left after an error isn't said.
    ///
    /// - `Memory`: memory was refused.
    /// - `Stream`: a read failed in this call.
    /// - `Header`: the first line isn't a good header line.
    /// - `TooMany`: the header line is good, and `M + 1` passes `limit`.
    /// - `Syntax`: a line of the named section is malformed or cut, or has a number past 2^32 - 1.
    /// - `Literal`: a number of the named section is no literal that may stand there. Variables that aren't defined,
    ///   and gates that depend on themselves, are looked for after the last gate.
    /// - `Delta`: a gate of a binary file is cut, or its differences aren't allowed.
    /// - `Name`: a name line is malformed or cut, is for no entry or for one that has a name, or names an input or a
    ///   latch by bytes that aren't UTF-8.
    /// - `Open`: never.
    ///
    /// # Examples
    ///
    /// The and of two inputs:
    ///
    /// ```
    /// let file = b"aag 3 2 0 1 1\n2\n4\n6\n6 4 2\n";
    /// let mut source = FromRead::new(file.as_slice());
    /// let aig = Aig::from_aiger(alloc, &mut source, 1 << 24)?;
    /// assert!(rt; aig.num_nodes() == 4);
    /// assert!(rt; aig.inputs() == [1, 2].as_slice());
    /// assert!(rt; aig.outputs() == [AigEdge::from(3)].as_slice());
    /// ```
    pub fn from_aiger<R: Source>(alloc: Global, r: &mut R, limit: usize) -> Result<Aig, ReadError>
        requires some { 1 ≤ limit }
        requires few { limit ≤ 2 ^ 31 }
        // The bytes that were read are a file that is accepted, and the circuit is that file's.
        ensures circuit { IfOk result
            (IsReadAs (λ bytes. Accepts bytes limit) IsFileCircuit (R.left r.old) (R.left r.new)) }
        // The limit is on its nodes.
        ensures few { IfOk result (λ aig. length aig.nodes ≤ limit) }
        // It has a written form: no leaf is free, initial edges are constant, and names hold no line feed.
        ensures writable { IfOk result IsWritable }
        // Each file that is accepted is taken, and a refusal says why.
        ensures verdict { Judges (λ _. Accepted) limit (R.left r.old) (R.left r.new)
            (R.failed r.new) (verdict_by verdict_of result) }
        ensures never_open { IsErrOf result ReadError.Open → ⊥ }
    {
        let lists = aig_reader::read(alloc, r, limit)?;
        Ok(Aig::from_lists(lists))
    }

    /// Returns the circuit of the AIGER file at the path `f`, read as `from_aiger` reads it.
    ///
    /// # Requirements
    ///
    /// - `1 <= limit <= 2^31`.
    ///
    /// # Errors
    ///
    /// - `Open`: the path can't be opened.
    /// - Each other error is one of `from_aiger`.
    pub fn from_file(
        rt: &impl Files,
        alloc: Global,
        f: Path<'_>,
        limit: usize,
    ) -> Result<Aig, ReadError>
        requires some { 1 ≤ limit }
        requires few { limit ≤ 2 ^ 31 }
        // The circuit is that of a file that is accepted.
        ensures circuit { IfOk result (λ aig. (file : File) × (bytes : List ℕ)
            × Accepts bytes limit file × (aig ≡ circuit_of file)) }
        // The limit is on its nodes.
        ensures few { IfOk result (λ aig. length aig.nodes ≤ limit) }
    {
        Aig::read_file(alloc, &SystemFiles::new(rt), f.as_str(), limit)
    }

    /// The circuit of the file of a path.
    fn read_file<F: Opens>(
        alloc: Global,
        files: &F,
        path: &str,
        limit: usize,
    ) -> Result<Aig, ReadError>
        requires some { 1 ≤ limit }
        requires few { limit ≤ 2 ^ 31 }
        ensures circuit { IfOk result (λ aig. (file : File) × (bytes : List ℕ)
            × Accepts bytes limit file × (aig ≡ circuit_of file)) }
        ensures few { IfOk result (λ aig. length aig.nodes ≤ limit) }
        // The answer is that to the bytes of the file that was opened, or Open where none can be.
        ensures reads { ReadsFile F.File.left F.File.failed (F.opens path.now files.now) limit
            result }
    {
        match files.open(path) {
            Ok(mut file) => Aig::from_aiger(alloc, &mut file, limit),
            Err(error) => Err(error),
        }
    }

    /// Writes the text form to `w` (AIGER format 20071012; AIGER 1.9, "Reset logic" and "Properties").
    ///
    /// Of the four counts of AIGER 1.9 the header line has as many as go up to the last that isn't 0. A reset is left
    /// out where the initial edge is false. Gates come in rising number, with the greater operand first. Names of nodes
    /// that are neither inputs nor latches are left out. It takes no memory of its own, and doesn't flush `w`.
    ///
    /// # Errors
    ///
    /// Of the first four the first that applies is returned, before any byte is written: `w` stays as it was.
    ///
    /// - `FreeLeaf`: a leaf is neither an input nor a latch's (`is_closed`).
    /// - `InitialEdge`: an initial edge isn't constant (`gate_init_to_constraint` replaces it).
    /// - `Name`: the name of an input or a latch has a line feed.
    /// - `TooLarge`: there are more than 2^31 nodes (`fits_lits`), or more than 2^32 - 1 entries in a list or a justice
    ///   set.
    /// - `Stream`: `w` failed in this call. A beginning of the text was written.
    /// - `Memory`, `Open`: never.
    pub fn write_text<W: Sink>(&self, w: &mut W) -> Result<(), WriteError>
        ensures tells { IsVerdictOf self.now result }
        // All of the text was written, and the writer has not failed.
        ensures ok { OnOk result
            (Appends (W.held w.old) (W.held w.new) (text_of self.now) × (W.failed w.new ≡ false)) }
        // What was written is read again, within any limit from the count of nodes up.
        ensures again { OnOk result (IsReadAgain self.now (file_of Text self.now)) }
        // A beginning of the text was written, and the writer has failed in this call.
        ensures stream { IsErrOf result WriteError.Stream
            → AppendsBeginning (W.held w.old) (W.held w.new) (text_of self.now)
            × IsTrue (W.failed w.new) }
        // Every other refusal comes before the first byte, and leaves the writer as it was.
        ensures kept { IfErr result (λ e. e ≢ WriteError.Stream → w.new ≡ w.old) }
        // Memory and Open are never answered.
        ensures faults { IfErr result (λ e. IsRefusal e ⊎ (e ≡ WriteError.Stream)) }
    {
        self.check_writable()?;
        Ok(aig_writer::write_text(w, &self.view())?)
    }

    /// Writes the binary form to `w`, which is that of the circuit re-encoded (AIGER format 20071012, "Binary
    /// encoding").
    ///
    /// Properties and names are written as `write_text` writes them, and differences in their shortest spelling. It
    /// takes memory for one table of new numbers, and doesn't flush `w`.
    ///
    /// # Errors
    ///
    /// Of the first five the first that applies is returned, before any byte is written: `w` stays as it was.
    ///
    /// - `FreeLeaf`: a leaf is neither an input nor a latch's (`is_closed`).
    /// - `InitialEdge`: an initial edge isn't constant (`gate_init_to_constraint` replaces it).
    /// - `Name`: the name of an input or a latch has a line feed.
    /// - `TooLarge`: there are more than 2^31 nodes (`fits_lits`), or more than 2^32 - 1 entries in a list or a justice
    ///   set.
    /// - `Memory`: memory was refused.
    /// - `Stream`: `w` failed in this call. A beginning of the bytes was written.
    /// - `Open`: never.
    pub fn write_binary<W: Sink>(&self, w: &mut W) -> Result<(), WriteError>
        ensures tells { IsVerdictOf self.now result }
        // All of the bytes were written, and the writer has not failed.
        ensures ok { OnOk result (Appends (W.held w.old) (W.held w.new) (binary_of self.now)
            × (W.failed w.new ≡ false)) }
        // What was written is read again as the re-encoded circuit, within any limit from the count of nodes up.
        ensures again { OnOk result
            (IsReadAgain (reencoded self.now) (file_of Binary (reencoded self.now))) }
        // A beginning of the bytes was written, and the writer has failed in this call.
        ensures stream { IsErrOf result WriteError.Stream
            → AppendsBeginning (W.held w.old) (W.held w.new) (binary_of self.now)
            × IsTrue (W.failed w.new) }
        // Every other refusal comes before the first byte, and leaves the writer as it was.
        ensures kept { IfErr result (λ e. e ≢ WriteError.Stream → w.new ≡ w.old) }
        ensures never_open { IsErrOf result WriteError.Open → ⊥ }
    {
        self.check_writable()?;
        let circuit = self.view();
        let numbers = aig_writer::binary_numbers(&circuit)?;
        Ok(aig_writer::write_binary(w, &circuit, &numbers)?)
    }

    /// Writes the circuit to the file at the path `f`: in the text form where `ascii` is true, and else in the binary
    /// form.
    ///
    /// A file that is there is overwritten, also where a write fails then.
    ///
    /// # Errors
    ///
    /// The first that applies is returned. The file is made only where none of the first five applies.
    ///
    /// - `FreeLeaf`, `InitialEdge`, `Name`, `TooLarge`: where `write_text` returns them.
    /// - `Memory`: memory was refused. Never of the text form.
    /// - `Open`: the file can't be made.
    /// - `Stream`: a write failed. The file holds a beginning of the form.
    pub fn to_file(&self, rt: &impl Files, f: Path<'_>, ascii: bool) -> Result<(), WriteError>
        ensures tells { IsVerdictOf self.now result }
        // Of the text form Memory is never answered.
        ensures no_memory { ascii ≡ true → IsErrOf result WriteError.Memory → ⊥ }
    {
        self.write_file(&mut SystemFiles::new(rt), f.as_str(), ascii)
    }

    /// Writes a form to the file of a path, which is made once only the write can fail.
    fn write_file<M: Makes>(&self, files: &mut M, path: &str, ascii: bool) -> Result<(), WriteError>
        ensures tells { IsVerdictOf self.now result }
        ensures no_memory { ascii ≡ true → IsErrOf result WriteError.Memory → ⊥ }
        // The whole form was written to the file that was made of the path, or a beginning and then it failed.
        ensures writes { let form = if ascii then text_of self.now else binary_of self.now in
            WritesFile M.File.held M.File.failed (M.makes path.now) (M.closes path.now)
            files.old result form files.new }
    {
        self.check_writable()?;
        let numbers = self.form_numbers(ascii)?;
        let mut file = files.make(path)?;
        let written = self.write_form(&mut file, ascii, &numbers);
        files.close(path, file);
        Ok(written?)
    }

    /// The table of new numbers that a form is written through: none for the text form.
    fn form_numbers(&self, ascii: bool) -> Result<Vec<usize>, MemoryError>
        requires { IsClosed self.now }
        ensures numbers { IfOk result
            (λ numbers. ascii ≡ false → IsBinaryNumbering self.now numbers.items) }
        ensures no_memory { ascii ≡ true → IsOk result }
    {
        if ascii {
            return Ok(Vec::new(self.allocator()));
        }
        aig_writer::binary_numbers(&self.view())
    }

    /// Writes the text form where `ascii` is true, and else the binary form through its table of new numbers.
    fn write_form<W: Sink>(
        &self,
        w: &mut W,
        ascii: bool,
        numbers: &[usize],
    ) -> Result<(), StreamFault>
        requires closed { IsClosed self.now }
        requires few { length self.now.nodes ≤ 2 ^ 31 }
        requires numbers { ascii ≡ false → IsBinaryNumbering self.now numbers.now }
        ensures { let form = if ascii then text_of self.now else binary_of self.now in
            WritesOrStops W.held W.failed w.old result form w.new }
    {
        if ascii {
            aig_writer::write_text(w, &self.view())
        } else {
            aig_writer::write_binary(w, &self.view(), numbers)
        }
    }
}

/// Prints the text form, as `write_text` writes it.
///
/// It takes no memory of its own. The options of a placeholder, as its width, change nothing.
///
/// # Errors
///
/// - `fmt::Error`: one of the first four errors of `write_text` applies, and nothing is printed; or the formatter
///   failed.
impl fmt::Display for Aig {
    ghost output = { λ aig. Some (text_of aig) };

    // The options of the placeholder change nothing.
    ghost styled_output = { λ aig _. Some (text_of aig) };

    fn fmt<W: fmt::Write>(&self, f: &mut fmt::Formatter<W>) -> fmt::Result {
        match self.check_writable() {
            Ok(()) => aig_writer::fmt_text(&self.view(), f),
            Err(_) => Err(fmt::Error),
        }
    }
}
