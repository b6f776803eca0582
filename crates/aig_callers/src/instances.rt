//! The programs `aigcheck` and `aigedit` on files that lie in memory.

ghost use Rattle.std.specs.Prelude.{◌≡◌, ◌^◌, ◌∷◌, [], ℕ, List, Option, IfOk, IfSome, Some, codes, map, string_bytes};
ghost use Rattle.aig_change.specs.Changes.{CompressesBads};
ghost use Rattle.aig_circuit.specs.Circuit.{Circuit};
ghost use Rattle.aig_format.specs.Circuit.{circuit_of, text_of};
ghost use Rattle.aig_format.specs.File.{File};
ghost use Rattle.aig_format.specs.Fits.{Accepts};
ghost use Rattle.aig_runs.specs.Induction.{IsKInductive};
ghost use Rattle.aig_runs.specs.Queries.{IsSafeTo};
ghost use Rattle.aig_runs.specs.Safety.{IsSafeAt};
ghost use Rattle.aig_runs.specs.declared.window.Window.TheVariants.{Plain};
ghost use Rattle.aig_edit_laws.specs.Fair.{HasFairLasso, HasFairRun};
ghost use Rattle.aig_edit_laws.specs.Shown.{HasBadAt, HasOutput, HasRun};
ghost use Rattle.aig_edit_laws.specs.declared.fairness.Fairness.TheVariants.{Alone, Justice};
ghost use Rattle.aig_join.specs.Constraints.{AreEqualMachinesBy};
ghost use Rattle.aig_check_commands.specs.Running.{IsShownLine};
ghost use Rattle.aig_callers.specs.Instances.{AreOf, HasNoLassoTo, HasNoRunTo, IsOf, IsPrinted};
ghost use Rattle.aig_callers.specs.Texts.{usual};

use aig_base::{FromRead, MemoryError, Source};
use aig_command_line::{Ending, FlushedWriter, OpenError, Opens};
use std::alloc::Global;

/// The files that there are: those of the names `FILE` and `OTHER`, and one that has each other name.
#[derive(Drop)]
pub struct Files<'a> {
    /// The bytes of FILE.
    pub file: &'a [u8],
    /// The bytes of OTHER.
    pub other: &'a [u8],
    /// The bytes of any other file.
    pub beside: &'a [u8],
}

impl<'a> Opens for Files<'a> {
    type File = FromRead<&'a [u8]>;

    ghost opens = { λ files path opened. IfOk opened (λ source.
        (path ≡ codes "FILE" → ⟦<FromRead<&'a [u8]> as Source>⟧.left source ≡ Some files.file.now)
        × (path ≡ codes "OTHER"
        → ⟦<FromRead<&'a [u8]> as Source>⟧.left source ≡ Some files.other.now)) };

    fn open(&self, path: &str) -> Result<FromRead<&'a [u8]>, OpenError> {
        match path {
            "FILE" => Ok(FromRead::new(self.file)),
            "OTHER" => Ok(FromRead::new(self.other)),
            _ => Ok(FromRead::new(self.beside)),
        }
    }
}

/// What `aigcheck` prints for these words where the files have these bytes, if it does what they ask for.
pub fn printed_of_check(alloc: Global, words: Vec<String>, files: &Files<'_>) -> Option<Vec<u8>>
    ensures { IfSome result (λ text. IsPrinted (map string_bytes words.items) files.now.file.now
        files.now.other.now text.items) }
{
    let words = Ok(Some(words));
    let mut out = FlushedWriter::new(Vec::new(alloc));
    match aig_check_commands::act(alloc, &words, files, &mut out) {
        Ending::Done => Some(out.into_inner()),
        _ => None,
    }
}

/// Law: each line that `aigcheck` prints is true of the machines of the bytes that FILE and OTHER have.
pub fn printed_lines_are_true()
    ensures refuted { (file other text : List ℕ)
        → IsPrinted (codes "refuted" ∷ codes "FILE" ∷ codes "0" ∷ codes "PROOF" ∷ []) file other text
        → IsOf file (λ f. (text ≡ codes "no bad state at step 0\n") × IsSafeAt f 0) }
    ensures refuted_to { (file other text : List ℕ)
        → IsPrinted (codes "refuted" ∷ codes "FILE" ∷ codes "to" ∷ codes "3" ∷ codes "PROOF" ∷ [])
        file other text
        → IsOf file (λ f. (text ≡ codes "no bad state up to step 3\n") × IsSafeTo f 3) }
    ensures inductive { (file other text : List ℕ)
        → IsPrinted (codes "inductive" ∷ codes "FILE" ∷ codes "2" ∷ codes "PROOF" ∷ []) file other
        text
        → IsOf file (λ f. (text ≡ codes "no bad state at any step, if none up to step 2\n")
        × IsKInductive Plain f 2 × (IsSafeTo f 2 → (n : ℕ) → IsSafeTo f n)) }
    ensures safe_to { (file other text : List ℕ)
        → IsPrinted
        (codes "safe" ∷ codes "FILE" ∷ codes "to" ∷ codes "1" ∷ codes "BASE" ∷ codes "STEP" ∷ [])
        file other text
        → IsOf file (λ f. (text ≡ codes "no bad state at any step\n")
        × ((n : ℕ) → IsSafeTo f n)) }
    ensures safe_each { (file other text : List ℕ)
        → IsPrinted
        (codes "safe" ∷ codes "FILE" ∷ codes "each" ∷ codes "0" ∷ codes "P0" ∷ codes "STEP" ∷ [])
        file other text
        → IsOf file (λ f. (text ≡ codes "no bad state at any step\n")
        × ((n : ℕ) → IsSafeTo f n)) }
    ensures certified { (file other text : List ℕ)
        → IsPrinted
        (codes "certified" ∷ codes "FILE" ∷ codes "OTHER" ∷ codes "BASE" ∷ codes "STEP" ∷ []) file
        other text
        → IsOf file (λ f. (text ≡ codes "no bad state at any step\n")
        × ((n : ℕ) → IsSafeTo f n)) }
    ensures simulated { (file other text : List ℕ)
        → IsPrinted
        (codes "certified" ∷ codes "FILE" ∷ codes "OTHER" ∷ codes "RESET" ∷ codes "TRANSITION"
        ∷ codes "PROPERTY" ∷ codes "BASE" ∷ codes "STEP" ∷ []) file other text
        → IsOf file (λ f. (text ≡ codes "no bad state at any step\n")
        × ((n : ℕ) → IsSafeTo f n)) }
    ensures equal { (file other text : List ℕ)
        → IsPrinted (codes "equal" ∷ codes "FILE" ∷ codes "OTHER" ∷ codes "5" ∷ codes "PROOF" ∷ [])
        file other text
        → AreOf file other (λ f g. (text ≡ codes "equal at step 5\n")
        × AreEqualMachinesBy usual f g 5) }
    ensures equal_to { (file other text : List ℕ)
        → IsPrinted
        (codes "equal" ∷ codes "FILE" ∷ codes "OTHER" ∷ codes "to" ∷ codes "1" ∷ codes "BASE"
        ∷ codes "STEP" ∷ []) file other text
        → AreOf file other (λ f g. (text ≡ codes "equal at every step\n")
        × ((n : ℕ) → AreEqualMachinesBy usual f g n)) }
    ensures equal_by { (file other text : List ℕ)
        → IsPrinted
        (codes "equal" ∷ codes "FILE" ∷ codes "OTHER" ∷ codes "by" ∷ codes "CERT" ∷ codes "BASE"
        ∷ codes "STEP" ∷ []) file other text
        → AreOf file other (λ f g. (text ≡ codes "equal at every step\n")
        × ((n : ℕ) → AreEqualMachinesBy usual f g n)) }
    ensures run { (file other text : List ℕ)
        → IsPrinted (codes "run" ∷ codes "FILE" ∷ codes "WITNESS" ∷ []) file other text
        → IsOf file (λ f. (given : Option (List ℕ)) × IsShownLine given f text) }
    ensures fair_refuted { (file other text : List ℕ)
        → IsPrinted
        (codes "--justice" ∷ codes "0" ∷ codes "refuted" ∷ codes "FILE" ∷ codes "4" ∷ codes "PROOF"
        ∷ []) file other text
        → IsOf file (λ f. (text ≡ codes "no fair lasso of j0 of 5 steps\n")
        × (¬ HasFairLasso f (Justice 0) 4)) }
    ensures fair_refuted_to { (file other text : List ℕ)
        → IsPrinted
        (codes "--justice" ∷ codes "0" ∷ codes "refuted" ∷ codes "FILE" ∷ codes "to" ∷ codes "4"
        ∷ codes "PROOF" ∷ []) file other text
        → IsOf file (λ f. (text ≡ codes "no fair lasso of j0 of at most 5 steps\n")
        × HasNoLassoTo f (Justice 0) 4) }
    ensures fair_inductive { (file other text : List ℕ)
        → IsPrinted
        (codes "--justice" ∷ codes "0" ∷ codes "inductive" ∷ codes "FILE" ∷ codes "4"
        ∷ codes "PROOF" ∷ []) file other text
        → IsOf file (λ f. (text
        ≡ codes "no fair run of j0, if no fair lasso of at most 5 steps\n")
        × (HasNoLassoTo f (Justice 0) 4 → ¬ HasFairRun f (Justice 0))) }
    ensures fair_safe { (file other text : List ℕ)
        → IsPrinted
        (codes "--justice" ∷ codes "0" ∷ codes "safe" ∷ codes "FILE" ∷ codes "to" ∷ codes "1"
        ∷ codes "BASE" ∷ codes "STEP" ∷ []) file other text
        → IsOf file (λ f. (text ≡ codes "no fair run of j0\n") × (¬ HasFairRun f (Justice 0))) }
    ensures endless_refuted { (file other text : List ℕ)
        → IsPrinted
        (codes "--endless" ∷ codes "refuted" ∷ codes "FILE" ∷ codes "4" ∷ codes "PROOF" ∷ [])
        file other text
        → IsOf file (λ f. (text
        ≡ codes "no lasso of 5 steps meets the constraints and fairness\n")
        × (¬ HasFairLasso f Alone 4)) }
    ensures endless_refuted_to { (file other text : List ℕ)
        → IsPrinted
        (codes "--endless" ∷ codes "refuted" ∷ codes "FILE" ∷ codes "to" ∷ codes "4"
        ∷ codes "PROOF" ∷ []) file other text
        → IsOf file (λ f. (text
        ≡ codes "no lasso of at most 5 steps meets the constraints and fairness\n")
        × HasNoLassoTo f Alone 4) }
    ensures endless_inductive { (file other text : List ℕ)
        → IsPrinted
        (codes "--endless" ∷ codes "inductive" ∷ codes "FILE" ∷ codes "4" ∷ codes "PROOF" ∷ [])
        file other text
        → IsOf file (λ f. (text
        ≡ codes "no run without end meets the constraints and fairness, if no lasso of at most 5 steps does\n")
        × (HasNoLassoTo f Alone 4 → ¬ HasFairRun f Alone)) }
    ensures endless_safe { (file other text : List ℕ)
        → IsPrinted
        (codes "--endless" ∷ codes "safe" ∷ codes "FILE" ∷ codes "to" ∷ codes "1" ∷ codes "BASE"
        ∷ codes "STEP" ∷ []) file other text
        → IsOf file (λ f. (text ≡ codes "no run without end meets the constraints and fairness\n")
        × (¬ HasFairRun f Alone)) }
    ensures endless_certified { (file other text : List ℕ)
        → IsPrinted
        (codes "--endless" ∷ codes "certified" ∷ codes "FILE" ∷ codes "OTHER" ∷ codes "BASE"
        ∷ codes "STEP" ∷ []) file other text
        → IsOf file (λ f. (text ≡ codes "no run without end meets the constraints and fairness\n")
        × (¬ HasFairRun f Alone)) }
    ensures property_refuted { (file other text : List ℕ)
        → IsPrinted
        (codes "--property" ∷ codes "1" ∷ codes "refuted" ∷ codes "FILE" ∷ codes "4"
        ∷ codes "PROOF" ∷ []) file other text
        → IsOf file (λ f. (text ≡ codes "b1: no bad state at step 4\n") × (¬ HasBadAt f 1 4)) }
    ensures property_simulated { (file other text : List ℕ)
        → IsPrinted
        (codes "--property" ∷ codes "1" ∷ codes "certified" ∷ codes "FILE" ∷ codes "OTHER"
        ∷ codes "RESET" ∷ codes "TRANSITION" ∷ codes "PROPERTY" ∷ codes "BASE" ∷ codes "STEP" ∷ [])
        file other text
        → IsOf file (λ f. (text ≡ codes "b1: no bad state at any step\n")
        × ((k : ℕ) → ¬ HasBadAt f 1 k)) }
    ensures possible_refuted { (file other text : List ℕ)
        → IsPrinted
        (codes "--possible" ∷ codes "refuted" ∷ codes "FILE" ∷ codes "4" ∷ codes "PROOF" ∷ [])
        file other text
        → IsOf file (λ f. (text ≡ codes "no run of more than 4 steps meets the constraints\n")
        × (¬ HasRun f 4)) }
    ensures possible_refuted_to { (file other text : List ℕ)
        → IsPrinted
        (codes "--possible" ∷ codes "refuted" ∷ codes "FILE" ∷ codes "to" ∷ codes "4"
        ∷ codes "PROOF" ∷ []) file other text
        → IsOf file (λ f. (text ≡ codes "no run meets the constraints\n") × HasNoRunTo f 4) }
    ensures possible_inductive { (file other text : List ℕ)
        → IsPrinted
        (codes "--possible" ∷ codes "inductive" ∷ codes "FILE" ∷ codes "4" ∷ codes "PROOF" ∷ [])
        file other text
        → IsOf file (λ f. (text
        ≡ codes "no run meets the constraints, if none of at most 5 steps does\n")
        × (HasNoRunTo f 4 → (k : ℕ) → ¬ HasRun f k)) }
    ensures possible_safe { (file other text : List ℕ)
        → IsPrinted
        (codes "--possible" ∷ codes "safe" ∷ codes "FILE" ∷ codes "to" ∷ codes "1" ∷ codes "BASE"
        ∷ codes "STEP" ∷ []) file other text
        → IsOf file (λ f. (text ≡ codes "no run meets the constraints\n")
        × ((k : ℕ) → ¬ HasRun f k)) }
    ensures outputs_safe { (file other text : List ℕ)
        → IsPrinted
        (codes "--outputs" ∷ codes "safe" ∷ codes "FILE" ∷ codes "to" ∷ codes "1" ∷ codes "BASE"
        ∷ codes "STEP" ∷ []) file other text
        → IsOf file (λ f. (text ≡ codes "no output is true at any step\n")
        × ((k : ℕ) → ¬ HasOutput f k)) }
{}

/// The words `compress FILE`.
fn words_of_compress(alloc: Global) -> Result<Vec<String>, MemoryError>
    ensures { IfOk result
        (λ words. map string_bytes words.items ≡ codes "compress" ∷ codes "FILE" ∷ []) }
{
    let mut words = Vec::new(alloc);
    words.push(String::from_str(alloc, "compress")?)?;
    words.push(String::from_str(alloc, "FILE")?)?;
    Ok(words)
}

/// What `aigedit compress FILE` prints where FILE has these bytes, if the program does it: the text of a circuit that has the bad edges of
/// FILE's as one.
pub fn printed_of_compress(alloc: Global, file: &[u8]) -> Result<Option<Vec<u8>>, MemoryError>
    ensures { IfOk result (λ done. IfSome done (λ text. (f : File) × Accepts file.now (2 ^ 24) f
        × ((m : Circuit) × CompressesBads (circuit_of f) m × (text.items ≡ text_of m)))) }
{
    let words = Ok(Some(words_of_compress(alloc)?));
    let mut out = FlushedWriter::new(Vec::new(alloc));
    let files = Files {
        file,
        other: b"",
        beside: b"",
    };
    match aig_edit_commands::act(alloc, &words, &files, &mut out) {
        Ending::Done => Ok(Some(out.into_inner())),
        _ => Ok(None),
    }
}
