//! Reading AIGER from the front, on lists, and the laws that join it to the grammar.

ghost use Rattle.std.specs.Prelude.{◌≡◌, ◌↔◌, ℕ, List, Some, true};
ghost use Rattle.aig_format.specs.File.{File};
ghost use Rattle.aig_format.specs.Spells.{Spells};
ghost use Rattle.aig_format.specs.Written.{file_text};
ghost use Rattle.aig_format.specs.Fits.{TooMany, Accepts};
ghost use Rattle.aig_format.specs.Parse.{no_tests, parse_file, too_many_at};
ghost use Rattle.aig_format.specs.ParseTested.{parse_fitting};
ghost use Rattle.aig_format.specs.WritableFile.{CanWrite};

/// What is read is spelled so, what is spelled so is read, and bytes spell one file at most.
pub fn reads_exactly()
    ensures sound { (bytes : List ℕ) (f : File) → parse_file no_tests bytes ≡ Some f
        → Spells f bytes }
    ensures complete { (f : File) (bytes : List ℕ) → Spells f bytes
        → parse_file no_tests bytes ≡ Some f }
    ensures one { (f g : File) (bytes : List ℕ) → Spells f bytes → Spells g bytes → f ≡ g }
{}

/// The written form of a file spells it.
pub fn writes_spelled()
    ensures { (f : File) → CanWrite f → Spells f (file_text f) }
{}

/// Whether a header line is good and passes the limit can be read from the front.
pub fn tells_too_many()
    ensures { (bytes : List ℕ) (limit : ℕ)
        → (too_many_at limit bytes ≡ true) ↔ TooMany bytes limit }
{}

/// What is read with each line tested beside those before it is accepted, and what is accepted is read.
pub fn reads_fitting()
    ensures sound { (limit : ℕ) (bytes : List ℕ) (f : File) → parse_fitting limit bytes ≡ Some f
        → Accepts bytes limit f }
    ensures complete { (limit : ℕ) (bytes : List ℕ) (f : File) → Accepts bytes limit f
        → parse_fitting limit bytes ≡ Some f }
{}
