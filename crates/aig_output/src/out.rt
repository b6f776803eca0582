//! What a text is written to.

ghost use Rattle.std.specs.Prelude.{List, ℕ, ◌≤◌, length, take};
ghost use Rattle.aig_output.specs.Writing.{WritesPieces};

/// Takes a text piece by piece.
pub trait TextOut {
    /// What a failed write returns.
    type Error;

    /// The piece was written, from the first state to the second.
    ghost wrote: { Self → List ℕ → Self → Type 0 };

    /// A beginning of the piece was written at most, and then the write failed.
    ghost stopped: { Self → List ℕ → Self → Type 0 };

    /// Writes a piece of text.
    fn write_bytes(&mut self, piece: &[u8]) -> Result<(), Self::Error>
        ensures { WritesPieces wrote stopped self.old result piece.now self.new };

    /// Writes the first `count` bytes of a piece. What stands after them may make this quicker.
    fn write_front(&mut self, piece: &[u8], count: usize) -> Result<(), Self::Error>
        requires { count ≤ length piece.now }
        ensures { WritesPieces wrote stopped self.old result (take count piece.now) self.new };
}
