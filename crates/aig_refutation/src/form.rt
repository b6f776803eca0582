//! The form of a proof, which its first bytes tell.

ghost use Rattle.std.specs.List.{list_any};
ghost use Rattle.std.specs.Prelude.{◌≡◌, ◌==◌, ◌≤◌, ◌∷◌, [], IsTrue, length, option_map, take};
ghost use Rattle.aig_refutation.specs.Binary.{groups_in};
ghost use Rattle.aig_refutation.specs.Forms.{Letter, are_steps, has_steps, has_word, is_binary, is_numbered, part_after, telling};
ghost use Rattle.aig_refutation.specs.Fronts.{said_part};

/// How many bytes at the front tell whether a proof is binary.
pub(crate) const TELLING: usize = 1024;

/// The word that may stand before a binary LRAT proof.
pub(crate) const WORD: &[u8] = b"lrat";

/// Whether a byte 0 is among those at the front.
fn has_zero(front: &[u8]) -> bool
    ensures { result ≡ list_any (λ b. b == 0) (take telling front.now) }
{
    front.iter().take(TELLING).any(|b| *b == 0)
}

/// Whether a proof that begins so is binary, if no word says so.
pub(crate) fn is_binary(front: &[u8]) -> bool
    ensures { result ≡ is_binary front.now }
{
    match front {
        [b'a', ..] => true,
        [b'd', ..] => has_zero(front),
        _ => false,
    }
}

/// Whether the word for a binary LRAT proof is at the front.
pub(crate) fn has_word(front: &[u8]) -> bool
    ensures word { result ≡ has_word front.now }
    ensures long { IsTrue result → 4 ≤ length front.now }
{
    front.starts_with(WORD)
}

/// What comes next in a binary proof.
#[derive(Clone, Copy)]
enum Part {
    /// The letter of a step.
    Letter,
    /// The number of the clause that it adds.
    Number,
    /// A literal of that, which hints follow, or the 0 after them.
    Literals,
    /// A word of the list that ends the step, or the 0 after it.
    Last,
}

impl Part {
    /// What comes after a word that begins with this byte, if a step can have it. Whether steps have
    /// numbers is known.
    fn after(self, numbered: bool, byte: u8) -> Option<Part>
        ensures { option_map said_part result ≡ part_after numbered (said_part self) (byte ∷ []) }
    {
        match (self, byte) {
            (Part::Letter, b'a') if numbered => Some(Part::Number),
            (Part::Letter, b'a' | b'd') => Some(Part::Last),
            (Part::Letter, _) | (Part::Number, 0) => None,
            (Part::Last, 0) => Some(Part::Letter),
            (Part::Literals, 0) | (Part::Last, _) => Some(Part::Last),
            (Part::Number | Part::Literals, _) => Some(Part::Literals),
        }
    }
}

/// Whether bytes are those of steps, which have numbers or not. The last step may be cut.
fn are_steps(numbered: bool, bytes: &[u8]) -> bool
    ensures { result ≡ are_steps numbered Letter (groups_in bytes.now) }
{
    let mut part = Part::Letter;
    let mut goes_on = false;
    for byte in bytes {
        if !goes_on {
            let Some(next) = part.after(numbered, *byte) else {
                return false;
            };
            part = next;
        }
        goes_on = *byte >= 128;
    }
    true
}

/// Whether the bytes at the front are those of steps.
fn has_steps(numbered: bool, front: &[u8]) -> bool
    ensures { result ≡ has_steps numbered front.now }
{
    are_steps(numbered, &front[..TELLING.min(front.len())])
}

/// Whether a binary proof that begins so is one of an LRAT file.
pub(crate) fn is_numbered(front: &[u8]) -> bool
    ensures { result ≡ is_numbered front.now }
{
    !has_steps(false, front) && has_steps(true, front)
}
