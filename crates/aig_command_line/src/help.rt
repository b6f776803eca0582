//! What a program tells of itself.

ghost use Rattle.std.specs.Prelude.{◌≡◌, ◌↔◌, [], ◌∷◌, Some, map, string_bytes};
ghost use Rattle.aig_command_line.specs.Help.{word_of};
ghost use Rattle.aig_command_line.specs.declared.help.Help.{Help};

use crate::arguments::is_word;

/// What a program may be asked of itself.
#[derive(Clone, Copy)]
pub enum Help {
    /// How it is used: `--help`.
    Usage,
    /// Which version it is: `--version`.
    Version,
}

/// What the words ask a program of itself, if they do: `--help` or `--version` alone. It takes no memory.
pub fn asked(words: &[String]) -> Option<Help>
    ensures { (q : Help) → (result ≡ Some q)
        ↔ (map string_bytes words.now ≡ word_of q ∷ []) }
{
    match words {
        [word] if is_word(word, "--help") => Some(Help::Usage),
        [word] if is_word(word, "--version") => Some(Help::Version),
        _ => None,
    }
}
