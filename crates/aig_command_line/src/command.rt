//! The commands of a program.

ghost use Rattle.std.specs.Prelude.{◌≡◌, ◌<◌, ◌^◌, All, Contains, IfNone, IfSome, List, ℕ, length, map, string_bytes};
ghost use Rattle.aig_command_line.specs.declared.arguments.ArgumentForm.{ArgumentForm};
ghost use Rattle.aig_command_line.specs.Arguments.{Arguments, GivesArguments, further_of, seen};

use crate::arguments::{ArgumentForm, Given, arguments_of};

/// What a program may be asked to do.
pub trait HasArguments: Copy {
    /// The word that names it.
    ghost name: { Self → List ℕ };

    /// What it takes.
    ghost form: { Self → ArgumentForm };

    /// The word that names it.
    fn name(&self) -> &'static str
        ensures { result.now ≡ name self.now };

    /// What it takes.
    fn form(&self) -> ArgumentForm
        ensures { result ≡ form self.now };
}

/// The first of a program's commands that the words of a command line fit, and what they give it. It takes no memory.
pub fn find<'a, A: HasArguments>(all: &[A], words: &'a [String]) -> Option<(A, Given<'a>)>
    ensures among { IfSome result (λ p. Contains all.now p.0) }
    ensures some { IfSome result
        (λ p. GivesArguments (A.name p.0) (A.form p.0) (map string_bytes words.now) (seen p.1)) }
    ensures none { IfNone result (All (λ a. (g : Arguments)
        → ¬ GivesArguments (A.name a) (A.form a) (map string_bytes words.now) g) all.now) }
    ensures paths { IfSome result (λ p. length p.1.paths.now ≡ (A.form p.0).paths) }
    ensures further { IfSome result
        (λ p. length p.1.further.now ≡ further_of (A.form p.0) p.1.step) }
    ensures small { IfSome result (λ p. p.1.step < 2 ^ 32) }
{
    for action in all {
        if let Some(arguments) = arguments_of(action.name(), action.form(), words) {
            return Some((*action, arguments));
        }
    }
    None
}
