//! The commands, and the words that give them.

ghost use Rattle.std.specs.Prelude.{◌≡◌, ◌≤◌, ◌↔◌, List, ℕ, IfNone, IfSome, Some, length, map, string_bytes};
ghost use Rattle.aig_tool_commands.specs.CommandWords.{Give, IsCall, command_of, form_of, name_of};
ghost use Rattle.aig_tool_commands.specs.declared.command.Command.{Command};

use aig_command_line::{ArgumentForm, HasArguments, Step, find};

/// What the program is asked to do.
#[derive(Clone, Copy)]
pub enum Command {
    /// Print the text form of a file.
    Text,
    /// Write the binary form of a file to another.
    Binary,
    /// Print the text form of a file's circuit after structural hashing.
    Strash,
    /// Print the clauses of a file's circuit that is unrolled by `k` steps.
    Cnf {
        /// How many further steps the circuit is unrolled by.
        k: usize,
        /// Whether exclusive ors and choices have clauses of their own.
        optimize: bool,
    },
    /// Print clauses that ask for a run to a bad state after `k` steps.
    Query {
        /// How many further steps the circuit is unrolled by.
        k: usize,
        /// Whether exclusive ors and choices have clauses of their own.
        optimize: bool,
    },
}

/// A command without K and its setting.
#[derive(Clone, Copy)]
pub enum Action {
    /// `text FILE`.
    Text,
    /// `binary FILE OUT`.
    Binary,
    /// `strash FILE`.
    Strash,
    /// `cnf FILE K [raw]`.
    Cnf,
    /// `query FILE K [raw]`.
    Query,
}

/// The form of a command on FILE, K and `raw` or nothing.
const CLAUSES: ArgumentForm = ArgumentForm {
    paths: 1,
    step: Step::At,
    further: 0,
    distinct: false,
    raw: true,
};

impl HasArguments for Action {
    ghost name = { name_of };

    ghost form = { form_of };

    fn name(&self) -> &'static str {
        match self {
            Action::Text => "text",
            Action::Binary => "binary",
            Action::Strash => "strash",
            Action::Cnf => "cnf",
            Action::Query => "query",
        }
    }

    fn form(&self) -> ArgumentForm {
        match self {
            Action::Text | Action::Strash => ArgumentForm::of_paths(1),
            Action::Binary => ArgumentForm::of_paths(2),
            Action::Cnf | Action::Query => CLAUSES,
        }
    }
}

impl Action {
    /// Each of them.
    const ALL: [Action; 5] = [
        Action::Text,
        Action::Binary,
        Action::Strash,
        Action::Cnf,
        Action::Query,
    ];

    /// The command, with K and whether clauses are optimised.
    fn command(self, k: usize, optimize: bool) -> Command
        ensures { result ≡ command_of self k optimize }
    {
        match self {
            Action::Text => Command::Text,
            Action::Binary => Command::Binary,
            Action::Strash => Command::Strash,
            Action::Cnf => Command::Cnf { k, optimize },
            Action::Query => Command::Query { k, optimize },
        }
    }
}

/// The command that the words after the program's name give, and its paths, or none where they are wrong. It takes no memory.
pub fn call(words: &[String]) -> Option<(Command, &[String])>
    ensures some { IfSome result
        (λ p. IsCall (map string_bytes words.now) p.0 (map string_bytes p.1.now)) }
    ensures none { IfNone result ((c : Command) (paths : List (List ℕ))
        → ¬ IsCall (map string_bytes words.now) c paths) }
    ensures file { IfSome result (λ p. 1 ≤ length p.1.now) }
    ensures out { IfSome result (λ p. p.0 ≡ Command.Binary → 2 ≤ length p.1.now) }
{
    let (action, given) = find(&Action::ALL, words)?;
    Some((action.command(given.step, given.optimize), given.paths))
}

/// The command that the words after the program's name give, or none where they are wrong.
///
/// The word after the command's name is FILE, and of `binary` the word after that is OUT. It takes no memory.
pub fn parse(words: &[String]) -> Option<Command>
    ensures exact { (c : Command) → (result ≡ Some c) ↔ Give (map string_bytes words.now) c }
{
    let (command, _) = call(words)?;
    Some(command)
}
