//! The commands, and their arguments.

ghost use Rattle.std.specs.Prelude.{◌≡◌, List, ℕ, IfNone, IfSome, length, map, string_bytes};
ghost use Rattle.aig_command_line.specs.Limits.{IsLimit};
ghost use Rattle.aig_command_line.specs.Arguments.{AreStep};
ghost use Rattle.aig_command_line.specs.declared.arguments.Step.TheVariants.{At};
ghost use Rattle.aig_edit_commands.specs.CommandWords.{IsCall, IsCommandOf, command_of, edit_by, form_of, miter_name, name_of, paths_of, under};
ghost use Rattle.aig_edit_commands.specs.declared.command.Command.{Command};

use aig_command_line::{ArgumentForm, HasArguments, Step, find, limited, steps};
use aig_edits::{
    Comparison, Constraints, Edit, Fairness, Matching, Pairing, Starts, constraints_first,
};

/// The usage text of the program.
pub const USAGE: &str =
    "usage: aigedit [--limit N] refine FILE, reencode FILE, unroll FILE K, move FILE, compress FILE, bads FILE, \
    property FILE N, possible FILE, reduce FILE, cone FILE N, question FILE K, live FILE J, rounds FILE J N, info FILE, \
    [--constraints first|compared] miter FILE OTHER, [--constraints first|compared] miter-alike-by-order FILE OTHER, \
    [--constraints first|compared] miter-alike-by-name FILE OTHER, join FILE CERT, merge FILE OTHER";

/// A task of the program for one file.
#[derive(Drop)]
pub enum FileCommand {
    /// Print the result of an edit of the file.
    Edit(Edit),
    /// Print the part of the file that its query needs.
    Reduction,
    /// Print the question for a bad state up to this step.
    Question(usize),
    /// Print the live file, whose bad states are the fair lassos.
    Live(Fairness),
    /// Print the file whose bad states mean that the given number of rounds has ended.
    Rounds(Fairness, usize),
    /// Print the counts of the file.
    Info,
}

/// A task of the program.
#[derive(Drop)]
pub enum Command {
    /// Print the result for one file.
    File(FileCommand),
    /// Print the result for two files.
    Pair(Pairing),
}

/// A command without its numbers.
#[derive(Clone, Copy)]
pub enum Action {
    /// `refine FILE`: print the cone of influence of a file.
    Refine,
    /// `reencode FILE`: print a file with the node numbers of the binary form.
    Reencode,
    /// `unroll FILE K`: print a file with K further steps.
    Unroll,
    /// `move FILE`: print a file with its constraints moved into the first bad literal and the
    /// first output.
    Move,
    /// `compress FILE`: print a file with its bad literals combined into one.
    Compress,
    /// `bads FILE`: print a file with its outputs as its bad literals.
    Bads,
    /// `property FILE N`: print a file with bad literal N as its only bad literal.
    Property,
    /// `possible FILE`: print a file with the constant true as its only bad literal.
    Possible,
    /// `reduce FILE`: print the part of a file on which its bad literals and constraints depend.
    Reduce,
    /// `cone FILE N`: print the cone of output N of a file.
    Cone,
    /// `question FILE K`: print the question for a bad state of a file up to step K.
    Question,
    /// `live FILE J`: print the live file for justice property J of a file.
    Live,
    /// `rounds FILE J N`: print the file that counts N rounds of justice property J of a file.
    Rounds,
    /// `info FILE`: print the counts of a file.
    Info,
    /// `miter FILE OTHER`: print the miter of two files. Its name may end with how registers
    /// without an initial value start.
    Miter(Starts),
    /// `join FILE CERT`: print the product of a file and its certificate.
    Join,
    /// `merge FILE OTHER`: print two files side by side.
    Merge,
}

/// Returns the form of a command on FILE and a number.
const NUMBERED: ArgumentForm = ArgumentForm {
    paths: 1,
    step: Step::At,
    further: 0,
    distinct: false,
    raw: false,
};

/// Returns the form of a command on FILE and two numbers, of which the second is a further
/// argument.
const COUNTED: ArgumentForm = ArgumentForm {
    paths: 1,
    step: Step::At,
    further: 1,
    distinct: false,
    raw: false,
};

/// Returns the name of the miter command for how registers without an initial value start.
fn miter_name(starts: Starts) -> &'static str
    ensures { result.now ≡ miter_name starts }
{
    match starts {
        Starts::Apart => "miter",
        Starts::Alike(Matching::ByOrder) => "miter-alike-by-order",
        Starts::Alike(Matching::ByName) => "miter-alike-by-name",
    }
}

impl HasArguments for Action {
    ghost name = { name_of };

    ghost form = { form_of };

    fn name(&self) -> &'static str {
        match self {
            Action::Refine => "refine",
            Action::Reencode => "reencode",
            Action::Unroll => "unroll",
            Action::Move => "move",
            Action::Compress => "compress",
            Action::Bads => "bads",
            Action::Property => "property",
            Action::Possible => "possible",
            Action::Reduce => "reduce",
            Action::Cone => "cone",
            Action::Question => "question",
            Action::Live => "live",
            Action::Rounds => "rounds",
            Action::Info => "info",
            Action::Miter(starts) => miter_name(*starts),
            Action::Join => "join",
            Action::Merge => "merge",
        }
    }

    fn form(&self) -> ArgumentForm {
        match self {
            Action::Unroll | Action::Property | Action::Cone | Action::Question | Action::Live =>
                NUMBERED,
            Action::Rounds => COUNTED,
            Action::Miter(_) | Action::Join | Action::Merge => ArgumentForm::of_paths(2),
            _ => ArgumentForm::of_paths(1),
        }
    }
}

impl Action {
    /// All of these commands.
    const ALL: [Action; 19] = [
        Action::Refine,
        Action::Reencode,
        Action::Unroll,
        Action::Move,
        Action::Compress,
        Action::Bads,
        Action::Property,
        Action::Possible,
        Action::Reduce,
        Action::Cone,
        Action::Question,
        Action::Live,
        Action::Rounds,
        Action::Info,
        Action::Miter(Starts::Apart),
        Action::Miter(Starts::Alike(Matching::ByOrder)),
        Action::Miter(Starts::Alike(Matching::ByName)),
        Action::Join,
        Action::Merge,
    ];

    /// Returns the command with its number, if it has no further argument.
    fn numbered(self, k: usize) -> Command
        ensures { result ≡ command_of self k }
    {
        match self {
            Action::Refine => edit_by(Edit::Refine),
            Action::Reencode => edit_by(Edit::Reencode),
            Action::Unroll => edit_by(Edit::Unroll(k)),
            Action::Move => edit_by(Edit::Move),
            Action::Compress => edit_by(Edit::Compress),
            Action::Bads => edit_by(Edit::Bads),
            Action::Property => edit_by(Edit::Property(k)),
            Action::Possible => edit_by(Edit::Possible),
            Action::Reduce => Command::File(FileCommand::Reduction),
            Action::Cone => edit_by(Edit::Cone(k)),
            Action::Question => Command::File(FileCommand::Question(k)),
            Action::Live => Command::File(FileCommand::Live(Fairness::Justice(k))),
            Action::Rounds => Command::File(FileCommand::Rounds(Fairness::Justice(k), 0)),
            Action::Info => Command::File(FileCommand::Info),
            Action::Miter(starts) => Command::Pair(Pairing::Miter(Comparison {
                starts,
                constraints: Constraints::OfBoth,
            })),
            Action::Join => Command::Pair(Pairing::Certificate),
            Action::Merge => Command::Pair(Pairing::Merge),
        }
    }

    /// Returns the command with its number and further arguments, or nothing if these aren't valid
    /// numbers for it.
    fn command(self, k: usize, further: &[String]) -> Option<Command>
        ensures some { IfSome result (IsCommandOf self k (map string_bytes further.now)) }
        ensures none { IfNone result ((c : Command)
            → ¬ IsCommandOf self k (map string_bytes further.now) c) }
    {
        match self {
            Action::Rounds => {
                let fairness = Fairness::Justice(k);
                Some(Command::File(FileCommand::Rounds(fairness, counted(further)?)))
            }
            _ => Some(self.numbered(k)),
        }
    }
}

/// Returns the number of the only argument, if there is exactly one.
fn counted(words: &[String]) -> Option<usize>
    ensures some { IfSome result (λ n. AreStep At n (map string_bytes words.now)) }
    ensures none { IfNone result ((n : ℕ) → ¬ AreStep At n (map string_bytes words.now)) }
{
    match words {
        [word] => steps(word.as_str()),
        _ => None,
    }
}

/// Returns the command that prints the result of an edit of a file.
fn edit_by(edit: Edit) -> Command
    ensures { result ≡ edit_by edit }
{
    Command::File(FileCommand::Edit(edit))
}

/// Returns the command with the given treatment of constraints. Only a miter can treat them in
/// another way than by default.
fn under(constraints: Constraints, command: Command) -> Option<Command>
    ensures { result ≡ under constraints command }
{
    match (constraints, command) {
        (Constraints::OfBoth, command) => Some(command),
        (_, Command::Pair(Pairing::Miter(comparison))) => {
            Some(Command::Pair(Pairing::Miter(Comparison {
                constraints,
                ..comparison
            })))
        }
        _ => None,
    }
}

/// The parsed arguments.
#[derive(Drop)]
pub struct Call<'a> {
    /// The limit on the nodes of a circuit.
    pub limit: usize,
    /// The command.
    pub command: Command,
    /// The paths of its files.
    pub paths: &'a [String],
}

/// Parses the arguments after the program's name, and returns nothing if they are wrong. The result
/// has N of `--limit N` (by default 2^24), the treatment of constraints by `--constraints`, if it
/// is given, the command and the paths of its files. Parsing allocates no memory.
pub fn call_of(words: &[String]) -> Option<Call<'_>>
    ensures some { IfSome result (λ c. IsCall (map string_bytes words.now) c.limit c.command
        (map string_bytes c.paths.now)) }
    ensures none { IfNone result ((limit : ℕ) (c : Command) (paths : List (List ℕ))
        → ¬ IsCall (map string_bytes words.now) limit c paths) }
    ensures limit { IfSome result (λ c. IsLimit c.limit) }
    ensures paths { IfSome result (λ c. length c.paths.now ≡ paths_of c.command) }
{
    let (limit, rest) = limited(words)?;
    let (constraints, rest) = constraints_first(rest)?;
    let (action, given) = find(&Action::ALL, rest)?;
    let usual = action.command(given.step, given.further)?;
    let command = under(constraints, usual)?;
    Some(Call {
        limit,
        command,
        paths: given.paths,
    })
}
