//! The commands, and the words that give them.

ghost use Rattle.std.specs.Prelude.{◌≡◌, ◌↔◌, ◌<◌, ◌^◌, ◌∷◌, Bool, IfNone, IfSome, List, Some, ℕ, length, map, string_bytes};
ghost use Rattle.aig_command_line.specs.Arguments.{seen};
ghost use Rattle.aig_answers.specs.declared.goals.goal.Goal.{Goal};
ghost use Rattle.aig_check_commands.specs.Fits.{Fits};
ghost use Rattle.aig_check_commands.specs.CommandWords.{AreCommand, FitNone, Give, IsAlone, IsCall, IsOnWitness, IsWhole, beside_of, check_of, command_of, compared_under, constrained, equal_name, form_of, has_two_settings, name_of, of_both, on_certificate, on_step, path_count, paths_of, raw_alone, raw_word, step_of, under, window_of, witness_form, witness_name};
ghost use Rattle.aig_check_commands.specs.declared.command.Asked.{Asked};
ghost use Rattle.aig_check_commands.specs.declared.command.Command.{Command};
ghost use Rattle.aig_witness_circuits.specs.Names.{condition_name};
ghost use Rattle.aig_witness_circuits.specs.declared.condition.Condition.{Condition};

use crate::file_subjects::{is_asked, is_word, subject_first};
use aig_answers::{Ask, Goal, Question, Window, asked_with};
use aig_command_line::{ArgumentForm, Given, HasArguments, Step, find, limited};
use aig_edits::{Comparison, Constraints, Matching, Starts, constraints_first};
use aig_subjects::{FileSubject, Subject};
use aig_witness_circuit_checks::Condition;

/// What the program is asked to do with a file.
#[derive(Clone, Copy)]
pub enum FileCommand {
    /// Print the witness of a bad state at step `k` that a solver's answer says.
    Witness {
        /// The step.
        k: usize,
        /// Whether exclusive ors and choices have clauses of their own.
        optimize: bool,
    },
    /// Check that a witness shows a bad state.
    Run,
    /// Print the witness of a bad state up to step `k` that a solver's answer says.
    WitnessTo {
        /// The step.
        k: usize,
        /// Whether exclusive ors and choices have clauses of their own.
        optimize: bool,
    },
}

/// What the program is asked to do.
#[derive(Clone, Copy)]
pub enum Command {
    /// A command on FILE.
    File(FileCommand),
    /// Print the clauses of a question of FILE's circuit, and which literals or variables stand for what.
    Print(Question),
    /// Print the clauses that the proofs of FILE's circuit beside CERT are of.
    Obligations {
        /// Whether exclusive ors and choices have clauses of their own.
        optimize: bool,
    },
    /// Check proofs of FILE, or of FILE and the files behind it.
    Check {
        /// What is asked about.
        subject: Subject,
        /// What they are to show.
        goal: Goal,
        /// Whether exclusive ors and choices have clauses of their own in questions of steps.
        base_optimize: bool,
        /// Whether they have in the question of a window.
        step_optimize: bool,
    },
    /// Check proofs that a witness circuit, which simulates FILE's machine, shows that no bad state is reached at any step.
    Simulated {
        /// Whether exclusive ors and choices have clauses of their own.
        optimize: bool,
    },
    /// Print the clauses that one of these proofs is of.
    Obligation {
        /// The condition that it is for.
        condition: Condition,
        /// Whether exclusive ors and choices have clauses of their own.
        optimize: bool,
    },
}

/// What the program is asked to do, and of which circuit of FILE.
#[derive(Clone, Copy)]
pub struct Asked {
    /// The circuit of FILE that is asked about.
    pub subject: FileSubject,
    /// The command.
    pub command: Command,
}

/// How the program is used.
pub const USAGE: &str =
    "usage: aigcheck [--limit N] [--property N | --possible | --outputs | (--justice J | --endless) [--rounds N]] clauses FILE K [raw], window FILE K [distinct] [raw], \
    refuted FILE K PROOF [raw], inductive FILE K PROOF [distinct] [raw], witness FILE K SOLUTION [raw], run FILE WITNESS, \
    certified FILE CERT BASE STEP [raw], [--constraints first|compared] equal FILE OTHER K PROOF [raw], \
    obligations FILE CERT [raw], \
    bounded FILE K [raw], refuted FILE to K PROOF [raw], witness FILE to K SOLUTION [raw], \
    safe FILE to K BASE STEP [distinct] [raw | raw-base | raw-step], \
    safe FILE each K P0 .. PK STEP [distinct] [raw | raw-base | raw-step], \
    [--constraints first|compared] equal FILE OTHER to K BASE STEP [distinct] [raw | raw-base | raw-step], \
    [--constraints first|compared] equal FILE OTHER by CERT BASE STEP [raw], equal-alike-by-order and equal-alike-by-name as equal, \
    certified FILE WITNESS RESET TRANSITION PROPERTY BASE STEP [raw], obligations FILE WITNESS CONDITION [raw]";

/// A command without K and its settings.
#[derive(Clone, Copy)]
pub enum Action {
    /// `clauses FILE K [raw]`.
    Clauses,
    /// `window FILE K [distinct] [raw]`.
    Window,
    /// `refuted FILE K PROOF [raw]`.
    Refuted,
    /// `inductive FILE K PROOF [distinct] [raw]`.
    Inductive,
    /// `witness FILE K SOLUTION [raw]`.
    Witness,
    /// `run FILE WITNESS`.
    Run,
    /// `certified FILE CERT BASE STEP [raw]`.
    Certified,
    /// `equal FILE OTHER K PROOF [raw]`; behind its name how registers with open start begin.
    Equal(Starts),
    /// `obligations FILE CERT [raw]`.
    Obligations,
    /// `bounded FILE K [raw]`.
    Bounded,
    /// `refuted FILE to K PROOF [raw]`.
    RefutedTo,
    /// `witness FILE to K SOLUTION [raw]`.
    WitnessTo,
    /// `safe FILE to K BASE STEP [distinct] [raw | raw-base | raw-step]`.
    Safe,
    /// `equal FILE OTHER to K BASE STEP [distinct] [raw | raw-base | raw-step]`; behind its name how registers with open start begin.
    AlwaysEqual(Starts),
    /// `equal FILE OTHER by CERT BASE STEP [raw]`; behind its name how registers with open start begin.
    EqualBy(Starts),
    /// `safe FILE each K P0 .. PK STEP [distinct] [raw | raw-base | raw-step]`.
    SafeBySteps,
}

/// A command on FILE and a witness circuit without its settings.
#[derive(Clone, Copy)]
pub enum WitnessAction {
    /// `certified FILE WITNESS RESET TRANSITION PROPERTY BASE STEP [raw]`.
    Certified,
    /// `obligations FILE WITNESS CONDITION [raw]`.
    Obligations,
}

/// The word that names a comparison of machines whose registers with open start begin so.
fn equal_name(starts: Starts) -> &'static str
    ensures { result.now ≡ equal_name starts }
{
    match starts {
        Starts::Apart => "equal",
        Starts::Alike(Matching::ByOrder) => "equal-alike-by-order",
        Starts::Alike(Matching::ByName) => "equal-alike-by-name",
    }
}

/// The comparison of machines whose registers with open start begin so, with constraints that say what is usual: runs meet those of both.
fn of_both(starts: Starts) -> Comparison
    ensures { result ≡ of_both starts }
{
    Comparison {
        starts,
        constraints: Constraints::OfBoth,
    }
}

/// The form of a command on so many files and a step.
fn on_step(paths: usize, step: Step, further: usize, distinct: bool) -> ArgumentForm
    ensures { result ≡ on_step paths step further distinct }
{
    ArgumentForm {
        paths,
        step,
        further,
        distinct,
        raw: true,
    }
}

/// The form of a command on FILE, CERT or WITNESS, and so many words behind these.
fn on_certificate(further: usize) -> ArgumentForm
    ensures { result ≡ on_certificate further }
{
    ArgumentForm {
        paths: 2,
        step: Step::Absent,
        further,
        distinct: false,
        raw: true,
    }
}

impl HasArguments for Action {
    ghost name = { name_of };

    ghost form = { form_of };

    fn name(&self) -> &'static str {
        self.row().0
    }

    fn form(&self) -> ArgumentForm {
        self.row().1
    }
}

impl HasArguments for WitnessAction {
    ghost name = { witness_name };

    ghost form = { witness_form };

    fn name(&self) -> &'static str {
        self.row().0
    }

    fn form(&self) -> ArgumentForm {
        self.row().1
    }
}

impl WitnessAction {
    /// Each of them.
    const ALL: [WitnessAction; 2] = [WitnessAction::Certified, WitnessAction::Obligations];

    /// The word that names it, and what it takes.
    fn row(self) -> (&'static str, ArgumentForm)
        ensures name { result.0.now ≡ witness_name self }
        ensures form { result.1 ≡ witness_form self }
    {
        match self {
            WitnessAction::Certified => ("certified", on_certificate(5)),
            WitnessAction::Obligations => ("obligations", on_certificate(1)),
        }
    }
}

/// The command that checks proofs of a goal, with one setting for all of them.
fn check_of(subject: Subject, goal: Goal, optimize: bool) -> Command
    ensures { result ≡ check_of subject goal optimize }
{
    Command::Check {
        subject,
        goal,
        base_optimize: optimize,
        step_optimize: optimize,
    }
}

/// The form of windows.
fn window_of(distinct: bool) -> Window
    ensures { result ≡ window_of distinct }
{
    if distinct {
        Window::Distinct
    } else {
        Window::Plain
    }
}

impl Action {
    /// Each of them.
    const ALL: [Action; 22] = [
        Action::Clauses,
        Action::Window,
        Action::Refuted,
        Action::Inductive,
        Action::Witness,
        Action::Run,
        Action::Certified,
        Action::Equal(Starts::Apart),
        Action::Equal(Starts::Alike(Matching::ByOrder)),
        Action::Equal(Starts::Alike(Matching::ByName)),
        Action::Obligations,
        Action::Bounded,
        Action::RefutedTo,
        Action::WitnessTo,
        Action::Safe,
        Action::AlwaysEqual(Starts::Apart),
        Action::AlwaysEqual(Starts::Alike(Matching::ByOrder)),
        Action::AlwaysEqual(Starts::Alike(Matching::ByName)),
        Action::EqualBy(Starts::Apart),
        Action::EqualBy(Starts::Alike(Matching::ByOrder)),
        Action::EqualBy(Starts::Alike(Matching::ByName)),
        Action::SafeBySteps,
    ];

    /// The word that names it, and what it takes.
    fn row(self) -> (&'static str, ArgumentForm)
        ensures name { result.0.now ≡ name_of self }
        ensures form { result.1 ≡ form_of self }
    {
        match self {
            Action::Clauses => ("clauses", on_step(1, Step::At, 0, false)),
            Action::Window => ("window", on_step(1, Step::At, 0, true)),
            Action::Refuted => ("refuted", on_step(1, Step::At, 1, false)),
            Action::Inductive => ("inductive", on_step(1, Step::At, 1, true)),
            Action::Witness => ("witness", on_step(1, Step::At, 1, false)),
            Action::Run => (
                "run",
                ArgumentForm {
                    paths: 1,
                    step: Step::Absent,
                    further: 1,
                    distinct: false,
                    raw: false,
                },
            ),
            Action::Certified => ("certified", on_certificate(2)),
            Action::Equal(starts) => (equal_name(starts), on_step(2, Step::At, 1, false)),
            Action::Obligations => ("obligations", on_certificate(0)),
            Action::Bounded => ("bounded", on_step(1, Step::At, 0, false)),
            Action::RefutedTo => ("refuted", on_step(1, Step::UpTo, 1, false)),
            Action::WitnessTo => ("witness", on_step(1, Step::UpTo, 1, false)),
            Action::Safe => ("safe", on_step(1, Step::UpTo, 2, true)),
            Action::AlwaysEqual(starts) => (equal_name(starts), on_step(2, Step::UpTo, 2, true)),
            Action::EqualBy(starts) => (equal_name(starts), on_step(2, Step::By, 3, false)),
            Action::SafeBySteps => ("safe", on_step(1, Step::Each, 1, true)),
        }
    }

    /// The command, with K and the settings that its words give to each of its proofs.
    fn command(self, k: usize, distinct: bool, optimize: bool) -> Command
        ensures { result ≡ command_of self k distinct optimize }
    {
        let form = window_of(distinct);
        let file = Subject::File(FileSubject::Own);
        let certified = Subject::Certified(FileSubject::Own);
        let each_of_one = Goal::SafeBySteps(0, Window::Plain);
        match self {
            Action::Clauses => Command::Print(asked_with(optimize, Ask::Step(k))),
            Action::Window => Command::Print(asked_with(optimize, Ask::Window(k, form))),
            Action::Refuted => check_of(file, Goal::Refuted(k), optimize),
            Action::Inductive => check_of(file, Goal::Inductive(k, form), optimize),
            Action::Witness => Command::File(FileCommand::Witness { k, optimize }),
            Action::Run => Command::File(FileCommand::Run),
            Action::Certified => check_of(certified, each_of_one, optimize),
            Action::Equal(starts) => {
                check_of(Subject::Miter(of_both(starts)), Goal::Refuted(k), optimize)
            }
            Action::Obligations => Command::Obligations { optimize },
            Action::Bounded => Command::Print(asked_with(optimize, Ask::UpTo(k))),
            Action::RefutedTo => check_of(file, Goal::RefutedTo(k), optimize),
            Action::WitnessTo => Command::File(FileCommand::WitnessTo { k, optimize }),
            Action::Safe => check_of(file, Goal::Safe(k, form), optimize),
            Action::AlwaysEqual(starts) => {
                check_of(
                    Subject::Miter(of_both(starts)),
                    Goal::Safe(k, form),
                    optimize,
                )
            }
            Action::EqualBy(starts) => {
                check_of(
                    Subject::MiterCertified(of_both(starts)),
                    each_of_one,
                    optimize,
                )
            }
            Action::SafeBySteps => check_of(file, Goal::SafeBySteps(k, form), optimize),
        }
    }
}

/// What words give.
#[derive(Clone, Copy)]
pub struct Call<'a> {
    /// The limit on the nodes of a circuit.
    pub limit: usize,
    /// The command, and the circuit of FILE.
    pub asked: Asked,
    /// FILE, and CERT, OTHER or a witness circuit, where the command wants one.
    pub paths: &'a [String],
    /// PROOF, SOLUTION or WITNESS, or BASE and STEP, behind CERT after the word `by`, or P0 to PK and STEP, or a proof for each condition,
    /// where the command wants them.
    pub further: &'a [String],
}

/// Which of both proofs' clauses alone are raw, as a word says: whether STEP's are optimised, and so BASE's aren't.
fn raw_word(word: &String) -> Option<bool>
    ensures { (step : Bool) → (result ≡ Some step) ↔ (string_bytes word.now ≡ raw_word step) }
{
    if is_word(word, "raw-base") {
        Some(true)
    } else if is_word(word, "raw-step") {
        Some(false)
    } else {
        None
    }
}

/// Whether proofs of steps and of a window may have different settings: not those of a certificate.
fn has_two_settings(subject: Subject, goal: Goal) -> bool
    ensures { result ≡ has_two_settings subject goal }
{
    matches!(
        (subject, goal),
        (
            Subject::File(_) | Subject::Miter(_),
            Goal::Safe(..) | Goal::SafeBySteps(..)
        )
    )
}

/// The command, where the clauses of STEP alone are optimised, or those of BASE alone.
fn raw_alone(step_optimize: bool, command: Command) -> Option<Command>
    ensures exact { result ≡ raw_alone step_optimize command }
    ensures paths { IfSome result (λ c. paths_of c ≡ paths_of command) }
    ensures beside { IfSome result (λ c. beside_of c ≡ beside_of command) }
    ensures step { IfSome result (λ c. step_of c ≡ step_of command) }
{
    match command {
        Command::Check { subject, goal, .. } if has_two_settings(subject, goal) => {
            Some(Command::Check {
                subject,
                goal,
                base_optimize: !step_optimize,
                step_optimize,
            })
        }
        _ => None,
    }
}

/// The command that words fit, with one setting for all its proofs, and what they give it.
fn whole_command(words: &[String]) -> Option<(Command, Given<'_>)>
    ensures some { IfSome result (λ p. IsWhole (map string_bytes words.now) p.0 (seen p.1)) }
    ensures none { IfNone result (FitNone (IsWhole (map string_bytes words.now))) }
    ensures paths { IfSome result (λ p. length p.1.paths.now ≡ paths_of p.0) }
    ensures further { IfSome result (λ p. length p.1.further.now ≡ beside_of p.0) }
    ensures small { IfSome result (λ p. step_of p.0 < 2 ^ 32) }
{
    let (action, given) = find(&Action::ALL, words)?;
    let command = action.command(given.step, given.distinct, given.optimize);
    Some((command, given))
}

/// The command that words fit without their last, which is `raw-base` or `raw-step`, and what they give it.
fn alone_command(words: &[String]) -> Option<(Command, Given<'_>)>
    ensures some { IfSome result (λ p. IsAlone (map string_bytes words.now) p.0 (seen p.1)) }
    ensures none { IfNone result (FitNone (IsAlone (map string_bytes words.now))) }
    ensures paths { IfSome result (λ p. length p.1.paths.now ≡ paths_of p.0) }
    ensures further { IfSome result (λ p. length p.1.further.now ≡ beside_of p.0) }
    ensures small { IfSome result (λ p. step_of p.0 < 2 ^ 32) }
{
    let (last, plain) = words.split_last()?;
    let step_optimize = raw_word(last)?;
    let (usual, given) = whole_command(plain)?;
    if !given.optimize {
        return None;
    }
    let command = raw_alone(step_optimize, usual)?;
    Some((command, given))
}

/// The condition that a word names.
fn condition_of(word: &String) -> Option<Condition>
    ensures { (condition : Condition) → (result ≡ Some condition)
        ↔ (string_bytes word.now ≡ condition_name condition) }
{
    if is_word(word, "reset") {
        Some(Condition::Reset)
    } else if is_word(word, "transition") {
        Some(Condition::Transition)
    } else if is_word(word, "property") {
        Some(Condition::Property)
    } else if is_word(word, "base") {
        Some(Condition::Base)
    } else if is_word(word, "step") {
        Some(Condition::Step)
    } else {
        None
    }
}

/// The condition that the first word names, and the words after it.
fn condition_first(words: &[String]) -> Option<(Condition, &[String])>
    ensures some { IfSome result
        (λ p. map string_bytes words.now ≡ condition_name p.0 ∷ map string_bytes p.1.now) }
    ensures none { IfNone result ((condition : Condition) (rest : List (List ℕ))
        → ¬ (map string_bytes words.now ≡ condition_name condition ∷ rest)) }
{
    let (first, rest) = words.split_first()?;
    Some((condition_of(first)?, rest))
}

/// The command on FILE and a witness circuit that words fit, and what they give it.
fn witness_command(words: &[String]) -> Option<(Command, Given<'_>)>
    ensures some { IfSome result (λ p. IsOnWitness (map string_bytes words.now) p.0 (seen p.1)) }
    ensures none { IfNone result (FitNone (IsOnWitness (map string_bytes words.now))) }
    ensures paths { IfSome result (λ p. length p.1.paths.now ≡ paths_of p.0) }
    ensures further { IfSome result (λ p. length p.1.further.now ≡ beside_of p.0) }
    ensures small { IfSome result (λ p. step_of p.0 < 2 ^ 32) }
{
    let (action, given) = find(&WitnessAction::ALL, words)?;
    let optimize = given.optimize;
    match action {
        WitnessAction::Certified => Some((Command::Simulated { optimize }, given)),
        WitnessAction::Obligations => {
            let (condition, further) = condition_first(given.further)?;
            let command = Command::Obligation {
                condition,
                optimize,
            };
            Some((command, Given { further, ..given }))
        }
    }
}

/// The command that words give, and what they give it.
fn command_first(words: &[String]) -> Option<(Command, Given<'_>)>
    ensures some { IfSome result (λ p. AreCommand (map string_bytes words.now) p.0 (seen p.1)) }
    ensures none { IfNone result (FitNone (AreCommand (map string_bytes words.now))) }
    ensures paths { IfSome result (λ p. length p.1.paths.now ≡ paths_of p.0) }
    ensures further { IfSome result (λ p. length p.1.further.now ≡ beside_of p.0) }
    ensures small { IfSome result (λ p. step_of p.0 < 2 ^ 32) }
{
    if let Some(given) = whole_command(words) {
        return Some(given);
    }
    match alone_command(words) {
        Some(given) => Some(given),
        None => witness_command(words),
    }
}

/// The files that are compared, with constraints that say this, or none where none are.
fn compared_under(constraints: Constraints, subject: Subject) -> Option<Subject>
    ensures exact { result ≡ compared_under constraints subject }
    ensures paths { IfSome result (λ s. path_count s ≡ path_count subject) }
    ensures beside { IfSome result (λ s. (goal : Goal) (base step : Bool)
        → beside_of (Command.Check s goal base step)
        ≡ beside_of (Command.Check subject goal base step)) }
{
    match subject {
        Subject::Miter(comparison) => Some(Subject::Miter(Comparison {
            constraints,
            ..comparison
        })),
        Subject::MiterCertified(comparison) => Some(Subject::MiterCertified(Comparison {
            constraints,
            ..comparison
        })),
        _ => None,
    }
}

/// The command that compares, with constraints that say this, or none where it doesn't compare.
fn constrained(constraints: Constraints, command: Command) -> Option<Command>
    ensures exact { result ≡ constrained constraints command }
    ensures paths { IfSome result (λ c. paths_of c ≡ paths_of command) }
    ensures beside { IfSome result (λ c. beside_of c ≡ beside_of command) }
    ensures step { IfSome result (λ c. step_of c ≡ step_of command) }
{
    match command {
        Command::Check {
            subject,
            goal,
            base_optimize,
            step_optimize,
        } => {
            let subject = compared_under(constraints, subject)?;
            Some(Command::Check {
                subject,
                goal,
                base_optimize,
                step_optimize,
            })
        }
        _ => None,
    }
}

/// The command with constraints that say this. Only one that compares has others than the usual ones.
fn under(constraints: Constraints, command: Command) -> Option<Command>
    ensures exact { result ≡ under constraints command }
    ensures paths { IfSome result (λ c. paths_of c ≡ paths_of command) }
    ensures beside { IfSome result (λ c. beside_of c ≡ beside_of command) }
    ensures step { IfSome result (λ c. step_of c ≡ step_of command) }
{
    match constraints {
        Constraints::OfBoth => Some(command),
        Constraints::OfFirst | Constraints::Compared => constrained(constraints, command),
    }
}

/// What the words after the program's name give, or none where they are wrong: N of `--limit N`, or 2^24, then the circuit of FILE, by
/// `--property` and N, `--possible`, `--outputs`, or `--justice` and J or `--endless`, and `--rounds` and N, where these come, then `first` or `compared`
/// of `--constraints`, where it comes, and then the command and what it takes. Only a command that compares has these constraints. Words
/// that fit no command may end with `raw-base` or `raw-step` behind those of `safe` or of `equal` with `to`, without `raw`. It takes no
/// memory.
pub fn call_of(words: &[String]) -> Option<Call<'_>>
    ensures some { IfSome result (λ c. IsCall (map string_bytes words.now) c.limit c.asked
        (map string_bytes c.paths.now) (map string_bytes c.further.now)) }
    ensures none { IfNone result ((limit : ℕ) (c : Asked) (paths further : List (List ℕ))
        → ¬ IsCall (map string_bytes words.now) limit c paths further) }
    ensures fits { IfSome result Fits }
{
    let (limit, rest) = limited(words)?;
    let (subject, rest) = subject_first(rest)?;
    let (constraints, rest) = constraints_first(rest)?;
    let (usual, given) = command_first(rest)?;
    let command = under(constraints, usual)?;
    if !is_asked(subject, command) {
        return None;
    }
    Some(Call {
        limit,
        asked: Asked { subject, command },
        paths: given.paths,
        further: given.further,
    })
}

/// What the words after the program's name ask for, or none where they are wrong.
///
/// The words `--limit` and N may come first, and then `--property` and N, `--possible`, `--outputs`, or `--justice` and J or `--endless`, and then
/// `--rounds` and N. The word after the command's name is FILE. The next is WITNESS of `run`, CERT of `certified` and `obligations`, and
/// OTHER of `equal`. Then comes K, where the command has one, after the word `to` where it is on the steps up to K, and the words after
/// that are PROOF of `refuted`, `inductive` and `equal`, SOLUTION of `witness`, and BASE and STEP of `certified`, `safe` and `equal` with
/// `to`. Of `equal` with the word `by` it is CERT, BASE and STEP that come after that, and of `safe` with the words `each` and K it is P0
/// to PK, one for each of the steps 0 to K, and STEP. The words `distinct` and `raw` may come last, where the command may have them, and in
/// place of `raw` the word `raw-base` or `raw-step` of `safe` and of `equal` with `to`: the clauses of BASE alone, or those of all of P0 to
/// PK, are then raw, or those of STEP alone. With a witness circuit in the place of CERT the words after it are five proofs of `certified`,
/// one for each condition, and the name of a condition of `obligations`. In place of `equal` the word `equal-alike-by-order` or
/// `equal-alike-by-name` says how registers with open start begin. Right before the name of such a command two words may say what
/// constraints say: after `--constraints first` runs meet those of FILE alone, and after `--constraints compared` the constraints of both
/// are compared, too. Without these words runs meet those of both. It takes no memory.
pub fn parse(words: &[String]) -> Option<Asked>
    ensures exact { (c : Asked) → (result ≡ Some c) ↔ Give (map string_bytes words.now) c }
    ensures small { IfSome result (λ c. step_of c.command < 2 ^ 32) }
{
    Some(call_of(words)?.asked)
}
