//! What an error is about.

ghost use Rattle.std.specs.Prelude.{◌≡◌};
ghost use Rattle.aig_witness_circuit_checks.specs.Simulated.{turn_of};
ghost use Rattle.aig_check_commands.specs.Subjects as specs;

use crate::error::CheckError;
use aig_answers::{AnswerError, BoundedAnswerError, GoalError, GoalFault, PlanError, Why};
use aig_bounded::BoundedError;
use aig_command_line::Measure;
use aig_edits::{EditError, PairError};
use aig_encode::EncodeError;
use aig_reader::{ReadError, Section};
use aig_refutation::RefutationError;
use aig_subjects::SubjectError;
use aig_witness::{LassoFault, ShowError, SolutionError, WitnessError, WitnessFault};
use aig_witness_circuit_checks::{Condition, ConditionError, SimulationError};
use aig_witness_circuits::{QuestionError, SharingError};

/// What an error is about.
#[derive(Clone, Copy, PartialEq, Eq)]
pub(crate) enum Subject {
    /// No file.
    Nothing,
    /// A file that isn't opened.
    Unopened,
    /// FILE.
    File,
    /// CERT, OTHER or a witness circuit.
    Other,
    /// PROOF, SOLUTION, WITNESS or BASE, or CERT after the word `by`.
    Given,
    /// STEP, or BASE behind CERT.
    Step,
    /// STEP behind CERT and BASE.
    Third,
    /// The proof of the question at this place of a plan, or for the condition whose turn this is.
    Nth(usize),
}

/// How the place is found where reading stopped.
#[derive(Clone, Copy)]
pub(crate) enum Search {
    /// There is none.
    Nowhere,
    /// The file is an AIGER file that is refused so.
    Read(ReadError),
    /// The command is run again, and the place is told so.
    Run(Measure),
}

/// What an error is about, and how the place is found where reading stopped.
#[derive(Clone, Copy)]
pub(crate) struct About {
    pub(crate) subject: Subject,
    pub(crate) search: Search,
}

/// About no file.
const NOTHING: About = About {
    subject: Subject::Nothing,
    search: Search::Nowhere,
};

/// About a file as a whole.
fn whole(subject: Subject) -> About
    ensures { result ≡ specs.whole subject }
{
    About {
        subject,
        search: Search::Nowhere,
    }
}

/// About a place that is found by running the command again.
fn found(subject: Subject, measure: Measure) -> About
    ensures { result ≡ specs.found subject measure }
{
    About {
        subject,
        search: Search::Run(measure),
    }
}

/// What an error of reading an AIGER file is about.
fn about_read(subject: Subject, error: ReadError) -> About
    ensures { result ≡ specs.about_read subject error }
{
    match error {
        ReadError::Memory => NOTHING,
        ReadError::Open => whole(Subject::Unopened),
        _ => About {
            subject,
            search: Search::Read(error),
        },
    }
}

/// What an error of making clauses is about.
fn about_encode(error: EncodeError) -> About
    ensures { result ≡ specs.about_encode error }
{
    match error {
        EncodeError::Read(error) => about_read(Subject::File, error),
        EncodeError::Memory => NOTHING,
        EncodeError::TooLarge => whole(Subject::File),
    }
}

/// What an error of a proof is about.
fn about_refutation(subject: Subject, error: RefutationError) -> About
    ensures { result ≡ specs.about_refutation subject error }
{
    match error {
        RefutationError::Memory | RefutationError::Variable => NOTHING,
        RefutationError::Stream | RefutationError::Unfinished => whole(subject),
        RefutationError::Binary => found(subject, Measure::Byte),
        _ => found(subject, Measure::Proof),
    }
}

/// What an error of an answer is about.
fn about_answer(error: AnswerError) -> About
    ensures { result ≡ specs.about_answer error }
{
    match error {
        AnswerError::Encode(error) => about_encode(error),
        AnswerError::NoBads => whole(Subject::File),
    }
}

/// What an error of values that show no bad state is about.
fn about_fault(fault: WitnessFault) -> About
    ensures { result ≡ specs.about_fault fault }
{
    match fault {
        WitnessFault::Memory => NOTHING,
        _ => whole(Subject::Given),
    }
}

/// What an error of a solver's answer is about.
fn about_solution(error: SolutionError) -> About
    ensures { result ≡ specs.about_solution error }
{
    match error {
        SolutionError::Memory => NOTHING,
        SolutionError::Answer
        | SolutionError::Line
        | SolutionError::Literal
        | SolutionError::Variable
        | SolutionError::Clash => found(Subject::Given, Measure::Line),
        SolutionError::Check(fault) => about_fault(fault),
        _ => whole(Subject::Given),
    }
}

/// What an error of a witness's text is about.
fn about_witness(error: WitnessError) -> About
    ensures { result ≡ specs.about_witness error }
{
    match error {
        WitnessError::Memory => NOTHING,
        WitnessError::Stream => whole(Subject::Given),
        _ => found(Subject::Given, Measure::Line),
    }
}

/// What an error of a witness of a file is about.
fn about_show(error: ShowError) -> About
    ensures { result ≡ specs.about_show error }
{
    match error {
        ShowError::File(error) => about_read(Subject::File, error),
        ShowError::Witness(error) => about_witness(error),
        ShowError::NoWitness => whole(Subject::Given),
        ShowError::Check(fault) => about_fault(fault),
    }
}

/// What an error of values that show no fair lasso is about.
fn about_lasso(fault: LassoFault) -> About
    ensures { result ≡ specs.about_lasso fault }
{
    match fault {
        LassoFault::Run(fault) => about_fault(fault),
        _ => whole(Subject::Given),
    }
}

/// What an error of what is made of a file is about.
fn about_edit(error: EditError) -> About
    ensures { result ≡ specs.about_edit error }
{
    match error {
        EditError::Read(error) => about_read(Subject::File, error),
        EditError::Memory | EditError::Write => NOTHING,
        _ => whole(Subject::File),
    }
}

/// What an error of two files is about, of which the second is this one.
fn about_pair(other: Subject, error: PairError) -> About
    ensures { result ≡ specs.about_pair other error }
{
    match error {
        PairError::Read(error) => about_read(Subject::File, error),
        PairError::Other(error) => about_read(other, error),
        PairError::Misfit(_) => whole(other),
        PairError::TooLarge => whole(Subject::File),
        PairError::Memory | PairError::Write => NOTHING,
    }
}

/// What an error of a bounded check is about.
fn about_bounded(error: BoundedAnswerError) -> About
    ensures { result ≡ specs.about_bounded error }
{
    match error {
        BoundedAnswerError::Read(error) => about_read(Subject::File, error),
        BoundedAnswerError::NoBads | BoundedAnswerError::Question(BoundedError::TooLarge) => {
            whole(Subject::File)
        }
        BoundedAnswerError::Question(BoundedError::Memory) => NOTHING,
        BoundedAnswerError::Solution(error) => about_solution(error),
    }
}

/// The proof of the question at this place of a plan: behind CERT, where that is of a miter.
fn proof_of(subject: aig_subjects::Subject, index: usize) -> Subject
    ensures { result ≡ specs.proof_of subject index }
{
    match subject {
        aig_subjects::Subject::MiterCertified(_) if index == 0 => Subject::Step,
        aig_subjects::Subject::MiterCertified(_) => Subject::Third,
        _ => Subject::Nth(index),
    }
}

/// What an error of a question's proof is about.
fn about_why(proof: Subject, why: Why) -> About
    ensures { result ≡ specs.about_why proof why }
{
    match why {
        Why::Clauses(BoundedError::TooLarge) => whole(Subject::File),
        Why::Clauses(BoundedError::Memory) => NOTHING,
        Why::Refutation(error) => about_refutation(proof, error),
    }
}

/// What an error of the plan of a goal is about.
fn about_plan(subject: aig_subjects::Subject, error: PlanError) -> About
    ensures { result ≡ specs.about_plan subject error }
{
    match error {
        PlanError::Refused(refused) => { about_why(proof_of(subject, refused.index), refused.why) }
        _ => whole(Subject::File),
    }
}

/// The certificate of a subject.
fn certificate_of(subject: aig_subjects::Subject) -> Subject
    ensures { result ≡ specs.certificate_of subject }
{
    match subject {
        aig_subjects::Subject::MiterCertified(_) => Subject::Given,
        _ => Subject::Other,
    }
}

/// What an error of the files of a subject is about.
fn about_subject(subject: aig_subjects::Subject, error: SubjectError) -> About
    ensures { result ≡ specs.about_subject subject error }
{
    match error {
        SubjectError::File(error) => about_edit(error),
        SubjectError::Pair(error) => about_pair(Subject::Other, error),
        SubjectError::Certificate(error) => about_pair(certificate_of(subject), error),
    }
}

/// What an error of a goal is about.
fn about_goal(error: GoalError) -> About
    ensures { result ≡ specs.about_goal error }
{
    match error.fault {
        GoalFault::Subject(fault) => about_subject(error.subject, fault),
        GoalFault::Memory => NOTHING,
        GoalFault::Plan(fault) => about_plan(error.subject, fault),
    }
}

/// What an error of a witness circuit is about whose names don't say which leaves it shares.
fn about_sharing(error: SharingError) -> About
    ensures { result ≡ specs.about_sharing error }
{
    match error {
        SharingError::Memory => NOTHING,
        _ => whole(Subject::Other),
    }
}

/// A condition's turn.
fn turn_of(condition: Condition) -> usize
    ensures { result ≡ turn_of condition }
{
    match condition {
        Condition::Reset => 0,
        Condition::Transition => 1,
        Condition::Property => 2,
        Condition::Base => 3,
        Condition::Step => 4,
    }
}

/// What an error of a condition of a witness circuit is about.
fn about_condition(condition: Condition, error: ConditionError) -> About
    ensures { result ≡ specs.about_condition condition error }
{
    match error {
        ConditionError::Question(QuestionError::TooLarge) => whole(Subject::File),
        ConditionError::Question(QuestionError::Memory) => NOTHING,
        ConditionError::Refutation(error) => {
            about_refutation(Subject::Nth(turn_of(condition)), error)
        }
    }
}

/// What an error of reading a witness circuit is about. The place is that where a file is refused, which stops at a reset that is a
/// function.
fn about_witness_circuit(error: ReadError) -> About
    ensures { result ≡ specs.about_witness_circuit error }
{
    match error {
        ReadError::Literal(Section::Latches) => whole(Subject::Other),
        _ => about_read(Subject::Other, error),
    }
}

/// What an error of a file and a witness circuit is about.
fn about_simulation(error: SimulationError) -> About
    ensures { result ≡ specs.about_simulation error }
{
    match error {
        SimulationError::File(error) => about_edit(error),
        SimulationError::Witness(error) => about_witness_circuit(error),
        SimulationError::NoBads => whole(Subject::File),
        SimulationError::Sharing(error) => about_sharing(error),
        SimulationError::Circular => whole(Subject::Other),
        SimulationError::Condition(condition, error) => about_condition(condition, error),
    }
}

/// What an error of the program is about.
pub(crate) fn about_error(error: CheckError) -> About
    ensures { result ≡ specs.about_error error }
{
    match error {
        CheckError::Open => whole(Subject::Unopened),
        CheckError::Memory | CheckError::Write => NOTHING,
        CheckError::Answer(error) => about_answer(error),
        CheckError::Solution(error) => about_solution(error),
        CheckError::Show(error) => about_show(error),
        CheckError::Bounded(error) => about_bounded(error),
        CheckError::Goal(error) => about_goal(error),
        CheckError::Lasso(fault) => about_lasso(fault),
        CheckError::Unmade(error) => about_edit(error),
        CheckError::Simulation(error) => about_simulation(error),
    }
}
