//! The numbers by which calls say how they ended.

ghost use Rattle.std.specs.Prelude.{◌≡◌, ◌<◌, ◌≤◌, ℕ};
ghost use Rattle.aig_calls.specs.Statuses.{answer_status, bounded_status, certificate_flag, check_status, claim_status, condition_flag, condition_status, edit_status, encode_status, fault_status, flagged, goal_status, lasso_status, nodes_status, pair_status, plan_status, question_flag, refutation_status, room_flag, sharing_status, show_status, simulation_status, solution_status, status_by, subject_status, tool_status, why_status, witness_status};

use aig_answers::{
    AnswerError, BoundedAnswerError, Goal, GoalError, GoalFault, PlanError, Refused, Why,
};
use aig_bounded::BoundedError;
use aig_check_commands::CheckError;
use aig_edits::{EditError, PairError};
use aig_encode::EncodeError;
use aig_giving::{DONE, HEADER, MEMORY, TOO_MANY, UNWRITABLE, of_read};
use aig_refutation::RefutationError;
use aig_subjects::{FileSubject, Subject, SubjectError};
use aig_tool_commands::ToolError;
use aig_witness::{ClaimError, LassoFault, ShowError, SolutionError, WitnessError, WitnessFault};
use aig_witness_circuit_checks::{Condition, ConditionError, SimulationError};
use aig_witness_circuits::{QuestionError, SharingError};

/// The number of a step is 2^32 or more.
pub(crate) const MANY_STEPS: u32 = 4;
/// The circuit with its further steps may pass the limit.
const TOO_LARGE: u32 = 5;
/// There is no bad state property, so that nothing is asked.
const NO_BADS: u32 = 6;
/// The window may have more variables than the limit.
const CROWDED: u32 = 7;
/// The counts of two files don't fit.
const MISFIT: u32 = 8;
/// The name of a leaf of a witness circuit has no literal of such a leaf of the model.
const UNKNOWN_LEAF: u32 = 14;
/// The name of a leaf of a witness circuit has the literal of another.
const TWICE: u32 = 15;
/// Outputs would become bad literals, and the file has some.
const HAS_BADS: u32 = 33;
/// The file has no output of the number.
const NO_OUTPUT: u32 = 34;
/// The question of a bounded check passes the limit while it is made.
const LARGE_QUESTION: u32 = 35;
/// Constraints would be joined to the first of several bad literals alone.
const MANY_BADS: u32 = 36;
/// The file has no bad literal of the number.
const NO_BAD: u32 = 37;
/// The file has no justice property of the number.
const NO_JUSTICE: u32 = 38;
/// The resets of a witness circuit go round in a circle.
const CIRCULAR: u32 = 39;
/// A proof is refused. The fault's number is added.
pub(crate) const PROOF: u32 = 40;
/// A witness is refused. The fault's number is added.
const WITNESS: u32 = 60;
/// A witness is of a bad state property.
pub(crate) const WITNESS_BAD: u32 = 64;
/// A witness shows no bad state. The fault's number is added.
const SHOW: u32 = 70;
/// A solver's answer is refused. The fault's number is added.
const SOLUTION: u32 = 80;
/// A witness shows no fair lasso. The fault's number is added.
const LASSO: u32 = 100;

/// It is the second of two files that is refused so.
pub(crate) const OTHER: u32 = 256;
/// It is the query of the circuit of two files, or its proof, that is refused so.
pub(crate) const QUERY: u32 = 512;
/// It is the window of the circuit of two files, or its proof, that is refused so.
pub(crate) const WINDOW: u32 = 1024;
/// It is the question of the first steps, or for the condition `base`, or its proof, that is refused so.
pub(crate) const BASE: u32 = 2048;
/// It is the proof of the window after the first steps, or the question for the condition `step`, or its proof, that is refused so.
pub(crate) const STEP: u32 = 4096;
/// It is the certificate of two files' miter, or what is made of both, that is refused so.
pub(crate) const CERTIFICATE: u32 = 8192;
/// It is the question for the condition `reset` of a witness circuit, or its proof, that is refused so.
pub(crate) const RESET: u32 = 16384;
/// It is that for `transition`.
pub(crate) const TRANSITION: u32 = 32768;
/// It is that for `property`.
pub(crate) const PROPERTY: u32 = 65536;

/// The status of a file without clauses.
fn of_encode(error: EncodeError) -> u32
    ensures exact { result ≡ encode_status error }
    ensures few { result < 60 }
{
    match error {
        EncodeError::Read(error) => of_read(error),
        EncodeError::Memory => MEMORY,
        EncodeError::TooLarge => TOO_LARGE,
    }
}

/// The status of a file of which nothing is made. What is written to memory stops only where memory is refused.
fn of_edit(error: EditError) -> u32
    ensures { result ≡ edit_status error }
{
    match error {
        EditError::Read(error) => of_read(error),
        EditError::ManyBads => MANY_BADS,
        EditError::HasBads => HAS_BADS,
        EditError::NoOutput => NO_OUTPUT,
        EditError::NoBad => NO_BAD,
        EditError::NoBads => NO_BADS,
        EditError::QuestionTooLarge => LARGE_QUESTION,
        EditError::PassesLimit => TOO_LARGE,
        EditError::TooLarge => UNWRITABLE,
        EditError::NoJustice => NO_JUSTICE,
        EditError::Memory | EditError::Write => MEMORY,
    }
}

/// The status of a proof that is refused.
fn of_refutation(error: RefutationError) -> u32
    ensures exact { result ≡ refutation_status error }
    ensures few { result < 60 }
{
    match error {
        RefutationError::Memory | RefutationError::Stream => MEMORY,
        RefutationError::Variable => PROOF,
        RefutationError::Line => PROOF + 1,
        RefutationError::Literal => PROOF + 2,
        RefutationError::Unnamed => PROOF + 3,
        RefutationError::Twice => PROOF + 4,
        RefutationError::Large => PROOF + 5,
        RefutationError::Step => PROOF + 6,
        RefutationError::Asymmetry => PROOF + 7,
        RefutationError::Binary => PROOF + 8,
        RefutationError::Unfinished => PROOF + 9,
    }
}

/// The status of a question that has no answer.
fn of_answer(error: AnswerError) -> u32
    ensures exact { result ≡ answer_status error }
    ensures few { result < 60 }
{
    match error {
        AnswerError::Encode(error) => of_encode(error),
        AnswerError::NoBads => NO_BADS,
    }
}

/// The status of a witness that shows no bad state. Which step it is isn't told.
fn of_fault(fault: WitnessFault) -> u32
    ensures exact { result ≡ fault_status fault }
{
    match fault {
        WitnessFault::Memory => MEMORY,
        WitnessFault::Latches => SHOW,
        WitnessFault::Inputs(_) => SHOW + 1,
        WitnessFault::NoStep => SHOW + 2,
        WitnessFault::NoBad => SHOW + 3,
        WitnessFault::Start => SHOW + 4,
        WitnessFault::Constraint(_) => SHOW + 5,
        WitnessFault::Bad => SHOW + 6,
    }
}

/// The status of a witness that is refused.
fn of_witness(error: WitnessError) -> u32
    ensures exact { result ≡ witness_status error }
{
    match error {
        WitnessError::Memory | WitnessError::Stream => MEMORY,
        WitnessError::Status => WITNESS,
        WitnessError::Property => WITNESS + 1,
        WitnessError::Values => WITNESS + 2,
    }
}

/// The status of a file and a witness that show no bad state.
fn of_show(error: ShowError) -> u32
    ensures exact { result ≡ show_status error }
{
    match error {
        ShowError::File(error) => of_read(error),
        ShowError::Witness(error) => of_witness(error),
        ShowError::NoWitness => WITNESS + 3,
        ShowError::Check(fault) => of_fault(fault),
    }
}

/// The status of a solver's answer that is refused.
fn of_solution(error: SolutionError) -> u32
    ensures exact { result ≡ solution_status error }
{
    match error {
        SolutionError::Memory | SolutionError::Stream => MEMORY,
        SolutionError::Unsatisfiable => SOLUTION,
        SolutionError::Unknown => SOLUTION + 1,
        SolutionError::Answer => SOLUTION + 2,
        SolutionError::Line => SOLUTION + 3,
        SolutionError::Literal => SOLUTION + 4,
        SolutionError::Variable => SOLUTION + 5,
        SolutionError::Clash => SOLUTION + 6,
        SolutionError::Unfinished => SOLUTION + 7,
        SolutionError::NoBad => SOLUTION + 8,
        SolutionError::Check(fault) => of_fault(fault),
    }
}

/// The status of a question up to a step that has no answer.
fn of_bounded(error: BoundedAnswerError) -> u32
    ensures exact { result ≡ bounded_status error }
{
    match error {
        BoundedAnswerError::Read(error) => of_read(error),
        BoundedAnswerError::NoBads => NO_BADS,
        BoundedAnswerError::Question(BoundedError::TooLarge) => LARGE_QUESTION,
        BoundedAnswerError::Question(BoundedError::Memory) => MEMORY,
        BoundedAnswerError::Solution(error) => of_solution(error),
    }
}

/// The status with a flag, which one that says nothing hasn't.
fn flagged(flag: u32, status: u32) -> u32
    requires flag { flag ≤ 65536 }
    requires few { status < 8192 }
    ensures { result ≡ flagged flag status }
{
    if status < MANY_STEPS {
        status
    } else {
        flag + status
    }
}

/// The status of two files that no circuit is made of. What is written to memory stops only where memory is refused.
fn of_pair(error: PairError) -> u32
    ensures exact { result ≡ pair_status error }
    ensures few { result < 512 }
{
    match error {
        PairError::Read(error) => of_read(error),
        PairError::Other(error) => flagged(OTHER, of_read(error)),
        PairError::Misfit(_) => MISFIT,
        PairError::TooLarge => UNWRITABLE,
        PairError::Memory | PairError::Write => MEMORY,
    }
}

/// The flag of a certificate of a miter, and of its proofs.
fn certificate_flag(subject: Subject) -> u32
    ensures exact { result ≡ certificate_flag subject }
    ensures few { result ≤ 8192 }
{
    match subject {
        Subject::MiterCertified(_) => CERTIFICATE,
        _ => 0,
    }
}

/// The status of files of which there is no circuit to ask about.
fn of_subject(subject: Subject, error: SubjectError) -> u32
    ensures { result ≡ subject_status subject error }
{
    match error {
        SubjectError::File(error) => of_edit(error),
        SubjectError::Pair(error) => of_pair(error),
        SubjectError::Certificate(error) => flagged(certificate_flag(subject), of_pair(error)),
    }
}

/// The status of a question that isn't shown to hold.
fn of_why(why: Why) -> u32
    ensures exact { result ≡ why_status why }
    ensures few { result < 60 }
{
    match why {
        Why::Clauses(BoundedError::TooLarge) => LARGE_QUESTION,
        Why::Clauses(BoundedError::Memory) => MEMORY,
        Why::Refutation(error) => of_refutation(error),
    }
}

/// The flag of the question at a place of a plan: of two proofs that of the first or the second, and none of a question of the file's own
/// circuit that is alone.
fn question_flag(subject: Subject, goal: Goal, index: usize) -> u32
    ensures exact { result ≡ question_flag subject goal index }
    ensures few { result ≤ 4096 }
{
    match (subject, goal) {
        (_, Goal::Safe(..)) if index == 0 => BASE,
        (_, Goal::Safe(..)) => STEP,
        (_, Goal::SafeBySteps(..)) if index == 0 => QUERY,
        (_, Goal::SafeBySteps(..)) => WINDOW,
        (Subject::File(FileSubject::Own), _) => 0,
        (_, Goal::RefutedTo(_)) => BASE,
        _ => QUERY,
    }
}

/// The flag of a plan for which there is no room: that of the window, if there are first steps, and none where the file's own circuit is
/// too large.
fn room_flag(subject: Subject, goal: Goal, index: usize) -> u32
    ensures exact { result ≡ room_flag subject goal index }
    ensures few { result ≤ 4096 }
{
    match (subject, goal) {
        (Subject::File(FileSubject::Own), _) => 0,
        (_, Goal::Safe(..)) => WINDOW,
        _ => question_flag(subject, goal, index),
    }
}

/// The status of a circuit that has more nodes than the limit: that of its further steps, where some are asked about.
fn of_nodes(goal: Goal) -> u32
    ensures exact { result ≡ nodes_status goal }
    ensures few { result < 60 }
{
    match goal {
        Goal::RefutedTo(_) => LARGE_QUESTION,
        Goal::Safe(..) => TOO_LARGE,
        _ => TOO_MANY,
    }
}

/// The status of a plan that isn't shown to hold.
fn of_plan(subject: Subject, goal: Goal, error: PlanError) -> u32
    ensures exact { result ≡ plan_status subject goal error }
    ensures few { result < 8192 }
{
    match error {
        PlanError::TooMany => room_flag(subject, goal, 0) + of_nodes(goal),
        PlanError::TooLarge(index) => room_flag(subject, goal, index) + TOO_LARGE,
        PlanError::NoBads => room_flag(subject, goal, 0) + NO_BADS,
        PlanError::Crowded(index) => room_flag(subject, goal, index) + CROWDED,
        PlanError::Refused(Refused { index, why }) => {
            flagged(question_flag(subject, goal, index), of_why(why))
        }
    }
}

/// The status of a witness circuit whose names don't say which leaves it shares. Which leaf it is isn't told.
fn of_sharing(error: SharingError) -> u32
    ensures { result ≡ sharing_status error }
{
    match error {
        SharingError::Memory => MEMORY,
        SharingError::Unknown(_) => UNKNOWN_LEAF,
        SharingError::Twice(_) => TWICE,
    }
}

/// The status of a condition that isn't shown.
fn of_condition(error: ConditionError) -> u32
    ensures exact { result ≡ condition_status error }
    ensures few { result < 60 }
{
    match error {
        ConditionError::Question(QuestionError::Memory) => MEMORY,
        ConditionError::Question(QuestionError::TooLarge) => LARGE_QUESTION,
        ConditionError::Refutation(error) => of_refutation(error),
    }
}

/// The flag of a condition.
fn flag_of(condition: Condition) -> u32
    ensures exact { result ≡ condition_flag condition }
    ensures few { result ≤ 65536 }
{
    match condition {
        Condition::Reset => RESET,
        Condition::Transition => TRANSITION,
        Condition::Property => PROPERTY,
        Condition::Base => BASE,
        Condition::Step => STEP,
    }
}

/// The status of a file whose machine isn't shown to be safe by a witness circuit.
fn of_simulation(error: SimulationError) -> u32
    ensures { result ≡ simulation_status error }
{
    match error {
        SimulationError::File(error) => of_edit(error),
        SimulationError::Witness(error) => flagged(OTHER, of_read(error)),
        SimulationError::NoBads => NO_BADS,
        SimulationError::Sharing(error) => of_sharing(error),
        SimulationError::Circular => CIRCULAR,
        SimulationError::Condition(condition, error) => {
            flagged(flag_of(condition), of_condition(error))
        }
    }
}

/// The status of a witness of a justice property that shows no fair lasso. Which step or literal it is isn't told.
fn of_lasso(fault: LassoFault) -> u32
    ensures { result ≡ lasso_status fault }
{
    match fault {
        LassoFault::Run(fault) => of_fault(fault),
        LassoFault::NoJustice => LASSO,
        LassoFault::NoLoop => LASSO + 1,
        LassoFault::Literal(_) => LASSO + 2,
        LassoFault::Fairness(_) => LASSO + 3,
    }
}

/// An error that a call tells by a number.
pub(crate) trait HasNumber: Drop {
    ghost number: { Self → ℕ };

    /// The number.
    fn number(self) -> u32
        ensures { result ≡ number self };
}

impl HasNumber for ToolError {
    ghost number = { tool_status };

    /// The status of a command of `aigtool` that has no answer. What is written to memory stops only where memory is refused.
    fn number(self) -> u32 {
        match self {
            ToolError::Read(error) => of_read(error),
            ToolError::Encode(error) => of_encode(error),
            ToolError::Memory | ToolError::Write(_) => MEMORY,
        }
    }
}

impl HasNumber for EditError {
    ghost number = { edit_status };

    fn number(self) -> u32 {
        of_edit(self)
    }
}

impl HasNumber for PairError {
    ghost number = { pair_status };

    fn number(self) -> u32 {
        of_pair(self)
    }
}

impl HasNumber for AnswerError {
    ghost number = { answer_status };

    fn number(self) -> u32 {
        of_answer(self)
    }
}

impl HasNumber for SimulationError {
    ghost number = { simulation_status };

    fn number(self) -> u32 {
        of_simulation(self)
    }
}

impl HasNumber for GoalError {
    ghost number = { λ e. goal_status e.subject e.goal e.fault };

    /// The status of files of which a goal isn't shown.
    fn number(self) -> u32 {
        let GoalError {
            subject,
            goal,
            fault,
        } = self;
        match fault {
            GoalFault::Subject(error) => of_subject(subject, error),
            GoalFault::Memory => MEMORY,
            GoalFault::Plan(error) => {
                flagged(certificate_flag(subject), of_plan(subject, goal, error))
            }
        }
    }
}

impl HasNumber for ShowError {
    ghost number = { show_status };

    fn number(self) -> u32 {
        of_show(self)
    }
}

impl HasNumber for ClaimError {
    ghost number = { claim_status };

    /// The status of a file and a witness that show no fair lasso.
    fn number(self) -> u32 {
        match self {
            ClaimError::Show(ShowError::Check(WitnessFault::Memory)) => MEMORY,
            ClaimError::Show(ShowError::Check(_)) => WITNESS_BAD,
            ClaimError::Show(error) => of_show(error),
            ClaimError::Lasso(fault) => of_lasso(fault),
        }
    }
}

impl HasNumber for CheckError {
    ghost number = { check_status };

    /// The status of a command of `aigcheck` that has no answer. What is written to memory stops only where memory is refused.
    fn number(self) -> u32 {
        match self {
            CheckError::Open => HEADER,
            CheckError::Memory | CheckError::Write => MEMORY,
            CheckError::Answer(error) => of_answer(error),
            CheckError::Solution(error) => of_solution(error),
            CheckError::Show(error) => of_show(error),
            CheckError::Lasso(fault) => of_lasso(fault),
            CheckError::Bounded(error) => of_bounded(error),
            CheckError::Goal(error) => error.number(),
            CheckError::Unmade(error) => of_edit(error),
            CheckError::Simulation(error) => of_simulation(error),
        }
    }
}

/// The status of a result.
pub(crate) fn status_of<E: HasNumber>(done: Result<(), E>) -> u32
    ensures { result ≡ status_by E.number done }
{
    match done {
        Ok(()) => DONE,
        Err(error) => error.number(),
    }
}
