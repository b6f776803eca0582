//! The place where what is given beside a file is refused, found by running the command again.

ghost use Rattle.std.specs.Prelude.{◌≡◌, ◌<◌, ◌⊎◌, IfOk, Some, map, slice_get, string_bytes, true};
ghost use Rattle.aig_command_line.specs.declared.tally.Place.TheVariants as places;
ghost use Rattle.aig_command_line.specs.Came.{IsPlaceIn};
ghost use Rattle.aig_check_commands.specs.Explaining.{IsRefusedIn, IsRunPlace};
ghost use Rattle.aig_check_commands.specs.Fits.{AreFor, Fits};
ghost use Rattle.aig_check_commands.specs.CommandWords.{beside_of};

use crate::checks::running::check_asked;
use crate::command::Call;
use crate::error::CheckError;
use crate::inputs::{Again, open_all};
use aig_answers::{BoundedAnswerError, Goal, GoalError, GoalFault, PlanError, Refused, Why};
use aig_base::{MemoryError, Source, StreamFault};
use aig_command_line::{Counted, Discarded, Measure, Origin, Place, Reopens};
use aig_refutation::RefutationError;
use aig_subjects::Subject;
use aig_witness::{ShowError, SolutionError, WitnessError};
use aig_witness_circuit_checks::{Condition, ConditionError, SimulationError};
use std::alloc::Global;
use std::marker::Brand;

/// Whether two errors of a proof are the same.
fn is_same_refutation(first: RefutationError, second: RefutationError) -> bool
    ensures { result ≡ true → first ≡ second }
{
    first == second
}

/// Whether two errors of a solver's answer are the same.
fn is_same_solution(first: SolutionError, second: SolutionError) -> bool
    ensures { result ≡ true → first ≡ second }
{
    first == second
}

/// Whether two errors of a witness are the same.
fn is_same_witness(first: WitnessError, second: WitnessError) -> bool
    ensures { result ≡ true → first ≡ second }
{
    first == second
}

/// Whether two errors of a bounded check are the same, and of what is given beside the file.
fn is_same_bounded(first: BoundedAnswerError, second: BoundedAnswerError) -> bool
    ensures { result ≡ true → first ≡ second }
{
    match (first, second) {
        (BoundedAnswerError::Solution(first), BoundedAnswerError::Solution(second)) => {
            is_same_solution(first, second)
        }
        _ => false,
    }
}

/// Whether two subjects are the same.
fn is_same_subject(first: Subject, second: Subject) -> bool
    ensures { result ≡ true → first ≡ second }
{
    first == second
}

/// Whether two goals are the same.
fn is_same_goal(first: Goal, second: Goal) -> bool
    ensures { result ≡ true → first ≡ second }
{
    first == second
}

/// Whether two errors of a plan are the same, and of a proof.
fn is_same_plan(first: PlanError, second: PlanError) -> bool
    ensures { result ≡ true → first ≡ second }
{
    match (first, second) {
        (
            PlanError::Refused(
                Refused {
                    index: first_index,
                    why: Why::Refutation(first),
                },
            ),
            PlanError::Refused(
                Refused {
                    index: second_index,
                    why: Why::Refutation(second),
                },
            ),
        ) => first_index == second_index && is_same_refutation(first, second),
        _ => false,
    }
}

/// Whether two errors of goals are the same, and of a proof.
fn is_same_shown(first: GoalError, second: GoalError) -> bool
    ensures { result ≡ true → first ≡ second }
{
    match (first.fault, second.fault) {
        (GoalFault::Plan(first_error), GoalFault::Plan(second_error)) => {
            is_same_subject(first.subject, second.subject)
                && is_same_goal(first.goal, second.goal)
                && is_same_plan(first_error, second_error)
        }
        _ => false,
    }
}

/// Whether two conditions are the same.
fn is_same_condition(first: Condition, second: Condition) -> bool
    ensures { result ≡ true → first ≡ second }
{
    first == second
}

/// Whether two errors of a file and a witness circuit are the same, and of a proof.
fn is_same_simulation(first: SimulationError, second: SimulationError) -> bool
    ensures { result ≡ true → first ≡ second }
{
    match (first, second) {
        (
            SimulationError::Condition(first_condition, ConditionError::Refutation(first)),
            SimulationError::Condition(second_condition, ConditionError::Refutation(second)),
        ) => is_same_condition(first_condition, second_condition)
            && is_same_refutation(first, second),
        _ => false,
    }
}

/// Whether two errors are the same, and of what is given beside a file.
fn is_same(first: CheckError, second: CheckError) -> bool
    ensures { result ≡ true → first ≡ second }
{
    match (first, second) {
        (CheckError::Solution(first), CheckError::Solution(second)) => {
            is_same_solution(first, second)
        }
        (
            CheckError::Show(ShowError::Witness(first)),
            CheckError::Show(ShowError::Witness(second)),
        ) => is_same_witness(first, second),
        (CheckError::Bounded(first), CheckError::Bounded(second)) => {
            is_same_bounded(first, second)
        }
        (CheckError::Goal(first), CheckError::Goal(second)) => is_same_shown(first, second),
        (CheckError::Simulation(first), CheckError::Simulation(second)) => {
            is_same_simulation(first, second)
        }
        _ => false,
    }
}

/// How many bytes of a proof are read before the first step is.
const AHEAD: u64 = 1024;

/// The place of the last byte that came. Within the bytes of a proof that are read ahead none is told, since a step before may be
/// wrong.
fn place_told<R: Source, B: Origin>(counted: &Counted<R, B>, measure: Measure) -> Place
    ensures { (result ≡ places.Whole) ⊎ IsPlaceIn B.bytes measure result }
{
    match (measure, counted.place(Measure::Byte)) {
        (Measure::Proof | Measure::Byte, Place::Byte(count)) if count <= AHEAD => Place::Whole,
        _ => counted.place(measure),
    }
}

/// An input of a command that is run again.
#[derive(Drop)]
enum Traced<R, C> {
    /// One that is read as it is.
    Plain(R),
    /// The one of which the place is looked for: its bytes are counted. It has a buffer, which isn't on the stack.
    Counted(Box<C>),
}

impl<R: Source, C: Source> Source for Traced<R, C> {
    ghost use Rattle.aig_check_commands.specs.Tracing.{either};

    ghost left = { either R.left C.left };

    ghost failed = { either R.failed C.failed };

    ghost pulls = { either R.pulls C.pulls };

    fn pull(&mut self, buf: &mut [u8]) -> Result<usize, StreamFault> {
        match self {
            Traced::Plain(source) => source.pull(buf),
            Traced::Counted(source) => (**source).pull(buf),
        }
    }
}

/// An input that may be counted.
type Trace<R, B> = Traced<R, Counted<R, B>>;

/// An input whose bytes are counted.
// It is never inlined: else its buffer is on the stack while the command is run.
#[inline(never)]
fn counted<R: Source + Drop, B: Origin>(
    alloc: Global,
    source: R,
) -> Result<Trace<R, B>, MemoryError>
    requires { R.left source ≡ B.bytes }
    ensures { IfOk result (λ input. ⟦<Traced<R, Counted<R, B>> as Source>⟧.left input
        ≡ R.left source) }
{
    Ok(Traced::Counted(Box::new(alloc, Counted::new(source))?))
}

/// Inputs that are read as they are.
fn plain<R: Drop, C: Drop>(alloc: Global, inputs: Vec<R>) -> Result<Vec<Traced<R, C>>, MemoryError>
    ensures { IfOk result (λ traced. traced.items ≡ map (λ source. Traced.Plain source)
        inputs.items) }
{
    let traced = inputs
        .into_iter()
        .map(|source| Traced::Plain(source))
        .collect(alloc)?;
    Ok(traced)
}

/// The inputs, of which the one of this number, the first of which is 0, is counted.
fn trace<R: Source + Drop, B: Origin>(
    alloc: Global,
    mut inputs: Vec<R>,
    which: usize,
) -> Result<Vec<Trace<R, B>>, MemoryError>
    requires { slice_get (map R.left inputs.items) which ≡ Some B.bytes }
    ensures { IfOk result (λ traced. map ⟦<Traced<R, Counted<R, B>> as Source>⟧.left traced.items
        ≡ map R.left inputs.items) }
{
    let counted = counted(alloc, inputs.remove(which))?;
    let mut traced = plain(alloc, inputs)?;
    traced.insert(which, counted)?;
    Ok(traced)
}

/// The place that is told of the counted input.
fn place_among<R: Source, B: Origin>(inputs: &[Trace<R, B>], measure: Measure) -> Place
    ensures { (result ≡ places.Whole) ⊎ IsPlaceIn B.bytes measure result }
{
    for input in inputs {
        if let Traced::Counted(counted) = input {
            return place_told(&**counted, measure);
        }
    }
    Place::Whole
}

/// Runs what is asked again, with this input counted. Returns the place of its last byte that came where the refusal is the same.
// It is never inlined: else its buffers are on the stack beside those of the first run.
#[inline(never)]
fn place_in<R: Source + Drop, B: Origin>(
    alloc: Global,
    call: &Call<'_>,
    files: Vec<R>,
    which: usize,
    error: CheckError,
    measure: Measure,
) -> Place
    requires fits { Fits call.now }
    requires checks { 0 < beside_of call.now.asked.command }
    requires files { AreFor call.now.asked.command files.items }
    requires origin { slice_get (map R.left files.items) which ≡ Some B.bytes }
    ensures { (result ≡ places.Whole) ⊎ IsRefusedIn call.now.limit call.now.asked
        (map R.left files.items) which error measure result }
{
    let Ok(mut traced) = trace::<R, B>(alloc, files, which) else {
        return Place::Whole;
    };
    let files = traced.as_mut_slice();
    match check_asked(alloc, call.limit, call.asked, files, &mut Discarded) {
        Err(again) if is_same(again, error) => place_among(traced.as_slice(), measure),
        _ => Place::Whole,
    }
}

/// The place where what words ask for refuses so what is given beside its files, of which this is the number: the first is 0.
pub(crate) fn place_by_run<F: Reopens>(
    alloc: Global,
    files: &F,
    call: &Call<'_>,
    number: usize,
    error: CheckError,
    measure: Measure,
) -> Place
    requires { Fits call.now }
    ensures { IsRunPlace (F.opens files.now) F.File.left call.now.limit call.now.asked
        (map string_bytes call.now.paths.now) (map string_bytes call.now.further.now) number error
        measure result }
{
    if number >= call.further.len() {
        return Place::Whole;
    }
    let Ok(opened) = open_all(alloc, &Again::new(files), call) else {
        return Place::Whole;
    };
    let which = call.paths.len() + number;
    place_in::<F::File, Brand>(alloc, call, opened, which, error, measure)
}
