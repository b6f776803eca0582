//! What a command takes after its name.

ghost use Rattle.std.specs.Prelude.{◌≡◌, ◌↔◌, ◌<◌, ◌^◌, ◌++◌, ◌∷◌, ℕ, Bool, true, IfNone, IfSome, IsTrue, List, None, Some, codes, length, map, slice_get, string_bytes};
ghost use Rattle.std.specs.List.{IsSplitAt};
ghost use Rattle.aig_command_line.specs.Arguments.{AreStep, Arguments, GivesArguments, further_by, further_of, of_paths, seen};
ghost use Rattle.aig_command_line.specs.Settings.{AreSettings, IsRawSetting};
ghost use Rattle.aig_format.specs.Text.{IsNumber};

use crate::number::steps;

/// Which words name a step.
#[derive(Clone, Copy)]
pub enum Step {
    /// None.
    Absent,
    /// K.
    At,
    /// The word `to`, and then K.
    UpTo,
    /// The word `by`, which names none.
    By,
    /// The word `each`, and then K; K + 1 further paths come after it, one for each of the steps 0 to K.
    Each,
}

/// What a command takes after its name, in this order.
#[derive(Clone, Copy)]
pub struct ArgumentForm {
    /// How many paths.
    pub paths: usize,
    /// Which words come after them and name a step.
    pub step: Step,
    /// How many further paths come after these, and after the paths of each step.
    pub further: usize,
    /// Whether the word `distinct` may come after these.
    pub distinct: bool,
    /// Whether the word `raw` may come last.
    pub raw: bool,
}

impl ArgumentForm {
    /// The form of a command that takes so many paths alone.
    pub fn of_paths(paths: usize) -> ArgumentForm
        ensures { result ≡ of_paths paths }
    {
        ArgumentForm {
            paths,
            step: Step::Absent,
            further: 0,
            distinct: false,
            raw: false,
        }
    }
}

/// What the words of a command line give.
#[derive(Clone, Copy)]
pub struct Given<'a> {
    /// The paths after the command's name.
    pub paths: &'a [String],
    /// K, and 0 where the command names no step.
    pub step: usize,
    /// The paths after K.
    pub further: &'a [String],
    /// Whether the word `distinct` is there.
    pub distinct: bool,
    /// Whether clauses are optimised: the word `raw` isn't there.
    pub optimize: bool,
}

/// The path at an index.
pub fn path_at(paths: &[String], index: usize) -> Option<&str>
    ensures some { IfSome result
        (λ path. slice_get (map string_bytes paths.now) index ≡ Some path.now) }
    ensures none { IfNone result (slice_get (map string_bytes paths.now) index ≡ None) }
{
    match paths.get(index) {
        Some(path) => Some(path.as_str()),
        None => None,
    }
}

/// Whether a word is this one.
pub fn is_word(word: &String, text: &str) -> bool
    ensures { (result ≡ true) ↔ (string_bytes word.now ≡ text.now) }
{
    word.as_str() == text
}

/// Whether a word is a setting that is allowed.
fn is_setting(allowed: bool, word: &String, setting: &str) -> bool
    ensures { (result ≡ true) ↔ (IsTrue allowed × (string_bytes word.now ≡ setting.now)) }
{
    allowed && is_word(word, setting)
}

/// Whether to optimise clauses, as the last words say: `raw`, where it is allowed, or nothing.
fn raw_setting(allowed: bool, words: &[String]) -> Option<bool>
    ensures { (optimize : Bool) → (result ≡ Some optimize)
        ↔ IsRawSetting allowed optimize (map string_bytes words.now) }
{
    match words {
        [] => Some(true),
        [word] if is_setting(allowed, word, "raw") => Some(false),
        _ => None,
    }
}

/// The settings that the last words give: `distinct` or nothing, and then `raw` or nothing, each where it is allowed.
fn settings(form: ArgumentForm, words: &[String]) -> Option<(bool, bool)>
    ensures { (distinct optimize : Bool) → (result ≡ Some (distinct, optimize))
        ↔ AreSettings form distinct optimize (map string_bytes words.now) }
{
    match words {
        [word, rest @ ..] if is_setting(form.distinct, word, "distinct") => {
            Some((true, raw_setting(form.raw, rest)?))
        }
        _ => Some((false, raw_setting(form.raw, words)?)),
    }
}

/// The number that the first word gives, and the words after it.
pub(crate) fn number_first(words: &[String]) -> Option<(usize, &[String])>
    ensures some { IfSome result (λ p. (word : List ℕ) × IsNumber p.0 word
        × (map string_bytes words.now ≡ word ∷ map string_bytes p.1.now)) }
    ensures none { IfNone result ((k : ℕ) (word : List ℕ) (rest : List (List ℕ))
        → IsNumber k word → ¬ (map string_bytes words.now ≡ word ∷ rest)) }
{
    let (first, rest) = words.split_first()?;
    Some((steps(first.as_str())?, rest))
}

/// The words after a word, where that is the first.
pub(crate) fn after_word<'a>(words: &'a [String], first: &str) -> Option<&'a [String]>
    ensures some { IfSome result
        (λ rest. map string_bytes words.now ≡ first.now ∷ map string_bytes rest.now) }
    ensures none { IfNone result ((rest : List (List ℕ))
        → ¬ (map string_bytes words.now ≡ first.now ∷ rest)) }
{
    match words {
        [word, rest @ ..] if is_word(word, first) => Some(rest),
        _ => None,
    }
}

/// The step that the first words name, as they should, and the words after these.
fn step_first(form: Step, words: &[String]) -> Option<(usize, &[String])>
    ensures some { IfSome result (λ p. (word : List (List ℕ)) × AreStep form p.0 word
        × (map string_bytes words.now ≡ word ++ map string_bytes p.1.now)) }
    ensures none { IfNone result ((k : ℕ) (word rest : List (List ℕ)) → AreStep form k word
        → ¬ (map string_bytes words.now ≡ word ++ rest)) }
{
    match form {
        Step::Absent => Some((0, words)),
        Step::At => number_first(words),
        Step::UpTo => number_first(after_word(words, "to")?),
        Step::By => Some((0, after_word(words, "by")?)),
        Step::Each => number_first(after_word(words, "each")?),
    }
}

/// The paths after step K, of which there are so many besides those of each step, and the words after these.
fn further_first(
    step: Step,
    k: usize,
    further: usize,
    words: &[String],
) -> Option<(&[String], &[String])>
    requires { k < 2 ^ 32 }
    ensures some { IfSome result
        (λ p. IsSplitAt words.now (further_by step k further) p.0.now p.1.now) }
    ensures none { IfNone result (length words.now < further_by step k further) }
{
    match step {
        Step::Each => words.split_at_checked(further.checked_add(k + 1)?),
        _ => words.split_at_checked(further),
    }
}

/// What the words of a command line give a command of this name and form, or none where they don't fit it. It takes no memory.
pub fn arguments_of<'a>(name: &str, form: ArgumentForm, words: &'a [String]) -> Option<Given<'a>>
    ensures some { IfSome result
        (λ g. GivesArguments name.now form (map string_bytes words.now) (seen g)) }
    ensures none { IfNone result
        ((a : Arguments) → ¬ GivesArguments name.now form (map string_bytes words.now) a) }
    ensures paths { IfSome result (λ g. length g.paths.now ≡ form.paths) }
    ensures further { IfSome result (λ g. length g.further.now ≡ further_of form g.step) }
    ensures small { IfSome result (λ g. g.step < 2 ^ 32) }
{
    let (first, rest) = words.split_first()?;
    if first.as_str() != name {
        return None;
    }
    let (paths, rest) = rest.split_at_checked(form.paths)?;
    let (step, rest) = step_first(form.step, rest)?;
    let (further, rest) = further_first(form.step, step, form.further, rest)?;
    let (distinct, optimize) = settings(form, rest)?;
    Some(Given {
        paths,
        step,
        further,
        distinct,
        optimize,
    })
}
