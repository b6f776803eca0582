//! Names, line by line.

ghost use Rattle.std.specs.Prelude.{◌≡◌, ◌≢◌, not, ◌||◌, ◌++◌, length, AllPairs, is_some};
ghost use Rattle.std.specs.Str.{is_utf8};
ghost use Rattle.aig_circuit.specs.Circuit.{latch_leaves};
ghost use Rattle.aig_circuit.specs.View.{names_of};
ghost use Rattle.aig_format.specs.Parse.{parse_if, parse_text};
ghost use Rattle.aig_lexer.specs.Header.{numbers_of};
ghost use Rattle.aig_lexer.specs.Takes.{Makes, feed};
ghost use Rattle.aig_symbols.specs.Names.{EndsWith, kept_names, name_cause, tail_of};
ghost use Rattle.aig_symbols.specs.NameSteps.{with_name};

mod place;
mod text;

use aig_base::Source;
use aig_circuit::AigLatch;
use aig_lexer::{Header, InputBuffer, LineError};
use place::{named_node, next_place};
use std::alloc::{AllocFailed, Global};
use std::collections::{BTreeSet, HashMap};
use text::{kept_text, skip_text};

/// Reads a name, and keeps it where it is that of a node.
fn read_name<R: Source>(
    alloc: Global,
    buffer: &mut InputBuffer,
    r: &mut R,
    node: Option<usize>,
    names: &mut HashMap<usize, String>,
) -> Result<(), LineError>
    ensures { Makes name_cause
        (λ _ name. names_of names.new.entries ≡ with_name node name (names_of names.old.entries))
        (feed R.left R.failed R.pulls buffer.old r.old)
        (feed R.left R.failed R.pulls buffer.new r.new) result
        (parse_if parse_text (λ name. not (is_some node) || is_utf8 name)) }
{
    let Some(node) = node else {
        return skip_text(buffer, r);
    };
    match kept_text(alloc, buffer, r) {
        Ok(text) => match names.insert(node, text) {
            Ok(_) => Ok(()),
            Err(AllocFailed { value: (_, _text) }) => Err(LineError::Memory),
        },
        Err(error) => Err(error),
    }
}

/// Reads the names after the gates, and the comment after these, up to the end of the stream (AIGER format 20071012,
/// "Symbol table" and "Comment section"; AIGER 1.9: "Properties").
///
/// A name's place has to be within its section by the header's counts, and no two names are for one place. Names of
/// inputs and latches have to be UTF-8 and are answered by their nodes: `inputs` has the nodes of the inputs, and the
/// leaves of `latchs` are those of the latches, all of them different. Other names are read and not held.
///
/// Returns `Syntax` where the bytes are no such names and comment, `Stream` where a read failed, and `Memory` where a growth
/// was refused.
pub fn read_names<R: Source>(
    alloc: Global,
    buffer: &mut InputBuffer,
    r: &mut R,
    header: &Header,
    inputs: &[usize],
    latchs: &[AigLatch],
) -> Result<HashMap<usize, String>, LineError>
    requires inputs { length inputs.now ≡ header.now.inputs }
    requires latchs { length latchs.now ≡ header.now.latches }
    requires distinct { AllPairs (λ m n. m ≢ n) (inputs.now ++ latch_leaves latchs.now) }
    ensures { EndsWith name_cause
        (λ map names. names_of map.entries ≡ kept_names inputs.now (latch_leaves latchs.now) names)
        (feed R.left R.failed R.pulls buffer.old r.old)
        (feed R.left R.failed R.pulls buffer.new r.new) result (tail_of (numbers_of header.now)) }
{
    let mut places = BTreeSet::new(alloc);
    let mut names = HashMap::new(alloc);
    loop {
        let (letter, position) = match next_place(buffer, r, header) {
            Ok(Some(place)) => place,
            Ok(None) => return Ok(names),
            Err(error) => return Err(error.into()),
        };
        match places.insert((letter, position)) {
            Ok(true) => {}
            Ok(false) => return Err(LineError::Syntax),
            Err(_) => return Err(LineError::Memory),
        }
        let node = named_node(letter, position, inputs, latchs);
        if let Err(error) = read_name(alloc, buffer, r, node, &mut names) {
            return Err(error);
        }
    }
}
