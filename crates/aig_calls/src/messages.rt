//! What a status says, in words.

ghost use Rattle.std.specs.Prelude.{◌≡◌, ◌<◌, ◌≤◌, List, ℕ};
ghost use Rattle.aig_giving.specs.Given.{IsGiven};

use crate::status::{
    BASE, CERTIFICATE, OTHER, PROOF, PROPERTY, QUERY, RESET, STEP, TRANSITION, WINDOW,
};
use aig_base::MemoryError;
use aig_giving::{EMPTY, MEMORY, give};
use std::alloc::Global;

/// What is said before the words of a status with a flag.
fn prefix_of(status: u32) -> &'static [u8] {
    if status >= STEP {
        b"step: "
    } else if status >= BASE {
        b"base: "
    } else if status >= WINDOW {
        b"window: "
    } else if status >= QUERY {
        b"query: "
    } else if status >= OTHER {
        b"other file: "
    } else {
        b""
    }
}

/// What is said before that of a status about a certificate of a miter, or about one of the first conditions of a witness circuit.
fn lead_of(status: u32) -> &'static [u8] {
    if status >= PROPERTY {
        b"property: "
    } else if status >= TRANSITION {
        b"transition: "
    } else if status >= RESET {
        b"reset: "
    } else if status >= CERTIFICATE {
        b"certificate: "
    } else {
        b""
    }
}

/// The words of a status below 40.
fn words_of_file(status: u32) -> &'static [u8] {
    match status {
        0 => b"done",
        1 => b"too little room",
        2 => b"out of memory",
        3 => b"read failed",
        4 => b"step past 2^32 - 1",
        5 => b"unrolled circuit may pass the limit",
        6 => b"no bad state property (aigedit bads makes outputs such)",
        7 => b"window may pass the limit",
        8 => b"files do not fit",
        9 => b"too large for the format",
        10 => b"bad header line",
        11 => b"too many variables",
        12 => b"bad difference",
        13 => b"bad name line",
        14 => b"a leaf's name has no literal of such a leaf of the model",
        15 => b"a leaf's name has the literal of another",
        16 => b"bad line in inputs",
        17 => b"bad line in latches",
        18 => b"bad line in outputs",
        19 => b"bad line in bads",
        20 => b"bad line in constraints",
        21 => b"bad line in justice",
        22 => b"bad line in fairness",
        23 => b"bad line in gates",
        24 => b"bad literal in inputs",
        25 => b"bad literal in latches",
        26 => b"bad literal in outputs",
        27 => b"bad literal in bads",
        28 => b"bad literal in constraints",
        29 => b"bad literal in justice",
        30 => b"bad literal in fairness",
        31 => b"bad literal in gates",
        33 => b"has a bad state property already",
        34 => b"no such output",
        35 => b"question may pass the limit",
        36 => b"constraints and several bad state properties (aigedit compress makes these one)",
        37 => b"no such bad state property",
        38 => b"no such justice property",
        39 => b"resets of the witness circuit go round in a circle",
        _ => b"no status",
    }
}

/// The words of a status from 40 on, without its flag: of what is given beside a file.
fn words_of_given(status: u32) -> &'static [u8] {
    match status {
        40 => b"literal of no variable in clauses",
        41 => b"bad proof line",
        42 => b"literal of no variable in proof",
        43 => b"number of no clause in proof",
        44 => b"number used twice in proof",
        45 => b"number too large in proof",
        46 => b"proof step does not follow",
        47 => b"proof step has not the RAT property",
        48 => b"bad binary proof; behind the word lrat it is read as LRAT",
        49 => b"proof ends before the empty clause",
        60 => b"no status line 1",
        61 => b"bad property line",
        62 => b"bad line of values",
        63 => b"no witness",
        64 => b"the witness is of a bad state property",
        70 => b"the state has another number of values than there are latches",
        71 => b"a step has another number of values than there are inputs",
        72 => b"no step",
        73 => b"no such bad state property",
        74 => b"the state isn't known to be initial",
        75 => b"a constraint is not known to hold at a step",
        76 => b"the bad literal is not known to hold",
        80 => b"the solver answered UNSATISFIABLE",
        81 => b"the solver answered UNKNOWN",
        82 => b"no answer of a solver: lines `s SATISFIABLE` and `v ..` are wanted",
        83 => b"bad line of a solution",
        84 => b"bad literal in a solution",
        85 => b"literal of no variable in a solution",
        86 => b"literal and its inverse in a solution",
        87 => b"solution ends before its 0",
        88 => b"the solution shows no bad state",
        100 => b"no such justice property",
        101 => b"no state is known to come again after the last step",
        102 => b"a literal of the justice property is not known to hold in the loop",
        103 => b"a fairness literal is not known to hold in the loop",
        _ => b"no status",
    }
}

/// The words of a status from 110 on, of a circuit in memory.
fn words_of_circuit(status: u32) -> &'static [u8] {
    match status {
        110 => b"the handle holds nothing",
        111 => b"no such edge, node, entry, list or limit",
        112 => b"more than 2^31 nodes",
        113 => b"a leaf is neither input nor latch",
        114 => b"an initial edge is not constant",
        115 => b"a name holds a line feed",
        116 => b"the node is not a free leaf",
        117 => b"the name is not UTF-8",
        118 => b"the node has no name",
        119 => b"the node is no gate, or an operand has no smaller number",
        120 => b"the circuit does not begin with the other one",
        121 => b"more or fewer values than inputs or latches",
        122 => b"a value is none of the three",
        _ => b"no status",
    }
}

/// The words of a status.
fn words_of(status: u32) -> &'static [u8] {
    let plain = status % OTHER;
    if plain < PROOF {
        words_of_file(plain)
    } else if plain < EMPTY {
        words_of_given(plain)
    } else {
        words_of_circuit(plain)
    }
}

/// What a status says, in words.
fn text_of(alloc: Global, status: u32) -> Result<Vec<u8>, MemoryError> {
    let mut text = Vec::new(alloc);
    text.extend_from_slice(lead_of(status))?;
    text.extend_from_slice(prefix_of(status % CERTIFICATE))?;
    text.extend_from_slice(words_of(status))?;
    Ok(text)
}

/// What a status says, in words: those of the programs. The one error is refused memory.
#[unsafe(no_mangle)]
pub extern "C" fn aig_message(alloc: Global, status: u32, out: &mut [u8], needed: &mut usize) -> u32
    ensures answer { result < 2 → (text : List ℕ) × IsGiven result text out.old out.new needed.new }
    ensures kept { 2 ≤ result → (result ≡ 2) × (out.new ≡ out.old) × (needed.new ≡ needed.old) }
{
    match text_of(alloc, status) {
        Ok(text) => give(text.as_slice(), out, needed),
        Err(_) => MEMORY,
    }
}
