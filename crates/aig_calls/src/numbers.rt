//! A call that gives the clauses of a query as numbers, and which literals stand for what.

ghost use Rattle.std.specs.Prelude.{◌≡◌, ◌<◌, ◌≤◌, ◌^◌, IfOk, Result, length};
ghost use Rattle.aig_answers.specs.declared.error.AnswerError.{AnswerError};
ghost use Rattle.aig_base.specs.Clauses.{AreBelow};
ghost use Rattle.aig_unroll.specs.Unroll.{UnrollsTo};
ghost use Rattle.aig_calls.specs.Calls.{AtStep, GivesListing, Lists};
ghost use Rattle.aig_calls.specs.Memory.{On};
ghost use Rattle.aig_calls.specs.Numbers.{AreNumbersOf, Listing};
ghost use Rattle.aig_calls.specs.Listings.{listing_in};

use crate::mapping::push_map;
use crate::status::HasNumber;
use crate::steps::step_of;
use aig_answers::{AnswerError, read_query};
use aig_base::{FromRead, MemoryError};
use aig_encode::Query;
use aig_giving::{give, push_list, push_lists};
use aig_tool_commands::LIMIT;
use std::alloc::Global;

/// What is listed: the count of variables, how many of the numbers are those of the clauses, and the numbers.
#[derive(Drop)]
struct Listed {
    variables: usize,
    clauses_len: usize,
    numbers: Vec<i32>,
}

/// The numbers of the clauses of a query for step `k`, and its map.
fn list(alloc: Global, asked: &Query, k: usize) -> Result<Listed, MemoryError>
    requires few { length asked.now.encoded.clauses < 2 ^ 31 }
    requires below { AreBelow (length asked.now.encoded.clauses) asked.now.extra }
    requires steps { UnrollsTo asked.now.encoded.circuit k asked.now.encoded.unrolled }
    requires nodes { length asked.now.encoded.unrolled.nodes < 2 ^ 31 }
    requires small { k < 2 ^ 32 }
    ensures { IfOk result (λ made. AreNumbersOf asked.now k made.variables made.clauses_len
        made.numbers.items) }
{
    let mut numbers = Vec::new(alloc);
    push_lists(&mut numbers, &asked.encoded.clauses)?;
    push_list(&mut numbers, &asked.extra)?;
    let variables = asked.encoded.clauses.num_vars();
    let clauses_len = numbers.len();
    push_map(alloc, &mut numbers, asked, k)?;
    Ok(Listed {
        variables,
        clauses_len,
        numbers,
    })
}

/// Lists the clauses and the map of the query of a file for step `k`.
fn ask(alloc: Global, file: &[u8], k: usize, optimize: bool) -> Result<Listed, AnswerError>
    requires { k < 2 ^ 32 }
    ensures { On file.now (λ r rest. Lists LIMIT k optimize r rest (listing_in result)) }
{
    let mut source = FromRead::new(file);
    let asked = read_query(alloc, &mut source, LIMIT, k, optimize)?;
    Ok(list(alloc, &asked, k)?)
}

/// Gives the numbers that are listed, how many variables there are, and how many of the numbers are those of the clauses.
fn give_list(
    listed: Result<Listed, AnswerError>,
    out: &mut [i32],
    needed: &mut usize,
    variables: &mut usize,
    clauses_len: &mut usize,
) -> u32
    ensures { GivesListing (listing_in listed) result out.old out.new needed.old needed.new
        variables.old variables.new clauses_len.old clauses_len.new }
{
    match listed {
        Ok(listed) => {
            *variables = listed.variables;
            *clauses_len = listed.clauses_len;
            give(listed.numbers.as_slice(), out, needed)
        }
        Err(error) => error.number(),
    }
}

/// The clauses of the query of a file for step `k`, as DIMACS numbers with a 0 after each clause, how many variables they have and
/// how many numbers they are; and behind them the literals that stand for the inputs at the steps 0 to `k`, the latches at step 0
/// and the bad state properties at step `k`.
#[unsafe(no_mangle)]
pub extern "C" fn aig_query_numbers(
    alloc: Global,
    file: &[u8],
    k: u64,
    optimize: bool,
    out: &mut [i32],
    needed: &mut usize,
    variables: &mut usize,
    clauses_len: &mut usize,
) -> u32
    ensures { let kept = (out.new ≡ out.old) × (needed.new ≡ needed.old) × (variables.new ≡
        variables.old) × (clauses_len.new ≡ clauses_len.old) in AtStep k result kept ((listed :
        Result Listing AnswerError) × On file.now (λ r rest. Lists LIMIT k optimize r rest
        listed) × GivesListing listed result out.old out.new needed.old needed.new variables.old
        variables.new clauses_len.old clauses_len.new) }
{
    match step_of(k) {
        Ok(k) => {
            let listed = ask(alloc, file, k, optimize);
            give_list(listed, out, needed, variables, clauses_len)
        }
        Err(status) => status,
    }
}
