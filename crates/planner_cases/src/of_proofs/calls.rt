// Calls that change a proof, one after another.
ghost use Rattle.std.specs.Prelude.{IfOk, OnOk};
ghost use Rattle.meaning.specs.Runs.{IsBaseQuiet};
ghost use Rattle.access_schema.specs.Meaning.{meaning_of};
ghost use Rattle.accessible_copy.specs.Proving.{IsProofOf, IsOrdered};

use super::queries::{counted, query};
use super::schemas::words;
use access_schema::Schema;
use accessible_copy::{Mark, Proof, Round, expose, exposures, mark, round, settle, undo};
use homomorphism::variables_width;
use lists::{NoMemory, Texts};
use meaning::types::{Firing, Queries, Query};
use rule_pass::{HIGHEST_FIRST_LABEL, MOST_FIRINGS};
use std::alloc::Global;
use std::test::Fail;

/// A call that changes a proof: a round or a pass over the base rules with a budget, the exposure that is listed with this
/// number, or an undo to so many firings.
#[derive(Clone, Copy)]
pub(crate) enum Call {
    Round(u32),
    Settle(u32),
    Expose(usize),
    Undo(u64),
}

/// The proof of the empty log.
fn opened(
    alloc: Global,
    schema: &Schema,
    query: &Query,
    goals: &Queries,
    known: &Texts,
) -> Result<Proof, NoMemory>
    ensures run { IfOk result (λ proof. IsProofOf (meaning_of schema.now) proof) }
    ensures ordered { IfOk result (λ proof. IsOrdered (meaning_of schema.now) proof) }
{
    let width = variables_width(query.atoms.as_slice());
    if width > query.variables as usize || query.variables > HIGHEST_FIRST_LABEL {
        return Err(NoMemory);
    }
    Proof::start(alloc, schema, query, goals, known)
}

/// The proof of the empty log of the query, where the constant k is known.
fn start_of(
    alloc: Global,
    schema: &Schema,
    query: &Query,
    goals: &Queries,
) -> Result<Proof, NoMemory>
    ensures run { IfOk result (λ proof. IsProofOf (meaning_of schema.now) proof) }
    ensures ordered { IfOk result (λ proof. IsOrdered (meaning_of schema.now) proof) }
{
    let known = words(alloc, "k")?;
    opened(alloc, schema, query, goals, &known)
}

/// The proof of the empty log, from these atoms, with a copy made for their matches.
pub(crate) fn start(
    alloc: Global,
    schema: &Schema,
    atoms: &[(u32, &str)],
) -> Result<Proof, NoMemory>
    ensures run { IfOk result (λ proof. IsProofOf (meaning_of schema.now) proof) }
    ensures ordered { IfOk result (λ proof. IsOrdered (meaning_of schema.now) proof) }
{
    let goals = counted(alloc, query(alloc, atoms)?)?;
    let query = query(alloc, atoms)?;
    start_of(alloc, schema, &query, &goals)
}

/// Fails where a base trigger is active: with no firing to spend, a pass makes none. Where a fact is exposed, none is active.
fn is_quiet(alloc: Global, proof: &mut Proof, schema: &Schema) -> Result<(), Fail>
    requires run { IsProofOf (meaning_of schema.now) proof.old }
    ensures run { IsProofOf (meaning_of schema.now) proof.new }
    ensures ordered { IsOrdered (meaning_of schema.now) proof.old → IsOrdered (meaning_of schema.now) proof.new }
    ensures quiet { OnOk result (IsBaseQuiet (meaning_of schema.now) proof.new.end) }
{
    if let Some(_) = proof.exposed(0) {
        return Ok(());
    }
    match settle(alloc, proof, schema, false, 0)? {
        Round::Quiet => Ok(()),
        _ => Err(Fail::from("a base trigger is active")),
    }
}

/// Makes the exposure that is listed with this number.
fn expose_listed(
    alloc: Global,
    proof: &mut Proof,
    schema: &Schema,
    number: usize,
) -> Result<(), Fail>
    requires run { IsProofOf (meaning_of schema.now) proof.old }
    requires ordered { IsOrdered (meaning_of schema.now) proof.old }
    ensures run { IsProofOf (meaning_of schema.now) proof.new }
    ensures ordered { IsOrdered (meaning_of schema.now) proof.new }
{
    is_quiet(alloc, proof, schema)?;
    let found = exposures(alloc, proof, schema)?;
    let Some(Firing::Expose { method, fact }) = found.get(number) else {
        return Err(Fail::from("no such exposure is active"));
    };
    expose(alloc, proof, schema, *method, fact)?;
    Ok(())
}

pub(crate) fn round_word(ended: Round) -> &'static str {
    match ended {
        Round::Quiet => "quiet",
        Round::Done => "done",
        Round::Spent => "spent",
    }
}

/// Makes the call, and gives a word for its answer.
pub(crate) fn make(
    alloc: Global,
    proof: &mut Proof,
    schema: &Schema,
    call: Call,
) -> Result<&'static str, Fail>
    requires run { IsProofOf (meaning_of schema.now) proof.old }
    requires ordered { IsOrdered (meaning_of schema.now) proof.old }
    ensures run { IsProofOf (meaning_of schema.now) proof.new }
    ensures ordered { IsOrdered (meaning_of schema.now) proof.new }
{
    match call {
        Call::Round(budget) if budget <= MOST_FIRINGS => {
            Ok(round_word(round(alloc, proof, schema, budget)?))
        }
        Call::Settle(budget) if budget <= MOST_FIRINGS => {
            Ok(round_word(settle(alloc, proof, schema, false, budget)?))
        }
        Call::Expose(number) => {
            expose_listed(alloc, proof, schema, number)?;
            Ok("exposed")
        }
        Call::Undo(firings) if firings <= mark(proof).firings => {
            undo(proof, Mark { firings });
            Ok("undone")
        }
        _ => Err(Fail::from("no such call")),
    }
}

pub(crate) fn write_number(
    alloc: Global,
    made: &mut String,
    word: &str,
    number: u64,
) -> Result<(), NoMemory> {
    made.push_str(format!(in alloc; "{word} {number}; ")?.as_str())
}

/// Makes the calls, and writes a word for each answer and the number of firings after it.
pub(crate) fn make_all(
    alloc: Global,
    proof: &mut Proof,
    schema: &Schema,
    calls: &[Call],
    made: &mut String,
) -> Result<(), Fail>
    requires run { IsProofOf (meaning_of schema.now) proof.old }
    requires ordered { IsOrdered (meaning_of schema.now) proof.old }
    ensures run { IsProofOf (meaning_of schema.now) proof.new }
    ensures ordered { IsOrdered (meaning_of schema.now) proof.new }
{
    for call in calls {
        let word = make(alloc, proof, schema, *call)?;
        write_number(alloc, made, word, mark(proof).firings)?;
    }
    Ok(())
}

/// A pass over the copy rules, where no base trigger is active.
pub(crate) fn settle_copies(
    alloc: Global,
    proof: &mut Proof,
    schema: &Schema,
) -> Result<Round, Fail>
    requires { IsProofOf (meaning_of schema.now) proof.old }
{
    is_quiet(alloc, proof, schema)?;
    Ok(settle(alloc, proof, schema, true, 10)?)
}
