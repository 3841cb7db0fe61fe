// Two instances that refute every plan, over a small base.
ghost use Rattle.std.specs.Prelude.{◌≡◌, ◌≤◌, IfOk, IfSome};
ghost use Rattle.access_schema.specs.Meaning.{meaning_of};
ghost use Rattle.rule_pass.specs.declared.pass.TheConstants.{HIGHEST_FIRST_LABEL};
ghost use Rattle.small_base.specs.Closed.{IsClosed};
ghost use Rattle.small_base.specs.Closing.{IsClosing};
ghost use Rattle.proof_search.specs.Questions.{IsQuestion, IsRefutedOn, IsExhausted};

use crate::exposing::{Turn, expose_all};
use crate::question::Question;
use accessible_copy::Proof;
use exposure_search::has_head;
use findings::Witness;
use homomorphism::Store;
use lists::{Copies, NoMemory};
use meaning::types::{Ground, Query};
use no_plan_witness::{base_facts, copy_facts, named_pair};
use rule_pass::State;
use small_base::{closed_query, closing};
use std::alloc::Global;

/// A pair that refutes every plan, where a small base shows one.
///
/// The facts of the first instance are the query's, closed under the rules with few labels, so that no base firing is due. All of them
/// that can be exposed are, and these, closed in the same way, are the second. Where no query has the head there, the pair refutes.
/// Firings and exposures together are no more than the question's firings: each of them adds a fact at least.
pub fn refuted(alloc: Global, question: &Question<'_>) -> Result<Option<Witness>, NoMemory>
    requires { IsQuestion question.now }
    ensures { IfOk result (λ found. IfSome found (IsRefutedOn question.now)) }
{
    let most = fact_limit(question.query.atoms.len(), question.firings);
    let Some(more) = closed_query(alloc, question.schema, question.query, most)? else {
        return Ok(None);
    };
    let found = refuted_over(alloc, question, &more);
    // a drop that is written out is proved as one call, and one at the end of a scope as a call for each list in the value
    drop(more);
    found
}

/// How many facts there are at most after so many firings, each of which adds one.
fn fact_limit(facts: usize, firings: u32) -> u32 {
    facts
        .saturating_add(firings as usize)
        .min(u32::MAX as usize) as u32
}

/// The same over the closed query.
fn refuted_over(
    alloc: Global,
    question: &Question<'_>,
    more: &Query,
) -> Result<Option<Witness>, NoMemory>
    requires question { IsQuestion question.now }
    requires closed { IsClosed (meaning_of question.now.schema.now) question.now.query.now more.now }
    requires few { more.now.variables ≤ HIGHEST_FIRST_LABEL }
    ensures { IfOk result (λ found. IfSome found (IsRefutedOn question.now)) }
{
    let added = more.atoms.len().saturating_sub(question.query.atoms.len());
    let left = (question.firings as usize).saturating_sub(added) as u32;
    let mut proof = Proof::start(
        alloc,
        question.schema,
        more,
        question.queries,
        question.known,
    )?;
    let Ok(quiet) = expose_all(alloc, &mut proof, question.schema, left, Turn::All) else {
        // written out for their proofs, as in `refuted`
        drop(proof);
        return Err(NoMemory);
    };
    if !quiet {
        drop(proof);
        return Ok(None);
    }
    let found = refuted_in(alloc, question, &proof, left);
    drop(proof);
    found
}

/// The pair of the base facts of the proof and of a closing of its exposed facts, which are its copy facts. Each of `left` firings adds
/// one of the latter, and the exposures are counted among them.
fn refuted_in(
    alloc: Global,
    question: &Question<'_>,
    proof: &Proof,
    left: u32,
) -> Result<Option<Witness>, NoMemory>
    requires question { IsQuestion question.now }
    requires exhausted { IsExhausted question.now proof.now.end }
    ensures { IfOk result (λ found. IfSome found (IsRefutedOn question.now)) }
{
    let copy = copy_facts(alloc, proof)?;
    let Some(state) = closing(alloc, question.schema, copy, proof.next(), left)? else {
        return Ok(None);
    };
    let found = refuted_beside(alloc, question, proof, &state);
    // written out for its proof, as in `refuted`
    drop(state);
    found
}

/// The pair of the base facts of the proof and of this closing of its copy facts, where no query has the head in it.
fn refuted_beside(
    alloc: Global,
    question: &Question<'_>,
    proof: &Proof,
    state: &State,
) -> Result<Option<Witness>, NoMemory>
    requires question { IsQuestion question.now }
    requires exhausted { IsExhausted question.now proof.now.end }
    requires closing { IsClosing (meaning_of question.now.schema.now) proof.now.end.copy proof.now.end.next state.now }
    ensures { IfOk result (λ found. IfSome found (IsRefutedOn question.now)) }
{
    if has_head(alloc, question.queries, state.store(), question.head)? {
        return Ok(None);
    }
    let base = base_facts(alloc, proof)?;
    let closed = facts_of(alloc, state.store())?;
    let pair = named_pair(
        alloc,
        question.schema,
        base.as_slice(),
        closed.as_slice(),
        question.known,
        question.head,
    )?;
    Ok(Some(pair))
}

/// Copies of the facts, in order.
fn facts_of(alloc: Global, facts: &Store) -> Result<Vec<Ground>, NoMemory>
    ensures { IfOk result (λ copies. copies.items ≡ facts.now) }
{
    let mut copies = Vec::new(alloc);
    while let Some(fact) = facts.get(copies.len()) {
        copies.push(fact.copy(alloc)?)?;
    }
    Ok(copies)
}
