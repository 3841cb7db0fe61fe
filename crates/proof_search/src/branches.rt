// The branches of queries.
ghost use Rattle.std.specs.Prelude.{◌≡◌, ◌≤◌, true, false, IfOk, Contains, length};
ghost use Rattle.std.specs.List.{AllZip};
ghost use Rattle.meaning.specs.Runs.{HasGoal};
ghost use Rattle.access_schema.specs.Meaning.{meaning_of};
ghost use Rattle.accessible_copy.specs.Proving.{log_of};
ghost use Rattle.accessible_copy.specs.Rounds.{IsAllQuiet, GoesOn};
ghost use Rattle.proof_search.specs.Questions.{AreQuestions, IsQuestion, IsSearchFor, IsBranchOn, IsChoiceOn, IsOutcomeOn};
ghost use Rattle.proof_search.specs.Questions.{IsFirstFor, IsChoiceFor, IsOutcomeFor, AreOutcomesFor};

use crate::attempting::attempted;
use crate::bounding::bounded;
use crate::exposing::Turn;
use crate::outcome::{Choice, Choices, First, Firsts, Outcome, QueryOutcome};
use crate::proving::prove;
use crate::question::{Question, Questions};
use crate::reading::branch_in;
use crate::refuting::refuted;
use crate::sparing::spare;
use accessible_copy::Proof;
use lists::{Copies, NoMemory, Seq};
use meaning::types::{Firings, Query};
use no_plan_witness::witness;
use plan_extract::frozen_values;
use std::alloc::Global;

/// The first branch of each of the queries, in order, each found by proofs of at most the question's firings.
///
/// The pair of a query that is stuck comes at once. Where the firings of a query are spent, the others are looked at too, as one of them
/// may be stuck; if none is, the log of the first comes. Attempts over some of the rules are made with `search` units at most.
pub fn first_branches(
    alloc: Global,
    questions: &Questions<'_>,
    search: u32,
) -> Result<Outcome, NoMemory>
    requires { AreQuestions questions.now }
    ensures { IfOk result (AreOutcomesFor questions.now) }
{
    let mut firsts = Seq::new(alloc);
    let mut spent = None;
    let queries = questions.queries.as_slice();
    for number in 0..queries.len() {
        match first_for(alloc, questions, &queries[number], search)? {
            QueryOutcome::Branch(first) => firsts.push(first)?,
            QueryOutcome::Stuck(pair) => return Ok(Outcome::Stuck(pair)),
            QueryOutcome::Spent(log) => spent = spent.or(Some((number as u32, log))),
        }
    }
    match spent {
        Some((number, log)) => Ok(Outcome::Spent(number, log)),
        None => Ok(Outcome::Branches(firsts)),
    }
}

/// The branch that is chosen for each of the queries, in order, searched for a cheaper one than its first with `search` units.
pub fn chosen_branches(
    alloc: Global,
    questions: &Questions<'_>,
    firsts: Firsts,
    search: u32,
) -> Result<Choices, NoMemory>
    requires questions { AreQuestions questions.now }
    requires firsts { AllZip (IsFirstFor questions.now) questions.now.queries.now firsts }
    ensures { IfOk result (λ choices. AllZip (IsChoiceFor questions.now search) questions.now.queries.now choices) }
{
    let mut choices = Seq::new(alloc);
    let queries = questions.queries.as_slice();
    let mut number: usize = 0;
    for first in firsts.into_vec() {
        choices.push(choice_for(alloc, questions, &queries[number], first, search)?)?;
        number += 1;
    }
    Ok(choices)
}

/// What the proofs of the query come to.
fn first_for(
    alloc: Global,
    questions: &Questions<'_>,
    query: &Query,
    search: u32,
) -> Result<QueryOutcome, NoMemory>
    requires questions { AreQuestions questions.now }
    requires among { Contains questions.now.queries.now query.now }
    ensures { IfOk result (IsOutcomeFor questions.now query.now) }
{
    let head = Seq::from_vec(frozen_values(alloc, query.head.as_slice())?);
    let question = Question {
        schema: questions.schema,
        query,
        queries: questions.queries,
        known: questions.known,
        head: &head,
        firings: questions.firings,
    };
    outcome_for(alloc, &question, search)
}

/// The branch that is chosen for the query, of which this is the first.
fn choice_for(
    alloc: Global,
    questions: &Questions<'_>,
    query: &Query,
    first: First,
    search: u32,
) -> Result<Choice, NoMemory>
    requires questions { AreQuestions questions.now }
    requires among { Contains questions.now.queries.now query.now }
    requires first { IsFirstFor questions.now query.now first }
    ensures { IfOk result (IsChoiceFor questions.now search query.now) }
{
    let head = Seq::from_vec(frozen_values(alloc, query.head.as_slice())?);
    let question = Question {
        schema: questions.schema,
        query,
        queries: questions.queries,
        known: questions.known,
        head: &head,
        firings: questions.firings,
    };
    chosen(alloc, &question, first, search)
}

/// The branch that is chosen where this is the first. One of an attempt is of a proof in which the cheapest exposures came first.
fn chosen(
    alloc: Global,
    question: &Question<'_>,
    first: First,
    search: u32,
) -> Result<Choice, NoMemory>
    requires question { IsQuestion question.now }
    requires first { IsBranchOn question.now first.branch }
    ensures { IfOk result (IsChoiceOn question.now search) }
{
    let First { branch, facts } = first;
    match facts {
        Some(facts) => {
            let branch = spare(alloc, question, branch, facts, search)?;
            bounded(alloc, question, branch, search)
        }
        None => bounded(alloc, question, branch, search),
    }
}

/// The branch of an attempt over some of the rules, or else what the proof over all of them comes to.
fn outcome_for(
    alloc: Global,
    question: &Question<'_>,
    search: u32,
) -> Result<QueryOutcome, NoMemory>
    requires { IsQuestion question.now }
    ensures { IfOk result (IsOutcomeOn question.now) }
{
    if let Some(branch) = attempted(alloc, question, search)? {
        return Ok(QueryOutcome::Branch(First {
            branch,
            facts: None,
        }));
    }
    let (proof, quiet) = prove(alloc, question, Turn::All)?;
    let outcome = outcome_of(alloc, question, &proof, quiet);
    // written out, since it is proved as one call, and at the end of the scope as a call for each list in the proof
    drop(proof);
    outcome
}

/// What a search of the query comes to, and whether nothing is active at its end.
fn outcome_of(
    alloc: Global,
    question: &Question<'_>,
    proof: &Proof,
    quiet: bool,
) -> Result<QueryOutcome, NoMemory>
    requires question { IsQuestion question.now }
    requires search { IsSearchFor question.now proof.now }
    requires quiet { quiet ≡ true → IsAllQuiet (meaning_of question.now.schema.now) proof.now }
    requires spent { quiet ≡ false → (question.now.firings ≤ length proof.now.entries) × GoesOn (meaning_of question.now.schema.now) proof.now }
    ensures { IfOk result (IsOutcomeOn question.now) }
{
    match branch_in(alloc, question, proof)? {
        Some(branch) => Ok(QueryOutcome::Branch(First {
            branch,
            facts: Some(proof.sizes().base),
        })),
        None => without_goal(alloc, question, proof, quiet),
    }
}

/// What a proof without a goal comes to: its pair where nothing is active, and otherwise that of a small base, or its log.
fn without_goal(
    alloc: Global,
    question: &Question<'_>,
    proof: &Proof,
    quiet: bool,
) -> Result<QueryOutcome, NoMemory>
    requires question { IsQuestion question.now }
    requires search { IsSearchFor question.now proof.now }
    requires quiet { quiet ≡ true → IsAllQuiet (meaning_of question.now.schema.now) proof.now }
    requires spent { quiet ≡ false → (question.now.firings ≤ length proof.now.entries) × GoesOn (meaning_of question.now.schema.now) proof.now }
    requires goal { HasGoal question.now.queries.now proof.now.end question.now.head.now → ⊥ }
    ensures { IfOk result (IsOutcomeOn question.now) }
{
    if quiet {
        let pair = witness(alloc, question.schema, proof, question.known, question.head)?;
        return Ok(QueryOutcome::Stuck(pair));
    }
    if let Some(pair) = refuted(alloc, question)? {
        return Ok(QueryOutcome::Stuck(pair));
    }
    let log = copied_log(alloc, proof)?;
    Ok(QueryOutcome::Spent(log))
}

/// A copy of the log of a proof.
fn copied_log(alloc: Global, proof: &Proof) -> Result<Firings, NoMemory>
    ensures { IfOk result (λ log. log ≡ log_of proof.now) }
{
    let mut log = Seq::new(alloc);
    while let Some(firing) = proof.log(log.len()) {
        log.push(firing.copy(alloc)?)?;
    }
    Ok(log)
}
