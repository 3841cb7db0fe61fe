// Branches of queries by proofs over some of the rules.
ghost use Rattle.std.specs.Prelude.{◌≡◌, length, Contains, IfOk, IfSome, OnOk};
ghost use Rattle.meaning.specs.declared.types.Ground.{Ground as TheGround};
ghost use Rattle.access_schema.specs.Meaning.{meaning_of};
ghost use Rattle.schema_parts.specs.Parts.{with_rules, marked};
ghost use Rattle.proof_search.specs.Questions.{IsQuestion, IsSearchFor, IsBranchOn};
ghost use Rattle.proof_search.specs.Attempts.{AreAttempts, IsAttempt};

use crate::choosing::choose;
use crate::exposing::Turn;
use crate::goals::answered;
use crate::outcome::Choice;
use crate::proving::prove;
use crate::question::Question;
use crate::reading::branch_in;
use crate::sparing::cheaper_of;
use access_schema::Schema;
use accessible_copy::Proof;
use homomorphism::Store;
use lists::{Copies, NoMemory};
use meaning::types::Branch;
use rule_growth::{Phase, grown};
use schema_parts::with_some_rules;
use std::alloc::{AllocError, Global};

/// The most firings of an attempt.
const MOST_FIRED: u32 = 500;

/// The most units of the search for a cheaper branch over the rules of an attempt.
const MOST_TRIED: u32 = 500;

/// The most base facts of an attempt over which a cheaper branch is searched for.
const MOST_SEARCHED: usize = 256;

/// How often rules are added in a phase, at most.
const MOST_STEPS: u32 = 16;

/// The same for rules that make facts that are copied, where there is a branch without them.
const MOST_COPIED_STEPS: u32 = 4;

/// An attempt: the base facts of a proof over some of the rules, and its branch, if it has one.
#[derive(Drop)]
pub struct Attempt {
    facts: Store,
    branch: Option<Branch>,
}

/// What attempts have come to: a mark for each rule of the last one, the facts that these make, of which the first `opening` are the
/// query's, the relations whose facts are to be copied, and the branch that costs the least.
#[derive(Drop)]
pub struct Attempts {
    kept: Vec<bool>,
    facts: Store,
    opening: usize,
    copied: Vec<bool>,
    best: Option<Branch>,
}

/// A branch of the query that is read off a proof over some of the rules, if an attempt finds one.
///
/// The first attempt has no rule. Each later one has those of the one before, and rules that its facts ask for. Where no units are
/// given, the first branch will do.
pub fn attempted(
    alloc: Global,
    question: &Question<'_>,
    search: u32,
) -> Result<Option<Branch>, NoMemory>
    requires { IsQuestion question.now }
    ensures { IfOk result (λ found. IfSome found (IsBranchOn question.now)) }
{
    let kept = no_marks(alloc, question.schema.rules.len())?;
    let Some(first) = attempt_with(alloc, question, kept.as_slice(), search)? else {
        return Ok(None);
    };
    let mut attempts = Attempts {
        kept,
        opening: first.facts.len(),
        facts: first.facts,
        copied: Vec::new(alloc),
        best: first.branch,
    };
    // a drop that is written out is proved as one call, and one at the end of a scope as a call for each list in the value
    let Ok(()) = attempt_all(alloc, question, &mut attempts, search) else {
        drop(attempts);
        return Err(NoMemory);
    };
    let Attempts { best, .. } = attempts;
    Ok(best)
}

/// So many marks, of which none is set.
fn no_marks(alloc: Global, count: usize) -> Result<Vec<bool>, AllocError>
    ensures { IfOk result (λ marks. length marks.items ≡ count) }
{
    vec![in alloc; false; count]
}

/// Attempts with rules that make inputs known; with rules that make facts that are copied; and, while there is no branch, with all
/// rules that are not met.
fn attempt_all(
    alloc: Global,
    question: &Question<'_>,
    attempts: &mut Attempts,
    search: u32,
) -> Result<(), NoMemory>
    requires question { IsQuestion question.now }
    requires attempts { AreAttempts question.now attempts.old }
    ensures { OnOk result (AreAttempts question.now attempts.new) }
{
    attempt_each(alloc, question, attempts, Phase::Asked, search)?;
    attempt_each(alloc, question, attempts, Phase::Copied, search)?;
    if attempts.best.is_none() {
        attempt_each(alloc, question, attempts, Phase::Active, search)?;
    }
    Ok(())
}

/// Attempts with more and more rules of one kind.
fn attempt_each(
    alloc: Global,
    question: &Question<'_>,
    attempts: &mut Attempts,
    phase: Phase,
    search: u32,
) -> Result<(), NoMemory>
    requires question { IsQuestion question.now }
    requires attempts { AreAttempts question.now attempts.old }
    ensures { OnOk result (AreAttempts question.now attempts.new) }
{
    for step in 0..MOST_STEPS {
        if attempts.are_enough(phase, step, search) {
            return Ok(());
        }
        if !attempt_more(alloc, question, attempts, phase, search)? {
            return Ok(());
        }
    }
    Ok(())
}

impl Attempts {
    /// Whether no further attempt is made in this phase after so many steps. Takes no memory.
    fn are_enough(&self, phase: Phase, step: u32, search: u32) -> bool {
        self.best.is_some() && (search == 0 || phase == Phase::Copied && step >= MOST_COPIED_STEPS)
    }
}

/// An attempt with more rules, if there are any that leave it within its firings. Whether one was made.
///
/// Rules are added for the queries that have an answer in the facts so far.
fn attempt_more(
    alloc: Global,
    question: &Question<'_>,
    attempts: &mut Attempts,
    phase: Phase,
    search: u32,
) -> Result<bool, NoMemory>
    requires question { IsQuestion question.now }
    requires attempts { AreAttempts question.now attempts.old }
    ensures { OnOk result (AreAttempts question.now attempts.new) }
{
    let goals = answered(
        alloc,
        question.queries.as_slice(),
        &attempts.facts,
        question.head,
    )?;
    let found = grown(
        alloc,
        question.schema,
        &goals,
        &attempts.facts,
        attempts.opening,
        attempts.kept.as_slice(),
        phase,
        &mut attempts.copied,
    );
    drop(goals);
    let Some(more) = found? else {
        return Ok(false);
    };
    let Some(Attempt { facts, branch }) = attempt_with(alloc, question, more.as_slice(), search)?
    else {
        return Ok(false);
    };
    attempts.kept = more;
    attempts.facts = facts;
    attempts.best = better(question, attempts.best.take(), branch);
    Ok(true)
}

/// The branch that costs less, if there are two.
fn better(question: &Question<'_>, best: Option<Branch>, found: Option<Branch>) -> Option<Branch>
    requires best { IfSome best (IsBranchOn question.now) }
    requires found { IfSome found (IsBranchOn question.now) }
    ensures { IfSome result (IsBranchOn question.now) }
{
    match (best, found) {
        (Some(best), Some(found)) => Some(cheaper_of(question, best, found)),
        (Some(best), None) => Some(best),
        (None, found) => found,
    }
}

/// The attempt with the rules that are marked; none where its base firings are too many.
fn attempt_with(
    alloc: Global,
    question: &Question<'_>,
    kept: &[bool],
    search: u32,
) -> Result<Option<Attempt>, NoMemory>
    requires question { IsQuestion question.now }
    requires kept { length kept.now ≡ length question.now.schema.now.rules }
    ensures { IfOk result (λ made. IfSome made (IsAttempt question.now)) }
{
    let part = with_some_rules(alloc, question.schema, kept)?;
    let made = attempt_over(alloc, question, kept, &part, search);
    // written out, since it is proved as one call, and at the end of the scope as a call for each list in the schema
    drop(part);
    made
}

/// The attempt over this part of the schema.
fn attempt_over(
    alloc: Global,
    question: &Question<'_>,
    kept: &[bool],
    part: &Schema,
    search: u32,
) -> Result<Option<Attempt>, NoMemory>
    requires question { IsQuestion question.now }
    requires part { meaning_of part.now ≡ with_rules (meaning_of question.now.schema.now) (marked question.now.schema.now.rules kept.now) }
    ensures { IfOk result (λ made. IfSome made (IsAttempt question.now)) }
{
    let firings = question.firings.min(MOST_FIRED);
    let narrowed = Question {
        schema: part,
        query: question.query,
        queries: question.queries,
        known: question.known,
        head: question.head,
        firings,
    };
    attempt_on(alloc, &narrowed, search)
}

/// The attempt of a question over all rules of its schema.
fn attempt_on(
    alloc: Global,
    question: &Question<'_>,
    search: u32,
) -> Result<Option<Attempt>, NoMemory>
    requires { IsQuestion question.now }
    ensures { IfOk result (λ made. IfSome made (IsAttempt question.now)) }
{
    let (proof, quiet) = prove(alloc, question, Turn::Cheapest)?;
    let made = attempt_in(alloc, question, &proof, quiet, search);
    // written out, since it is proved as one call, and at the end of the scope as a call for each list in the proof
    drop(proof);
    made
}

/// The attempt that a proof of the question is.
fn attempt_in(
    alloc: Global,
    question: &Question<'_>,
    proof: &Proof,
    quiet: bool,
    search: u32,
) -> Result<Option<Attempt>, NoMemory>
    requires question { IsQuestion question.now }
    requires search { IsSearchFor question.now proof.now }
    ensures { IfOk result (λ made. IfSome made (IsAttempt question.now)) }
{
    // firings that were spent before any exposure were base firings
    if !quiet && proof.sizes().exposed == 0 {
        return Ok(None);
    }
    let facts = base_facts(alloc, proof)?;
    let branch = match branch_in(alloc, question, proof)? {
        Some(first) => Some(searched(alloc, question, first, facts.len(), search)?),
        None => None,
    };
    Ok(Some(Attempt { facts, branch }))
}

/// The base facts of a proof, found by all of their values.
pub(crate) fn base_facts(alloc: Global, proof: &Proof) -> Result<Store, NoMemory>
    ensures { IfOk result (λ facts. (fact : TheGround) → Contains proof.now.end.base fact → Contains facts fact) }
{
    let mut facts = Store::new(alloc);
    for number in 0..proof.sizes().base {
        if let Some(fact) = proof.base(number) {
            facts.insert(alloc, fact.copy(alloc)?)?;
        }
    }
    Ok(facts)
}

/// The first branch of a query, or one that costs less, where units are given and the base facts are few.
fn searched(
    alloc: Global,
    question: &Question<'_>,
    first: Branch,
    facts: usize,
    search: u32,
) -> Result<Branch, NoMemory>
    requires question { IsQuestion question.now }
    requires first { IsBranchOn question.now first }
    ensures { IfOk result (IsBranchOn question.now) }
{
    if search == 0 || facts > MOST_SEARCHED {
        return Ok(first);
    }
    let Choice { branch, .. } = choose(alloc, question, first, search.min(MOST_TRIED))?;
    Ok(branch)
}
