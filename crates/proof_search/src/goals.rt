// The goals that are possible over a base.
ghost use Rattle.std.specs.Prelude.{◌≡◌, true, false, Contains, Ok, IfOk};
ghost use Rattle.meaning.specs.declared.types.Query.{Query as TheQuery};
ghost use Rattle.meaning.specs.declared.types.Val.TheVariants.{Const};
ghost use Rattle.meaning.specs.Matching.{IsQueryAnswer, GroundsOf};
ghost use Rattle.accessible_copy.specs.Goals.{IsCounted};
ghost use Rattle.proof_search.specs.Choices.{ArePossibleGoals};
ghost use Rattle.proof_search.specs.Questions.{IsQuestion};

use crate::attempting::base_facts;
use crate::forms::copied;
use crate::question::Question;
use accessible_copy::{Proof, head_match};
use homomorphism::Store;
use lists::{NoMemory, Seq};
use meaning::types::{Queries, Query, Vals};
use std::alloc::Global;

/// Those of the question's queries that have an answer with its head in the base facts of the proof.
///
/// Where no base firing is due, no other query has a goal: what firings make of some of these facts is among them under other labels. A
/// lone query is looked for in any case.
pub fn possible_goals(
    alloc: Global,
    question: &Question<'_>,
    base: &Proof,
) -> Result<Queries, NoMemory>
    requires { IsQuestion question.now }
    ensures { IfOk result (ArePossibleGoals question.now.queries.now question.now.head.now base.now.end.base) }
{
    let queries = question.queries.as_slice();
    if let [query] = queries {
        let mut goals = Seq::new(alloc);
        goals.push(copied(alloc, query)?)?;
        return Ok(goals);
    }
    let facts = base_facts(alloc, base)?;
    let found = answered(alloc, queries, &facts, question.head);
    // written out, since it is proved as one call, and at the end of the scope as a call for each list in the facts
    drop(facts);
    let goals = found?;
    Ok(goals)
}

/// Copies of those of the queries that have an answer with this head in the facts, in order.
pub(crate) fn answered(
    alloc: Global,
    queries: &[Query],
    facts: &Store,
    head: &Vals,
) -> Result<Queries, NoMemory>
    requires { (query : TheQuery) → Contains queries.now query → IsCounted query }
    ensures { IfOk result (ArePossibleGoals queries.now head.now facts.now) }
{
    let mut goals = Seq::new(alloc);
    for query in queries {
        if has_answer(alloc, query, facts, head)? {
            goals.push(copied(alloc, query)?)?;
        }
    }
    Ok(goals)
}

/// Whether the query has an answer with this head in the facts.
fn has_answer(alloc: Global, query: &Query, facts: &Store, head: &Vals) -> Result<bool, NoMemory>
    requires { IsCounted query.now }
    ensures { result ≡ Ok false → IsQueryAnswer Const (GroundsOf facts.now) query.now head.now → ⊥ }
{
    Ok(head_match(alloc, query, facts, head)?.is_some())
}
