// Sets that a closing of their facts shows to have no goal.
ghost use Rattle.std.specs.Prelude.{◌≡◌, ◌<◌, Contains, IfOk, Ok, length, true, false};
ghost use Rattle.meaning.specs.declared.types.Query.{Query as TheQuery};
ghost use Rattle.meaning.specs.declared.types.Val.TheVariants.{Const};
ghost use Rattle.meaning.specs.Matching.{IsQueryAnswer, GroundsOf};
ghost use Rattle.meaning_laws.specs.Rests.{HasGoalOver};
ghost use Rattle.access_schema.specs.Meaning.{meaning_of};
ghost use Rattle.accessible_copy.specs.Goals.{IsCounted};
ghost use Rattle.least_search.specs.declared.space.Move.{Move};
ghost use Rattle.exposure_search.specs.Ahead.{facts_along};
ghost use Rattle.exposure_search.specs.Exploring.{most_labels};
ghost use Rattle.exposure_search.specs.Aims.{space_of, IsAimed, LeadsTo};

use crate::aiming::Aim;
use crate::going::fact_at;
use accessible_copy::{Proof, head_match};
use homomorphism::Store;
use least_search::Move;
use lists::{Copies, NoMemory};
use meaning::types::{Ground, Queries, Query, Vals};
use small_base::closing;
use std::alloc::Global;

/// The most facts of a closing.
const MOST_CLOSED: u32 = 1024;

/// Whether the path's facts have a closing in which no query has the head: then they have no goal.
///
/// The chase invents new labels for each trigger, and a closing shares those of a rule, so it has few facts where the chase has many.
pub(crate) fn is_refuted(
    aim: &Aim,
    proof: &Proof,
    path: &[Move],
    set: &[bool],
) -> Result<bool, NoMemory>
    requires aimed { IsAimed aim.now proof.now }
    requires walk { LeadsTo (space_of aim.now proof.now) path.now set.now }
    ensures { result ≡ Ok true →
        HasGoalOver (meaning_of aim.now.schema.now) proof.now.constants aim.now.queries.now aim.now.head.now proof.now.end.next
        (most_labels aim.now.schema.now.rules) (facts_along proof.now.end.base path.now) → ⊥ }
{
    let facts = facts_along(aim.alloc, aim.facts.as_slice(), path)?;
    let Some(state) = closing(aim.alloc, aim.schema, facts, proof.next(), MOST_CLOSED)? else {
        return Ok(false);
    };
    // read for its proof: a closing with labels of 32 bits is one of the states of which a goal is asked
    let _next = state.next();
    let found = has_head(aim.alloc, aim.queries, state.store(), aim.head);
    // a drop that is written out is proved as one call, and one at the end of a scope as a call for each list in the value
    drop(state);
    Ok(!found?)
}

/// Copies of the facts that the moves expose, in order. `facts` are the base facts.
fn facts_along(alloc: Global, facts: &[Ground], path: &[Move]) -> Result<Vec<Ground>, NoMemory>
    requires { (move : Move) → Contains path.now move → move.fact < length facts.now }
    ensures { IfOk result (λ copies. copies.items ≡ facts_along facts.now path.now) }
{
    let mut copies = Vec::with_capacity(alloc, path.len())?;
    for step in path {
        copies.push(fact_at(facts, step.fact).copy(alloc)?)?;
    }
    Ok(copies)
}

/// Whether some query has an answer with these head values in the facts.
pub fn has_head(
    alloc: Global,
    queries: &Queries,
    facts: &Store,
    head: &Vals,
) -> Result<bool, NoMemory>
    requires { (query : TheQuery) → Contains queries.now query → IsCounted query }
    ensures { result ≡ Ok false → (query : TheQuery) → Contains queries.now query →
        IsQueryAnswer Const (GroundsOf facts.now) query head.now → ⊥ }
{
    for query in queries.as_slice() {
        if has_answer(alloc, query, facts, head)? {
            return Ok(true);
        }
    }
    Ok(false)
}

/// Whether the query has an answer with these head values in the facts.
fn has_answer(alloc: Global, query: &Query, facts: &Store, head: &Vals) -> Result<bool, NoMemory>
    requires { IsCounted query.now }
    ensures { result ≡ Ok false → IsQueryAnswer Const (GroundsOf facts.now) query.now head.now → ⊥ }
{
    Ok(head_match(alloc, query, facts, head)?.is_some())
}
