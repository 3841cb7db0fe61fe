// Whether the copy has a match of a query whose head values are given.
ghost use Rattle.std.specs.Prelude.{◌≡◌, ◌≤◌, ◌^◌, ℕ, IfOk, IfSome, IfNone, Contains, length, replicate, None};
ghost use Rattle.meaning.specs.declared.types.Query.{Query};
ghost use Rattle.meaning.specs.declared.types.Val.TheVariants.{Const};
ghost use Rattle.meaning.specs.Matching.{IsQueryAnswer, GroundsOf};
ghost use Rattle.meaning.specs.Runs.{HasGoal};
ghost use Rattle.accessible_copy.specs.Goals.{IsCounted, IsHeadMatch, IsGoal};

use crate::proof::Proof;
use homomorphism::{Assignment, Bindings, Store, first_match, unify};
use lists::{NoMemory, Seq};
use meaning::types::{Queries, Query, Vals};
use std::alloc::Global;

/// A query, by its number, with values for its variables.
#[derive(Drop)]
pub struct Match {
    pub select: u32,
    pub assignment: Assignment,
}

/// A match of a query of the list in the copy facts, with these head values. None comes exactly where there is none.
pub fn goal(
    alloc: Global,
    proof: &Proof,
    queries: &Queries,
    head: &Vals,
) -> Result<Option<Match>, NoMemory>
    requires counted { (query : Query) → Contains queries.now query → IsCounted query }
    requires few { length queries.now ≤ 2 ^ 32 }
    ensures some { IfOk result (λ found. IfSome found (λ m. IsGoal queries.now proof.now.end.copy head.now m.select m.assignment.vals)) }
    ensures none { IfOk result (λ found. IfNone found (HasGoal queries.now proof.now.end head.now → ⊥)) }
{
    for number in 0..queries.len() {
        let query = &queries.as_slice()[number];
        if let Some(assignment) = head_match(alloc, query, proof.copy.store(), head)? {
            return Ok(Some(Match {
                select: number as u32,
                assignment,
            }));
        }
    }
    Ok(None)
}

/// Values for the query's variables that make its atoms facts of the store and its head these values. None comes exactly
/// where the values are no answer of the query.
pub fn head_match(
    alloc: Global,
    query: &Query,
    store: &Store,
    head: &Vals,
) -> Result<Option<Assignment>, NoMemory>
    requires { IsCounted query.now }
    ensures some { IfOk result (λ found. IfSome found (λ m. IsHeadMatch store.now query.now head.now m.vals)) }
    ensures none { IfOk result (λ found. IfNone found (IsQueryAnswer Const (GroundsOf store.now) query.now head.now → ⊥)) }
{
    let given = no_values(alloc, query.variables as usize)?;
    match unify(alloc, given, query.head.as_slice(), head.as_slice())? {
        Some(narrow) => Ok(first_match(alloc, &query.atoms, store, &narrow)?),
        None => Ok(None),
    }
}

/// No value for so many variables.
pub fn no_values(alloc: Global, count: usize) -> Result<Bindings, NoMemory>
    ensures { IfOk result (λ given. given ≡ replicate count None) }
{
    let mut given = Vec::with_capacity(alloc, count)?;
    for _ in 0..count {
        given.push(None)?;
    }
    Ok(Seq::from_vec(given))
}
