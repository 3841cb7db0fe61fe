// The branch of a proof.
ghost use Rattle.std.specs.Prelude.{IfOk, IfSome, IfNone};
ghost use Rattle.meaning.specs.Runs.{HasGoal};
ghost use Rattle.proof_search.specs.Questions.{IsQuestion, IsSearchFor, IsBranchOn};

use crate::question::Question;
use accessible_copy::{Proof, goal};
use lists::NoMemory;
use meaning::types::Branch;
use plan_extract::extract_arranged;
use std::alloc::Global;

/// The branch of a proof of the query, where one of the queries has a match in its copy.
pub fn branch_in(
    alloc: Global,
    question: &Question<'_>,
    proof: &Proof,
) -> Result<Option<Branch>, NoMemory>
    requires question { IsQuestion question.now }
    requires search { IsSearchFor question.now proof.now }
    ensures branch { IfOk result (λ found. IfSome found (IsBranchOn question.now)) }
    ensures none { IfOk result (λ found. IfNone found (HasGoal question.now.queries.now proof.now.end question.now.head.now → ⊥)) }
{
    let Some(found) = goal(alloc, proof, question.queries, question.head)? else {
        return Ok(None);
    };
    let branch = extract_arranged(
        alloc,
        proof,
        question.schema,
        question.queries,
        question.head,
        &found,
    )?;
    Ok(Some(branch))
}
