// A branch that costs little, before any search.
ghost use Rattle.std.specs.Prelude.{IfOk, IfSome};
ghost use Rattle.proof_search.specs.Questions.{IsQuestion, IsBranchOn};

use crate::exposing::Turn;
use crate::proving::prove;
use crate::question::Question;
use crate::reading::branch_in;
use access_schema::cost;
use lists::NoMemory;
use meaning::types::Branch;
use std::alloc::Global;

/// The most base facts over which such a branch is looked for: each turn of exposures looks at all of them.
const MOST_SPARED: usize = 256;

/// The first branch of a query, or one that costs less, read off a proof in which the cheapest exposures come first. The query's proofs
/// have so many base facts.
///
/// What the branch costs bounds the search for a cheaper one, so none is looked for where no units are given.
pub fn spare(
    alloc: Global,
    question: &Question<'_>,
    first: Branch,
    facts: usize,
    search: u32,
) -> Result<Branch, NoMemory>
    requires question { IsQuestion question.now }
    requires first { IsBranchOn question.now first }
    ensures { IfOk result (IsBranchOn question.now) }
{
    if search == 0 || facts > MOST_SPARED {
        return Ok(first);
    }
    let Some(branch) = spared(alloc, question)? else {
        return Ok(first);
    };
    Ok(cheaper_of(question, first, branch))
}

/// The other branch where it costs less, and else the first.
pub fn cheaper_of(question: &Question<'_>, first: Branch, other: Branch) -> Branch
    requires first { IsBranchOn question.now first }
    requires other { IsBranchOn question.now other }
    ensures { IsBranchOn question.now result }
{
    if cost(&other, question.schema) < cost(&first, question.schema) {
        other
    } else {
        first
    }
}

/// The branch of a proof in which the cheapest exposures come first.
fn spared(alloc: Global, question: &Question<'_>) -> Result<Option<Branch>, NoMemory>
    requires { IsQuestion question.now }
    ensures { IfOk result (λ found. IfSome found (IsBranchOn question.now)) }
{
    let (proof, _) = prove(alloc, question, Turn::Cheapest)?;
    let branch = branch_in(alloc, question, &proof);
    // written out, since it is proved as one call, and at the end of the scope as a call for each list in the proof
    drop(proof);
    branch
}
