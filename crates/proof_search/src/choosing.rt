// The branch of a query that costs the least.
ghost use Rattle.std.specs.Prelude.{◌≡◌, ◌≤◌, ℕ, IfOk, OnOk, length};
ghost use Rattle.std.specs.Option.{IfSome, IfNone};
ghost use Rattle.meaning.specs.Runs.{opening};
ghost use Rattle.access_schema.specs.Meaning.{meaning_of};
ghost use Rattle.findings.specs.declared.least.Least.TheVariants as least;
ghost use Rattle.least_search.specs.declared.search.Ended.TheVariants as ended;
ghost use Rattle.least_search.specs.Walks.{GoalsGrow, IsNode};
ghost use Rattle.exposure_search.specs.Making.{IsBaseProof};
ghost use Rattle.exposure_search.specs.Exploring.{space_size, CanExpose, HasGoalAt, HasMatchAt, IsFounded};
ghost use Rattle.proof_search.specs.Chosen.{HasLongRun};
ghost use Rattle.proof_search.specs.Choices.{ArePossibleGoals, CostsAtMost, IsFound};
ghost use Rattle.proof_search.specs.Questions.{IsQuestion, IsBranchOn, IsSpaceOn, IsChoiceOn};

use crate::goals::possible_goals;
use crate::outcome::Choice;
use crate::question::Question;
use access_schema::cost;
use accessible_copy::Proof;
use exposure_search::{ExposureSpace, base_proof};
use findings::Least;
use least_search::{Ended, Node, Outcome, cheapest, find_cuts};
use lists::NoMemory;
use meaning::types::{Branch, Queries};
use plan_extract::extract_arranged;
use std::alloc::Global;

/// The first branch of a query, or one that costs less, and what is known of its cost.
///
/// The sets of exposures after the base firings of the query's proof are searched, with `search` units, and with cuts.
pub fn choose(
    alloc: Global,
    question: &Question<'_>,
    first: Branch,
    search: u32,
) -> Result<Choice, NoMemory>
    requires question { IsQuestion question.now }
    requires first { IsBranchOn question.now first }
    ensures { IfOk result (IsChoiceOn question.now search) }
{
    let firings = question.firings;
    match base_proof(
        alloc,
        question.schema,
        question.query,
        question.queries,
        question.known,
        firings,
    )? {
        Some(base) => choose_over(alloc, question, first, base, search),
        None => Ok(Choice {
            branch: first,
            least: Least::FiringsSpent { firings },
        }),
    }
}

/// The same, over the proof of the query's base firings.
fn choose_over(
    alloc: Global,
    question: &Question<'_>,
    first: Branch,
    base: Proof,
    search: u32,
) -> Result<Choice, NoMemory>
    requires question { IsQuestion question.now }
    requires first { IsBranchOn question.now first }
    requires base { IsBaseProof (meaning_of question.now.schema.now) base }
    requires start { base.start ≡ opening question.now.query.now }
    requires constants { base.constants ≡ question.now.known.now }
    requires few { length base.entries ≤ question.now.firings }
    ensures { IfOk result (IsChoiceOn question.now search) }
{
    // a drop that is written out is proved as one call, and one at the end of a scope as a call for each list in the value
    let Ok(goals) = possible_goals(alloc, question, &base) else {
        drop(base);
        return Err(NoMemory);
    };
    let choice = choose_among(alloc, question, &goals, first, base, search);
    drop(goals);
    choice
}

/// The same, where these are the goals that are possible over the proof's base facts.
fn choose_among(
    alloc: Global,
    question: &Question<'_>,
    goals: &Queries,
    first: Branch,
    base: Proof,
    search: u32,
) -> Result<Choice, NoMemory>
    requires question { IsQuestion question.now }
    requires goals { ArePossibleGoals question.now.queries.now question.now.head.now base.end.base goals.now }
    requires first { IsBranchOn question.now first }
    requires base { IsBaseProof (meaning_of question.now.schema.now) base }
    requires start { base.start ≡ opening question.now.query.now }
    requires constants { base.constants ≡ question.now.known.now }
    requires few { length base.entries ≤ question.now.firings }
    ensures { IfOk result (IsChoiceOn question.now search) }
{
    let firings = question.firings;
    let bound = cost(&first, question.schema);
    let mut space = ExposureSpace::new(
        alloc,
        question.schema,
        base,
        goals,
        question.head,
        firings,
    )?;
    // written out for their proofs, as in `choose_over`
    let Ok(Outcome { better, ended }) = search_below(alloc, &mut space, bound, search as u64) else {
        drop(space);
        return Err(NoMemory);
    };
    let least = least_of(ended, firings, search);
    let Some(node) = better else {
        drop(space);
        return Ok(Choice {
            branch: first,
            least,
        });
    };
    match cheaper(alloc, question, goals, space, &node)? {
        Some(branch) => Ok(Choice { branch, least }),
        None => Ok(Choice {
            branch: first,
            least: Least::FiringsSpent { firings },
        }),
    }
}

/// Searches the space for a match at less than the bound, with cuts that are found before. Finding them spends no unit, and makes at most
/// `search` visits: with no unit to search with there are no cuts.
pub(crate) fn search_below(
    alloc: Global,
    space: &mut ExposureSpace<'_>,
    bound: u64,
    search: u64,
) -> Result<Outcome, NoMemory>
    requires grow { GoalsGrow (HasGoalAt space.old) }
    requires founded { IsFounded space.old }
    ensures back { OnOk result (space.new ≡ space.old) }
    ensures found { IfOk result (IsFound space.old bound search) }
{
    let cuts = find_cuts(alloc, space, bound, search)?;
    let found = cheapest(alloc, space, cuts.as_slice(), bound, search);
    // written out for its proof, as in `choose_over`
    drop(cuts);
    Ok(found?)
}

/// What the end of a search says.
fn least_of(end: Ended, firings: u32, search: u32) -> Least
    ensures shown { end ≡ ended.Shown → result ≡ least.Shown }
    ensures search { (units : ℕ) → end ≡ ended.SearchSpent units → result ≡ least.SearchSpent search }
    ensures firings { end ≡ ended.FiringsSpent → result ≡ least.FiringsSpent firings }
{
    match end {
        Ended::Shown => Least::Shown,
        Ended::SearchSpent { .. } => Least::SearchSpent { units: search },
        Ended::FiringsSpent => Least::FiringsSpent { firings },
    }
}

/// The branch of the proof that makes the exposures of a node, trimmed to its match. None comes only where some run is too long.
fn cheaper(
    alloc: Global,
    question: &Question<'_>,
    goals: &Queries,
    space: ExposureSpace<'_>,
    node: &Node,
) -> Result<Option<Branch>, NoMemory>
    requires question { IsQuestion question.now }
    requires space { IsSpaceOn question.now space }
    requires goals { space.queries ≡ goals.now }
    requires node { IsNode (space_size space) (CanExpose space) node.now }
    requires goal { HasMatchAt space node.now.set.items }
    ensures branch { IfOk result (λ found. IfSome found (IsBranchOn question.now)) }
    ensures cost { IfOk result (λ found. IfSome found (λ branch. CostsAtMost (meaning_of question.now.schema.now) branch node.now.cost)) }
    ensures none { IfOk result (λ found. IfNone found (HasLongRun (meaning_of question.now.schema.now) question.now.known.now question.now.firings question.now.query.now)) }
{
    let Some((proof, found)) = space.reach(&node.path, &node.set)? else {
        return Ok(None);
    };
    let read = extract_arranged(alloc, &proof, question.schema, goals, question.head, &found);
    // written out for their proofs, as in `choose_over`
    drop(proof);
    drop(found);
    let branch = read?;
    Ok(Some(branch))
}
