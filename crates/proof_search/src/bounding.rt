// A lower bound for the cost of a query's branches, over a small base.
ghost use Rattle.std.specs.Prelude.{◌≡◌, ◌≤◌, IfOk, Ok, None, true, length};
ghost use Rattle.access_schema.specs.Meaning.{meaning_of};
ghost use Rattle.meaning.specs.Runs.{opening};
ghost use Rattle.rule_pass.specs.declared.pass.TheConstants.{HIGHEST_FIRST_LABEL};
ghost use Rattle.least_search.specs.declared.search.Ended.TheVariants as ended;
ghost use Rattle.exposure_search.specs.Making.{IsBaseProof};
ghost use Rattle.small_base.specs.Closed.{IsClosed};
ghost use Rattle.proof_search.specs.Choices.{ArePossibleGoals, IsLeastFor};
ghost use Rattle.proof_search.specs.Questions.{IsQuestion, IsBranchOn, IsChoiceOn};

use crate::choosing::{choose, search_below};
use crate::goals::possible_goals;
use crate::outcome::Choice;
use crate::question::Question;
use access_schema::cost;
use accessible_copy::Proof;
use exposure_search::{ExposureSpace, base_proof};
use findings::Least;
use least_search::{Ended, Outcome};
use lists::NoMemory;
use meaning::types::{Branch, Queries, Query};
use small_base::closed_query;
use std::alloc::Global;

/// The most facts of a small base.
const MOST_CLOSED: u32 = 1024;

/// The first branch of a query, or one that costs less, and what is known of its cost.
///
/// A search over a small base may show that the first branch costs the least, and then nothing else is searched. It has `search` units of
/// its own. What it says of units and firings that are spent is not of the query, and is dropped. Else the query's own base is searched, and
/// a cheaper branch that comes of it is looked at over the small base as well. Where no units are given, nothing is looked for.
pub fn bounded(
    alloc: Global,
    question: &Question<'_>,
    first: Branch,
    search: u32,
) -> Result<Choice, NoMemory>
    requires question { IsQuestion question.now }
    requires first { IsBranchOn question.now first }
    ensures { IfOk result (IsChoiceOn question.now search) }
{
    if search > 0 && is_least(alloc, question, &first, search)? {
        return Ok(Choice {
            branch: first,
            least: Least::Shown,
        });
    }
    let bound = cost(&first, question.schema);
    let choice = choose(alloc, question, first, search)?;
    if search == 0 || cost(&choice.branch, question.schema) >= bound {
        return Ok(choice);
    }
    confirmed(alloc, question, choice, search)
}

/// The choice; and where it is not said of its branch that no rival costs less, a search over a small base may show that.
fn confirmed(
    alloc: Global,
    question: &Question<'_>,
    choice: Choice,
    search: u32,
) -> Result<Choice, NoMemory>
    requires question { IsQuestion question.now }
    requires choice { IsChoiceOn question.now search choice }
    ensures { IfOk result (IsChoiceOn question.now search) }
{
    let Choice { branch, least } = choice;
    if least != Least::Shown && is_least(alloc, question, &branch, search)? {
        return Ok(Choice {
            branch,
            least: Least::Shown,
        });
    }
    Ok(Choice { branch, least })
}

/// Whether a search over a small base shows that no rival for the query costs less than the branch: over the query closed under the rules,
/// which has more atoms. A rival for the query is one for that.
fn is_least(
    alloc: Global,
    question: &Question<'_>,
    branch: &Branch,
    search: u32,
) -> Result<bool, NoMemory>
    requires question { IsQuestion question.now }
    requires branch { IsBranchOn question.now branch.now }
    ensures { result ≡ Ok true →
        IsLeastFor (meaning_of question.now.schema.now) question.now.known.now question.now.queries.now question.now.query.now branch.now }
{
    let Some(more) = closed_query(alloc, question.schema, question.query, MOST_CLOSED)? else {
        return Ok(false);
    };
    let shown = is_least_over(alloc, question, &more, branch, search);
    // written out, since it is proved as one call, and at the end of the scope as a call for each list in the query
    drop(more);
    shown
}

/// The same over this query, for which no base firing is due.
fn is_least_over(
    alloc: Global,
    question: &Question<'_>,
    more: &Query,
    branch: &Branch,
    search: u32,
) -> Result<bool, NoMemory>
    requires question { IsQuestion question.now }
    requires branch { IsBranchOn question.now branch.now }
    requires closed { IsClosed (meaning_of question.now.schema.now) question.now.query.now more.now }
    requires few { more.now.variables ≤ HIGHEST_FIRST_LABEL }
    ensures { result ≡ Ok true →
        IsLeastFor (meaning_of question.now.schema.now) question.now.known.now question.now.queries.now question.now.query.now branch.now }
{
    let made = base_proof(
        alloc,
        question.schema,
        more,
        question.queries,
        question.known,
        question.firings,
    )?;
    let Some(base) = made else {
        return Ok(false);
    };
    // written out for their proofs, as in `is_least`
    let Ok(goals) = possible_goals(alloc, question, &base) else {
        drop(base);
        return Err(NoMemory);
    };
    let shown = is_least_among(alloc, question, more, &goals, base, branch, search);
    drop(goals);
    shown
}

/// The same, over the proof of its opening, where these are the goals that are possible over the proof's base facts.
fn is_least_among(
    alloc: Global,
    question: &Question<'_>,
    more: &Query,
    goals: &Queries,
    base: Proof,
    branch: &Branch,
    search: u32,
) -> Result<bool, NoMemory>
    requires question { IsQuestion question.now }
    requires closed { IsClosed (meaning_of question.now.schema.now) question.now.query.now more.now }
    requires goals { ArePossibleGoals question.now.queries.now question.now.head.now base.end.base goals.now }
    requires base { IsBaseProof (meaning_of question.now.schema.now) base }
    requires start { base.start ≡ opening more.now }
    requires constants { base.constants ≡ question.now.known.now }
    requires base_few { length base.entries ≤ question.now.firings }
    requires branch { IsBranchOn question.now branch.now }
    ensures { result ≡ Ok true →
        IsLeastFor (meaning_of question.now.schema.now) question.now.known.now question.now.queries.now question.now.query.now branch.now }
{
    let firings = question.firings;
    let bound = cost(branch, question.schema);
    let mut space = ExposureSpace::new(
        alloc,
        question.schema,
        base,
        goals,
        question.head,
        firings,
    )?;
    let found = search_below(alloc, &mut space, bound, search as u64);
    // written out for their proofs, as in `is_least`
    drop(space);
    let outcome = found?;
    Ok(is_shown(&outcome))
}

/// Whether nothing was found below the bound, and it was shown that nothing can be. Takes no memory.
fn is_shown(outcome: &Outcome) -> bool
    ensures { result ≡ true → (outcome.now.ended ≡ ended.Shown) × (outcome.now.better ≡ None) }
{
    outcome.better.is_none() && outcome.ended == Ended::Shown
}
