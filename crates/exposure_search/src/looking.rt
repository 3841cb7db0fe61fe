// Settling the copy and looking for a match in it.
ghost use Rattle.std.specs.Prelude.{◌≡◌, ◌≤◌, ◌<◌, ◌+◌, ◌^◌, ◌⊎◌, Contains, IsTrue, IfOk, Ok, length, true, false};
ghost use Rattle.meaning.specs.declared.types.Query.{Query};
ghost use Rattle.meaning.specs.Triggers.{IsQuiet};
ghost use Rattle.meaning.specs.Runs.{HasGoal, copy_state};
ghost use Rattle.access_schema.specs.Meaning.{meaning_of};
ghost use Rattle.rule_pass.specs.States.{SomeActive};
ghost use Rattle.rule_pass.specs.declared.pass.TheConstants.{MOST_FIRINGS};
ghost use Rattle.accessible_copy.specs.declared.settling.Round.TheVariants.{Quiet, Done, Spent};
ghost use Rattle.accessible_copy.specs.Proving.{IsProofOf};
ghost use Rattle.accessible_copy.specs.Settling.{Settles};
ghost use Rattle.accessible_copy.specs.Goals.{IsCounted};
ghost use Rattle.least_search.specs.declared.space.End.TheVariants as end;
ghost use Rattle.exposure_search.specs.Making.{OnlyExposes, GoesBeyond};

use crate::quieting::settle_copy;
use access_schema::Schema;
use accessible_copy::{Proof, Round, goal, mark};
use least_search::End;
use lists::NoMemory;
use meaning::types::{Queries, Vals};
use std::alloc::Global;

/// Makes copy firings, at most `room` and while the log has fewer than `budget`, until none is active, and looks for a match. Where no
/// rule on which a match can rest `fires`, none is made.
/// How it ended, and how many firings were made. Where the log has more than `budget` firings, nothing is done.
pub(crate) fn look(
    alloc: Global,
    proof: &mut Proof,
    schema: &Schema,
    fires: bool,
    queries: &Queries,
    head: &Vals,
    budget: u32,
    room: u64,
) -> Result<(End, u64), NoMemory>
    requires exposes { OnlyExposes (meaning_of schema.now) proof.old }
    requires counted { (query : Query) → Contains queries.now query → IsCounted query }
    requires few { length queries.now ≤ 2 ^ 32 }
    requires budget { budget ≤ MOST_FIRINGS }
    ensures run { IsProofOf (meaning_of schema.now) proof.new }
    ensures settles { Settles (meaning_of schema.now) true proof.old proof.new }
    ensures goal { IfOk result (λ seen. seen.0 ≡ end.Goal → HasGoal queries.now proof.new.end head.now) }
    ensures still { IfOk result (λ seen. seen.0 ≡ end.NoGoal →
        IsQuiet schema.now.rules (copy_state proof.new.end) ⊎ ((fires ≡ false) × (proof.new ≡ proof.old))) }
    ensures none { IfOk result (λ seen. seen.0 ≡ end.NoGoal → HasGoal queries.now proof.new.end head.now → ⊥) }
    ensures labels { IfOk result (λ seen. seen.0 ≡ end.NoGoal → proof.new.end.next ≤ 2 ^ 32) }
    ensures long { IfOk result (λ seen. seen.0 ≡ end.FiringsSpent → GoesBeyond (meaning_of schema.now) budget proof.new) }
    ensures few { IfOk result (λ seen. seen.0 ≡ end.Goal → length proof.new.entries ≤ budget) }
    ensures fired { IfOk result (λ seen. length proof.old.entries + seen.1 ≡ length proof.new.entries) }
    ensures room { IfOk result (λ seen. seen.1 ≤ room) }
    ensures spent { IfOk result (λ seen. seen.0 ≡ end.UnitsSpent → seen.1 ≡ room) }
    ensures due { IfOk result (λ seen. seen.0 ≡ end.UnitsSpent → SomeActive schema.now.rules (copy_state proof.new.end)) }
{
    let before = mark(proof).firings;
    if before > u64::from(budget) {
        return Ok((End::FiringsSpent, 0));
    }
    let ended = settle_copy(
        alloc,
        proof,
        schema,
        fires,
        most_firings(before, room, budget),
    )?;
    // read for its proof, as in `is_refuted`
    let _next = proof.next();
    let after = mark(proof).firings;
    let found = goal(alloc, proof, queries, head)?;
    let end = end_of(&ended, found.is_some(), after >= u64::from(budget));
    Ok((end, after - before))
}

/// How many firings the log may have, if it has so many before.
fn most_firings(before: u64, room: u64, budget: u32) -> u32
    ensures most { result ≤ budget }
    ensures room { result ≤ before + room }
    ensures short { result < budget → result ≡ before + room }
{
    let left = u64::from(budget).saturating_sub(before);
    if room < left {
        (before + room) as u32
    } else {
        budget
    }
}

/// How a visit ended, by how settling did, whether there is a match, and whether the firings of a run are spent.
fn end_of(ended: &Round, found: bool, full: bool) -> End
    requires { ended.now ≡ Done → ⊥ }
    ensures goal { result ≡ end.Goal → found ≡ true }
    ensures none { result ≡ end.NoGoal → (found ≡ false) × (ended.now ≡ Quiet) }
    ensures long { result ≡ end.FiringsSpent → (full ≡ true) × (ended.now ≡ Spent) }
    ensures spent { result ≡ end.UnitsSpent → (full ≡ false) × (ended.now ≡ Spent) }
{
    if found {
        return End::Goal;
    }
    match ended {
        Round::Quiet => End::NoGoal,
        Round::Done => unreachable!(),
        Round::Spent => spent_end(full),
    }
}

fn spent_end(full: bool) -> End
    ensures goal { result ≡ end.Goal → ⊥ }
    ensures none { result ≡ end.NoGoal → ⊥ }
    ensures long { result ≡ end.FiringsSpent → full ≡ true }
    ensures spent { result ≡ end.UnitsSpent → full ≡ false }
{
    if full {
        End::FiringsSpent
    } else {
        End::UnitsSpent
    }
}
