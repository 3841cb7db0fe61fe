// The space of a proof.
ghost use Rattle.std.specs.Prelude.{◌≡◌, ◌≤◌, ◌^◌, ◌⊎◌, Contains, IfOk, IfSome, IfNone, option_map, length};
ghost use Rattle.meaning.specs.declared.types.Query.{Query};
ghost use Rattle.access_schema.specs.Meaning.{meaning_of};
ghost use Rattle.rule_pass.specs.declared.pass.TheConstants.{MOST_FIRINGS};
ghost use Rattle.accessible_copy.specs.Goals.{IsCounted, IsGoal};
ghost use Rattle.least_search.specs.Walks.{IsWalk, no_facts};
ghost use Rattle.exposure_search.specs.Making.{IsBaseProof};
ghost use Rattle.exposure_search.specs.Exploring.{exploring_of, space_size, CanExpose, GainsAt, HasGoalAt, HasMatchAt, HasTry, HasRunBeyond, IsFounded};
ghost use Rattle.exposure_search.specs.Aims.{AreNamedFor};
ghost use Rattle.exposure_search.specs.Visiting.{IsReached};
ghost use Rattle.exposure_search.specs.Spaces.{explored_is_space};

use crate::aiming::Aim;
use crate::candidates::{candidate_moves, is_open};
use crate::visiting::{reach_set, visit_set};
use access_schema::Schema;
use accessible_copy::{Match, Proof};
use least_search::{Move, Space, Visit};
use lists::NoMemory;
use meaning::types::{Queries, Vals};
use std::alloc::Global;
use std::marker::Model;

/// The sets of base facts of a proof, with exposures of relevant facts as moves, and matches of queries in the settled copy as
/// goals.
///
/// A fact is relevant where a match can rest on it: directly, by rules, or as what makes an input of a relevant fact known. Where a
/// fact is relevant for the last of these alone, and holds no value that is not known yet, exposing it gains nothing.
/// A visit that looks at the copy leaves the exposures of its path made, so that the next one makes only those that its path has
/// beyond the common front. Contracts see the schema, the proof's beginning and what is looked for.
#[derive(Drop)]
pub struct ExposureSpace<'a> {
    aim: Aim<'a>,
    proof: Proof,
}

impl<'a> Model for ExposureSpace<'a> {
    ghost use Rattle.exposure_search.specs.Exploring.{Exploring};
    ghost use Rattle.exposure_search.specs.Aims.{space_of, IsAimed};

    ghost Value = { Exploring };

    ghost view = { λ s. space_of s.aim s.proof };

    ghost invariant = { λ s. IsAimed s.aim s.proof };
}

impl<'a> ExposureSpace<'a> {
    /// The space of a proof of base firings alone, after which no base trigger is active. A run may have `budget` firings.
    pub fn new(
        alloc: Global,
        schema: &'a Schema,
        proof: Proof,
        queries: &'a Queries,
        head: &'a Vals,
        budget: u32,
    ) -> Result<ExposureSpace<'a>, NoMemory>
        requires base { IsBaseProof (meaning_of schema.now) proof }
        requires counted { (query : Query) → Contains queries.now query → IsCounted query }
        requires few { length queries.now ≤ 2 ^ 32 }
        requires budget { budget ≤ MOST_FIRINGS }
        requires named { AreNamedFor (meaning_of schema.now) proof.constants proof.end.base proof.end.next queries.now head.now }
        ensures space { IfOk result (λ space. space ≡ exploring_of (meaning_of schema.now) proof queries.now head.now budget space.marks) }
        ensures founded { IfOk result (λ space. IsFounded space) }
    {
        // a drop that is written out is proved as one call, and one at the end of a scope as a call for each list in the value
        let Ok(aim) = Aim::of(alloc, schema, &proof, queries, head, budget) else {
            drop(proof);
            return Err(NoMemory);
        };
        Ok(ExposureSpace { aim, proof })
    }

    /// The proof that has just the exposures of the path, and copy firings behind them, with a match in it.
    ///
    /// None comes only where some run is longer than the budget, or where the set of the path has no goal.
    pub fn reach(self, path: &[Move], set: &[bool]) -> Result<Option<(Proof, Match)>, NoMemory>
        requires { IsWalk (CanExpose self) (no_facts (space_size self)) path.now set.now }
        ensures reached { IfOk result (λ found. IfSome found (λ pair. IsReached self.entry path.now pair.0)) }
        ensures found { IfOk result (λ found. IfSome found
            (λ pair. IsGoal self.entry.queries pair.0.end.copy self.entry.head pair.1.select pair.1.assignment.vals)) }
        ensures none { IfOk result (λ found. IfNone found (HasRunBeyond self.entry ⊎ (HasGoalAt self.entry set.now → ⊥))) }
    {
        let ExposureSpace { aim, mut proof } = self;
        let reached = reach_set(&aim, &mut proof, path, set);
        // written out for their proofs, as in `new`
        drop(aim);
        let Ok(found) = reached else {
            drop(proof);
            return Err(NoMemory);
        };
        Ok(with_match(proof, found))
    }
}

/// The proof with the match, if there is one.
fn with_match(proof: Proof, found: Option<Match>) -> Option<(Proof, Match)>
    ensures { result ≡ option_map (λ m. (proof, m)) found }
{
    match found {
        Some(found) => Some((proof, found)),
        None => {
            drop(proof);
            None
        }
    }
}

impl<'a> Space for ExposureSpace<'a> {
    ghost size = { space_size };

    ghost CanMove = { CanExpose };

    ghost Gains = { GainsAt };

    ghost HasGoal = { HasGoalAt };

    ghost HasMatch = { HasMatchAt };

    ghost HasRun = { HasTry };

    ghost HasLongRun = { HasRunBeyond };

    ghost is_space = { explored_is_space };

    fn facts(&self) -> usize {
        self.aim.facts.len()
    }

    fn candidates(&self, alloc: Global) -> Result<Vec<Move>, NoMemory> {
        candidate_moves(alloc, self.aim.candidates.as_slice())
    }

    fn is_open(&self, path: &[Move], set: &[bool], step: &Move) -> bool {
        is_open(
            self.aim.candidates.as_slice(),
            &self.aim.index,
            self.aim.facts.as_slice(),
            path,
            set,
            step,
        )
    }

    fn visit(
        &mut self,
        path: &[Move],
        set: &[bool],
        room: u64,
        below: u64,
    ) -> Result<Visit, NoMemory> {
        visit_set(&self.aim, &mut self.proof, path, set, room, below)
    }
}
