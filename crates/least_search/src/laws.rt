//! What cuts show of walks.
ghost use Rattle.least_search.specs.Walks.{GoalsGrow, no_facts};
ghost use Rattle.least_search.specs.Cuts.{AreCuts, rest};
ghost use Rattle.least_search.specs.Costs.{IsLeastCost};

use crate::cuts::Cut;
use crate::space::Space;

/// No walk to a goal costs less than what is to be paid at the empty set.
pub fn cuts_bound<S: Space>(space: &S, cuts: &[Cut])
    requires grow { GoalsGrow (S.HasGoal space.now) }
    requires cuts { AreCuts (S.size space.now) (S.CanMove space.now) (S.HasGoal space.now) cuts.now }
    ensures { IsLeastCost (S.size space.now) (S.CanMove space.now) (S.HasGoal space.now) (rest cuts.now (no_facts (S.size space.now))) }
{}
