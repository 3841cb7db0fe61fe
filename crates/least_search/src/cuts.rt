// Cuts of a space: a lower bound for the cost of walks to a goal.
ghost use Rattle.std.specs.Prelude.{◌≡◌};
ghost use Rattle.std.specs.Result.{IfOk, OnOk};
ghost use Rattle.least_search.specs.Cuts.{AreCuts};

use crate::growing::{Visits, near_side};
use crate::residues::{least_left, pay, whole_costs};
use crate::space::Space;
use lists::NoMemory;
use std::alloc::Global;

/// A set without a goal, and how much each walk to a goal pays for leaving it.
#[derive(Drop)]
pub struct Cut {
    pub set: Vec<bool>,
    pub weight: u64,
}

/// Cuts of a space, until their weights reach `enough`, or `room` visits were made, or 16 firings for each of so many visits.
///
/// Each move that leaves a set pays for the cut out of its cost, and the weight is the least that is left of one of them. The sets are
/// grown, such that few moves leave them.
pub fn find_cuts<S: Space>(
    alloc: Global,
    space: &mut S,
    enough: u64,
    room: u64,
) -> Result<Vec<Cut>, NoMemory>
    ensures back { OnOk result (space.new ≡ space.old) }
    ensures cuts { IfOk result (λ cuts. AreCuts (S.size space.old) (S.CanMove space.old) (S.HasGoal space.old) cuts.items) }
{
    let mut visits = Visits::of(room);
    let mut residues = whole_costs(alloc, space)?;
    let mut cuts = Vec::new(alloc);
    let mut wanted = enough;
    while wanted > 0 {
        let Some(side) = near_side(alloc, space, &residues, &mut visits)? else {
            return Ok(cuts);
        };
        let Some(weight) = least_left(space, &side, &residues) else {
            return Ok(cuts);
        };
        if weight == 0 {
            return Ok(cuts);
        }
        pay(space, &side, &mut residues, weight);
        let weight = u64::from(weight);
        cuts.push(Cut {
            set: side.set,
            weight,
        })?;
        wanted -= wanted.min(weight);
    }
    Ok(cuts)
}
