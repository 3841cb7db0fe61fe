// The search for the least cost, set by set in ascending order of the cost and what cuts say is still to be paid (Hart, Nilsson and
// Raphael 1968; with no cuts, in ascending order of cost, Dijkstra 1959).
ghost use Rattle.std.specs.Prelude.{◌≡◌, ◌<◌, ◌+◌, ◌^◌, ℕ, Contains, None, Some, false, slice_get, if◌then◌else◌};
ghost use Rattle.std.specs.Result.{IfOk, OnOk};
ghost use Rattle.std.specs.Option.{IfSome};
ghost use Rattle.least_search.specs.declared.space.Move.{Move as TheMove};
ghost use Rattle.least_search.specs.declared.search.Ended.TheVariants as ended;
ghost use Rattle.least_search.specs.Walks.{CanGain, GoalsGrow, IsNode};
ghost use Rattle.least_search.specs.Cuts.{AreCuts};
ghost use Rattle.least_search.specs.Frontier.{way_of, looked_in, waiting_in, IsFrontier, IsAlike, IsTakenFrom, IsAdded, ArePushed};
ghost use Rattle.least_search.specs.Packing.{packed};
ghost use Rattle.least_search.specs.Costs.{IsLeastCost, IsEnough, IsSpent, best_cost};

use crate::cuts::Cut;
use crate::frontier::{Frontier, Taken};
use crate::node::Node;
use crate::set_key::SetKey;
use crate::space::{End, Move, Space};
use lists::NoMemory;
use std::alloc::Global;

/// How a search ended.
#[derive(Clone, Copy, Debug, PartialEq, Eq)]
pub enum Ended {
    /// The cost of what was found, or the bound, is the least cost.
    Shown,
    /// The units of the search were spent.
    SearchSpent { units: u64 },
    /// Some set was not settled, since a run got too long.
    FiringsSpent,
}

/// A set with a match that costs less than the bound, where one was found, and how the search ended.
#[derive(Drop)]
pub struct Outcome {
    pub better: Option<Node>,
    pub ended: Ended,
}

/// Visits sets in ascending order of the cost and what is still to be paid there, each once, until one has a match or all that is left
/// reaches the bound.
///
/// A unit is a set that is visited, or a firing that a visit makes; at most `search` units are spent. The cuts are those that `find_cuts`
/// found, or none.
pub fn cheapest<S: Space>(
    alloc: Global,
    space: &mut S,
    cuts: &[Cut],
    bound: u64,
    search: u64,
) -> Result<Outcome, NoMemory>
    requires grow { GoalsGrow (S.HasGoal space.old) }
    requires cuts { AreCuts (S.size space.old) (S.CanMove space.old) (S.HasGoal space.old) cuts.now }
    ensures back { OnOk result (space.new ≡ space.old) }
    ensures better { IfOk result (λ outcome. IfSome outcome.better (λ node. IsNode (S.size space.old) (S.CanMove space.old) node × S.HasMatch space.old node.set.items × (node.cost < bound))) }
    ensures shown { IfOk result (λ outcome. outcome.ended ≡ ended.Shown → IsLeastCost (S.size space.old) (CanGain (S.CanMove space.old) (S.Gains space.old)) (S.HasGoal space.old) (best_cost bound outcome.better)) }
    ensures search { IfOk result (λ outcome. (units : ℕ) → outcome.ended ≡ ended.SearchSpent units → (m n : ℕ) → IsEnough (S.HasRun space.old) search m n → ⊥) }
    ensures none { IfOk result (λ outcome. (units : ℕ) → outcome.ended ≡ ended.SearchSpent units → outcome.better ≡ None) }
    ensures units { IfOk result (λ outcome. (units : ℕ) → outcome.ended ≡ ended.SearchSpent units → units ≡ search) }
    ensures spent { IfOk result (λ outcome. (units : ℕ) → outcome.ended ≡ ended.SearchSpent units → IsSpent (S.size space.old) (S.CanMove space.old) (S.HasRun space.old) cuts.now bound search) }
    ensures firings { IfOk result (λ outcome. outcome.ended ≡ ended.FiringsSpent → S.HasLongRun space.old) }
{
    let mut frontier = Frontier::start(alloc, space.facts(), cuts, bound)?;
    let mut units = 0;
    let mut long = false;
    loop {
        let Some(taken) = frontier.take(alloc)? else {
            return Ok(none_better(long));
        };
        if units == search {
            return Ok(spent(units));
        }
        let visit = space.visit(
            &taken.node.path,
            &taken.node.set,
            search - units - 1,
            bound - taken.node.cost,
        )?;
        units = units + 1 + visit.fired;
        match visit.end {
            End::Goal => return Ok(Outcome {
                better: Some(taken.node),
                ended: how_ended(long),
            }),
            End::UnitsSpent => return Ok(spent(units)),
            End::FiringsSpent => long = true,
            End::NoGoal => {}
        }
        push_moves(alloc, &visit.moves, &mut frontier, &taken)?;
    }
}

fn how_ended(long: bool) -> Ended
    ensures { result ≡ (if long then ended.FiringsSpent else ended.Shown) }
{
    if long {
        Ended::FiringsSpent
    } else {
        Ended::Shown
    }
}

fn none_better(long: bool) -> Outcome
    ensures better { result.better ≡ None }
    ensures ended { result.ended ≡ (if long then ended.FiringsSpent else ended.Shown) }
{
    Outcome {
        better: None,
        ended: how_ended(long),
    }
}

fn spent(units: u64) -> Outcome
    ensures better { result.better ≡ None }
    ensures ended { result.ended ≡ ended.SearchSpent units }
{
    Outcome {
        better: None,
        ended: Ended::SearchSpent { units },
    }
}

/// Lets what was taken wait with one more move each, less the moves at which the sum reaches the bound.
fn push_moves(
    alloc: Global,
    moves: &[Move],
    frontier: &mut Frontier,
    taken: &Taken,
) -> Result<(), NoMemory>
    requires sound { IsFrontier frontier.old }
    requires from { IsTakenFrom frontier.old taken.now }
    requires low { taken.now.node.cost < frontier.old.bound }
    requires free { (move : TheMove) → Contains moves.now move → slice_get taken.now.node.set.items move.fact ≡ Some false }
    ensures sound { OnOk result (IsFrontier frontier.new) }
    ensures alike { OnOk result (IsAlike frontier.old frontier.new) }
    ensures looked { OnOk result (looked_in frontier.new ≡ looked_in frontier.old) }
    ensures pushed { OnOk result (ArePushed frontier.old.cuts.now frontier.old.bound (way_of taken.now.node) moves.now (looked_in frontier.old) (waiting_in frontier.old) (waiting_in frontier.new)) }
{
    let mut key = taken.key.copy(alloc)?;
    for &step in moves {
        add_move(alloc, frontier, taken, step, &mut key)?;
    }
    Ok(())
}

/// Lets what was taken wait with one more move. The key is that of its set, and is used to look the larger set up.
fn add_move(
    alloc: Global,
    frontier: &mut Frontier,
    taken: &Taken,
    step: Move,
    key: &mut SetKey,
) -> Result<(), NoMemory>
    requires sound { IsFrontier frontier.old }
    requires from { IsTakenFrom frontier.old taken.now }
    requires low { taken.now.node.cost < frontier.old.bound }
    requires free { slice_get taken.now.node.set.items step.fact ≡ Some false }
    requires key { key.old ≡ packed taken.now.node.set.items }
    ensures sound { OnOk result (IsFrontier frontier.new) }
    ensures added { OnOk result (IsAdded frontier.old frontier.new taken.now step) }
    ensures key { key.new ≡ packed taken.now.node.set.items }
{
    key.mark(step.fact);
    let added = frontier.add(alloc, taken, step, key);
    key.unmark(step.fact);
    added
}
