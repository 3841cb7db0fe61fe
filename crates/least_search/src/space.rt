// What a search goes over: sets of numbered facts, and moves that add a fact each.
ghost use Rattle.std.specs.Prelude.{◌≡◌, ◌+◌, ◌<◌, ◌^◌, ◌≤◌, ◌↔◌, List, Bool, ℕ, Contains, IsTrue, length};
ghost use Rattle.std.specs.Result.{IfOk, OnOk};
ghost use Rattle.least_search.specs.declared.space.Move.{Move};
ghost use Rattle.least_search.specs.declared.space.End.TheVariants as end;
ghost use Rattle.least_search.specs.Walks.{IsWalk, IsSpace, no_facts};
ghost use Rattle.least_search.specs.Ends.{GoesOn};

use lists::NoMemory;
use std::alloc::Global;

/// One fact that is added, by a method, at a cost. Facts and methods count from 0.
#[derive(Clone, Copy, Debug, PartialEq, Eq)]
pub struct Move {
    pub fact: usize,
    pub method: u32,
    pub cost: u32,
}

/// How a visit of a set ended.
#[derive(Clone, Copy, Debug, PartialEq, Eq)]
pub enum End {
    /// The set has a match.
    Goal,
    /// The settled set has no match.
    NoGoal,
    /// The firings that a run may have were spent before the set was settled.
    FiringsSpent,
    /// The units of the search were spent before the set was settled.
    UnitsSpent,
}

/// What a visit of a set found: how it ended, how many firings it made, and the moves from the set.
#[derive(Drop)]
pub struct Visit {
    pub end: End,
    pub fired: u64,
    pub moves: Vec<Move>,
}

/// Sets of numbered facts, as one mark for each fact, the moves between them, and which sets have a goal.
pub trait Space {
    /// how many facts there are
    ghost size: { Self → ℕ };

    /// the move is possible at the set
    ghost CanMove: { Self → List Bool → Move → Type 0 };

    /// the move gains something at the set: the search goes by such moves alone, and what it shows is said of walks of these
    ghost Gains: { Self → List Bool → Move → Type 0 };

    /// every settled run over the set has a match: what a rival shows, and a settled set without a match refutes
    ghost HasGoal: { Self → List Bool → Type 0 };

    /// some run over the set has a match: what a branch is read off
    ghost HasMatch: { Self → List Bool → Type 0 };

    /// some run along the path makes so many firings: a unit of a search is one of these, or a set
    ghost HasRun: { Self → List Move → ℕ → Type 0 };

    /// some run makes more firings than are allowed
    ghost HasLongRun: { Self → Type 0 };

    /// How many facts there are.
    fn facts(&self) -> usize
        ensures { result ≡ size self.now };

    /// Moves among which is each that is possible at some set.
    fn candidates(&self, alloc: Global) -> Result<Vec<Move>, NoMemory>
        ensures { IfOk result (λ moves. (set : List Bool) (move : Move) → CanMove self.now set move → Contains moves.items move) };

    /// Whether the move is possible at the set, to which the path leads from the empty set.
    fn is_open(&self, path: &[Move], set: &[bool], step: &Move) -> bool
        requires { IsWalk (CanMove self.now) (no_facts (size self.now)) path.now set.now }
        ensures { IsTrue result ↔ CanMove self.now set.now step.now };

    /// Goes along the path to the set, settles it with at most `room` firings, looks for a match, and lists the moves from
    /// the set that gain something and cost less than `below`; of the moves that add the same fact, one of least cost will do.
    /// The path leads from the empty set to `set`.
    fn visit(
        &mut self,
        path: &[Move],
        set: &[bool],
        room: u64,
        below: u64,
    ) -> Result<Visit, NoMemory>
        requires { IsWalk (CanMove self.old) (no_facts (size self.old)) path.now set.now }
        ensures back { OnOk result (self.new ≡ self.old) }
        ensures goal { IfOk result (λ visit. visit.end ≡ end.Goal → HasMatch self.old set.now) }
        ensures none { IfOk result (λ visit. visit.end ≡ end.NoGoal → HasGoal self.old set.now → ⊥) }
        ensures long { IfOk result (λ visit. visit.end ≡ end.FiringsSpent → HasLongRun self.old) }
        ensures room { IfOk result (λ visit. visit.fired ≤ room) }
        ensures spent { IfOk result (λ visit. visit.end ≡ end.UnitsSpent → visit.fired ≡ room) }
        ensures due { IfOk result (λ visit. visit.end ≡ end.UnitsSpent → HasRun self.old path.now (room + 1)) }
        ensures run { IfOk result (λ visit. HasRun self.old path.now visit.fired) }
        ensures possible { IfOk result (λ visit. (move : Move) → Contains visit.moves.items move → CanMove self.old set.now move) }
        ensures complete { IfOk result (λ visit. GoesOn visit.end → (move : Move) → CanMove self.old set.now move →
            Gains self.old set.now move → move.cost < below →
            (other : Move) × Contains visit.moves.items other × (other.fact ≡ move.fact) × (other.cost ≤ move.cost)) };

    ghost is_space: { (space : Self) → IsSpace (size space) (CanMove space) (HasRun space) };
}
