// How a set without a goal is grown, such that few moves leave it.
ghost use Rattle.std.specs.Prelude.{◌≡◌, ◌<◌, true};
ghost use Rattle.std.specs.Result.{IfOk, OnOk};
ghost use Rattle.std.specs.Option.{IfSome};
ghost use Rattle.least_search.specs.Sides.{IsSide, IsNearSide};

use crate::residues::Residue;
use crate::side::Side;
use crate::space::{End, Space};
use lists::NoMemory;
use std::alloc::Global;

/// How many visits may still be made, and how many firings in all of them. Once a visit wants more firings, no more visits are made.
#[derive(Clone, Copy, Debug)]
pub(crate) struct Visits {
    pub(crate) left: u64,
    pub(crate) firings: u64,
}

/// How many firings may be made for each visit that may be made, on average.
const FIRINGS_A_VISIT: u64 = 16;

impl Visits {
    /// So many visits, and `FIRINGS_A_VISIT` firings for each.
    pub(crate) fn of(room: u64) -> Visits {
        Visits {
            left: room,
            firings: room.saturating_mul(FIRINGS_A_VISIT),
        }
    }
}

/// A set that was seen to have no goal, grown by facts with which it has none, as far as the visits go. None: the facts of moves of which
/// nothing is left were not seen to have no goal.
pub(crate) fn near_side<S: Space>(
    alloc: Global,
    space: &mut S,
    residues: &[Residue],
    visits: &mut Visits,
) -> Result<Option<Side>, NoMemory>
    ensures back { OnOk result (space.new ≡ space.old) }
    ensures side { IfOk result (λ found. IfSome found (IsNearSide (S.size space.old) (S.CanMove space.old) (S.HasGoal space.old))) }
{
    let empty = Side::empty(alloc, space)?;
    let Some(mut side) = larger(alloc, space, &empty, &[], residues, visits)? else {
        return Ok(None);
    };
    let mut refused = vec![in alloc; false; space.facts()]?;
    for _ in residues {
        if visits.left == 0 {
            return Ok(Some(side));
        }
        let batch = open_moves(alloc, space, &side, residues, refused.as_slice())?;
        if batch.is_empty() {
            return Ok(Some(side));
        }
        grow(
            alloc,
            space,
            &mut side,
            batch,
            residues,
            &mut refused,
            visits,
        )?;
    }
    Ok(Some(side))
}

/// A move for each fact that one adds to the set and that was not refused, those with the least left first.
fn open_moves<S: Space>(
    alloc: Global,
    space: &S,
    side: &Side,
    residues: &[Residue],
    refused: &[bool],
) -> Result<Vec<Residue>, NoMemory>
    requires { IsSide (S.size space.now) (S.CanMove space.now) side.now }
{
    let mut passed = Vec::from_slice(alloc, refused)?;
    let mut moves = Vec::new(alloc);
    for residue in residues {
        let fact = residue.step.fact;
        if !is_marked(&passed, fact) && space.is_open(&side.path, &side.set, &residue.step) {
            mark(&mut passed, fact);
            moves.push(*residue)?;
        }
    }
    moves.sort_unstable_by_key(|residue| residue.left);
    Ok(moves)
}

/// Moves whose facts are tried together, and whether they are the first half of moves that gave a goal.
#[derive(Drop)]
struct Batch {
    moves: Vec<Residue>,
    is_first: bool,
}

/// Adds the facts of the moves by halves: all of them where the set then has no goal, else those of each half in turn. A fact that gives a
/// goal alone is refused.
fn grow<S: Space>(
    alloc: Global,
    space: &mut S,
    side: &mut Side,
    moves: Vec<Residue>,
    residues: &[Residue],
    refused: &mut Vec<bool>,
    visits: &mut Visits,
) -> Result<(), NoMemory>
    requires { IsNearSide (S.size space.old) (S.CanMove space.old) (S.HasGoal space.old) side.old }
    ensures back { OnOk result (space.new ≡ space.old) }
    ensures side { OnOk result (IsNearSide (S.size space.old) (S.CanMove space.old) (S.HasGoal space.old) side.new) }
{
    let mut batches = Vec::new(alloc);
    batches.push(Batch {
        moves,
        is_first: false,
    })?;
    while visits.left > 0 {
        let Some(batch) = batches.pop() else {
            return Ok(());
        };
        match larger(alloc, space, side, batch.moves.as_slice(), residues, visits)? {
            Some(grown) => {
                *side = grown;
                halve_other(batch.is_first, &mut batches, refused)?;
            }
            None => halve(batch.moves, &mut batches, refused)?,
        }
    }
    Ok(())
}

/// Halves the second half once the first was added: it would give the goal that both gave together.
fn halve_other(
    is_first: bool,
    batches: &mut Vec<Batch>,
    refused: &mut Vec<bool>,
) -> Result<(), NoMemory> {
    if !is_first {
        return Ok(());
    }
    let Some(second) = batches.pop() else {
        return Ok(());
    };
    halve(second.moves, batches, refused)
}

/// Puts the halves of moves that gave a goal back, the first on top. The fact of a move alone is refused.
fn halve(
    mut moves: Vec<Residue>,
    batches: &mut Vec<Batch>,
    refused: &mut Vec<bool>,
) -> Result<(), NoMemory> {
    if let [alone] = moves.as_slice() {
        mark(refused, alone.step.fact);
        return Ok(());
    }
    let second = moves.split_off(moves.len() / 2)?;
    batches.push(Batch {
        moves: second,
        is_first: false,
    })?;
    batches.push(Batch {
        moves,
        is_first: true,
    })?;
    Ok(())
}

/// The set with the facts of the batch, closed under moves of which nothing is left, where a visit sees that it has no goal.
fn larger<S: Space>(
    alloc: Global,
    space: &mut S,
    side: &Side,
    batch: &[Residue],
    residues: &[Residue],
    visits: &mut Visits,
) -> Result<Option<Side>, NoMemory>
    requires { IsSide (S.size space.old) (S.CanMove space.old) side.now }
    ensures back { OnOk result (space.new ≡ space.old) }
    ensures side { IfOk result (λ found. IfSome found (IsNearSide (S.size space.old) (S.CanMove space.old) (S.HasGoal space.old))) }
    ensures fewer { OnOk result (0 < visits.old.left → visits.new.left < visits.old.left) }
{
    let mut grown = side.copy(alloc)?;
    grown.add_all(space, batch)?;
    grown.close(space, residues)?;
    if lacks_goal(space, &grown, visits)? {
        Ok(Some(grown))
    } else {
        Ok(None)
    }
}

/// Whether a visit sees that the set has no goal.
fn lacks_goal<S: Space>(space: &mut S, side: &Side, visits: &mut Visits) -> Result<bool, NoMemory>
    requires { IsSide (S.size space.old) (S.CanMove space.old) side.now }
    ensures back { OnOk result (space.new ≡ space.old) }
    ensures none { IfOk result (λ lacks. lacks ≡ true → S.HasGoal space.old side.now.set.items → ⊥) }
    ensures fewer { OnOk result (0 < visits.old.left → visits.new.left < visits.old.left) }
{
    if visits.left == 0 {
        return Ok(false);
    }
    visits.left -= 1;
    let visit = space.visit(&side.path, &side.set, visits.firings, 0)?;
    visits.firings -= visit.fired;
    if matches!(visit.end, End::UnitsSpent) {
        visits.left = 0;
    }
    Ok(matches!(visit.end, End::NoGoal))
}

fn is_marked(marks: &[bool], place: usize) -> bool {
    place < marks.len() && marks[place]
}

fn mark(marks: &mut [bool], place: usize) {
    if place < marks.len() {
        marks[place] = true;
    }
}
