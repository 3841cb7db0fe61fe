// What is left of the costs of moves, after they paid for cuts.
ghost use Rattle.std.specs.Prelude.{◌≤◌, []};
ghost use Rattle.std.specs.Result.{IfOk};
ghost use Rattle.std.specs.Option.{IfSome};
ghost use Rattle.least_search.specs.Sides.{IsSide, AreResidues, HaveLeft, HavePaid, LeastOf};

use crate::side::Side;
use crate::space::{Move, Space};
use lists::NoMemory;
use std::alloc::Global;

/// A move, and what is left of its cost.
#[derive(Clone, Copy, Debug)]
pub(crate) struct Residue {
    pub(crate) step: Move,
    pub(crate) left: u32,
}

/// Each move of the space that is possible at some set, with its whole cost.
pub(crate) fn whole_costs<S: Space>(alloc: Global, space: &S) -> Result<Vec<Residue>, NoMemory>
    ensures { IfOk result (λ residues. AreResidues (S.CanMove space.now) [] residues.items) }
{
    let moves = space.candidates(alloc)?;
    let mut residues = Vec::new(alloc);
    for step in &moves {
        residues.push(Residue {
            step: *step,
            left: step.cost,
        })?;
    }
    Ok(residues)
}

/// The least that is left of a move by which a walk can leave the set. None: there is no such move.
pub(crate) fn least_left<S: Space>(space: &S, side: &Side, residues: &[Residue]) -> Option<u32>
    requires { IsSide (S.size space.now) (S.CanMove space.now) side.now }
    ensures { LeastOf (S.CanMove space.now) side.now.set.items residues.now result }
{
    let mut least = None;
    for residue in residues {
        if space.is_open(&side.path, &side.set, &residue.step) {
            least = Some(lesser(least, residue.left));
        }
    }
    least
}

fn lesser(least: Option<u32>, left: u32) -> u32
    ensures left { result ≤ left }
    ensures least { IfSome least (λ low. result ≤ low) }
{
    match least {
        Some(low) => low.min(left),
        None => left,
    }
}

/// Each move by which a walk can leave the set pays the weight.
pub(crate) fn pay<S: Space>(space: &S, side: &Side, residues: &mut [Residue], weight: u32)
    requires side { IsSide (S.size space.now) (S.CanMove space.now) side.now }
    requires left { HaveLeft (S.CanMove space.now) side.now.set.items residues.old weight }
    ensures { HavePaid (S.CanMove space.now) side.now.set.items weight residues.old residues.new }
{
    for residue in residues.iter_mut() {
        if space.is_open(&side.path, &side.set, &residue.step) {
            residue.left -= weight;
        }
    }
}
