// Sets that walks have to leave, with a path that leads to each.
ghost use Rattle.std.specs.Prelude.{◌≡◌};
ghost use Rattle.std.specs.Result.{IfOk, OnOk};
ghost use Rattle.least_search.specs.Sides.{IsSide};

use crate::residues::Residue;
use crate::space::{Move, Space};
use lists::NoMemory;
use std::alloc::Global;

/// A set of facts, with a path of moves that leads to it from the empty set.
#[derive(Drop)]
pub(crate) struct Side {
    pub(crate) path: Vec<Move>,
    pub(crate) set: Vec<bool>,
}

impl Side {
    /// The empty set.
    pub(crate) fn empty<S: Space>(alloc: Global, space: &S) -> Result<Side, NoMemory>
        ensures { IfOk result (IsSide (S.size space.now) (S.CanMove space.now)) }
    {
        Ok(Side {
            path: Vec::new(alloc),
            set: vec![in alloc; false; space.facts()]?,
        })
    }

    /// The same set and path.
    pub(crate) fn copy(&self, alloc: Global) -> Result<Side, NoMemory>
        ensures path { IfOk result (λ side. side.path.items ≡ self.now.path.items) }
        ensures set { IfOk result (λ side. side.set.items ≡ self.now.set.items) }
    {
        Ok(Side {
            path: Vec::from_slice(alloc, self.path.as_slice())?,
            set: Vec::from_slice(alloc, self.set.as_slice())?,
        })
    }

    /// Adds the move's fact, where the move is possible.
    fn add<S: Space>(&mut self, space: &S, step: Move) -> Result<(), NoMemory>
        requires { IsSide (S.size space.now) (S.CanMove space.now) self.old }
        ensures { OnOk result (IsSide (S.size space.now) (S.CanMove space.now) self.new) }
    {
        if space.is_open(&self.path, &self.set, &step) {
            self.path.push(step)?;
            self.set[step.fact] = true;
        }
        Ok(())
    }

    /// Adds the facts of those of the moves that are possible.
    pub(crate) fn add_all<S: Space>(&mut self, space: &S, moves: &[Residue]) -> Result<(), NoMemory>
        requires { IsSide (S.size space.now) (S.CanMove space.now) self.old }
        ensures { OnOk result (IsSide (S.size space.now) (S.CanMove space.now) self.new) }
    {
        for residue in moves {
            self.add(space, residue.step)?;
        }
        Ok(())
    }

    /// Adds the facts of moves that are possible and of which nothing is left, until there are none.
    pub(crate) fn close<S: Space>(
        &mut self,
        space: &S,
        residues: &[Residue],
    ) -> Result<(), NoMemory>
        requires { IsSide (S.size space.now) (S.CanMove space.now) self.old }
        ensures { OnOk result (IsSide (S.size space.now) (S.CanMove space.now) self.new) }
    {
        for _ in residues {
            let before = self.path.len();
            self.add_spent(space, residues)?;
            if self.path.len() == before {
                return Ok(());
            }
        }
        Ok(())
    }

    /// Adds the facts of moves that are possible and of which nothing is left, in one pass.
    fn add_spent<S: Space>(&mut self, space: &S, residues: &[Residue]) -> Result<(), NoMemory>
        requires { IsSide (S.size space.now) (S.CanMove space.now) self.old }
        ensures { OnOk result (IsSide (S.size space.now) (S.CanMove space.now) self.new) }
    {
        for residue in residues {
            if residue.left == 0 {
                self.add(space, residue.step)?;
            }
        }
        Ok(())
    }
}
