// Paths of moves that share their beginnings.
ghost use Rattle.std.specs.Prelude.{◌≡◌, ◌<◌, ◌++◌, ◌∷◌, [], length, slice_index_or};
ghost use Rattle.std.specs.Result.{IfOk, OnOk};

use crate::space::Move;
use lists::NoMemory;
use std::alloc::Global;
use std::marker::Model;

/// One more move behind the path with that number.
#[derive(Clone, Copy, Debug)]
pub(crate) struct Step {
    before: usize,
    last: Move,
}

/// Paths by number. The first has no moves, and each other one goes on from an earlier one by a move.
#[derive(Drop)]
pub(crate) struct Paths {
    steps: Vec<Step>,
}

impl Model for Paths {
    ghost use Rattle.std.specs.Prelude.{List};
    ghost use Rattle.least_search.specs.declared.space.Move.{Move};
    ghost use Rattle.least_search.specs.Paths.{paths_of, GoOn};

    ghost Value = { List (List Move) };

    ghost view = { λ x. paths_of x.steps.items };

    ghost invariant = { λ x. GoOn 1 x.steps.items };
}

impl Paths {
    /// The path without moves. Takes no memory.
    pub(crate) fn new(alloc: Global) -> Paths
        ensures { result ≡ [] ∷ [] }
    {
        Paths {
            steps: Vec::new(alloc),
        }
    }

    /// Adds the path with that number and one move more, and gives its number.
    pub(crate) fn push(&mut self, before: usize, last: Move) -> Result<usize, NoMemory>
        requires { before < length self.old }
        ensures number { IfOk result (λ number. number ≡ length self.old) }
        ensures pushed { OnOk result (self.new ≡ self.old ++ (slice_index_or self.old before [] ++ last ∷ []) ∷ []) }
    {
        self.steps.push(Step { before, last })?;
        Ok(self.steps.len())
    }

    /// The path with that number.
    pub(crate) fn get(&self, alloc: Global, number: usize) -> Result<Vec<Move>, NoMemory>
        requires { number < length self.now }
        ensures { IfOk result (λ path. path.items ≡ slice_index_or self.now number []) }
    {
        let mut path = Vec::new(alloc);
        let mut place = number;
        while place > 0 {
            let Step { before, last } = self.steps[place - 1];
            path.push(last)?;
            place = before;
        }
        path.reverse();
        Ok(path)
    }
}
