// A path of states over a slab.
ghost use Rattle.std.specs.Prelude.{◌≡◌, ◌≤◌, ◌-◌, ◌++◌, ◌∷◌, [], OnOk, OnErr, length, take, slice_get, option_copied};

use lists::NoMemory;
use slab::Slab;
use std::alloc::Global;
use std::marker::Model;

/// What a state adds to the one that it grew out of, its parent. The first state of a path has none.
#[derive(Drop)]
pub(crate) struct Delta<T> {
    parent: Option<usize>,
    added: T,
}

/// The states from the first one to the present one. Contracts see what they add, in order.
#[derive(Drop)]
pub struct StatePath<T> {
    states: Slab<Delta<T>>,
    keys: Vec<usize>,
}

impl<T> Model for StatePath<T> {
    ghost use Rattle.std.specs.Prelude.{List, None};
    ghost use Rattle.state_path.specs.Paths.{added_along, IsPathFrom};

    ghost Value = { List T };

    ghost view = { λ path. added_along path.states path.keys.items };

    ghost invariant = { λ path. IsPathFrom path.states None path.keys.items };
}

impl<T> StatePath<T> {
    /// The path without states. Takes no memory.
    pub fn new(alloc: Global) -> StatePath<T>
        ensures { result ≡ [] }
    {
        StatePath {
            states: Slab::new(alloc),
            keys: Vec::new(alloc),
        }
    }

    /// How many states there are. Takes no memory.
    pub fn len(&self) -> usize
        ensures { result ≡ length self.now }
    {
        self.keys.as_slice().len()
    }

    /// What the state with this number adds, counted from 0. Takes no memory.
    pub fn get(&self, number: usize) -> Option<&T>
        ensures { option_copied result ≡ slice_get self.now number }
    {
        match self.keys.get(number) {
            Some(key) => match self.states.get(*key) {
                Some(delta) => Some(&delta.added),
                None => None,
            },
            None => None,
        }
    }
}

impl<T: Drop> StatePath<T> {
    /// Goes on to a state that adds this to the present one. Where memory is refused, the path stays.
    pub fn push(&mut self, added: T) -> Result<(), NoMemory>
        ensures pushed { OnOk result (self.new ≡ self.old ++ added ∷ []) }
        ensures refused { OnErr result (self.new ≡ self.old) }
    {
        let parent = self.keys.last().copied();
        self.keys.reserve(1)?;
        let key = self.states.insert(Delta { parent, added })?;
        self.keys.push_reserved(key);
        Ok(())
    }

    /// Goes back to the state before the present one, if there is one. Takes no memory.
    pub fn pop(&mut self)
        ensures { self.new ≡ take (length self.old - 1) self.old }
    {
        if let Some(key) = self.keys.pop() {
            drop(self.states.try_remove(key));
        }
    }

    /// Goes back to the state after which there were `count` states, if there are more. Takes no memory.
    pub fn truncate(&mut self, count: usize)
        ensures { self.new ≡ take count self.old }
    {
        for _ in count..self.len() {
            self.pop();
        }
    }
}
