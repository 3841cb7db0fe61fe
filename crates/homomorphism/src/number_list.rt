// Numbers in order.
ghost use Rattle.std.specs.Prelude.{◌≡◌, ℕ, List, [], ◌∷◌, ◌++◌, Contains, OnErr, OnOk};

use lists::NoMemory;
use std::alloc::Global;
use std::marker::Model;

/// Numbers in order.
#[derive(Drop)]
pub struct NumberList {
    members: Vec<usize>,
}

impl Model for NumberList {
    ghost use Rattle.std.specs.Prelude.{List, ℕ};

    ghost Value = { List ℕ };

    ghost view = { λ n. n.members.items };
}

impl NumberList {
    /// No numbers. Takes no memory.
    pub fn new(alloc: Global) -> NumberList
        ensures { result ≡ [] }
    {
        NumberList {
            members: Vec::new(alloc),
        }
    }

    /// The numbers, lent. Takes no memory.
    pub fn as_slice(&self) -> &[usize]
        ensures { result.now ≡ self.now }
    {
        self.members.as_slice()
    }

    /// Adds a number to the end; where memory is refused, nothing changes.
    pub fn push(&mut self, number: usize) -> Result<(), NoMemory>
        ensures ok { OnOk result (self.new ≡ self.old ++ number ∷ []) }
        ensures err { OnErr result (self.new ≡ self.old) }
    {
        self.members.push(number)?;
        Ok(())
    }

    /// Drops the last number, if it is this one. Takes no memory.
    pub fn drop_last_if(&mut self, number: usize)
        ensures there { (before : List ℕ) → self.old ≡ before ++ number ∷ [] → self.new ≡ before }
        ensures not_there { (Contains self.old number → ⊥) → self.new ≡ self.old }
    {
        let mut is_last = false;
        if let [.., last] = self.members.as_slice() {
            is_last = *last == number;
        }
        if is_last {
            self.members.pop();
        }
    }
}
