// What a search knows of sets.
ghost use Rattle.std.specs.Prelude.{◌≡◌, ℕ, List, Some, None};
ghost use Rattle.std.specs.Result.{OnOk};
ghost use Rattle.least_search.specs.Table.{seen_at};

use crate::set_key::SetKey;
use lists::NoMemory;
use std::alloc::Global;
use std::collections::HashMap;

/// What is known of a set.
#[derive(Clone, Copy, Debug, PartialEq, Eq)]
pub(crate) enum Seen {
    /// It was looked at.
    Looked,
    /// A path to it waits that costs at most so much.
    Waits { cost: u64 },
}

/// What is known of each set, by its key.
#[derive(Drop)]
pub(crate) struct SetTable {
    seen: HashMap<SetKey, Seen>,
}

impl SetTable {
    /// Nothing is known. Takes no memory.
    pub(crate) fn new(alloc: Global) -> SetTable
        ensures { (key : List ℕ) → seen_at result key ≡ None }
    {
        SetTable {
            seen: HashMap::new(alloc),
        }
    }

    /// What is known of the set with that key. Takes no memory.
    pub(crate) fn get(&self, key: &SetKey) -> Option<Seen>
        ensures { result ≡ seen_at self.now key.now }
    {
        self.seen.get(key).copied()
    }

    /// Sets what is known of the set with that key alone.
    pub(crate) fn put(&mut self, key: SetKey, seen: Seen) -> Result<(), NoMemory>
        ensures here { OnOk result (seen_at self.new key ≡ Some seen) }
        ensures others { OnOk result ((other : List ℕ) → (other ≡ key → ⊥) → seen_at self.new other ≡ seen_at self.old other) }
    {
        self.seen.insert(key, seen)?;
        Ok(())
    }
}
