// Sets of marks as few numbers, so that many are kept and found.
ghost use Rattle.std.specs.Prelude.{◌≡◌, ◌^◌, ◌%◌, List, Bool, Some, false, true, slice_get, slice_set};
ghost use Rattle.std.specs.Result.{IfOk};
ghost use Rattle.std.specs.Cmp.Lexicographic.{pointwise, lists_equiv, lists_per};
ghost use Rattle.std.specs.Cmp.Rules.{comparing, hashing};
ghost use Rattle.std.specs.Prelude.{nat_eq};
ghost use Rattle.std.specs.Hash as fed;
ghost use Rattle.std.proofs.Common.{rules};
ghost use Rattle.least_search.specs.Walks.{no_facts};
ghost use Rattle.least_search.specs.Packing.{packed};

use lists::NoMemory;
use std::alloc::Global;
use std::hash::{Hash, Hasher};
use std::marker::Model;

/// How many marks there are, and the marks as binary digits of numbers, 64 in each. The mark of a fact is changed in place.
#[derive(Drop)]
pub(crate) struct SetKey {
    words: Vec<u64>,
}

impl Model for SetKey {
    ghost use Rattle.std.specs.Prelude.{List, ℕ};

    ghost Value = { List ℕ };

    ghost view = { λ k. k.words.items };
}

impl PartialEq for SetKey {
    ghost eq = { pointwise nat_eq };

    ghost laws = { Prim.search (comparing, rules) };

    fn eq(&self, other: &SetKey) -> bool {
        self.words.as_slice() == other.words.as_slice()
    }
}

impl Eq for SetKey {
    ghost laws = { Prim.search (comparing, rules) };
}

impl Hash for SetKey {
    ghost hash_input = { fed.slice fed.u64 };

    ghost respects_eq = { Prim.search (hashing, rules) };

    fn hash<H: Hasher>(&self, state: &mut H) {
        self.words.as_slice().hash(state);
    }
}

impl SetKey {
    /// The key of the empty set of so many facts.
    pub(crate) fn empty(alloc: Global, facts: usize) -> Result<SetKey, NoMemory>
        ensures { IfOk result (λ key. key ≡ packed (no_facts facts)) }
    {
        let mut words = vec![in alloc; 0; facts / 64 + 2]?;
        words[0] = facts as u64;
        Ok(SetKey { words })
    }

    /// The same key.
    pub(crate) fn copy(&self, alloc: Global) -> Result<SetKey, NoMemory>
        ensures { IfOk result (λ key. key ≡ self.now) }
    {
        let words = Vec::from_slice(alloc, self.words.as_slice())?;
        Ok(SetKey { words })
    }

    /// Marks a fact that the set lacks. Takes no memory.
    pub(crate) fn mark(&mut self, fact: usize)
        requires { (set : List Bool) × (self.old ≡ packed set) × (slice_get set fact ≡ Some false) }
        ensures { (set : List Bool) → self.old ≡ packed set → self.new ≡ packed (slice_set set fact true) }
    {
        self.words[fact / 64 + 1] += digit(fact);
    }

    /// Takes the mark of a fact away. Takes no memory.
    pub(crate) fn unmark(&mut self, fact: usize)
        requires { (set : List Bool) × (self.old ≡ packed (slice_set set fact true)) × (slice_get set fact ≡ Some false) }
        ensures { (set : List Bool) → self.old ≡ packed (slice_set set fact true) → slice_get set fact ≡ Some false → self.new ≡ packed set }
    {
        self.words[fact / 64 + 1] -= digit(fact);
    }
}

/// The digit of the fact's mark in its number.
fn digit(fact: usize) -> u64
    ensures { result ≡ 2 ^ (fact % 64) }
{
    1 << (fact % 64) as u64
}
